// The places of logs.
ghost use Rattle.std.specs.Prelude.{◌≡◌, IfOk};
ghost use Rattle.child_engine.specs.Memory.{kept_place};
ghost use Rattle.child_engine.specs.Places.{asked_place};

use crate::copies::copy_of;
use line_io::NoMemory;
use std::alloc::Global;

/// The number of names that a new log may have.
pub const MOST_NEW_LOGS: u16 = 999;

/// The place where a log is to be made.
#[derive(Clone, Copy)]
pub enum LogPlace<'a> {
    /// The file of this name, made anew: what it had is lost.
    File(&'a str),
    /// A new file in the folder, which is made if it is not there.
    New(NewLog<'a>),
}

/// The folder of a new log, and the name that the log has there before its number.
#[derive(Clone, Copy)]
pub struct NewLog<'a> {
    pub folder: &'a str,
    pub name: &'a str,
}

/// The place of a log that a host was asked for.
#[derive(Drop)]
pub enum AskedLog {
    File(String),
    New { folder: String, name: String },
}

/// The place, to be kept.
pub(crate) fn kept_place(alloc: Global, place: &LogPlace) -> Result<AskedLog, NoMemory>
    ensures { IfOk result (λ kept. kept_place kept ≡ asked_place place.now) }
{
    match place {
        LogPlace::File(name) => Ok(AskedLog::File(copy_of(alloc, name)?)),
        LogPlace::New(log) => Ok(AskedLog::New {
            folder: copy_of(alloc, log.folder)?,
            name: copy_of(alloc, log.name)?,
        }),
    }
}
