// Files that are made new.
ghost use Rattle.std.specs.Prelude.{◌≡◌, ◌++◌, ◌<◌, ◌≤◌, string_bytes, IfOk, OnOk};
ghost use Rattle.child_engine.specs.Places.{MakesLog, log_number, numbered_log};

use crate::copies::copy_of;
use crate::{HostFault, MOST_NEW_LOGS, NewLog};
use itoa::Buffer;
use line_io::NoMemory;
use std::alloc::Global;

/// Makes folders, and files that are new.
pub trait NewFiles {
    ghost use Rattle.std.specs.Prelude.{◌≡◌, Option, option_map, string_bytes, OnOk};
    ghost use Rattle.child_engine.specs.Places.{Disk, MakesFile, with_folder};

    type File: Drop;

    /// The files and folders that are there, if they are known.
    ghost disk: { Self → Option Disk };

    /// Makes this folder, if nothing of its name is there. A failure shows when a file is to be
    /// made in it.
    fn make_folder(&mut self, name: String) -> Result<(), NoMemory>
        ensures { OnOk result (disk self.new
            ≡ option_map (with_folder (string_bytes name)) (disk self.old)) };

    /// Makes a file of this name. There is none if one was there already.
    fn make_file(&mut self, name: String) -> Result<Option<Self::File>, HostFault>
        ensures { MakesFile (string_bytes name) (disk self.old) (disk self.new) result };
}

// Puts what stands behind the name of the log that has this number.
fn put_number(number: u16, name: &mut String) -> Result<(), NoMemory>
    requires { 0 < number }
    ensures { OnOk result (string_bytes name.new ≡ string_bytes name.old ++ log_number number) }
{
    if number == 1 {
        return Ok(());
    }
    name.push_str("-")?;
    name.push_str(Buffer::new().format(number))?;
    Ok(())
}

// The name of the file of the log that has this number.
fn numbered_log(alloc: Global, log: &NewLog, number: u16) -> Result<String, NoMemory>
    requires { 0 < number }
    ensures { IfOk result (λ name. string_bytes name
        ≡ numbered_log log.now.folder.now log.now.name.now number) }
{
    let mut name = String::from_str(alloc, log.folder)?;
    name.push_str("/")?;
    name.push_str(log.name)?;
    put_number(number, &mut name)?;
    name.push_str(".log")?;
    Ok(name)
}

/// Makes the folder of a new log if it is not there, and in it the first file that is not there of
/// those that the log may be.
pub(crate) fn make_log<F: NewFiles>(
    alloc: Global,
    log: &NewLog,
    files: &mut F,
) -> Result<F::File, HostFault>
    ensures { OnOk result (MakesLog log.now.folder.now log.now.name.now (F.disk files.old)
        (F.disk files.new)) }
{
    files.make_folder(copy_of(alloc, log.folder)?)?;
    for number in 1..=MOST_NEW_LOGS {
        let name = numbered_log(alloc, log, number)?;
        if let Some(file) = files.make_file(name)? {
            return Ok(file);
        }
    }
    Err(HostFault::Failed)
}
