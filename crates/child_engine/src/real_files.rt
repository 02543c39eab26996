// Real files of logs. What std makes it says in no contract, so the calls of it here are to be read.
use crate::new_files::make_log;
use crate::real::fault_of;
use crate::{HostFault, LogPlace, NewFiles};
use line_io::NoMemory;
use std::alloc::Global;
use std::fs;
use std::fs::{File, Files, OpenOptions};
use std::io::ErrorKind;

// The files and folders of the system.
#[derive(Drop)]
struct RealFiles<'r, R> {
    rt: &'r R,
}

impl<'r, R: Files<File = File>> NewFiles for RealFiles<'r, R> {
    ghost use Rattle.std.specs.Prelude.{None};

    type File = File;

    ghost disk = { λ _. None };

    fn make_folder(&mut self, name: String) -> Result<(), NoMemory> {
        let _ = fs::create_dir(self.rt, name.as_str());
        Ok(())
    }

    fn make_file(&mut self, name: String) -> Result<Option<File>, HostFault> {
        let opened = OpenOptions::new()
            .write(true)
            .create_new(true)
            .open(self.rt, name.as_str());
        match opened {
            Ok(file) => Ok(Some(file)),
            Err(error) => match error.kind() {
                ErrorKind::AlreadyExists => Ok(None),
                _ => Err(fault_of(error)),
            },
        }
    }
}

/// Makes the file of a log.
pub(crate) fn log_file<R: Files<File = File>>(
    rt: &R,
    alloc: Global,
    place: &LogPlace,
) -> Result<File, HostFault> {
    match place {
        LogPlace::File(name) => match fs::create(rt, *name) {
            Ok(file) => Ok(file),
            Err(error) => Err(fault_of(error)),
        },
        LogPlace::New(log) => make_log(alloc, log, &mut RealFiles { rt }),
    }
}
