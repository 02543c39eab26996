// Files in memory, by their names.
ghost use Rattle.std.specs.Prelude.{◌≡◌, [], true, map, string_bytes, IfOk, OnOk, OnErr};
ghost use Rattle.child_engine.specs.Memory.{disk_of};
ghost use Rattle.child_engine.specs.Places.{MakesLogAt, and_name, is_there, asked_place};

use crate::copies::copy_of;
use crate::new_files::make_log;
use crate::{HostFault, LogPlace, NewFiles};
use line_io::NoMemory;
use std::alloc::Global;

/// The names of the files and the folders that a host in memory has.
#[derive(Drop)]
pub(crate) struct MemFiles {
    pub(crate) files: Vec<String>,
    pub(crate) folders: Vec<String>,
}

impl MemFiles {
    /// Nothing is there.
    pub(crate) fn new(alloc: Global) -> MemFiles
        ensures files { result.files.items ≡ [] }
        ensures folders { result.folders.items ≡ [] }
    {
        MemFiles {
            files: Vec::new(alloc),
            folders: Vec::new(alloc),
        }
    }
}

// True if the name is among these.
fn is_there(name: &str, names: &[String]) -> bool
    ensures { result ≡ is_there name.now (map string_bytes names.now) }
{
    for other in names {
        if name == other.as_str() {
            return true;
        }
    }
    false
}

/// Adds a name that is not among these, and reports whether it is new.
pub(crate) fn put_name(name: String, names: &mut Vec<String>) -> Result<bool, NoMemory>
    ensures names { OnOk result (map string_bytes names.new.items
        ≡ and_name (string_bytes name) (map string_bytes names.old.items)) }
    ensures same { OnErr result (names.new.items ≡ names.old.items) }
{
    if is_there(name.as_str(), names.as_slice()) {
        return Ok(false);
    }
    if names.push(name).is_err() {
        return Err(NoMemory);
    }
    Ok(true)
}

/// Makes the file of a log, and reports whether there was one to make.
pub(crate) fn make_file(
    alloc: Global,
    place: &LogPlace,
    disk: &mut MemFiles,
) -> Result<bool, NoMemory>
    ensures { IfOk result (λ made. made ≡ true
        → MakesLogAt (asked_place place.now) (disk_of disk.old) (disk_of disk.new)) }
{
    match place {
        LogPlace::File(name) => {
            put_name(copy_of(alloc, name)?, &mut disk.files)?;
            Ok(true)
        }
        LogPlace::New(log) => match make_log(alloc, log, disk) {
            Ok(()) => Ok(true),
            Err(HostFault::Failed) => Ok(false),
            Err(HostFault::NoMemory) => Err(NoMemory),
        },
    }
}

impl NewFiles for MemFiles {
    ghost use Rattle.std.specs.Prelude.{Some};
    ghost use Rattle.child_engine.specs.Memory.{disk_of};

    type File = ();

    ghost disk = { λ f. Some (disk_of f) };

    fn make_folder(&mut self, name: String) -> Result<(), NoMemory> {
        put_name(name, &mut self.folders)?;
        Ok(())
    }

    fn make_file(&mut self, name: String) -> Result<Option<()>, HostFault> {
        if is_there(name.as_str(), self.files.as_slice()) {
            return Ok(None);
        }
        put_name(name, &mut self.files)?;
        Ok(Some(()))
    }
}
