// The arguments after a program's name.
ghost use Rattle.std.specs.Prelude.{◌≡◌, ◌+◌, ◌≤◌, IfOk};
ghost use Rattle.program_command_line.specs.Arguments.Room.{arguments_room};

use std::alloc::{AllocError, Global};
use std::env::{Env, FillError};

/// The room for the arguments of a program that hands them on to another one, and so keeps each of
/// them three times: 1 MiB.
pub const ARGUMENTS_ROOM: usize = 1_048_576;

/// The room that an argument takes beside its bytes.
pub const ARGUMENT_ROOM: usize = 64;

// Most arguments fit in so many bytes.
const USUAL_ROOM: usize = 256;

// The word at this place, if there is one.
fn argument_at<R: Env>(rt: &R, alloc: Global, place: usize) -> Result<Option<Vec<u8>>, AllocError> {
    let mut room = USUAL_ROOM;
    for _ in 0..usize::BITS {
        let mut text = vec![in alloc; 0; room]?;
        match rt.arg(place, text.as_mut_slice()) {
            Ok(len) => {
                text.truncate(len);
                // the copy takes no more room than the word
                let argument = text.clone()?;
                return Ok(Some(argument));
            }
            Err(FillError::NotPresent) => return Ok(None),
            Err(FillError::TooLong) => room = room.saturating_add(room),
        }
    }
    Err(AllocError)
}

// Puts a word at the end, if the room that is left holds it, and reports what is left then.
fn put_argument(
    argument: Vec<u8>,
    left: usize,
    arguments: &mut Vec<Vec<u8>>,
) -> Result<usize, AllocError>
    ensures { IfOk result (λ rest. arguments_room arguments.new.items + rest
        ≡ arguments_room arguments.old.items + left) }
{
    let left = left.checked_sub(ARGUMENT_ROOM).ok_or(AllocError)?;
    let left = left.checked_sub(argument.len()).ok_or(AllocError)?;
    arguments.push(argument)?;
    Ok(left)
}

/// The arguments after the program's name, of any bytes. The system reports nothing of them that a
/// contract could say. More of them than the room holds are out of memory.
pub fn arguments_of<R: Env>(rt: &R, alloc: Global, room: usize) -> Result<Vec<Vec<u8>>, AllocError>
    ensures room { IfOk result (λ arguments. arguments_room arguments.items ≤ room) }
{
    let mut arguments: Vec<Vec<u8>> = Vec::new(alloc);
    let mut left = room;
    for place in 1..usize::MAX {
        match argument_at(rt, alloc, place)? {
            Some(argument) => left = put_argument(argument, left, &mut arguments)?,
            None => break,
        }
    }
    Ok(arguments)
}
