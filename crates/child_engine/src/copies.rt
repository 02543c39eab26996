// Copies of texts.
ghost use Rattle.std.specs.Prelude.{◌≡◌, map, string_bytes, IfOk};

use line_io::NoMemory;
use std::alloc::Global;

/// A copy of a text.
pub(crate) fn copy_of(alloc: Global, text: &str) -> Result<String, NoMemory>
    ensures { IfOk result (λ s. string_bytes s ≡ text.now) }
{
    Ok(String::from_str(alloc, text)?)
}

/// Copies of arguments.
pub(crate) fn copies_of(alloc: Global, arguments: &[String]) -> Result<Vec<String>, NoMemory>
    ensures { IfOk result (λ v. map string_bytes v.items ≡ map string_bytes arguments.now) }
{
    let mut copies: Vec<String> = Vec::new(alloc);
    for argument in arguments {
        let copy = copy_of(alloc, argument.as_str())?;
        if copies.push(copy).is_err() {
            return Err(NoMemory);
        }
    }
    Ok(copies)
}
