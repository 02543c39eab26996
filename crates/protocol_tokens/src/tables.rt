// Tables of words.
ghost use Rattle.std.specs.Prelude.{◌≡◌, map};
ghost use Rattle.std.specs.Str.{bytes_eq};
ghost use Rattle.std.specs.Map.{lookup};

/// The value beside a word in the first row of a table that has it. None if no row has it.
pub fn named<T: Copy>(rows: &[(&'static [u8], T)], word: &[u8]) -> Option<T>
    ensures { result ≡ lookup (bytes_eq word.now) (map (λ row. (row.0.now, row.1)) rows.now) }
{
    let mut rest = rows;
    while let [(name, meaning), others @ ..] = rest {
        if word == *name {
            return Some(*meaning);
        }
        rest = others;
    }
    None
}
