// The kind of a search.
ghost use Rattle.std.specs.Prelude.{◌≡◌};
ghost use Rattle.protocol_tokens.specs.Tokens.{tokens};
ghost use Rattle.uci_interface_lines.specs.Kinds.{has_token_word, kind_asked};

use protocol_tokens::{GoKind, next_token};

/// True if a word is among the tokens of a line.
fn has_word(word: &[u8], line: &[u8]) -> bool
    ensures { result ≡ has_token_word word.now (tokens line.now) }
{
    let mut others = line;
    while let Some((token, behind)) = next_token(others) {
        if token == word {
            return true;
        }
        others = behind;
    }
    false
}

/// The kind of search of a `go`: to ponder if it has the token `ponder`, else without end if it has the token
/// `infinite`, else for a move.
pub fn go_kind(line: &[u8]) -> GoKind
    ensures { result ≡ kind_asked line.now }
{
    if has_word(b"ponder", line) {
        GoKind::Ponder
    } else if has_word(b"infinite", line) {
        GoKind::Analyse
    } else {
        GoKind::Move
    }
}
