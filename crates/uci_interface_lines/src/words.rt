// The tokens of a line.
ghost use Rattle.std.specs.Prelude.{◌≡◌, ◌∷◌, ◌<◌, [], length, drop, true, MatchOption, IfSome, codes};
ghost use Rattle.std.specs.List.{before_first};
ghost use Rattle.std.specs.Option.{option_map};
ghost use Rattle.protocol_tokens.specs.Tokens.{tokens, is_white, token_end};
ghost use Rattle.uci_lines.specs.Cuts.{found_token};
ghost use Rattle.uci_interface_lines.specs.Lines.{before_moves, behind_moves, is_moves_token, sides};

use protocol_tokens::{is_white, next_token, split_at_white, trim};

/// The rest behind the first token.
pub(crate) fn behind_first(line: &[u8]) -> &[u8]
    ensures { tokens result.now ≡ drop 1 (tokens line.now) }
{
    match next_token(line) {
        Some((_, others)) => others,
        None => line,
    }
}

/// The texts before and after the first token `moves`.
fn find_moves(text: &[u8]) -> Option<(&[u8], &[u8])>
    ensures { option_map (λ p. (p.0.now, p.1.now)) result
        ≡ option_map sides (found_token is_moves_token true text.now) }
{
    let mut is_fresh = true;
    for (i, byte) in text.iter().enumerate() {
        if is_fresh {
            let (word, after) = split_at_white(&text[i..]);
            if word == b"moves".as_slice() {
                return Some((&text[..i], after));
            }
        }
        is_fresh = is_white(*byte);
    }
    None
}

/// The text before the first token `moves`, and the text behind it, trimmed; all and nothing if there is
/// none.
pub(crate) fn split_at_moves(text: &[u8]) -> (&[u8], &[u8])
    ensures before { tokens result.0.now ≡ before_moves (tokens text.now) }
    ensures behind { tokens result.1.now ≡ behind_moves (tokens text.now) }
{
    match find_moves(text) {
        Some((before, after)) => (before, trim(after)),
        None => (text, &[]),
    }
}
