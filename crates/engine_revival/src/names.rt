// The names of options.
ghost use Rattle.std.specs.Prelude.{◌≡◌, ◌∷◌, ◌<◌, [], length, MatchOption, IfSome};
ghost use Rattle.protocol_tokens.specs.Tokens.{tokens};
ghost use Rattle.engine_revival.specs.Orders.{are_same_names, in_lowercase, option_name_in, words_before_value};

use protocol_tokens::next_token;

// The next word of a name, and what follows it. None at `value`, and at the end.
fn next_word(text: &[u8]) -> Option<(&[u8], &[u8])>
    ensures word { MatchOption result (words_before_value (tokens text.now) ≡ [])
        (λ p. words_before_value (tokens text.now)
        ≡ in_lowercase p.0.now ∷ words_before_value (tokens p.1.now)) }
    ensures shorter { IfSome result (λ p. length p.1.now < length text.now) }
{
    let (word, behind) = next_token(text)?;
    if word == b"value".as_slice() {
        None
    } else {
        Some((word, behind))
    }
}

fn have_same_words(a: &[u8], b: &[u8]) -> bool
    ensures { result ≡ are_same_names (words_before_value (tokens a.now))
        (words_before_value (tokens b.now)) }
{
    let mut left = a;
    let mut right = b;
    while let Some((word, behind)) = next_word(left) {
        let Some((other, others)) = next_word(right) else {
            return false;
        };
        if !word.eq_ignore_ascii_case(other) {
            return false;
        }
        left = behind;
        right = others;
    }
    next_word(right).is_none()
}

/// True if the names with which two texts begin have the same words, case ignored.
pub(crate) fn have_same_name(a: &[u8], b: &[u8]) -> bool
    ensures { result ≡ are_same_names (option_name_in (tokens a.now)) (option_name_in (tokens
        b.now)) }
{
    match (next_token(a), next_token(b)) {
        (Some((word, behind)), Some((other, others))) => {
            word.eq_ignore_ascii_case(other) && have_same_words(behind, others)
        }
        (None, None) => true,
        _ => false,
    }
}
