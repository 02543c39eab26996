// White space, tokens and rests.
ghost use Rattle.std.specs.Prelude.{◌≡◌, ◌≤◌, ◌+◌, ◌<◌, ◌∷◌, [], length, drop, position, MatchOption, IfSome};
ghost use Rattle.std.specs.List.{before_first};
ghost use Rattle.protocol_tokens.specs.Tokens.{is_white, trim_left, trim_right, trimmed, token_end, first_token, rest_after_token, tokens};

/// Blank, tab or CR.
pub fn is_white(byte: u8) -> bool
    ensures { result ≡ is_white byte }
{
    byte == b' ' || byte == b'\t' || byte == b'\r'
}

/// The text without the white space at its start.
pub fn trim_start(text: &[u8]) -> &[u8]
    ensures { result.now ≡ trim_left text.now }
{
    let mut rest = text;
    while let [first, others @ ..] = rest {
        if !is_white(*first) {
            break;
        }
        rest = others;
    }
    rest
}

/// The text without the white space at its end.
pub fn trim_end(text: &[u8]) -> &[u8]
    ensures { result.now ≡ trim_right text.now }
{
    let mut rest = text;
    while let [others @ .., last] = rest {
        if !is_white(*last) {
            break;
        }
        rest = others;
    }
    rest
}

/// The text without the white space at both ends.
pub fn trim(text: &[u8]) -> &[u8]
    ensures { result.now ≡ trimmed text.now }
{
    trim_end(trim_start(text))
}

fn white_at(text: &[u8]) -> Option<usize>
    ensures { result ≡ position is_white text.now }
{
    text.iter().position(|b| is_white(*b))
}

/// The text before the first white space, and the text that begins with it; all and nothing if there is
/// none.
pub fn split_at_white(text: &[u8]) -> (&[u8], &[u8])
    ensures token { result.0.now ≡ before_first is_white text.now }
    ensures rest { result.1.now ≡ drop (token_end text.now) text.now }
{
    match white_at(text) {
        Some(at) => text.split_at(at),
        None => (text, &[]),
    }
}

/// The first token of a line, empty if there is none, and the trimmed rest after it.
pub fn split_token(line: &[u8]) -> (&[u8], &[u8])
    ensures token { result.0.now ≡ first_token line.now }
    ensures rest { result.1.now ≡ rest_after_token line.now }
{
    let (token, after) = split_at_white(trim_start(line));
    (token, trim(after))
}

/// The first token of a text, and the trimmed rest after it. None if the text is blank.
pub fn next_token(text: &[u8]) -> Option<(&[u8], &[u8])>
    ensures first { MatchOption result (tokens text.now ≡ [])
        (λ p. tokens text.now ≡ p.0.now ∷ tokens p.1.now) }
    ensures shorter { IfSome result (λ p. length p.1.now < length text.now) }
{
    let (token, others) = split_token(text);
    if token.is_empty() {
        None
    } else {
        Some((token, others))
    }
}

ghost use Rattle.protocol_tokens.specs.Quit.{is_quit};

/// True if a line says `quit`, in either protocol: its first token does, and the rest is not read.
pub fn is_quit(line: &[u8]) -> bool
    ensures { result ≡ is_quit line.now }
{
    split_token(line).0 == b"quit".as_slice()
}
