// Lines that are cut at certain tokens.
ghost use Rattle.std.specs.Prelude.{◌≡◌, true, drop};
ghost use Rattle.std.specs.List.{before_first};
ghost use Rattle.protocol_tokens.specs.Tokens.{is_white, token_end};
ghost use Rattle.std.specs.Option.{option_map};
ghost use Rattle.uci_lines.specs.Cuts.{found_token, delimits, found_of};

use protocol_tokens::{is_white, split_at_white};

/// The tokens at which a line is cut.
#[derive(Clone, Copy)]
pub(crate) enum Delimiter {
    /// One with which a message begins.
    Message,
    /// `type`
    Kind,
    /// `default`
    Default,
    /// `default` or `var`
    Choice,
    /// `ponder`
    Ponder,
}

/// A token, with what is before and after it.
#[derive(Clone, Copy)]
pub(crate) struct FoundToken<'a> {
    pub before: &'a [u8],
    pub word: &'a [u8],
    pub after: &'a [u8],
}

impl Delimiter {
    ghost use Rattle.uci_lines.specs.Cuts.{delimits};

    fn has(self, word: &[u8]) -> bool
        ensures { result ≡ delimits self word.now }
    {
        match self {
            Delimiter::Message => is_known(word),
            Delimiter::Kind => is_word(word, "type"),
            Delimiter::Default => is_word(word, "default"),
            Delimiter::Choice => is_word(word, "default") || is_word(word, "var"),
            Delimiter::Ponder => is_word(word, "ponder"),
        }
    }
}

ghost use Rattle.uci_lines.specs.Cuts.{is_known, is_word};

/// True if a token is this word.
pub(crate) fn is_word(token: &[u8], word: &str) -> bool
    ensures { result ≡ is_word word.now token.now }
{
    token == word.as_bytes()
}

fn is_known(word: &[u8]) -> bool
    ensures { result ≡ is_known word.now }
{
    is_word(word, "id")
        || is_word(word, "uciok")
        || is_word(word, "readyok")
        || is_word(word, "bestmove")
        || is_word(word, "info")
        || is_word(word, "option")
}

/// The first token at which the text is to be cut.
pub(crate) fn find_word(text: &[u8], stop: Delimiter) -> Option<FoundToken<'_>>
    ensures { option_map found_of result ≡ found_token (delimits stop) true text.now }
{
    let mut is_fresh = true;
    for (i, byte) in text.iter().enumerate() {
        if is_fresh {
            let (word, after) = split_at_white(&text[i..]);
            if stop.has(word) {
                let before = &text[..i];
                return Some(FoundToken {
                    before,
                    word,
                    after,
                });
            }
        }
        is_fresh = is_white(*byte);
    }
    None
}
