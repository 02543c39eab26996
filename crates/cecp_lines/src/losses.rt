// The result of a game that the engine has lost, as it is written with its reason.
ghost use Rattle.std.specs.Prelude.{◌≡◌, ◌+◌, ◌≤◌, ◌++◌, length};
ghost use Rattle.std.specs.Option.{option_map};
ghost use Rattle.std.specs.List.{list_all};
ghost use Rattle.line_io.specs.Out.{with};
ghost use Rattle.cecp_lines.specs.Losses.{IllegalMove, IsQuoted, loss_of, is_quotable_byte, is_quotable, quoted, quoted_text, loss_text, score_text, lost_text};

use crate::reply::Loss;
use chess_board::Side;
use line_io::Out;

/// An answer that is quoted has at most so many bytes.
pub(crate) const MOST_QUOTED: usize = 16;

// True if a byte is shown, and no brace.
fn is_quotable_byte(byte: u8) -> bool
    ensures { result ≡ is_quotable_byte byte }
{
    (b'!'..=b'~').contains(&byte) && byte != b'{' && byte != b'}'
}

fn are_quotable_bytes(answer: &[u8]) -> bool
    ensures { result ≡ list_all is_quotable_byte answer.now }
{
    answer.iter().all(|b| is_quotable_byte(*b))
}

/// True if a result can quote this answer: 1 to 16 bytes, each of which is shown and no brace.
pub fn is_quotable(answer: &[u8]) -> bool
    ensures { result ≡ is_quotable answer.now }
{
    !answer.is_empty() && answer.len() <= MOST_QUOTED && are_quotable_bytes(answer)
}

/// An answer of the engine as a result quotes it, if it can.
pub fn quoted(answer: &[u8]) -> Option<&[u8]>
    ensures value { option_map (λ a. a.now) result ≡ quoted answer.now }
    ensures fits { IsQuoted (IllegalMove (option_map (λ a. a.now) result)) }
{
    if is_quotable(answer) {
        Some(answer)
    } else {
        None
    }
}

// The score of a game that this side has lost.
fn score_of(side: Side) -> &'static [u8]
    ensures { result.now ≡ score_text side }
{
    match side {
        Side::White => b"0-1",
        Side::Black => b"1-0",
    }
}

fn put_quoted(answer: Option<&[u8]>, out: &mut Out)
    requires { length out.old.text + length (quoted_text (option_map (λ a. a.now) answer))
        ≤ out.old.room }
    ensures { out.new ≡ with out.old (quoted_text (option_map (λ a. a.now) answer.entry)) }
{
    if let Some(text) = answer {
        out.put(b": ");
        out.put(text);
    }
}

fn put_loss(loss: Loss, out: &mut Out)
    requires { length out.old.text + length (loss_text (loss_of loss)) ≤ out.old.room }
    ensures { out.new ≡ with out.old (loss_text (loss_of loss.entry)) }
{
    match loss {
        Loss::IllegalMove(answer) => {
            out.put(b"Illegal move by engine");
            put_quoted(answer, out);
        }
        Loss::Ended => out.put(b"Engine ended"),
    }
}

/// The score of the game that this side has lost, and how in braces.
pub(crate) fn put_lost(side: Side, loss: Loss, out: &mut Out)
    requires { length out.old.text + length (lost_text side (loss_of loss)) ≤ out.old.room }
    ensures { out.new ≡ with out.old (lost_text side (loss_of loss.entry)) }
{
    out.put(score_of(side));
    out.put(b" {");
    put_loss(loss, out);
    out.put(b"}");
}
