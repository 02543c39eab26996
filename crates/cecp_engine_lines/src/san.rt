// Texts of moves in standard algebraic notation, as they are written.
ghost use Rattle.std.specs.Prelude.{◌≡◌};
ghost use Rattle.cecp_lines.specs.San.{fits, has_form, is_between, is_mark, is_san};
ghost use Rattle.cecp_engine_lines.specs.SanReading.{is_any_move, is_capture, is_castling, is_king_move, is_pawn_move, is_quiet_move};

/// True if a byte may stand in the place of a byte of a form: `f` is for a file, `r` for a rank, `e` for the first
/// or the last rank, `i` for another one, `P` for Q, R, B or N, and any other byte for itself.
fn fits(form: u8, byte: u8) -> bool
    ensures { result ≡ fits form byte }
{
    match form {
        b'f' => (b'a'..=b'h').contains(&byte),
        b'r' => (b'1'..=b'8').contains(&byte),
        b'e' => byte == b'1' || byte == b'8',
        b'i' => (b'2'..=b'7').contains(&byte),
        b'P' => (byte == b'Q' || byte == b'R') || (byte == b'B' || byte == b'N'),
        _ => form == byte,
    }
}

/// Nothing, or the sign of a check or of a mate.
fn is_mark(text: &[u8]) -> bool
    ensures { result ≡ is_mark text.now }
{
    match text {
        [] => true,
        [byte] => *byte == b'+' || *byte == b'#',
        _ => false,
    }
}

/// True if a text has a form, perhaps followed by a sign.
fn has_form(form: &[u8], text: &[u8]) -> bool
    ensures { result ≡ has_form form.now text.now }
{
    let mut rest = text;
    for place in form {
        let [byte, others @ ..] = rest else {
            return false;
        };
        if !fits(*place, *byte) {
            return false;
        }
        rest = others;
    }
    is_mark(rest)
}

fn is_castling(text: &[u8]) -> bool
    ensures { result ≡ is_castling text.now }
{
    has_form(b"O-O", text) || has_form(b"O-O-O", text)
}

fn is_pawn_move(text: &[u8]) -> bool
    ensures { result ≡ is_pawn_move text.now }
{
    (has_form(b"fi", text) || has_form(b"fxfi", text))
        || (has_form(b"fe=P", text) || has_form(b"fxfe=P", text))
}

fn is_king_move(text: &[u8]) -> bool
    ensures { result ≡ is_king_move text.now }
{
    has_form(b"Kfr", text) || has_form(b"Kxfr", text)
}

/// A move of a queen, a rook, a bishop or a knight that does not capture.
fn is_quiet_move(text: &[u8]) -> bool
    ensures { result ≡ is_quiet_move text.now }
{
    (has_form(b"Pfr", text) || has_form(b"Pffr", text))
        || (has_form(b"Prfr", text) || has_form(b"Pfrfr", text))
}

/// One that captures.
fn is_capture(text: &[u8]) -> bool
    ensures { result ≡ is_capture text.now }
{
    (has_form(b"Pxfr", text) || has_form(b"Pfxfr", text))
        || (has_form(b"Prxfr", text) || has_form(b"Pfrxfr", text))
}

fn is_any_move(text: &[u8]) -> bool
    ensures { result ≡ is_any_move text.now }
{
    (is_castling(text) || is_pawn_move(text))
        || (is_king_move(text) || (is_quiet_move(text) || is_capture(text)))
}

/// True if a text has one of the forms in which moves are written.
pub(crate) fn is_san(text: &[u8]) -> bool
    ensures { result ≡ is_san text.now }
{
    is_any_move(text)
}
