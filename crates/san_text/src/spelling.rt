// The reading of a text, whatever is on the board.
ghost use Rattle.std.specs.Prelude.{◌≡◌, IfSome, ◌<◌};
ghost use Rattle.san_text.specs.Spelling.{unmarked, is_check_byte, file_named, rank_named, kind_named, promoted, promotion_read, square_read, target_read, rank_read, file_read, places_read, piece_read, spelling_of_san, plain_targets, plains, goes};

use chess_board::{Kind, Square};

/// The square reached, and what a pawn becomes there.
#[derive(Clone, Copy)]
pub struct Target {
    pub to: Square,
    pub promotion: Option<Kind>,
}

/// The content of a text: castling, or a piece's kind, its file and rank, counted from 0, if they are
/// given, and the square reached.
#[derive(Clone, Copy)]
pub enum SanSpelling {
    Short,
    Long,
    Goes {
        kind: Kind,
        file: Option<u8>,
        rank: Option<u8>,
        target: Target,
    },
}

fn is_mark(byte: u8) -> bool
    ensures { result ≡ is_check_byte byte }
{
    byte == b'+' || byte == b'#' || byte == b'!' || byte == b'?'
}

/// The text without the signs at its end.
pub fn unmarked(text: &[u8]) -> &[u8]
    ensures { result.now ≡ unmarked text.now }
{
    let mut rest = text;
    while let [others @ .., last] = rest {
        if !is_mark(*last) {
            break;
        }
        rest = others;
    }
    rest
}

/// The number of the file that a byte names.
pub fn file_named(byte: u8) -> Option<u8>
    ensures value { result ≡ file_named byte }
    ensures below { IfSome result (λ file. file < 8) }
{
    if (b'a'..=b'h').contains(&byte) {
        Some(byte - b'a')
    } else {
        None
    }
}

/// The number of the rank that a byte names.
pub fn rank_named(byte: u8) -> Option<u8>
    ensures value { result ≡ rank_named byte }
    ensures below { IfSome result (λ rank. rank < 8) }
{
    if (b'1'..=b'8').contains(&byte) {
        Some(byte - b'1')
    } else {
        None
    }
}

/// The piece that a capital letter names.
pub fn kind_named(byte: u8) -> Option<Kind>
    ensures { result ≡ kind_named byte }
{
    match byte {
        b'K' => Some(Kind::King),
        b'Q' => Some(Kind::Queen),
        b'R' => Some(Kind::Rook),
        b'B' => Some(Kind::Bishop),
        b'N' => Some(Kind::Knight),
        _ => None,
    }
}

// One that a pawn may become.
fn promoted(kind: Option<Kind>) -> Option<Option<Kind>>
    ensures { result ≡ promoted kind }
{
    match kind {
        Some(Kind::Queen) | Some(Kind::Rook) | Some(Kind::Bishop) | Some(Kind::Knight) => {
            Some(kind)
        }
        _ => None,
    }
}

// Nothing, or a letter with or without `=` before it.
fn read_promotion(text: &[u8]) -> Option<Option<Kind>>
    ensures { result ≡ promotion_read text.now }
{
    match text {
        [] => Some(None),
        [letter] => promoted(kind_named(*letter)),
        [b'=', letter] => promoted(kind_named(*letter)),
        _ => None,
    }
}

/// A square, and perhaps a promotion.
pub fn read_square(text: &[u8]) -> Option<Target>
    ensures { plain_targets result ≡ square_read text.now }
{
    let [file, rank, rest @ ..] = text else {
        return None;
    };
    let file = file_named(*file)?;
    let rank = rank_named(*rank)?;
    let promotion = read_promotion(rest)?;
    Some(Target {
        to: Square::at(file, rank)?,
        promotion,
    })
}

// The same after an optional `x`.
fn read_target(text: &[u8]) -> Option<Target>
    ensures { plain_targets result ≡ target_read text.now }
{
    match text {
        [b'x', rest @ ..] => read_square(rest),
        _ => read_square(text),
    }
}

// The spelling of a target after such a piece, file and rank.
fn goes(
    kind: Kind,
    file: Option<u8>,
    rank: Option<u8>,
    target: Option<Target>,
) -> Option<SanSpelling>
    ensures { plains result ≡ goes kind file rank (plain_targets target) }
{
    match target {
        Some(target) => Some(SanSpelling::Goes {
            kind,
            file,
            rank,
            target,
        }),
        None => None,
    }
}

// A rank that is given, and the target after it.
fn read_rank(kind: Kind, file: Option<u8>, text: &[u8]) -> Option<SanSpelling>
    ensures { plains result ≡ rank_read kind file text.now }
{
    let [rank, rest @ ..] = text else {
        return None;
    };
    let rank = rank_named(*rank)?;
    goes(kind, file, Some(rank), read_target(rest))
}

// A file that is given, and perhaps a rank, and the target after them.
fn read_file(kind: Kind, text: &[u8]) -> Option<SanSpelling>
    ensures { plains result ≡ file_read kind text.now }
{
    let [file, rest @ ..] = text else {
        return None;
    };
    let file = file_named(*file)?;
    match goes(kind, Some(file), None, read_target(rest)) {
        Some(spelling) => Some(spelling),
        None => read_rank(kind, Some(file), rest),
    }
}

// The target alone, or after a file, a rank, or both.
fn read_places(kind: Kind, text: &[u8]) -> Option<SanSpelling>
    ensures { plains result ≡ places_read kind text.now }
{
    if let Some(spelling) = goes(kind, None, None, read_target(text)) {
        return Some(spelling);
    }
    match read_file(kind, text) {
        Some(spelling) => Some(spelling),
        None => read_rank(kind, None, text),
    }
}

// An officer after its letter, or a pawn.
fn read_piece(text: &[u8]) -> Option<SanSpelling>
    ensures { plains result ≡ piece_read text.now }
{
    let [letter, rest @ ..] = text else {
        return None;
    };
    match kind_named(*letter) {
        Some(kind) => read_places(kind, rest),
        None => read_places(Kind::Pawn, text),
    }
}

/// The spelling of a text.
///
/// Signs `+`, `#`, `!` and `?` at the end are dropped. The rest is `O-O`, `O-O-O`, `0-0` or
/// `0-0-0`; or an optional letter of `KQRBN`, an optional file, an optional rank, an optional `x`,
/// a square, and optionally one of `QRBN`, with or without `=` before it.
pub fn read_spelling(text: &[u8]) -> Option<SanSpelling>
    ensures { plains result ≡ spelling_of_san text.now }
{
    let text = unmarked(text);
    if text == b"O-O".as_slice() || text == b"0-0".as_slice() {
        return Some(SanSpelling::Short);
    }
    if text == b"O-O-O".as_slice() || text == b"0-0-0".as_slice() {
        return Some(SanSpelling::Long);
    }
    read_piece(text)
}
