//! Texts that are no moves, and why; and moves in long algebraic form that are read otherwise, too.
use super::positions::position_of;
use crate::expect::expect;
use chess_board::read_move;
use san_text::{SanFault, read_long_form, read_san};

const ROOKS: &str = "4k3/8/8/8/8/8/4K3/R6R w - - 0 1";

const AT_HOME: &str = "4k3/8/8/8/8/8/8/R3K2R w KQ - 0 1";

// A position, a text that is refused, and why.
const REFUSED: [(&str, &str, SanFault); 9] = [
    (ROOKS, "Rd1", SanFault::Ambiguous),
    (ROOKS, "Nf3", SanFault::NoFit),
    (ROOKS, "Rz9", SanFault::BadSan),
    (ROOKS, "", SanFault::BadSan),
    (ROOKS, "+", SanFault::BadSan),
    (ROOKS, "O-O", SanFault::NoFit),
    (ROOKS, "Rad1=K", SanFault::BadSan),
    (AT_HOME, "Kg1", SanFault::NoFit),
    (AT_HOME, "O-O-O-O", SanFault::BadSan),
];

#[test]
fn texts_are_refused(rt: HostRuntime) {
    for (position, text, fault) in &REFUSED {
        let at = position_of(&rt, position);
        expect(&rt, read_san(&at, text.as_bytes()) == Err(*fault), text);
    }
}

const START: &str = "rnbqkbnr/pppppppp/8/8/8/8/PPPPPPPP/RNBQKBNR w KQkq - 0 1";

const PAWN: &str = "3r4/4P1k1/8/8/8/8/6K1/8 w - - 0 1";

const CASTLING: &str = "r3k2r/8/8/8/8/8/8/R3K2R b KQkq - 0 1";

// A position, a text that the driver reads in standard notation, and the move that it is in long
// form, if it is one. What the driver reads in long form alone is in its sessions.
const LONG: [(&str, &str, &str); 8] = [
    (START, "Nb1xa3", "b1a3"),
    (START, "Nb1c3", ""),
    (START, "", ""),
    (PAWN, "e7xd8Q", "e7d8q"),
    (PAWN, "e7xd8=R", "e7d8r"),
    (CASTLING, "Ra8xa1", "a8a1"),
    (CASTLING, "Rh8xh1#", "h8h1"),
    ("4k3/8/8/3pP3/8/8/8/4K3 w - d6 0 1", "e5xd6", "e5d6"),
];

#[test]
fn long_forms_are_read(rt: HostRuntime) {
    for (position, text, m) in &LONG {
        let at = position_of(&rt, position);
        let read = read_long_form(&at, text.as_bytes());
        expect(&rt, read == read_move(m.as_bytes()), text);
    }
}
