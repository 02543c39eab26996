// Orders as interfaces spell them.
use crate::expect::expect;
use chess_board::Variant;
use fen_text::write_fen;
use protocol_tokens::GoKind;
use uci_interface_lines::{go_kind, spoken, spoken_by};

const START: &str = "rnbqkbnr/pppppppp/8/8/8/8/PPPPPPPP/RNBQKBNR w KQkq - 0 1";

// A line, and the kind of its search.
const KINDS: [(&str, GoKind); 6] = [
    ("go", GoKind::Move),
    ("go wtime 300000 btime 300000 winc 0 binc 0", GoKind::Move),
    ("go ponder wtime 1 btime 1", GoKind::Ponder),
    ("go infinite", GoKind::Analyse),
    ("go infinite ponder", GoKind::Ponder),
    ("go\tsearchmoves e2e4  infinite\r", GoKind::Analyse),
];

// A line, its moves, and the position after them.
type SpokenRow = (&'static str, &'static str, &'static str);

const POSITIONS: [SpokenRow; 6] = [
    ("position startpos", "", START),
    ("position startpos moves", "", START),
    (
        "position\t startpos  moves e2e4 e7e5\r",
        "e2e4 e7e5",
        "rnbqkbnr/pppp1ppp/8/4p3/4P3/8/PPPP1PPP/RNBQKBNR w KQkq - 0 2",
    ),
    (
        "position fen 4k3/8/8/8/8/8/8/4K2R w K - 0 1 moves e1g1",
        "e1g1",
        "4k3/8/8/8/8/8/8/5RK1 b - - 1 1",
    ),
    (
        "position fen 7k/4P3/8/8/8/8/8/4K3 w - - moves e7e8Q",
        "e7e8Q",
        "4Q2k/8/8/8/8/8/8/4K3 b - - 0 1",
    ),
    (
        "position fen 7k/4P3/8/8/8/8/8/4K3 w - -",
        "",
        "7k/4P3/8/8/8/8/8/4K3 w - - 0 1",
    ),
];

const NO_POSITIONS: [&str; 7] = [
    "position",
    "position moves e2e4",
    "position startpos e2e4",
    "position startpos moves e2e5",
    "position startpos moves e2e4 e2e4",
    "position fen 8/8/8/8/8/8/8/4K3 w - - 0 1",
    "position fen moves e2e4",
];

// The same by the rules of Chess960.
const CHESS960_POSITIONS: [SpokenRow; 4] = [
    (
        "position startpos",
        "",
        "rnbqkbnr/pppppppp/8/8/8/8/PPPPPPPP/RNBQKBNR w HAha - 0 1",
    ),
    (
        "position fen 4k3/8/8/8/8/8/8/4K2R w K - 0 1 moves e1h1",
        "e1h1",
        "4k3/8/8/8/8/8/8/5RK1 b - - 1 1",
    ),
    (
        "position fen 1k6/8/8/8/8/8/8/RK6 w A - 0 1 moves b1a1",
        "b1a1",
        "1k6/8/8/8/8/8/8/2KR4 b - - 1 1",
    ),
    (
        "position fen 1k6/8/8/8/8/8/8/1K1RR3 w D -",
        "",
        "1k6/8/8/8/8/8/8/1K1RR3 w D - 0 1",
    ),
];

const NO_CHESS960_POSITIONS: [&str; 3] = [
    "position startpos e2e4",
    "position fen 4k3/8/8/8/8/8/8/4K2R w K - 0 1 moves e1g1",
    "position fen 1k6/8/8/8/8/8/8/1K1RR3 w DE -",
];

/// True if a line is read as these moves, and as the position after them.
fn is_spoken(line: &str, moves: &str, end: &str) -> bool {
    match spoken(line.as_bytes()) {
        Some(said) => {
            said.moves == moves.as_bytes() && write_fen(&said.end).as_slice() == end.as_bytes()
        }
        None => false,
    }
}

/// The same by the rules of a variant.
fn is_spoken_by(variant: Variant, line: &str, moves: &str, end: &str) -> bool {
    match spoken_by(variant, line.as_bytes()) {
        Some(said) => {
            said.moves == moves.as_bytes() && write_fen(&said.end).as_slice() == end.as_bytes()
        }
        None => false,
    }
}

#[test]
fn kinds_of_searches(rt: HostRuntime) {
    for (line, want) in &KINDS {
        expect(&rt, go_kind(line.as_bytes()) == *want, line);
    }
}

#[test]
fn positions_that_can_be_read(rt: HostRuntime) {
    for (line, moves, end) in &POSITIONS {
        expect(&rt, is_spoken(line, moves, end), line);
        expect(&rt, is_spoken_by(Variant::Normal, line, moves, end), line);
    }
}

#[test]
fn positions_of_chess960(rt: HostRuntime) {
    for (line, moves, end) in &CHESS960_POSITIONS {
        expect(&rt, is_spoken_by(Variant::Fischer, line, moves, end), line);
    }
    for line in &NO_CHESS960_POSITIONS {
        expect(
            &rt,
            spoken_by(Variant::Fischer, line.as_bytes()).is_none(),
            line,
        );
    }
}

#[test]
fn positions_that_cannot_be_read(rt: HostRuntime) {
    for line in &NO_POSITIONS {
        expect(&rt, spoken(line.as_bytes()).is_none(), line);
    }
}
