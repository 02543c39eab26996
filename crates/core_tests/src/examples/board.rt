// The board, and positions as texts.
use chess_board::{Position, Side, read_move, write_move};
use fen_text::{FenFault, read_fen, write_fen};

/// chess_board: a move is read, found legal and played.
#[test]
fn a_move_is_played(rt: HostRuntime) {
    let start = Position::start();
    assert!(rt; start.moves().as_slice().len() == 20);
    let opening = read_move(b"e2e4").expect(&rt, "a move text");
    assert!(rt; start.legal(opening));
    let after = start.play(opening);
    assert!(rt; after.side() == Side::Black && !after.in_check());
    assert!(rt; !after.legal(opening));
    assert!(rt; write_move(opening).as_slice() == b"e2e4".as_slice());
}

/// fen_text: a position is read and written, and a text is refused.
#[test]
fn a_position_is_read(rt: HostRuntime) {
    let text = b"4k3/8/8/8/8/8/4P3/4K3 w - - 0 1".as_slice();
    let position = read_fen(text).expect(&rt, "a position");
    assert!(rt; position.moves().as_slice().len() == 6);
    assert!(rt; write_fen(&position).as_slice() == text);
    let refused = read_fen(b"4k3/8/8/8/8/8/4P3/4K3 white - -");
    assert!(rt; matches!(refused, Err(FenFault::Side)));
}
