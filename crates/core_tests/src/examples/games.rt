// Moves in standard notation, and the record of a game.
use chess_board::{Position, read_move};
use game_record::{Game, NoMove, POSITION_TEXT, PlayFault};
use line_io::Out;
use san_text::{SanFault, read_san, write_san};

/// san_text: a move is read in a position, and written again.
#[test]
fn a_move_has_one_text(rt: HostRuntime) {
    let start = Position::start();
    let knight = read_san(&start, b"Nf3").expect(&rt, "a legal move");
    assert!(rt; Some(knight) == read_move(b"g1f3"));
    assert!(rt; start.legal(knight));
    assert!(rt; write_san(&start, knight).as_slice() == b"Nf3".as_slice());
    assert!(rt; read_san(&start, b"Nd4") == Err(SanFault::NoFit));
    assert!(rt; read_san(&start, b"knight") == Err(SanFault::BadSan));
}

/// game_record: a move is played, given to an engine, and taken back.
#[test]
fn a_move_is_taken_back(rt: HostRuntime) {
    let mut game = Game::make(rt.alloc()).expect(&rt, "memory for a game");
    let opening = read_move(b"e2e4").expect(&rt, "a move text");
    assert!(rt; game.try_play(opening) == Ok(()));
    assert!(rt; game.try_play(opening) == Err(PlayFault::Illegal));
    let mut line = Out::make(rt.alloc(), POSITION_TEXT).expect(&rt, "memory for a line");
    game.facts();
    assert!(rt; line.spare() >= POSITION_TEXT);
    game.write_position(None, &mut line);
    assert!(rt; line.bytes() == b"position startpos moves e2e4".as_slice());
    assert!(rt; game.undo(1) == Ok(()) && game.plies() == 0);
    assert!(rt; game.undo(1) == Err(NoMove));
}
