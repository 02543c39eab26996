// Games: repetitions, moves taken back, the line with a hint, and the longest game.
use super::positions::{move_of, position_of};
use crate::expect::{expect, expect_text, room};
use chess_board::{Move, Position, equal_positions};
use game_record::{Game, GameEnd, NoMove, PlayFault};
use line_io::Out;
use san_text::sans_are_lawful;
use std::alloc::Global;
use std::process::Abort;

const SHUFFLE: [&str; 4] = ["g1f3", "g8f6", "f3g1", "f6g8"];

const ROOK_SHUFFLE: [&str; 4] = ["h1h2", "e8e7", "h2h1", "e7e8"];

fn play_all(rt: &impl Abort, game: &mut Game, moves: &[&str]) {
    for text in moves {
        expect(rt, game.try_play(move_of(rt, text)) == Ok(()), text);
    }
}

/// A new game.
fn new_game(rt: &impl Abort, alloc: Global) -> Game {
    Game::make(alloc).expect(rt, "memory")
}

/// True if a game has so many plies, its position has come so often, and it has not ended.
fn is_open(game: &Game, plies: u32, repeats: u32) -> bool {
    game.plies() == plies && game.repeats() == repeats && game.ended().is_none()
}

/// Plays the move by which a position comes for the third time.
fn repeat_by(rt: &impl Abort, game: &mut Game, last: Move) {
    expect(rt, game.now().legal(last), "e7e8");
    assert!(rt; game.ended_after(last) == Some(GameEnd::Repetition));
    assert!(rt; game.try_play(last) == Ok(()));
    assert!(rt; game.plies() == 12 && game.repeats() == 3);
}

#[test]
fn counts_repetitions(rt: HostRuntime) {
    let mut game = new_game(&rt, rt.alloc());
    play_all(&rt, &mut game, &SHUFFLE);
    play_all(&rt, &mut game, &SHUFFLE[..3]);
    assert!(rt; is_open(&game, 7, 2));

    // The rook's first move loses the right, so the start does not come again.
    game.reset(position_of(&rt, "4k3/8/8/8/8/8/8/4K2R w K - 0 1"));
    play_all(&rt, &mut game, &ROOK_SHUFFLE);
    play_all(&rt, &mut game, &ROOK_SHUFFLE);
    assert!(rt; is_open(&game, 8, 2));
    play_all(&rt, &mut game, &ROOK_SHUFFLE[..3]);
    repeat_by(&rt, &mut game, move_of(&rt, "e7e8"));
}

/// Writes a game with a hint.
fn write_hint(rt: &impl Abort, game: &Game, hint: Move, out: &mut Out) {
    expect(rt, game.now().legal(hint), "e2e4");
    game.facts();
    assert!(rt; out.spare() >= 72_126);
    game.write_position(Some(hint), out);
}

/// Expects what is written of the standard start and a hint.
fn expect_hint(rt: &impl Abort, alloc: Global, game: &Game, hint: Move) {
    let mut out = room(rt, alloc, 80_000);
    write_hint(rt, game, hint, &mut out);
    expect_text(rt, out.bytes(), "position startpos moves e2e4");
}

/// The game after two moves, of which the second is taken back.
fn check_taken_back(rt: &impl Abort, game: &mut Game, opening: Move) {
    assert!(rt; game.undo(3) == Err(NoMove) && game.undo(1) == Ok(()));
    assert!(rt; game.plies() == 1 && game.moves() == [opening].as_slice());
    assert!(rt; equal_positions(game.start(), &Position::start()));
    let opened = "rnbqkbnr/pppppppp/8/8/4P3/8/PPPP1PPP/RNBQKBNR b KQkq - 0 1";
    assert!(rt; equal_positions(game.now(), &position_of(rt, opened)));
}

#[test]
fn takes_back_and_writes_a_hint(rt: HostRuntime) {
    sans_are_lawful();
    let mut game = new_game(&rt, rt.alloc());
    let opening = move_of(&rt, "e2e4");
    expect_hint(&rt, rt.alloc(), &game, opening);
    play_all(&rt, &mut game, &["e2e4", "e7e5"]);
    check_taken_back(&rt, &mut game, opening);
}

/// Plays as many moves as a game may have, and counts how often the start has come.
fn play_longest(rt: &impl Abort, game: &mut Game) {
    for round in 0..3_000 {
        play_all(rt, game, &SHUFFLE);
        assert!(rt; game.repeats() == round + 2);
    }
    assert!(rt; game.plies() == 12_000 && game.repeats() == 3_001);
}

/// The refusals of the longest game, and that it is taken back as a whole.
fn check_longest(rt: &impl Abort, game: &mut Game) {
    assert!(rt; game.try_play(move_of(rt, "e2e5")) == Err(PlayFault::Illegal));
    assert!(rt; game.try_play(move_of(rt, "e2e4")) == Err(PlayFault::TooLong));
    assert!(rt; game.undo(12_001) == Err(NoMove) && game.undo(12_000) == Ok(()));
    assert!(rt; game.plies() == 0 && game.repeats() == 1);
}

#[test]
fn takes_the_longest_game(rt: HostRuntime) {
    let mut game = new_game(&rt, rt.alloc());
    play_longest(&rt, &mut game);
    let repeated = game.ended() == Some(GameEnd::Repetition);
    expect(&rt, repeated, "the longest");
    check_longest(&rt, &mut game);
}
