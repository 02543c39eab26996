// A game that goes with another.
ghost use Rattle.std.specs.Prelude.{◌≡◌, ◌<◌, ◌≤◌, length};
ghost use Rattle.session_export.specs.Following.{GameFollows};

use game_record::Game;

// Plays the last move of the other game.
fn play_last(game: &mut Game, now: &Game)
    requires follows { GameFollows game.old now.now }
    requires longer { length game.old.moves < length now.now.moves }
    requires some { 0 < length now.now.moves }
    ensures { game.new ≡ now.now }
{
    now.facts();
    if let Some(m) = now.moves().last() {
        game.play(*m);
    }
}

// Takes back the moves that the other game has lost.
fn take_back(game: &mut Game, now: &Game)
    requires follows { GameFollows game.old now.now }
    requires shorter { length now.now.moves ≤ length game.old.moves }
    requires some { 0 < length now.now.moves }
    ensures { game.new ≡ now.now }
{
    let _ = game.undo(game.plies() - now.plies());
}

/// Makes a game that was equal to another before a step equal to it after the step.
#[tactic(auto, using(crate::proofs::Followed::unchanged))]
pub fn follow(game: &mut Game, now: &Game)
    requires { GameFollows game.old now.now }
    ensures { game.new ≡ now.now }
{
    if now.plies() == 0 {
        game.reset(*now.start());
    } else if game.plies() < now.plies() {
        play_last(game, now);
    } else if game.plies() > now.plies() {
        take_back(game, now);
    }
}
