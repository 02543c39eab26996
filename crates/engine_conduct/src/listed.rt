// The moves to which a search is restricted.
ghost use Rattle.std.specs.Prelude.{◌≡◌, ◌≤◌, length};
ghost use Rattle.std.specs.List.{list_any};
ghost use Rattle.protocol_tokens.specs.Tokens.{tokens};
ghost use Rattle.search_epochs.specs.Tickets.{same_move};
ghost use Rattle.engine_conduct.specs.Listed.{add_listed, is_listed, is_unlisted, listed_in, listed_with_run};
ghost use Rattle.engine_conduct.specs.declared.listed.TheConstants.{MOST_LISTED};

use crate::words::behind_word;
use arrayvec::ArrayVec;
use chess_board::{Move, Position};
use uci_lines::next_move;

/// No position has more legal moves.
pub const MOST_LISTED: usize = 512;

/// The legal moves behind the `searchmoves` of a `go`, each once.
pub(crate) type ListedMoves = ArrayVec<Move, MOST_LISTED>;

#[tactic(auto, using(search_epochs::proofs::Moves::promotions_compared))]
fn is_same(a: Move, b: Move) -> bool
    ensures { result ≡ same_move a b }
{
    a == b
}

fn is_listed(listed: &[Move], m: Move) -> bool
    ensures { result ≡ is_listed listed.now m }
{
    let mut others = listed;
    while let [first, rest @ ..] = others {
        if is_same(*first, m) {
            return true;
        }
        others = rest;
    }
    false
}

/// True if a search is restricted to other moves.
pub(crate) fn is_unlisted(listed: &[Move], m: Move) -> bool
    ensures { result ≡ is_unlisted listed.now m }
{
    !listed.is_empty() && !is_listed(listed, m)
}

// Adds a move that is legal and not yet there.
fn add_listed(at: &Position, listed: &mut ListedMoves, m: Move)
    ensures { listed.new.items ≡ add_listed at.now listed.old.items m }
{
    if at.legal(m) && !is_listed(listed.as_slice(), m) && !listed.is_full() {
        listed.push(m);
    }
}

// Adds the moves with which a text begins.
fn add_run(at: &Position, listed: &mut ListedMoves, text: &[u8])
    ensures { listed.new.items ≡ listed_with_run at.now listed.old.items (tokens text.now) }
{
    let mut others = text;
    while let Some((m, behind)) = next_move(others) {
        add_listed(at, listed, m);
        others = behind;
    }
}

/// The list of a `go`.
pub(crate) fn listed_in(at: &Position, line: &[u8]) -> ListedMoves
    ensures { result.items ≡ listed_in at.now (tokens line.now) }
{
    let mut listed = ArrayVec::new();
    if let Some(text) = behind_word(line, "searchmoves") {
        add_run(at, &mut listed, text);
    }
    listed
}
