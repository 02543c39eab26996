//! The pieces on the squares, as sets of squares: bit s of a number stands for the square s.
ghost use Rattle.std.specs.Prelude.{◌≡◌, ◌<◌, ◌↔◌, ◌==◌, ℕ, IsTrue, if◌then◌else◌, length, not, slice_set, count_by};
ghost use Rattle.chess_board.specs.Board.{piece_at, is_vacant, is_of_side, is_king};
ghost use Rattle.chess_board.specs.Play.{is_piece, is_minor, start_pieces, IsDead};
ghost use Rattle.chess_board.specs.Reach.{has, IsSetOf};
ghost use Rattle.chess_board.specs.Rules.{may_land};
ghost use Rattle.chess_board.specs.Sets.{is_a, kind_by_tests};

use crate::board::{Kind, Side, Square};
use crate::reach::is_in;
use std::marker::Model;

/// The occupant of each square: the squares of the pieces of each side, and of each kind.
#[derive(Clone, Copy, PartialEq, Eq)]
pub(crate) struct Board {
    white: u64,
    black: u64,
    pawns: u64,
    knights: u64,
    bishops: u64,
    rooks: u64,
    queens: u64,
    kings: u64,
}

impl Model for Board {
    ghost use Rattle.std.specs.Prelude.{List};
    ghost use Rattle.chess_board.specs.Board.{Occupant};
    ghost use Rattle.chess_board.specs.Sets.{pieces_by_sets, sets_of, AreSets};

    ghost Value = { List Occupant };

    ghost view = { pieces_by_sets };

    ghost invariant = { AreSets };

    ghost inverse = { sets_of };

    ghost inverse_ok = { λ a h. h };
}

impl Board {
    /// The board on which no piece stands.
    fn empty() -> Board
        ensures { length result ≡ 64 }
    {
        Board {
            white: 0,
            black: 0,
            pawns: 0,
            knights: 0,
            bishops: 0,
            rooks: 0,
            queens: 0,
            kings: 0,
        }
    }

    /// The board on which these pieces stand, from a1 along each rank to h8.
    pub fn of(squares: &[Option<(Side, Kind)>; 64]) -> Board
        ensures value { result ≡ squares.now }
        ensures whole { length result ≡ 64 }
    {
        let mut board = Board::empty();
        for index in 0..64 {
            board.put(Square { index }, squares[index as usize]);
        }
        board
    }

    /// The pieces at the start of a game (article 2.3).
    pub fn start() -> Board
        ensures { result ≡ start_pieces }
    {
        Board {
            white: 0x0000_0000_0000_ffff,
            black: 0xffff_0000_0000_0000,
            pawns: 0x00ff_0000_0000_ff00,
            knights: 0x4200_0000_0000_0042,
            bishops: 0x2400_0000_0000_0024,
            rooks: 0x8100_0000_0000_0081,
            queens: 0x0800_0000_0000_0008,
            kings: 0x1000_0000_0000_0010,
        }
    }

    /// The occupant of a square.
    pub fn occupant(&self, at: Square) -> Option<(Side, Kind)>
        ensures { result ≡ piece_at self.now at.index }
    {
        let kind = kind_in(
            self.pawns,
            self.knights,
            self.bishops,
            self.rooks,
            self.queens,
            at,
        );
        if is_in(self.white, at) {
            Some((Side::White, kind))
        } else if is_in(self.black, at) {
            Some((Side::Black, kind))
        } else {
            None
        }
    }

    /// Puts a piece, or nothing, on a square.
    pub fn put(&mut self, at: Square, occupant: Option<(Side, Kind)>)
        ensures { self.new ≡ slice_set self.old at.index occupant }
    {
        *self = Board {
            white: placed(self.white, at, is_piece_of(occupant, Side::White)),
            black: placed(self.black, at, is_piece_of(occupant, Side::Black)),
            pawns: placed(self.pawns, at, is_piece_a(occupant, Kind::Pawn)),
            knights: placed(self.knights, at, is_piece_a(occupant, Kind::Knight)),
            bishops: placed(self.bishops, at, is_piece_a(occupant, Kind::Bishop)),
            rooks: placed(self.rooks, at, is_piece_a(occupant, Kind::Rook)),
            queens: placed(self.queens, at, is_piece_a(occupant, Kind::Queen)),
            kings: placed(self.kings, at, is_piece_a(occupant, Kind::King)),
        };
    }

    /// True if each square holds the same piece, or none, on both boards.
    pub fn has_same_pieces(&self, other: &Board) -> bool
        ensures { IsTrue result ↔ (self.now ≡ other.now) }
    {
        // Read for the proof alone, which then has what holds of the sets of squares.
        let _sets = (self.white, other.white);
        *self == *other
    }

    /// The squares on which pieces of a side stand.
    pub fn side_set(&self, side: Side) -> u64
        ensures set { IsSetOf (λ s. is_of_side side (piece_at self.now s)) result }
        ensures whole { length self.now ≡ 64 }
    {
        match side {
            Side::White => self.white,
            Side::Black => self.black,
        }
    }

    /// The squares on which pieces of a kind stand.
    pub fn kind_set(&self, kind: Kind) -> u64
        ensures { IsSetOf (λ s. is_a kind (piece_at self.now s)) result }
    {
        match kind {
            Kind::Pawn => self.pawns,
            Kind::Knight => self.knights,
            Kind::Bishop => self.bishops,
            Kind::Rook => self.rooks,
            Kind::Queen => self.queens,
            Kind::King => self.kings,
        }
    }

    /// The squares on which kings of a side stand.
    pub fn king_set(&self, side: Side) -> u64
        ensures set { IsSetOf (λ s. is_king side (piece_at self.now s)) result }
        ensures whole { length self.now ≡ 64 }
    {
        self.kings & self.side_set(side)
    }

    /// The squares on which pieces stand.
    pub fn pieces_set(&self) -> u64
        ensures set { IsSetOf (λ s. is_piece (piece_at self.now s)) result }
        ensures whole { length self.now ≡ 64 }
    {
        self.white | self.black
    }

    /// True if no piece stands on a square.
    pub fn is_free(&self, at: Square) -> bool
        ensures { result ≡ is_vacant (piece_at self.now at.index) }
    {
        !is_in(self.pieces_set(), at)
    }

    /// True if a piece of a side may go where this stands: no piece of its own side, and no king.
    pub fn may_land(&self, side: Side, at: Square) -> bool
        ensures { result ≡ may_land side (piece_at self.now at.index) }
    {
        !is_in(self.side_set(side), at) && !is_in(self.king_set(side.other()), at)
    }

    /// The squares on which bishops and knights stand.
    fn minor_set(&self) -> u64
        ensures set { IsSetOf (λ s. is_minor (piece_at self.now s)) result }
        ensures whole { length self.now ≡ 64 }
    {
        self.knights | self.bishops
    }

    /// The count of a side's pieces on the board.
    pub fn count_side(&self, side: Side) -> u32
        ensures { result ≡ count_by (is_of_side side) self.now }
    {
        self.side_set(side).count_ones()
    }

    /// The count of both sides' pieces on the board.
    fn count_pieces(&self) -> u32
        ensures { result ≡ count_by is_piece self.now }
    {
        self.pieces_set().count_ones()
    }

    /// The count of both sides' bishops and knights on the board.
    fn count_minors(&self) -> u32
        ensures { result ≡ count_by is_minor self.now }
    {
        self.minor_set().count_ones()
    }

    /// True if beside the kings there is no piece, or one bishop or knight alone.
    pub fn is_dead(&self) -> bool
        ensures { IsTrue result ↔ IsDead self.now }
    {
        let pieces = self.count_pieces();
        pieces == 2 || (pieces == 3 && self.count_minors() == 1)
    }

    /// The count of a side's kings on the board.
    pub fn count_kings(&self, side: Side) -> u32
        ensures { result ≡ count_by (is_king side) self.now }
    {
        self.king_set(side).count_ones()
    }
}

/// The kind by the sets of five kinds that has the square, or else a king.
fn kind_in(pawns: u64, knights: u64, bishops: u64, rooks: u64, queens: u64, at: Square) -> Kind
    ensures { result ≡ kind_by_tests (has pawns at.index) (has knights at.index) (has bishops
        at.index)
        (has rooks at.index) (has queens at.index) }
{
    if is_in(pawns, at) {
        Kind::Pawn
    } else if is_in(knights, at) {
        Kind::Knight
    } else if is_in(bishops, at) {
        Kind::Bishop
    } else if is_in(rooks, at) {
        Kind::Rook
    } else if is_in(queens, at) {
        Kind::Queen
    } else {
        Kind::King
    }
}

/// A set with a square or without it.
pub(crate) fn placed(set: u64, at: Square, belongs: bool) -> u64
    ensures { (s : ℕ) → s < 64 → has result s ≡ (if s == at.index then belongs else has set s) }
{
    if belongs {
        set | 1 << at.index
    } else {
        set & !(1 << at.index)
    }
}

/// True if a piece is of a kind.
fn is_piece_a(occupant: Option<(Side, Kind)>, kind: Kind) -> bool
    ensures { result ≡ is_a kind occupant }
{
    match occupant {
        None => false,
        Some((_, own)) => own == kind,
    }
}

/// True if a piece is of a side.
pub(crate) fn is_piece_of(occupant: Option<(Side, Kind)>, side: Side) -> bool
    ensures { result ≡ is_of_side side occupant }
{
    match occupant {
        None => false,
        Some((owner, _)) => owner == side,
    }
}
