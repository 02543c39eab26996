//! The faults of a text.
use chess_board::BuildFault;

/// The first field of a text that spells nothing. `Board` is also a board with a pawn on the first
/// or last rank or with more than 16 pieces of a side, and `Kings` a position that cannot be: a side
/// has not one king, or the side not on move is in check.
#[derive(Clone, Copy, Debug, PartialEq, Eq)]
pub enum FenFault {
    Board,
    Side,
    Castling,
    EnPassant,
    Half,
    Full,
    Kings,
}

impl FenFault {
    ghost use Rattle.std.specs.Prelude.{◌≡◌};
    ghost use Rattle.fen_text.specs.Fen.{fault_of};

    pub(crate) fn of(fault: BuildFault) -> FenFault
        ensures { result ≡ fault_of fault }
    {
        match fault {
            BuildFault::Board => FenFault::Board,
            BuildFault::Kings => FenFault::Kings,
        }
    }
}
