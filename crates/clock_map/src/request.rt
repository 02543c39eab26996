// What a search is made from.
use chess_board::Side;
use policy_rules::Settings;
use protocol_tokens::GoKind;

/// What a `go` order is made from, besides the clocks.
#[derive(Clone, Copy)]
pub struct SearchRequest {
    /// The settings of the session.
    pub settings: Settings,
    /// The side on move, which the engine has.
    pub side: Side,
    /// How many plies stand before the search. For pondering the hint is one of them.
    pub plies: u32,
    /// What the search is for.
    pub kind: GoKind,
}
