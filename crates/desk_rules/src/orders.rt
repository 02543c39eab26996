// The orders that wait, and the orders for a search.
ghost use Rattle.std.specs.Prelude.{◌≡◌, ◌+◌, ◌≤◌, ◌∷◌, ◌++◌, [], length, IfSome};
ghost use Rattle.std.specs.Option.{option_map, option_to_list};
ghost use Rattle.line_io.specs.Out.{with};
ghost use Rattle.uci_lines.specs.Orders.{IsReady, uci_order_of};
ghost use Rattle.game_record.specs.Game.{ply_of, current_position, IsPlayablePly};
ghost use Rattle.game_record.specs.Line.{game_position_text};
ghost use Rattle.clock_map.specs.Search.{search_order};
ghost use Rattle.option_map.specs.DeclaredOptions.Data.{setup_seen};
ghost use Rattle.option_map.specs.WaitingOrders.Held.{with_orders, held_order_line};
ghost use Rattle.search_epochs.specs.Tickets.{kind_of};
ghost use Rattle.desk_rules.specs.Desk.{on_move, plies};
ghost use Rattle.desk_rules.specs.Orders.{AllJoin, asked_at_boot, position_order, pondered, searched, search_request, search_orders, order_list};
ghost use Rattle.desk_rules.specs.Texts.{order_lines};
ghost use Rattle.desk_rules.specs.Fits.{DeskInvariant, CanSearch, ChosenOrdersCanBeWritten};
ghost use Rattle.desk_rules.specs.declared.sizes.TheConstants.{GO_LINE, STEP_ORDERS, POSITION_LINE};
ghost use Rattle.line_io.specs.Lines.{line_feed};

use crate::after::position_after;
use crate::call::on_move;
use crate::{AskedOrders, Desk};
use chess_board::{Move, Side};
use clock_map::SearchRequest;
use game_record::Game;
use line_io::Out;
use option_map::{HeldOrders, SetupOrder};
use policy_rules::Settings;
use protocol_tokens::GoKind;
use search_epochs::{Call, Orders};
use uci_lines::{Order, write_order};

fn kind_of(call: Call) -> GoKind
    ensures { result ≡ kind_of call }
{
    match call {
        Call::Ponder(_) => GoKind::Ponder,
        Call::Analyse => GoKind::Analyse,
        _ => GoKind::Move,
    }
}

// The move that is pondered on.
fn pondered(call: Call) -> Option<Move>
    ensures { result ≡ pondered call }
{
    match call {
        Call::Ponder(hint) => Some(hint),
        _ => None,
    }
}

// Holds what is asked for, if anything is.
pub(crate) fn hold(asked: Option<SetupOrder>, held: &mut HeldOrders)
    requires { AllJoin held.old (option_to_list (option_map setup_seen asked)) }
    ensures { held.new ≡ with_orders held.old (option_to_list (option_map setup_seen asked.entry)) }
{
    if let Some(order) = asked {
        held.add_order(order);
    }
}

impl Desk {
    // Holds what is asked for when Boot is left.
    fn hold_at_boot(&self, held: &mut HeldOrders)
        requires { AllJoin held.old (asked_at_boot self.now) }
        ensures { held.new ≡ with_orders held.old (asked_at_boot self.now) }
    {
        self.early.hold_all(&self.options, held);
        hold(self.ponder_at_boot(), held);
        hold(self.analysis_at_boot(), held);
    }
}

impl AskedOrders<'_> {
    ghost use Rattle.desk_rules.specs.Orders.{orders_asked};

    /// Holds what is asked for.
    pub fn hold(&self, held: &mut HeldOrders)
        requires { AllJoin held.old (orders_asked self.now) }
        ensures { held.new ≡ with_orders held.old (orders_asked self.now) }
    {
        match self {
            AskedOrders::One(order) => hold(*order, held),
            AskedOrders::AtBoot(desk) => desk.hold_at_boot(held),
        }
    }
}

// Puts the position of a game, after a move that may follow.
fn put_game(game: &Game, hint: Option<Move>, out: &mut Out)
    requires hint { IfSome hint (λ m. IsPlayablePly (current_position game.now) (ply_of m)) }
    requires room { length out.old.text + POSITION_LINE ≤ out.old.room }
    ensures line { out.new
        ≡ with out.old (game_position_text game.now (option_map ply_of hint) ++ line_feed ∷ []) }
    ensures short { length (game_position_text game.now (option_map ply_of hint) ++ line_feed ∷ [])
        ≤ POSITION_LINE }
{
    game.facts();
    game.write_position(hint, out);
    out.put(b"\n");
}

// Puts the position that is to be searched.
fn put_position(game: &Game, call: Call, out: &mut Out)
    requires hint { CanSearch game.now call }
    requires room { length out.old.text + POSITION_LINE ≤ out.old.room }
    ensures line { out.new ≡ with out.old (held_order_line (position_order (searched game.now
        call))) }
    ensures short { length (held_order_line (position_order (searched game.now call))) ≤
        POSITION_LINE }
{
    put_game(game, pondered(call), out);
}

// The side that searches.
fn side_of(game: &Game, call: Call) -> Side
    requires { CanSearch game.now call }
    ensures { result ≡ on_move (searched game.now call) }
{
    match call {
        Call::Ponder(hint) => position_after(game, hint).side(),
        _ => on_move(game),
    }
}

// The number of plies before the search.
fn plies_of(game: &Game, call: Call) -> u32
    ensures { result ≡ plies (searched game.now call) }
{
    match call {
        Call::Ponder(_) => game.plies() + 1,
        _ => game.plies(),
    }
}

// What a search is made from.
fn search_request(settings: Settings, game: &Game, call: Call) -> SearchRequest
    requires { CanSearch game.now call }
    ensures { result ≡ search_request settings game.now call }
{
    SearchRequest {
        settings,
        side: side_of(game, call),
        plies: plies_of(game, call),
        kind: kind_of(call),
    }
}

impl Desk {
    fn put_go(&self, request: SearchRequest, out: &mut Out)
        requires sound { DeskInvariant self.now }
        requires room { length out.old.text + GO_LINE ≤ out.old.room }
        ensures line { out.new ≡ with out.old (held_order_line (search_order request
            self.now.clocks)) }
        ensures short { length (held_order_line (search_order request self.now.clocks)) ≤ GO_LINE }
    {
        self.clocks.write_go(request, out);
        out.put(b"\n");
    }

    /// Puts `position` and `go` for a call.
    pub fn put_search(&self, settings: Settings, call: Call, out: &mut Out)
        requires sound { DeskInvariant self.now }
        requires hint { CanSearch self.now.game call }
        requires room { length out.old.text + STEP_ORDERS ≤ out.old.room }
        ensures lines { out.new ≡ with out.old (order_lines (search_orders settings self.now
            call)) }
        ensures short { length (order_lines (search_orders settings self.now call)) ≤ STEP_ORDERS }
    {
        put_position(&self.game, call, out);
        let request = search_request(settings, &self.game, call);
        self.put_go(request, out);
    }
}

/// Puts an order, with its line feed.
pub fn put_order(order: &Order, out: &mut Out)
    requires { length out.old.text + length (held_order_line (uci_order_of order.now)) ≤
        out.old.room }
    ensures { out.new ≡ with out.old (held_order_line (uci_order_of order.now)) }
{
    write_order(order, out);
    out.put(b"\n");
}

// Puts the held orders, and what ends a batch.
#[tactic(auto, using(crate::proofs::Batches::ready_size))]
fn put_batch(held: &HeldOrders, out: &mut Out)
    requires { length out.old.text + STEP_ORDERS ≤ out.old.room }
    ensures lines { out.new ≡ with out.old (order_lines (held.now ++ IsReady ∷ [])) }
    ensures short { length (order_lines (held.now ++ IsReady ∷ [])) ≤ STEP_ORDERS }
{
    held.facts();
    held.write(out);
    put_order(&Order::IsReady, out);
}

/// Puts the orders that were chosen, if these are held.
#[tactic(auto, unfolding(uci_lines::specs::Orders::uci_order_text))]
pub fn put_chosen(settings: Settings, held: &HeldOrders, desk: &Desk, orders: Orders, out: &mut Out)
    requires sound { DeskInvariant desk.now }
    requires hint { ChosenOrdersCanBeWritten desk.now.game orders }
    requires room { length out.old.text + STEP_ORDERS ≤ out.old.room }
    ensures lines { out.new
        ≡ with out.old (order_lines (order_list settings held.now desk.now orders)) }
    ensures short { length (order_lines (order_list settings held.now desk.now orders))
        ≤ STEP_ORDERS }
{
    match orders {
        Orders::None => {}
        Orders::Batch => put_batch(held, out),
        Orders::Begin(call) => desk.put_search(settings, call, out),
        Orders::Hit => put_order(&Order::PonderHit, out),
        Orders::Stop => put_order(&Order::Stop, out),
    }
}
