// The effect of an event.
ghost use Rattle.std.specs.Prelude.{◌≡◌, List, Ok};
ghost use Rattle.std.specs.Option.{option_map};
ghost use Rattle.line_io.specs.Event.{event_of};
ghost use Rattle.cecp_lines.specs.Messages.{message_of};
ghost use Rattle.cecp_lines.specs.Reading.{message_or_fault};
ghost use Rattle.protocol_tokens.specs.Quit.{is_quit};
ghost use Rattle.cecp_lines.specs.Quit.{is_quit_message};
ghost use Rattle.uci_lines.specs.Engine.{engine_message};
ghost use Rattle.uci_lines.specs.Orders.{Order};
ghost use Rattle.option_map.specs.DeclaredOptions.Data.{setup_seen};
ghost use Rattle.desk_rules.specs.declared.effect.Refusal.TheVariants as refusals;
ghost use Rattle.desk_rules.specs.declared.effect.Context.{Context as AnyContext};
ghost use Rattle.desk_rules.specs.Desk.{at, is_getting, current, owes_move};
ghost use Rattle.desk_rules.specs.Early.{is_setting, may_wait};
ghost use Rattle.desk_rules.specs.Lines.{is_early, early_verdict, verdict_on, refusal, line_verdict, is_epoch_line};
ghost use Rattle.desk_rules.specs.Steps.{Refuses, effect_of, line_effect, starts_from, shows, answers, engine_says, dies, classify, begins_epoch as epoch_begun, quits as event_quits};
ghost use Rattle.desk_rules.specs.Orders.{orders_asked, asked_by_effect};
ghost use Rattle.desk_rules.specs.Fits.{IsNoLine, IsNoIfaceLine};

use crate::call::{is_boot, is_gone};
use crate::{AskedOrders, Context, Decision, Desk, Effect, EventEffect, Refusal};
use cecp_lines::{IfaceFault, IfaceMsg, Reason, read_iface};
use chess_board::Move;
use game_record::Game;
use line_io::Event;
use option_map::{HeldOrders, SetupOrder};
use protocol_tokens::{GoKind, is_quit};
use search_epochs::EngineState;
use uci_lines::{EngineMsg, answer_text, read_engine};

fn is_getting(engine: EngineState) -> bool
    ensures { result ≡ is_getting engine }
{
    matches!(engine, EngineState::Getting)
}

fn is_setting(message: &IfaceMsg) -> bool
    ensures { result ≡ is_setting (message_of message.now) }
{
    matches!(
        message,
        IfaceMsg::SetOption { name: _, value: _ }
            | IfaceMsg::Memory(_)
            | IfaceMsg::Cores(_)
            | IfaceMsg::EgtPath { kind: _, path: _ }
    )
}

// The kind of the open search, if it is current.
fn current(engine: EngineState) -> Option<GoKind>
    ensures { result ≡ current engine }
{
    match engine {
        EngineState::Search {
            kind,
            stale: false,
            stopped: _,
        } => Some(kind),
        _ => None,
    }
}

// The engine ends, or a write to it failed.
fn dies(engine: EngineState) -> Effect<'static>
    ensures effect { effect_of result ≡ dies engine }
    ensures kind { IsNoLine (effect_of result) }
{
    if is_gone(engine) {
        Effect::Nothing
    } else {
        Effect::Dies
    }
}

fn refused(reason: Reason, line: &[u8]) -> Effect<'_>
    ensures effect { effect_of result ≡ Refuses (refusals.Because reason) line.now }
{
    Effect::Refuses {
        refusal: Refusal::Because(reason),
        line,
    }
}

// A current search for a Move is answered by a line.
fn shows<'a>(game: &Game, line: &'a [u8], best: Option<Move>, hint: Option<Move>) -> Effect<'a>
    ensures effect { effect_of result ≡ shows game.now line.now best hint }
    ensures kind { IsNoLine (effect_of result) }
{
    let Some(best) = best else {
        return Effect::Forfeits(answer_text(line));
    };
    if game.now().legal(best) {
        Effect::Shows { best, hint }
    } else {
        Effect::Forfeits(answer_text(line))
    }
}

fn answers<'a>(
    engine: EngineState,
    game: &Game,
    line: &'a [u8],
    best: Option<Move>,
    hint: Option<Move>,
) -> Effect<'a>
    ensures effect { effect_of result ≡ answers engine game.now line.now best hint }
    ensures kind { IsNoLine (effect_of result) }
{
    match engine {
        EngineState::Search {
            kind: GoKind::Move,
            stale: false,
            stopped: _,
        } => shows(game, line, best, hint),
        EngineState::Search {
            kind: _,
            stale: _,
            stopped: _,
        } => Effect::Answers,
        _ => Effect::Nothing,
    }
}

impl Desk {
    // The effect of a message of the engine in an open session.
    fn engine_says<'a>(&self, context: Context, line: &'a [u8]) -> Effect<'a>
        ensures effect { effect_of result
            ≡ engine_says (at context self.now) line.now (engine_message line.now) }
        ensures kind { IsNoLine (effect_of result) }
    {
        match read_engine(line) {
            EngineMsg::Name(text) if is_boot(context.engine) => Effect::Names(text),
            EngineMsg::OptionLine(option) if is_boot(context.engine) => Effect::Declares(option),
            EngineMsg::UciOk if is_boot(context.engine) => Effect::Boots,
            EngineMsg::ReadyOk if is_getting(context.engine) => Effect::Readies,
            EngineMsg::Info(info) => match current(context.engine) {
                Some(kind) => Effect::Thinks { kind, info },
                None => Effect::Nothing,
            },
            EngineMsg::Best { best, hint } => {
                answers(context.engine, &self.game, line, best, hint)
            }
            _ => Effect::Nothing,
        }
    }

    // True if an accepted line begins an epoch; `asks` is what it asks for.
    #[tactic(auto, unfolding(crate::specs::Lines::is_epoch_line))]
    fn begins_epoch(&self, context: Context, message: &IfaceMsg, asks: &Option<SetupOrder>) -> bool
        ensures { result
            ≡ is_epoch_line (owes_move (at context self.now)) (option_map setup_seen asks.now)
            (message_of message.now) }
    {
        match message {
            IfaceMsg::New
            | IfaceMsg::Force
            | IfaceMsg::Go
            | IfaceMsg::PlayOther
            | IfaceMsg::UserMove(_)
            | IfaceMsg::Undo
            | IfaceMsg::Remove
            | IfaceMsg::SetBoard(_)
            | IfaceMsg::Analyze
            | IfaceMsg::Exit
            | IfaceMsg::Result => true,
            IfaceMsg::Hard | IfaceMsg::Easy => !self.owes_move(context),
            IfaceMsg::SetOption { name: _, value: _ }
            | IfaceMsg::Memory(_)
            | IfaceMsg::Cores(_)
            | IfaceMsg::EgtPath { kind: _, path: _ } => asks.is_some() && !self.owes_move(context),
            _ => false,
        }
    }

    // True if a line sets an option while no option counts, and such lines are to wait.
    fn is_early(&self, context: Context, message: &IfaceMsg) -> bool
        ensures { result ≡ is_early (at context self.now) (message_of message.now) }
    {
        is_setting(message) && is_boot(context.engine) && context.settings.early_settings
    }

    // An early line waits, unless too many do.
    fn defer<'l>(&self, line: &'l [u8]) -> Effect<'l>
        ensures effect { effect_of result
            ≡ line_effect (early_verdict (may_wait self.now.early line.now)) line.now }
        ensures kind { IsNoLine (effect_of result) }
    {
        if self.early.fits(line) {
            Effect::Defers(line)
        } else {
            refused(Reason::TooManySettings, line)
        }
    }

    // The decision by an effect that obeys no line.
    #[tactic(auto, unfolding(crate::specs::Orders::asked_by_effect))]
    fn decision<'l, 's>(&'s self, effect: Effect<'l>, quits: bool) -> Decision<'l, 's>
        requires { IsNoLine (effect_of effect) }
        ensures effect { effect_of result.event_effect.effect ≡ effect_of effect.entry }
        ensures start { result.event_effect.start ≡ starts_from (effect_of effect.entry) }
        ensures asks { (s : AnyContext) → orders_asked result.asks
            ≡ asked_by_effect (at s self.now) (effect_of effect.entry) }
        ensures epoch { (s : AnyContext) → result.event_effect.begins_epoch
            ≡ epoch_begun (at s self.now) (effect_of effect.entry) }
        ensures quits { result.event_effect.quits ≡ quits }
    {
        let asks = match effect {
            Effect::Boots => AskedOrders::AtBoot(self),
            _ => AskedOrders::One(None),
        };
        let event_effect = EventEffect {
            effect,
            start: None,
            begins_epoch: matches!(effect, Effect::Shows { best: _, hint: _ }),
            quits,
        };
        Decision { event_effect, asks }
    }

    // Decides what comes of a line of the interface in an open session.
    #[tactic(auto, unfolding(crate::specs::Lines::line_verdict), using(cecp_lines::proofs::Quits::quit_first))]
    fn decide_line<'l: 's, 's>(
        &'s self,
        context: Context,
        held: &HeldOrders,
        line: &'l [u8],
    ) -> Decision<'l, 's>
        ensures effect { effect_of result.event_effect.effect
            ≡ line_effect (line_verdict (at context self.now) held.now line.now
            (message_or_fault line.now))
            line.now }
        ensures start { result.event_effect.start ≡ starts_from (effect_of
            result.event_effect.effect) }
        ensures asks { orders_asked result.asks
            ≡ asked_by_effect (at context self.now) (effect_of result.event_effect.effect) }
        ensures epoch { result.event_effect.begins_epoch
            ≡ epoch_begun (at context self.now) (effect_of result.event_effect.effect) }
        ensures quits { result.event_effect.quits ≡ is_quit line.now }
    {
        let message = match read_iface(line) {
            Ok(message) => message,
            Err(IfaceFault::UnknownCommand) => {
                return self.decision(refused(Reason::UnknownCommand, line), false);
            }
            Err(IfaceFault::BadArgument) => {
                return self.decision(refused(Reason::BadArgument, line), false);
            }
        };
        if self.is_early(context, &message) {
            return self.decision(self.defer(line), matches!(message, IfaceMsg::Quit));
        }
        self.decide_message(context, held, message, line)
    }

    // Decides what comes of a message that is not early, by its line.
    #[tactic(auto, unfolding(crate::specs::Orders::asked_by_effect))]
    fn decide_message<'l: 's, 's>(
        &'s self,
        context: Context,
        held: &HeldOrders,
        message: IfaceMsg<'l>,
        line: &'l [u8],
    ) -> Decision<'l, 's>
        ensures effect { effect_of result.event_effect.effect
            ≡ line_effect (verdict_on (message_of message.entry)
            (refusal (at context self.now) held.now (message_of message.entry))) line.now }
        ensures start { result.event_effect.start ≡ starts_from (effect_of
            result.event_effect.effect) }
        ensures asks { orders_asked result.asks
            ≡ asked_by_effect (at context self.now) (effect_of result.event_effect.effect) }
        ensures epoch { result.event_effect.begins_epoch
            ≡ epoch_begun (at context self.now) (effect_of result.event_effect.effect) }
        ensures quits { result.event_effect.quits ≡ is_quit_message (Ok (message_of
            message.entry)) }
    {
        let quits = matches!(message, IfaceMsg::Quit);
        let message_needs = self.message_needs(context.engine, &message);
        if let Some(refusal) = self.refusal(context, held, &message, &message_needs) {
            return self.decision(Effect::Refuses { refusal, line }, quits);
        }
        let event_effect = EventEffect {
            effect: Effect::Accepts(message),
            start: message_needs.start,
            begins_epoch: self.begins_epoch(context, &message, &message_needs.asks),
            quits,
        };
        let asks = AskedOrders::One(message_needs.asks);
        Decision { event_effect, asks }
    }

    // The effect of an event that is no line of the interface.
    #[tactic(auto, unfolding(crate::specs::Steps::classify))]
    fn classify<'a>(&self, context: Context, event: &Event<'a>) -> Effect<'a>
        requires { IsNoIfaceLine (event_of event.now) }
        ensures effect { (held : List Order) → effect_of result
            ≡ classify (at context self.now) held (event_of event.now) }
        ensures kind { IsNoLine (effect_of result) }
    {
        match *event {
            Event::Open => Effect::Opens,
            Event::IfaceLong if !context.closed => Effect::LongLine,
            Event::Engine(line) if !context.closed => self.engine_says(context, line),
            Event::EngineEnd | Event::EngineLost => dies(context.engine),
            _ => Effect::Nothing,
        }
    }

    /// Decides what comes of an event: each line is read once, and what it asks for is looked up once.
    #[tactic(auto, unfolding(crate::specs::Steps::classify))]
    pub fn decide<'l: 's, 's>(
        &'s self,
        context: Context,
        held: &HeldOrders,
        event: &Event<'l>,
    ) -> Decision<'l, 's>
        ensures effect { effect_of result.event_effect.effect
            ≡ classify (at context self.now) held.now (event_of event.now) }
        ensures start { result.event_effect.start ≡ starts_from (effect_of
            result.event_effect.effect) }
        ensures asks { orders_asked result.asks
            ≡ asked_by_effect (at context self.now) (effect_of result.event_effect.effect) }
        ensures epoch { result.event_effect.begins_epoch
            ≡ epoch_begun (at context self.now) (effect_of result.event_effect.effect) }
        ensures quits { result.event_effect.quits ≡ event_quits (event_of event.now) }
    {
        match event {
            Event::Iface(line) => {
                if context.closed {
                    self.decision(Effect::Nothing, is_quit(line))
                } else {
                    self.decide_line(context, held, line)
                }
            }
            _ => self.decision(self.classify(context, event), false),
        }
    }
}
