// The core of a session.
ghost use Rattle.std.specs.Prelude.{◌≡◌, ◌≤◌, ◌<◌, [], length, true, IfOk};
ghost use Rattle.std.specs.Borrow.{sem};
ghost use Rattle.line_io.specs.Event.{event_of};
ghost use Rattle.line_io.specs.Out.{empty};
ghost use Rattle.policy_rules.specs.SettingRules.Policy.{IsProper};
ghost use Rattle.desk_rules.specs.Desk.{at};
ghost use Rattle.desk_rules.specs.Steps.{effect_of, starts_from, begins_epoch as epoch_begun, classify, quits as quits_by};
ghost use Rattle.adapter_core.specs.Ends.{may, are_both_ended};
ghost use Rattle.adapter_core.specs.Parts.{opening_core_parts, situation_of_parts, CoreCanFollow, IsReadyFor};
ghost use Rattle.line_io.specs.declared.limits.TheConstants.{SCRIPT_LINE};
ghost use Rattle.adapter_core.specs.declared.session.TheConstants.{ALL_REPLIES, ROOM};
ghost use Rattle.desk_rules.specs.declared.sizes.TheConstants.{STEP_ORDERS};

use crate::Ends;
use crate::steps::{
    StepStage, choose, is_hit, is_move, is_open, is_unsent, put_orders, release, seen_call,
};
use desk_rules::{Context, Desk, Effect, EventEffect, STEP_REPLIES, is_gone};
use game_record::Game;
use line_io::{Event, NoMemory, Out, SCRIPT_LINE};
use option_map::HeldOrders;
use policy_rules::{Scores, Settings};
use search_epochs::{Dialogue, EngineState};
use std::alloc::Global;
use std::marker::Model;

/// The room of the lines to a peer.
pub(crate) const ROOM: usize = SCRIPT_LINE;

/// The replies of a step with its pongs have at most so many bytes.
pub(crate) const ALL_REPLIES: usize = STEP_REPLIES + 2_000;

// The parts of the core.
#[derive(Drop)]
pub(crate) struct CoreParts {
    settings: Settings,
    ends: Ends,
    desk: Desk,
    scores: Scores,
    held: HeldOrders,
    dialogue: Dialogue,
    to_iface: Out,
    to_engine: Out,
}

impl CoreParts {
    ghost use Rattle.adapter_core.specs.Parts.{advance, advance_from};

    // The context of the desk.
    fn context(&self) -> Context
        ensures { at result self.now.desk ≡ situation_of_parts self.now }
    {
        let mut next = self.scores;
        next.shown(self.desk.search_info.score);
        Context {
            settings: self.settings,
            closed: self.ends.closed,
            engine: self.dialogue.state(),
            spent: self.dialogue.is_spent(),
            resigns: next.resigns(),
            accepts: self.scores.accepts_draw(),
        }
    }

    // Takes an event: what comes of it is decided, and what it asks for joins what is held.
    #[tactic(auto, unfolding(crate::specs::Parts::advance))]
    fn take(&mut self, event: &Event)
        requires ready { IsReadyFor (situation_of_parts self.old) self.old
            (classify (situation_of_parts self.old) self.old.held (event_of event.now)) }
        ensures after { self.new ≡ advance self.old (event_of event.now) }
        ensures iface { length self.new.to_iface.text ≤ ALL_REPLIES }
        ensures engine { length self.new.to_engine.text ≤ STEP_ORDERS }
    {
        self.to_iface.clear();
        self.to_engine.clear();
        let context = self.context();
        let decision = self.desk.decide(context, &self.held, event);
        decision.asks.hold(&mut self.held);
        let event_effect = decision.event_effect;
        // Read for the proof alone, which then knows the type.
        let _effect: Effect = event_effect.effect;
        event_effect.hear(&mut self.dialogue);
        self.go_on(context, &event_effect, event);
    }

    // Goes on from what was decided, what is held and what the dialogue is then.
    fn go_on(&mut self, context: Context, event_effect: &EventEffect, event: &Event)
        requires follow { CoreCanFollow (at context self.old.desk) (effect_of
            event_effect.now.effect) }
        requires to_iface { self.old.to_iface ≡ empty ROOM }
        requires to_engine { self.old.to_engine ≡ empty ROOM }
        requires start { event_effect.now.start ≡ starts_from (effect_of event_effect.now.effect) }
        requires epoch { event_effect.now.begins_epoch
            ≡ epoch_begun (at context self.old.desk) (effect_of event_effect.now.effect) }
        requires quits { event_effect.now.quits ≡ quits_by (event_of event.now) }
        ensures after { self.new
            ≡ advance_from (at context self.old.desk) (effect_of event_effect.now.effect)
            (event_of event.now) self.old self.old.held self.old.dialogue }
        ensures iface { length self.new.to_iface.text ≤ ALL_REPLIES }
        ensures engine { length self.new.to_engine.text ≤ STEP_ORDERS }
    {
        let effect = &event_effect.effect;
        let closed_before = self.ends.closed;
        self.ends = self.ends.after(event, event_effect.quits);
        let stage = StepStage {
            opens: is_open(event),
            closed_before,
            closed: self.ends.closed,
            gone: is_gone(context.engine) || effect.is_death(),
        };
        effect.count(&mut self.scores, self.desk.search_info.score);
        self.desk
            .commit(context, event_effect, stage.closed, &mut self.to_iface);
        let call = seen_call(&self.desk, self.dialogue.state(), stage);
        let owes = is_move(self.dialogue.owed(call));
        let unsent = is_unsent(context.settings, &self.held, effect, &self.dialogue, call);
        let orders = choose(&mut self.dialogue, stage, call, unsent, effect);
        let hits = is_hit(orders);
        let clears = event_effect.begins_epoch && !hits;
        self.desk.resign_when_gone(
            context.settings,
            stage.closed,
            stage.gone,
            &mut self.to_iface,
        );
        self.desk
            .repeat_thinking(context.settings, hits, &mut self.to_iface);
        self.desk
            .finish(stage.closed, owes, clears, &mut self.to_iface);
        put_orders(
            context.settings,
            stage,
            &self.held,
            &self.desk,
            orders,
            &mut self.to_engine,
        );
        release(&mut self.held, orders);
    }
}

/// The core of a session: it takes what happens, and gives the lines to both peers.
#[derive(Drop)]
pub struct Core {
    parts: CoreParts,
}

impl Model for Core {
    ghost use Rattle.adapter_core.specs.Parts.{CoreParts as AnyParts};
    ghost use Rattle.adapter_core.specs.Represents.{CoreInvariant};

    ghost Value = { AnyParts };

    ghost view = { λ c. c.parts };

    ghost invariant = { λ c. CoreInvariant c.parts };
}

/// The output of a step to both peers: whole lines, each with its line feed.
#[derive(Clone, Copy)]
pub struct Step<'a> {
    pub iface: &'a [u8],
    pub engine: &'a [u8],
}

impl Core {
    ghost use Rattle.adapter_core.specs.Represents.{Represents, Extends, IsWholeLines};
    ghost use Rattle.adapter_core.specs.Lending.{StepsOn};

    /// A core before its first step. It takes all memory that it ever uses.
    pub fn make(alloc: Global, settings: &Settings) -> Result<Core, NoMemory>
        requires { IsProper settings.now }
        ensures new { IfOk result (λ core. core ≡ opening_core_parts settings.now) }
        ensures stands { IfOk result (λ core. Represents settings.now core []) }
    {
        let parts = make_parts(alloc, *settings)?;
        Ok(Core { parts })
    }

    /// The settings.
    pub fn settings(&self) -> Settings
        ensures { result ≡ self.now.settings }
    {
        self.parts.settings
    }

    /// Chooses other settings, before the first step.
    pub fn set(&mut self, settings: &Settings)
        requires proper { IsProper settings.now }
        requires new { Represents self.old.settings self.old [] }
        ensures settings { self.new.settings ≡ settings.now }
        ensures stands { Represents settings.now self.new [] }
    {
        self.parts.settings = *settings;
        self.parts.scores = Scores::new(settings);
    }

    /// True if the event may come.
    pub fn may(&self, event: &Event) -> bool
        ensures { result ≡ may self.now.ends (event_of event.now) }
    {
        self.parts.ends.may(event)
    }

    /// One step: for each lawful trace that the core stands for, the lines extend it.
    pub fn step<'a>(&'a mut self, event: &Event) -> Step<'a>
        requires { may self.old.ends (event_of event.now) ≡ true }
        ensures* steps { sem 𝓛 (StepsOn self.entry (event_of event.now) result) }
        ensures iface_room { length result.iface.now < SCRIPT_LINE }
        ensures engine_room { length result.engine.now < SCRIPT_LINE }
        ensures iface_lines { IsWholeLines result.iface.now }
        ensures engine_lines { IsWholeLines result.engine.now }
    {
        self.advance(event);
        self.lines()
    }

    /// One step, whose lines `lines` gives until the next one.
    pub fn advance(&mut self, event: &Event)
        requires { may self.old.ends (event_of event.now) ≡ true }
        ensures extends { Extends self.old self.new
            (event_of event.now) self.new.to_iface.text self.new.to_engine.text }
        ensures iface_room { length self.new.to_iface.text < SCRIPT_LINE }
        ensures engine_room { length self.new.to_engine.text < SCRIPT_LINE }
        ensures iface_lines { IsWholeLines self.new.to_iface.text }
        ensures engine_lines { IsWholeLines self.new.to_engine.text }
    {
        self.take(event);
    }

    /// The output of the last step to both peers; nothing before the first one.
    pub fn lines(&self) -> Step<'_>
        ensures iface { result.iface.now ≡ self.now.to_iface.text }
        ensures engine { result.engine.now ≡ self.now.to_engine.text }
    {
        Step {
            iface: self.parts.to_iface.bytes(),
            engine: self.parts.to_engine.bytes(),
        }
    }

    /// The game, with all moves that were entered and shown.
    pub fn game(&self) -> &Game
        ensures { result.now ≡ self.now.desk.game }
    {
        &self.parts.desk.game
    }

    /// The state of the engine: an open search is stale if its ticket is not the epoch.
    pub fn engine(&self) -> EngineState
        ensures { result ≡ self.now.dialogue.state }
    {
        self.parts.dialogue.state()
    }

    /// True if both sides have ended.
    pub fn over(&self) -> bool
        ensures { result ≡ are_both_ended self.now.ends }
    {
        self.parts.ends.iface && self.parts.ends.engine
    }

    fn take(&mut self, event: &Event)
        requires { may self.old.ends (event_of event.now) ≡ true }
        ensures extends { Extends self.old self.new
            (event_of event.now) self.new.to_iface.text self.new.to_engine.text }
        ensures iface { length self.new.to_iface.text ≤ ALL_REPLIES }
        ensures engine { length self.new.to_engine.text ≤ STEP_ORDERS }
    {
        self.parts.take(event);
    }
}

fn make_parts(alloc: Global, settings: Settings) -> Result<CoreParts, NoMemory>
    ensures { IfOk result (λ parts. parts ≡ opening_core_parts settings) }
{
    let to_iface = Out::make(alloc, ROOM)?;
    let to_engine = Out::make(alloc, ROOM)?;
    let held = HeldOrders::make(alloc)?;
    let desk = Desk::make(alloc)?;
    Ok(CoreParts {
        settings,
        ends: Ends {
            opened: false,
            iface: false,
            engine: false,
            iface_lost: false,
            engine_lost: false,
            closed: false,
        },
        desk,
        scores: Scores::new(&settings),
        held,
        dialogue: Dialogue::new(),
        to_iface,
        to_engine,
    })
}

ghost use Rattle.adapter_core.specs.Represents.{IsOneDialogue, IsSilentToIface, IsSilentToEngine};

/// A law: two lawful traces with the same settings and the same events are equal.
pub fn one_dialogue(settings: Settings)
    ensures { IsOneDialogue settings }
{
    let _ = settings;
}

/// A law: in a lawful trace nothing is written to a side that has ended or was lost.
pub fn ended_sides_get_nothing(settings: Settings)
    ensures iface { IsSilentToIface settings }
    ensures engine { IsSilentToEngine settings }
{
    let _ = settings;
}
