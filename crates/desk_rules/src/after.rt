// The desk after an event, and the lines to the interface.
ghost use Rattle.std.specs.Prelude.{◌≡◌, ◌+◌, ◌*◌, ◌<◌, ◌≤◌, ◌&&◌, length, cond, [], true, false, None};
ghost use Rattle.line_io.specs.Out.{empty, with};
ghost use Rattle.cecp_lines.specs.Messages.{message_of};
ghost use Rattle.cecp_lines.specs.Reading.{CanBeRead};
ghost use Rattle.uci_lines.specs.Info.{info_of};
ghost use Rattle.uci_lines.specs.Messages.{Info as Heard};
ghost use Rattle.game_record.specs.declared.game.TheConstants.{MOST_PLIES};
ghost use Rattle.game_record.specs.Game.{ply_of, current_position, with_ply, IsPlayablePly};
ghost use Rattle.think_text.specs.Line.{InfoIsHeard};
ghost use Rattle.think_text.specs.Kept.{after_info, nothing_seen};
ghost use Rattle.think_text.specs.Last.{last_after};
ghost use Rattle.option_map.specs.FeatureLists.Features.{reply_lines};
ghost use Rattle.desk_rules.specs.Desk.{at, is_boot};
ghost use Rattle.desk_rules.specs.Lines.{position_set_up, change};
ghost use Rattle.desk_rules.specs.Steps.{effect_of, starts_from, hint_after, searched_by, resigns_at_end, shown_thinking, feature_style, owes_when_gone, over_where, desk_with_move, desk_after_effect, answers_pings};
ghost use Rattle.desk_rules.specs.Replies.{row_accepted, given_up_where, thinking_replies, repeated_thinking, shown_row, boot_row, end_row, reply_row, pongs};
ghost use Rattle.desk_rules.specs.Early.{EarlyLinesAreFew};
ghost use Rattle.desk_rules.specs.Fits.{IsHintPlayable, DeskInvariant, IsFit, IsServed, IsSaid, CanChange};
ghost use Rattle.desk_rules.specs.declared.sizes.TheConstants.{BOOT_REPLIES, ENGINE_END, FEATURE_LIST, OBEYED, SHORT_REPLY, STEP_REPLIES, SHOWN_MOVE, THINKING_LINE};
ghost use Rattle.desk_rules.specs.declared.pings.TheConstants.{MOST_PINGS};

use crate::answers::{
    named_hint, put_again, put_error, put_forfeit, put_given_up_where, put_pongs, put_refused,
    put_shown, put_thinking, spelling_of,
};
use crate::call::{has_ended, is_boot};
use crate::{Context, Desk, Effect, EventEffect, Mode};
use cecp_lines::{IfaceMsg, Reason};
use chess_board::{Move, Position};
use game_record::Game;
use line_io::Out;
use option_map::{FeatureNegotiation, FeatureStyle};
use policy_rules::Settings;
use protocol_tokens::GoKind;
use think_text::SearchInfo;
use uci_lines::Info;

// The hint of a shown move counts if it is legal after that move.
fn hint_after(game: &Game, hint: Option<Move>) -> Option<Move>
    ensures { result ≡ hint_after game.now hint }
{
    match hint {
        Some(m) => { if game.now().legal(m) { Some(m) } else { None } }
        None => None,
    }
}

// How the options and the name of the engine are shown.
fn feature_style(settings: Settings) -> FeatureStyle
    ensures { result ≡ feature_style settings }
{
    FeatureStyle {
        strength: settings.strength_options,
        plain: settings.plain_texts,
        paths: settings.path_options,
    }
}

fn over_where(over: bool, mode: Mode) -> Mode
    ensures { result ≡ over_where over mode }
{
    if over { Mode::Over } else { mode }
}

// The position after a move that can be played.
pub(crate) fn position_after(game: &Game, m: Move) -> Position
    requires { IsPlayablePly (current_position game.now) (ply_of m) }
    ensures { result ≡ current_position (with_ply game.now (ply_of m)) }
{
    game.now().play(m)
}

// In a closed session it stays as it is.
fn leave_boot(due: &mut FeatureNegotiation, closed: bool)
    ensures { due.new ≡ (due.old && closed) }
{
    if !closed {
        due.left_boot();
    }
}

impl Desk {
    // The position that an open search of this kind searches.
    pub(crate) fn searched(&self, kind: GoKind) -> Position
        requires { IsHintPlayable self.now }
        ensures { result ≡ current_position (searched_by kind self.now.game self.now.hint) }
    {
        match (kind, self.hint) {
            (GoKind::Ponder, Some(hint)) => position_after(&self.game, hint),
            _ => *self.game.now(),
        }
    }

    // True if the game is given up when the engine ends.
    pub(crate) fn resigns_at_end(&self, context: Context) -> bool
        ensures { result ≡ resigns_at_end (at context self.now) }
    {
        self.owes_move(context) && !context.closed
    }

    // Obeys a line; `start` is the position that it sets up.
    fn obey(&mut self, context: Context, message: &IfaceMsg, start: Option<Position>, out: &mut Out)
        requires start { start ≡ position_set_up (message_of message.now) }
        requires sound { DeskInvariant self.old }
        requires change { CanChange self.old (message_of message.now) }
        requires read { CanBeRead (message_of message.now) }
        requires room { length out.old.text + OBEYED ≤ out.old.room }
        ensures desk { self.new
            ≡ change (is_boot context.engine) self.old (message_of message.now) }
        ensures lines { out.new
            ≡ with out.old
            (reply_lines (row_accepted (at context self.old) (message_of message.now))) }
        ensures short { length (reply_lines (row_accepted (at context self.old)
            (message_of message.now))) ≤ OBEYED }
    {
        self.put_before(context, message, out);
        self.change(is_boot(context.engine), message, start);
        self.put_after(message, out);
    }

    // Has the engine leave Boot.
    fn boot(&mut self, out: &mut Out)
        requires early { EarlyLinesAreFew self.old.early }
        requires room { length out.old.text + BOOT_REPLIES ≤ out.old.room }
        ensures desk { self.new ≡ record self.old { booted = true; due = false; early = [] } }
        ensures lines { out.new ≡ with out.old (reply_lines (boot_row self.old)) }
        ensures short { length (reply_lines (boot_row self.old)) ≤ BOOT_REPLIES }
    {
        self.put_due_list(true, out);
        self.early.put_refusals(&self.options, out);
        self.early.clear();
        self.booted = true;
        self.due.left_boot();
    }

    // Hears a current search.
    fn think(&mut self, context: Context, kind: GoKind, info: &Info, out: &mut Out)
        requires sound { DeskInvariant self.old }
        requires heard { InfoIsHeard (info_of info.now) }
        requires said { IsSaid (Heard (info_of info.now)) }
        requires room { length out.old.text + THINKING_LINE ≤ out.old.room }
        ensures desk { self.new
            ≡ record self.old {
              search_info = after_info self.old.search_info (info_of info.now)
                  (current_position (searched_by kind self.old.game self.old.hint));
              last_thinking = last_after self.old.last_thinking
                  (shown_thinking (at context self.old) kind (info_of info.now));
            } }
        ensures lines { out.new
            ≡ with out.old (reply_lines
            (thinking_replies (at context self.old) kind (info_of info.now))) }
        ensures short { length (reply_lines
            (thinking_replies (at context self.old) kind (info_of info.now)))
            ≤ THINKING_LINE }
    {
        let position = self.searched(kind);
        if self.shows_thinking(context, kind) {
            let hint = named_hint(kind, &self.game, self.hint);
            put_thinking(
                spelling_of(context.settings),
                info,
                &position,
                hint,
                &mut self.last_thinking,
                out,
            );
        }
        self.search_info.hear(info, &position);
    }

    // Shows a move, and plays it.
    fn show(&mut self, context: Context, best: Move, hint: Option<Move>, out: &mut Out)
        requires legal { IsPlayablePly (current_position self.old.game) (ply_of best) }
        requires moves { length self.old.game.moves < MOST_PLIES }
        requires room { length out.old.text + SHOWN_MOVE ≤ out.old.room }
        ensures desk { self.new ≡ desk_with_move (at context self.old) best hint }
        ensures lines { out.new
            ≡ with out.old (reply_lines (shown_row (at context self.old) best)) }
        ensures short { length (reply_lines (shown_row (at context self.old) best)) ≤ SHOWN_MOVE }
    {
        self.game.play(best);
        let resigns = context.resigns && !has_ended(self.game.ended());
        self.hint = hint_after(&self.game, hint);
        self.mode = over_where(resigns, self.mode);
        put_shown(best, &self.game, resigns, out);
    }

    fn lose_engine(&mut self, context: Context, out: &mut Out)
        requires room { length out.old.text + ENGINE_END ≤ out.old.room }
        ensures desk { self.new
            ≡ record self.old {
              mode = over_where
                  (resigns_at_end (at context self.old)) self.old.mode;
              due = self.old.due && context.closed;
              early = [];
            } }
        ensures lines { out.new ≡ with out.old (reply_lines (end_row (at context self.old))) }
        ensures short { length (reply_lines (end_row (at context self.old))) ≤ ENGINE_END }
    {
        let resigns = self.resigns_at_end(context);
        self.put_end(resigns, context.settings, out);
        self.mode = over_where(resigns, self.mode);
        leave_boot(&mut self.due, context.closed);
        self.early.clear();
    }

    // Writes the lines of an effect, except pongs, and changes the desk.
    #[tactic(auto, unfolding(crate::specs::Steps::desk_after_effect, crate::specs::Replies::reply_row))]
    fn follow(&mut self, context: Context, effect: &Effect, start: Option<Position>, out: &mut Out)
        requires start { start ≡ starts_from (effect_of effect.now) }
        requires sound { DeskInvariant self.old }
        requires fits { IsFit (at context self.old) (effect_of effect.now) }
        requires served { IsServed (at context self.old) }
        requires pings { length self.old.pings ≤ MOST_PINGS }
        requires room { length out.old.text + STEP_REPLIES ≤ out.old.room }
        ensures desk { self.new ≡ desk_after_effect (at context self.old) (effect_of effect.now) }
        ensures lines { out.new
            ≡ with out.old (reply_lines (reply_row (at context self.old) (effect_of effect.now))) }
        ensures short { length (reply_lines (reply_row (at context self.old) (effect_of
            effect.now)))
            ≤ STEP_REPLIES }
    {
        match effect {
            Effect::Refuses { refusal, line } => put_refused(*refusal, line, out),
            Effect::LongLine => put_error(Reason::LineTooLong, b"...", out),
            Effect::Accepts(message) => self.obey(context, message, start, out),
            Effect::Defers(line) => self.early.add(line),
            Effect::Names(text) => self.name.set(feature_style(context.settings), text),
            Effect::Declares(option) => {
                self.options
                    .declare(option, feature_style(context.settings));
            }
            Effect::Boots => self.boot(out),
            Effect::Thinks { kind, info } => self.think(context, *kind, info, out),
            Effect::Shows { best, hint } => self.show(context, *best, *hint, out),
            Effect::Forfeits(answer) => {
                put_forfeit(context.settings, &self.game, answer, out);
                self.mode = Mode::Over;
            }
            Effect::Dies => self.lose_engine(context, out),
            _ => {}
        }
    }

    /// Writes the lines of a decided effect, except pongs, none if the session is closed then, and changes the desk.
    pub fn commit(
        &mut self,
        context: Context,
        event_effect: &EventEffect,
        closed: bool,
        out: &mut Out,
    )
        requires sound { DeskInvariant self.old }
        requires start { event_effect.now.start ≡ starts_from (effect_of event_effect.now.effect) }
        requires fits { IsFit (at context self.old) (effect_of event_effect.now.effect) }
        requires served { IsServed (at context self.old) }
        requires pings { length self.old.pings ≤ MOST_PINGS }
        requires empty { out.old ≡ empty out.old.room }
        requires room { STEP_REPLIES ≤ out.old.room }
        ensures desk { self.new
            ≡ desk_after_effect (at context self.old) (effect_of event_effect.now.effect) }
        ensures lines { out.new
            ≡ with out.old
            (reply_lines
            (cond closed [] (reply_row (at context self.old) (effect_of
            event_effect.now.effect)))) }
        ensures short { length out.new.text ≤ STEP_REPLIES }
    {
        self.follow(context, &event_effect.effect, event_effect.start, out);
        if closed {
            out.clear();
        }
    }

    /// Gives up for an engine that is gone and owes a move, if the settings say so.
    pub fn resign_when_gone(&mut self, settings: Settings, closed: bool, gone: bool, out: &mut Out)
        requires room { length out.old.text + SHORT_REPLY ≤ out.old.room }
        ensures lines { out.new
            ≡ with out.old
            (reply_lines (given_up_where
            (settings.resign_when_gone && owes_when_gone closed gone self.old)
            settings self.old.game)) }
        ensures room { length out.new.text ≤ length out.old.text + SHORT_REPLY }
        ensures desk { self.new
            ≡ record self.old {
              mode = over_where (settings.resign_when_gone && owes_when_gone closed gone self.old)
                  self.old.mode;
            } }
    {
        let resigns = settings.resign_when_gone && gone && self.calls_move(closed, false);
        put_given_up_where(resigns, settings, &self.game, out);
        self.mode = over_where(resigns, self.mode);
    }

    /// Shows the last thinking line of the search once more, if the settings say so and `ponderhit` is written.
    pub fn repeat_thinking(&self, settings: Settings, hits: bool, out: &mut Out)
        requires room { hits ≡ true → length out.old.text + THINKING_LINE ≤ out.old.room }
        ensures lines { out.new
            ≡ with out.old
            (reply_lines (repeated_thinking (settings.repeat_thinking && hits)
            self.now.last_thinking)) }
        ensures short { length (reply_lines (repeated_thinking (settings.repeat_thinking && hits)
            self.now.last_thinking)) ≤ THINKING_LINE }
    {
        put_again(settings.repeat_thinking && hits, &self.last_thinking, out);
    }

    /// Answers the pings unless a Move is owed or the session is closed, and clears the kept values of an epoch that is
    /// over, and the early lines of a session that is closed.
    pub fn finish(&mut self, closed: bool, owes: bool, clears: bool, out: &mut Out)
        requires { length out.old.text + 16 * length self.old.pings ≤ out.old.room }
        ensures lines { out.new
            ≡ with out.old (reply_lines (pongs (answers_pings closed owes) self.old.pings)) }
        ensures room { length out.new.text ≤ length out.old.text + 16 * length self.old.pings }
        ensures desk { self.new
            ≡ record self.old {
              pings = cond (answers_pings closed owes) [] self.old.pings;
              early = cond closed [] self.old.early;
              search_info = cond clears nothing_seen self.old.search_info;
              last_thinking = cond clears None self.old.last_thinking;
            } }
    {
        if clears {
            self.search_info = SearchInfo::new();
            self.last_thinking.clear();
        }
        if closed {
            self.early.clear();
        }
        if !closed && !owes {
            put_pongs(self.pings.numbers(), out);
            self.pings.clear();
        }
    }
}
