// The lines to the interface.
ghost use Rattle.std.specs.Prelude.{◌≡◌, ◌+◌, ◌*◌, ◌≤◌, ◌∷◌, ◌++◌, [], length, map, true, IfSome};
ghost use Rattle.std.specs.Option.{option_map, option_to_list};
ghost use Rattle.line_io.specs.Out.{with};
ghost use Rattle.cecp_lines.specs.Messages.{message_of};
ghost use Rattle.cecp_lines.specs.Replies.{reply_of, HasWritableMoves, IsWritable, borrowed_length, HasFieldRanges as HasNumbers};
ghost use Rattle.cecp_lines.specs.Losses.{loss_of, IsQuoted};
ghost use Rattle.cecp_lines.specs.Replies as cecp;
ghost use Rattle.cecp_lines.specs.declared.reply.UserError.TheVariants as user_error;
ghost use Rattle.uci_lines.specs.Info.{info_of};
ghost use Rattle.uci_lines.specs.Messages.{Info as SaysInfo};
ghost use Rattle.think_text.specs.Line.{thinking_line, IsPlayableAsHint as CanBePlayed};
ghost use Rattle.think_text.specs.Kept.{stat01_of};
ghost use Rattle.think_text.specs.Last.{last_after, with_hint};
ghost use Rattle.option_map.specs.WaitingOrders.Due.{protover_answer};
ghost use Rattle.option_map.specs.FeatureLists.Features.{feature_list, reply_line, reply_lines};
ghost use Rattle.desk_rules.specs.Desk.{at, table};
ghost use Rattle.desk_rules.specs.Steps.{shows_thinking, named_hint, spelling_of};
ghost use Rattle.desk_rules.specs.Replies.{refused, outcome_of, result_reply_by, result_reply_of, protover_row, offer_where, draw_row, hint_row, row_before, row_after, list_where, resign_where, given_up, given_up_where, forfeited, repeated_thinking};
ghost use Rattle.desk_rules.specs.Fits.{DeskInvariant, IsSaid, IsMoveWritable};
ghost use Rattle.line_io.specs.declared.limits.TheConstants.{PEER_LINE};
ghost use Rattle.desk_rules.specs.declared.sizes.TheConstants.{ENGINE_END, ERROR_REPLY, FEATURE_LIST, SHORT_REPLY, SHOWN_MOVE, THINKING_LINE};

use crate::call::{has_ended, is_boot, on_move, plays};
use crate::{Context, Desk, Refusal};
use cecp_lines::{
    IfaceMsg, Loss, Outcome, Reason, Reply, Spelling, UserError, quoted, write_reply,
};
use chess_board::{Move, Position, Side};
use game_record::{Game, GameEnd};
use line_io::Out;
use option_map::{write_bare_list, write_list};
use policy_rules::Settings;
use protocol_tokens::{GoKind, trim};
use think_text::{LastThinking, Pondered, SearchInfo, stat01};
use uci_lines::Info;

// Puts a reply and its line feed.
fn put_reply(reply: &Reply, out: &mut Out)
    requires moves { HasWritableMoves (reply_of reply.now) }
    requires room { length out.old.text + length (reply_line (reply_of reply.now)) ≤ out.old.room }
    ensures { out.new ≡ with out.old (reply_line (reply_of reply.now)) }
{
    write_reply(reply, out);
    out.put(b"\n");
}

// Puts a reply that borrows nothing.
fn put_short(reply: &Reply, out: &mut Out)
    requires moves { HasWritableMoves (reply_of reply.now) }
    requires numbers { HasNumbers (reply_of reply.now) }
    requires plain { borrowed_length (reply_of reply.now) ≡ 0 }
    requires room { length out.old.text + SHORT_REPLY ≤ out.old.room }
    ensures line { out.new ≡ with out.old (reply_lines (reply_of reply.now ∷ [])) }
    ensures short { length (reply_lines (reply_of reply.now ∷ [])) ≤ SHORT_REPLY }
{
    put_reply(reply, out);
}

// Puts an error, for which there may be no more room than it takes.
pub(crate) fn put_error_line(reason: Reason, line: &[u8], out: &mut Out)
    requires { length out.old.text + length (reply_lines (cecp.Error reason line.now ∷ []))
        ≤ out.old.room }
    ensures { out.new ≡ with out.old (reply_lines (cecp.Error reason line.now ∷ [])) }
{
    put_reply(&Reply::Error { reason, line }, out);
}

pub(crate) fn put_error(reason: Reason, line: &[u8], out: &mut Out)
    requires line { length line.now ≤ PEER_LINE }
    requires room { length out.old.text + ERROR_REPLY ≤ out.old.room }
    ensures line { out.new ≡ with out.old (reply_lines (cecp.Error reason line.now ∷ [])) }
    ensures short { length (reply_lines (cecp.Error reason line.now ∷ [])) ≤ ERROR_REPLY }
{
    put_reply(&Reply::Error { reason, line }, out);
}

// Refuses a line.
pub(crate) fn put_refused(refusal: Refusal, line: &[u8], out: &mut Out)
    requires moves { IsMoveWritable refusal }
    requires line { length line.now ≤ PEER_LINE }
    requires room { length out.old.text + ERROR_REPLY ≤ out.old.room }
    ensures line { out.new ≡ with out.old (reply_lines (refused refusal line.now ∷ [])) }
    ensures short { length (reply_lines (refused refusal line.now ∷ [])) ≤ ERROR_REPLY }
{
    match refusal {
        Refusal::Because(reason) => put_error(reason, trim(line), out),
        Refusal::IllegalMove(m) => put_short(&Reply::Illegal(m), out),
        Refusal::GameTooLong(m) => put_short(&Reply::IllegalLong(m), out),
        Refusal::IllegalPosition => put_short(&Reply::TellError(UserError::Position), out),
    }
}

fn outcome_of(side: Side, end: GameEnd) -> Outcome
    ensures { result ≡ outcome_of side end }
{
    match (side, end) {
        (Side::White, GameEnd::Mate) => Outcome::BlackMates,
        (Side::Black, GameEnd::Mate) => Outcome::WhiteMates,
        (_, GameEnd::Stale) => Outcome::Stalemate,
        (_, GameEnd::Dead) => Outcome::Dead,
        (_, GameEnd::Repetition) => Outcome::Repetition,
        (_, GameEnd::Fifty) => Outcome::Fifty,
    }
}

fn put_result(side: Side, end: Option<GameEnd>, out: &mut Out)
    requires { length out.old.text + SHORT_REPLY ≤ out.old.room }
    ensures line { out.new ≡ with out.old (reply_lines (result_reply_by side end)) }
    ensures short { length (reply_lines (result_reply_by side end)) ≤ SHORT_REPLY }
{
    if let Some(end) = end {
        put_short(&Reply::Result(outcome_of(side, end)), out);
    }
}

// Puts the result that a game has.
pub(crate) fn put_result_of(game: &Game, out: &mut Out)
    requires { length out.old.text + SHORT_REPLY ≤ out.old.room }
    ensures line { out.new ≡ with out.old (reply_lines (result_reply_of game.now)) }
    ensures short { length (reply_lines (result_reply_of game.now)) ≤ SHORT_REPLY }
{
    put_result(on_move(game), game.ended(), out);
}

fn put_resign(resigns: bool, out: &mut Out)
    requires { length out.old.text + SHORT_REPLY ≤ out.old.room }
    ensures line { out.new ≡ with out.old (reply_lines (resign_where resigns)) }
    ensures short { length (reply_lines (resign_where resigns)) ≤ SHORT_REPLY }
{
    if resigns {
        put_short(&Reply::Resign, out);
    }
}

// Gives up a game that the engine has lost: by `resign`, or by the result and its reason.
fn put_given_up(settings: Settings, game: &Game, loss: Loss, out: &mut Out)
    requires quoted { IsQuoted (loss_of loss) }
    requires room { length out.old.text + SHORT_REPLY ≤ out.old.room }
    ensures line { out.new
        ≡ with out.old (reply_lines (given_up settings game.now (loss_of loss.entry) ∷ [])) }
    ensures short { length (reply_lines (given_up settings game.now (loss_of loss.entry) ∷ []))
        ≤ SHORT_REPLY }
{
    if settings.result_reasons {
        let side = on_move(game);
        put_short(&Reply::Lost { side, loss }, out);
    } else {
        put_short(&Reply::Resign, out);
    }
}

// Gives up the game of an engine that has ended.
pub(crate) fn put_given_up_where(gives_up: bool, settings: Settings, game: &Game, out: &mut Out)
    requires { length out.old.text + SHORT_REPLY ≤ out.old.room }
    ensures line { out.new ≡ with out.old (reply_lines (given_up_where gives_up settings game.now)) }
    ensures short { length (reply_lines (given_up_where gives_up settings game.now))
        ≤ SHORT_REPLY }
{
    if gives_up {
        put_given_up(settings, game, Loss::Ended, out);
    }
}

fn put_offer(offers: bool, out: &mut Out)
    requires { length out.old.text + SHORT_REPLY ≤ out.old.room }
    ensures line { out.new ≡ with out.old (reply_lines (offer_where offers)) }
    ensures short { length (reply_lines (offer_where offers)) ≤ SHORT_REPLY }
{
    if offers {
        put_short(&Reply::OfferDraw, out);
    }
}

fn put_hint(hint: Option<Move>, out: &mut Out)
    requires hint { IfSome hint IsWritable }
    requires room { length out.old.text + SHORT_REPLY ≤ out.old.room }
    ensures line { out.new ≡ with out.old (reply_lines (hint_row hint)) }
    ensures short { length (reply_lines (hint_row hint)) ≤ SHORT_REPLY }
{
    if let Some(hint) = hint {
        put_short(&Reply::Hint(hint), out);
    }
}

fn put_stat(search_info: &SearchInfo, at: &Position, out: &mut Out)
    requires current { IfSome search_info.now.current IsWritable }
    requires room { length out.old.text + SHORT_REPLY ≤ out.old.room }
    ensures line { out.new ≡ with out.old (reply_lines (stat01_of search_info.now at.now ∷ [])) }
    ensures short { length (reply_lines (stat01_of search_info.now at.now ∷ [])) ≤ SHORT_REPLY }
{
    // Read for the proof alone: each number fits its type, so the line is short.
    let _depth = search_info.depth;
    let _time = search_info.time;
    let _nodes = search_info.nodes;
    let _number = search_info.number;
    stat01(search_info, at, out);
    out.put(b"\n");
}

// Puts the last thinking line, if there is one.
fn put_last(last: &LastThinking, hint: Option<Pondered>, out: &mut Out)
    requires hint { CanBePlayed hint }
    requires room { length out.old.text + THINKING_LINE ≤ out.old.room }
    ensures line { out.new
        ≡ with out.old (reply_lines (option_to_list (option_map (with_hint hint) last.now))) }
    ensures short { length (reply_lines (option_to_list (option_map (with_hint hint) last.now)))
        ≤ THINKING_LINE }
{
    if last.write(hint, out) {
        out.put(b"\n");
    }
}

// Puts the thinking line of a report, which is then the last one.
pub(crate) fn put_thinking(
    spelling: Spelling,
    info: &Info,
    at: &Position,
    hint: Option<Pondered>,
    last: &mut LastThinking,
    out: &mut Out,
)
    requires said { IsSaid (SaysInfo (info_of info.now)) }
    requires hint { CanBePlayed hint }
    requires room { length out.old.text + THINKING_LINE ≤ out.old.room }
    ensures last { last.new
        ≡ last_after last.old (thinking_line spelling (info_of info.now) at.now hint) }
    ensures line { out.new
        ≡ with out.old
        (reply_lines (option_to_list
        (thinking_line spelling (info_of info.now) at.now hint))) }
    ensures short { length (reply_lines (option_to_list
        (thinking_line spelling (info_of info.now) at.now hint))) ≤ THINKING_LINE }
{
    if last.take(spelling, info, at) {
        put_last(last, hint, out);
    }
}

// Puts the last thinking line once more, without its hint.
pub(crate) fn put_again(repeats: bool, last: &LastThinking, out: &mut Out)
    requires { repeats ≡ true → length out.old.text + THINKING_LINE ≤ out.old.room }
    ensures line { out.new ≡ with out.old (reply_lines (repeated_thinking repeats last.now)) }
    ensures short { length (reply_lines (repeated_thinking repeats last.now)) ≤ THINKING_LINE }
{
    if repeats {
        put_last(last, None, out);
    }
}

// The spelling of the moves of thinking lines.
pub(crate) fn spelling_of(settings: Settings) -> Spelling
    ensures { result ≡ spelling_of settings }
{
    if settings.show_san {
        Spelling::San
    } else {
        Spelling::Coordinates
    }
}

// A thinking line of a Ponder search names the hint, which would be played in the present position.
pub(crate) fn named_hint(kind: GoKind, game: &Game, hint: Option<Move>) -> Option<Pondered>
    ensures { result ≡ named_hint kind game.now hint }
{
    match (kind, hint) {
        (GoKind::Ponder, Some(hint)) => Some(Pondered {
            before: *game.now(),
            hint,
        }),
        _ => None,
    }
}

impl Desk {
    fn put_list(&self, booted: bool, out: &mut Out)
        requires { length out.old.text + FEATURE_LIST ≤ out.old.room }
        ensures lines { out.new
            ≡ with out.old
            (reply_lines
            (feature_list (table (record self.now { booted = booted })) self.now.name)) }
        ensures short { length (reply_lines (feature_list
            (table (record self.now { booted = booted })) self.now.name)) ≤ FEATURE_LIST }
    {
        if booted {
            // Read for the proof alone: the list is short.
            let _few = (self.options.text(), self.options.count());
            write_list(&self.options, self.name.text(), out);
        } else {
            write_bare_list(self.name.text(), out);
        }
    }

    pub(crate) fn put_due_list(&self, booted: bool, out: &mut Out)
        requires { length out.old.text + FEATURE_LIST ≤ out.old.room }
        ensures lines { out.new
            ≡ with out.old
            (reply_lines (list_where self.now.due (record self.now { booted = booted }))) }
        ensures short { length (reply_lines (list_where self.now.due
            (record self.now { booted = booted }))) ≤ FEATURE_LIST }
    {
        if self.due.is_due() {
            self.put_list(booted, out);
        }
    }

    fn put_protover(&self, boot: bool, out: &mut Out)
        requires { length out.old.text + FEATURE_LIST ≤ out.old.room }
        ensures lines { out.new ≡ with out.old (reply_lines (protover_row (protover_answer boot)
            self.now)) }
        ensures short { length (reply_lines (protover_row (protover_answer boot) self.now)) ≤
            FEATURE_LIST }
    {
        if boot {
            put_reply(
                &Reply::Feature {
                    name: b"done",
                    value: b"0",
                },
                out,
            );
        } else {
            self.put_list(self.booted, out);
        }
    }

    // Puts the lines of an accepted message that report on the desk before it.
    pub(crate) fn put_before(&self, context: Context, message: &IfaceMsg, out: &mut Out)
        requires sound { DeskInvariant self.now }
        requires room { length out.old.text + FEATURE_LIST ≤ out.old.room }
        ensures lines { out.new
            ≡ with out.old
            (reply_lines (row_before (at context self.now) (message_of message.now))) }
        ensures short { length (reply_lines (row_before (at context self.now)
            (message_of message.now))) ≤ FEATURE_LIST }
    {
        match message {
            IfaceMsg::Protover(_) => self.put_protover(is_boot(context.engine), out),
            IfaceMsg::Draw => put_offer(
                context.settings.handle_draws
                    && plays(self.mode)
                    && !has_ended(self.game.ended())
                    && context.accepts,
                out,
            ),
            IfaceMsg::Hint => put_hint(self.hint, out),
            IfaceMsg::Dot => put_stat(&self.search_info, self.game.now(), out),
            _ => {}
        }
    }

    // Puts the lines of an accepted message that report on the desk after it: the result, if the desk plays.
    pub(crate) fn put_after(&self, message: &IfaceMsg, out: &mut Out)
        requires { length out.old.text + SHORT_REPLY ≤ out.old.room }
        ensures lines { out.new
            ≡ with out.old (reply_lines (row_after self.now (message_of message.now))) }
        ensures short { length (reply_lines (row_after self.now (message_of message.now)))
            ≤ SHORT_REPLY }
    {
        match message {
            IfaceMsg::UserMove(_) | IfaceMsg::Go | IfaceMsg::PlayOther => {
                if plays(self.mode) {
                    put_result_of(&self.game, out);
                }
            }
            _ => {}
        }
    }

    // True if thinking lines of a search are written.
    pub(crate) fn shows_thinking(&self, context: Context, kind: GoKind) -> bool
        ensures { result ≡ shows_thinking (at context self.now) kind }
    {
        match kind {
            GoKind::Analyse => true,
            GoKind::Move => self.post,
            GoKind::Ponder => self.post && context.settings.show_ponder,
        }
    }

    // Writes that the engine ended.
    pub(crate) fn put_end(&self, resigns: bool, settings: Settings, out: &mut Out)
        requires { length out.old.text + ENGINE_END ≤ out.old.room }
        ensures lines { out.new
            ≡ with out.old
            (reply_lines (list_where self.now.due self.now
            ++ (cecp.TellError user_error.Ended
            ∷ given_up_where resigns settings self.now.game))) }
        ensures short { length (reply_lines (list_where self.now.due self.now
            ++ (cecp.TellError user_error.Ended
            ∷ given_up_where resigns settings self.now.game))) ≤ ENGINE_END }
    {
        self.put_due_list(self.booted, out);
        put_short(&Reply::TellError(UserError::Ended), out);
        put_given_up_where(resigns, settings, &self.game, out);
    }
}

// Shows a move, in the game after it.
pub(crate) fn put_shown(best: Move, game: &Game, resigns: bool, out: &mut Out)
    requires writable { IsWritable best }
    requires room { length out.old.text + SHOWN_MOVE ≤ out.old.room }
    ensures lines { out.new
        ≡ with out.old
        (reply_lines (cecp.Move best ∷ (result_reply_of game.now ++ resign_where resigns))) }
    ensures short { length (reply_lines (cecp.Move best
        ∷ (result_reply_of game.now ++ resign_where resigns))) ≤ SHOWN_MOVE }
{
    put_short(&Reply::Move(best), out);
    put_result_of(game, out);
    put_resign(resigns, out);
}

// Writes that the engine has lost by its answer.
pub(crate) fn put_forfeit(settings: Settings, game: &Game, answer: &[u8], out: &mut Out)
    requires { length out.old.text + SHOWN_MOVE ≤ out.old.room }
    ensures lines { out.new
        ≡ with out.old (reply_lines (forfeited settings game.now answer.now)) }
    ensures short { length (reply_lines (forfeited settings game.now answer.now)) ≤ SHOWN_MOVE }
{
    put_short(&Reply::TellError(UserError::Move), out);
    put_given_up(settings, game, Loss::IllegalMove(quoted(answer)), out);
}

fn put_pong(number: u32, out: &mut Out)
    requires { length out.old.text + 16 ≤ out.old.room }
    ensures line { out.new ≡ with out.old (reply_line (cecp.Pong number)) }
    ensures short { length (reply_line (cecp.Pong number)) ≤ 16 }
{
    put_reply(&Reply::Pong(number), out);
}

/// Puts a pong for each ping.
pub fn put_pongs(numbers: &[u32], out: &mut Out)
    requires { length out.old.text + 16 * length numbers.now ≤ out.old.room }
    ensures lines { out.new ≡ with out.old (reply_lines (map cecp.Pong numbers.now)) }
    ensures room { length out.new.text ≤ length out.old.text + 16 * length numbers.now }
{
    for number in numbers {
        put_pong(*number, out);
    }
}
