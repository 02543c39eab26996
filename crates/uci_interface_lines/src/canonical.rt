// Writes what an engine says.
ghost use Rattle.std.specs.Prelude.{◌≡◌, ◌+◌, ◌≤◌, ◌++◌, codes, length};
ghost use Rattle.std.specs.Fmt.{signed_decimal};
ghost use Rattle.line_io.specs.Out.{with};
ghost use Rattle.protocol_tokens.specs.Tokens.{tokens};
ghost use Rattle.chess_board.specs.Text.{text_of_move, IsOfficer};
ghost use Rattle.uci_lines.specs.Moves.{longest_move_run};
ghost use Rattle.uci_lines.specs.Orders.{optional_number};
ghost use Rattle.uci_lines.specs.Choices.{values};
ghost use Rattle.uci_interface_lines.specs.Said.{spaced_text, said_score_text, bound_text, move_after_word, each_move, pv_text, counts_text, facts_text, each_value, true_or_false, empty_or, check_text, range_text, spin_text, combo_text, string_text, shape_text, option_text, bestmove_text, said_text};
ghost use Rattle.uci_lines.specs.Writable.{can_write, CanWriteEngineMsg};
ghost use Rattle.uci_lines.specs.Info.{info_of};
ghost use Rattle.uci_lines.specs.Messages.{option_kind_of, uci_message_of};

use chess_board::{Move, write_move};
use itoa::Buffer;
use line_io::Out;
use uci_lines::{EngineMsg, Info, OptionKind, OptionMsg, Score, next_move, next_value};

fn put_spaced(text: &[u8], out: &mut Out)
    requires { length out.old.text + length (spaced_text text.now) ≤ out.old.room }
    ensures { out.new ≡ with out.old (spaced_text text.now) }
{
    if !text.is_empty() {
        out.put(b" ");
        out.put(text);
    }
}

fn put_signed(word: &[u8], n: &i64, out: &mut Out)
    requires { length out.old.text + length (word.now ++ signed_decimal n.now) ≤ out.old.room }
    ensures { out.new ≡ with out.old (word.now ++ signed_decimal n.now) }
{
    let mut digits = Buffer::new();
    out.put(word);
    out.put(digits.format(*n).as_bytes());
}

fn put_count(word: &[u8], n: Option<u64>, out: &mut Out)
    requires { length out.old.text + length (optional_number word.now n) ≤ out.old.room }
    ensures { out.new ≡ with out.old (optional_number word.now n) }
{
    if let Some(n) = n {
        let mut digits = Buffer::new();
        out.put(word);
        out.put(digits.format(n).as_bytes());
    }
}

fn put_score(score: Option<Score>, out: &mut Out)
    requires { length out.old.text + length (said_score_text score) ≤ out.old.room }
    ensures { out.new ≡ with out.old (said_score_text score) }
{
    match score {
        Some(Score::Cp(n)) => put_signed(b" score cp ", &n, out),
        Some(Score::Mate(n)) => put_signed(b" score mate ", &n, out),
        None => {}
    }
}

fn put_bound(is_bound: bool, out: &mut Out)
    requires { length out.old.text + length (bound_text is_bound) ≤ out.old.room }
    ensures { out.new ≡ with out.old (bound_text is_bound) }
{
    if is_bound {
        out.put(b" lowerbound");
    }
}

fn put_move(word: &[u8], m: Move, out: &mut Out)
    requires officer { IsOfficer m.promotion }
    requires room { length out.old.text + length (word.now ++ text_of_move m) ≤ out.old.room }
    ensures { out.new ≡ with out.old (word.now ++ text_of_move m) }
{
    out.put(word);
    out.put(write_move(m).as_slice());
}

fn put_optional_move(word: &[u8], m: Option<Move>, out: &mut Out)
    requires officer { can_write m }
    requires room { length out.old.text + length (move_after_word word.now m) ≤ out.old.room }
    ensures { out.new ≡ with out.old (move_after_word word.now m) }
{
    if let Some(m) = m {
        put_move(word, m, out);
    }
}

fn put_moves(pv: &[u8], out: &mut Out)
    requires { length out.old.text + length (each_move (longest_move_run (tokens pv.now))) ≤
        out.old.room }
    ensures { out.new ≡ with out.old (each_move (longest_move_run (tokens pv.now))) }
{
    let mut others = pv;
    while let Some((m, after)) = next_move(others) {
        put_move(b" ", m, out);
        others = after;
    }
}

fn put_pv(pv: &[u8], out: &mut Out)
    requires { length out.old.text + length (pv_text (longest_move_run (tokens pv.now))) ≤
        out.old.room }
    ensures { out.new ≡ with out.old (pv_text (longest_move_run (tokens pv.now))) }
{
    if next_move(pv).is_some() {
        out.put(b" pv");
        put_moves(pv, out);
    }
}

fn put_counts(info: &Info, out: &mut Out)
    requires { length out.old.text + length (counts_text (info_of info.now)) ≤ out.old.room }
    ensures { out.new ≡ with out.old (counts_text (info_of info.now)) }
{
    put_count(b" depth ", info.depth, out);
    put_count(b" time ", info.time, out);
    put_count(b" nodes ", info.nodes, out);
    put_count(b" multipv ", info.multipv, out);
    put_count(b" currmovenumber ", info.number, out);
}

#[tactic(auto, unfolding(crate::specs::Said::facts_text))]
fn put_info(info: &Info, out: &mut Out)
    requires officer { can_write info.now.current }
    requires room { length out.old.text + length (facts_text (info_of info.now)) ≤ out.old.room }
    ensures { out.new ≡ with out.old (facts_text (info_of info.now)) }
{
    out.put(b"info");
    put_counts(info, out);
    put_score(info.score, out);
    put_bound(info.bound, out);
    put_optional_move(b" currmove ", info.current, out);
    put_pv(info.pv, out);
}

fn put_value(value: &[u8], out: &mut Out)
    requires { length out.old.text + length (codes " var" ++ spaced_text value.now) ≤ out.old.room }
    ensures { out.new ≡ with out.old (codes " var" ++ spaced_text value.now) }
{
    out.put(b" var");
    put_spaced(value, out);
}

fn put_values(text: &[u8], out: &mut Out)
    requires { length out.old.text + length (each_value (values text.now)) ≤ out.old.room }
    ensures { out.new ≡ with out.old (each_value (values text.now)) }
{
    let mut others = text;
    while let Some((value, after)) = next_value(others) {
        put_value(value, out);
        others = after;
    }
}

fn switch_text(on: bool) -> &'static [u8]
    ensures { result.now ≡ true_or_false on }
{
    if on { b"true" } else { b"false" }
}

fn empty_or(text: &[u8]) -> &[u8]
    ensures { result.now ≡ empty_or text.now }
{
    if text.is_empty() { b"<empty>" } else { text }
}

fn put_two(word: &[u8], text: &[u8], out: &mut Out)
    requires { length out.old.text + length (word.now ++ text.now) ≤ out.old.room }
    ensures { out.new ≡ with out.old (word.now ++ text.now) }
{
    out.put(word);
    out.put(text);
}

fn put_check(on: bool, out: &mut Out)
    requires { length out.old.text + length (check_text on) ≤ out.old.room }
    ensures { out.new ≡ with out.old (check_text on) }
{
    put_two(b" type check default ", switch_text(on), out);
}

fn put_range(min: &i64, max: &i64, out: &mut Out)
    requires { length out.old.text + length (range_text min.now max.now) ≤ out.old.room }
    ensures { out.new ≡ with out.old (range_text min.now max.now) }
{
    put_signed(b" min ", min, out);
    put_signed(b" max ", max, out);
}

fn put_spin(default: &i64, min: &i64, max: &i64, out: &mut Out)
    requires { length out.old.text + length (spin_text default.now min.now max.now) ≤ out.old.room }
    ensures { out.new ≡ with out.old (spin_text default.now min.now max.now) }
{
    put_signed(b" type spin default ", default, out);
    put_range(min, max, out);
}

fn put_combo(default: &[u8], texts: &[u8], out: &mut Out)
    requires { length out.old.text + length (combo_text default.now (values texts.now))
        ≤ out.old.room }
    ensures { out.new ≡ with out.old (combo_text default.now (values texts.now)) }
{
    out.put(b" type combo default");
    put_spaced(default, out);
    put_values(texts, out);
}

fn put_text(default: &[u8], out: &mut Out)
    requires { length out.old.text + length (string_text default.now) ≤ out.old.room }
    ensures { out.new ≡ with out.old (string_text default.now) }
{
    put_two(b" type string default ", empty_or(default), out);
}

fn put_kind(kind: &OptionKind, out: &mut Out)
    requires { length out.old.text + length (shape_text (option_kind_of kind.now)) ≤ out.old.room }
    ensures { out.new ≡ with out.old (shape_text (option_kind_of kind.now)) }
{
    match kind {
        OptionKind::Check { on } => put_check(*on, out),
        OptionKind::Spin { default, min, max } => put_spin(default, min, max, out),
        OptionKind::Combo { default, values } => put_combo(default, values, out),
        OptionKind::Button => out.put(b" type button"),
        OptionKind::Text { default } => put_text(default, out),
    }
}

fn put_name(name: &[u8], out: &mut Out)
    requires { length out.old.text + length (codes "option name" ++ spaced_text name.now)
        ≤ out.old.room }
    ensures { out.new ≡ with out.old (codes "option name" ++ spaced_text name.now) }
{
    out.put(b"option name");
    put_spaced(name, out);
}

fn put_option(option: &OptionMsg, out: &mut Out)
    requires { length out.old.text
        + length (option_text option.now.name.now (option_kind_of option.now.kind)) ≤ out.old.room }
    ensures { out.new
        ≡ with out.old (option_text option.now.name.now (option_kind_of option.now.kind)) }
{
    put_name(option.name, out);
    put_kind(&option.kind, out);
}

fn put_best(best: Option<Move>, out: &mut Out)
    requires officer { can_write best }
    requires room { length out.old.text + length (bestmove_text best) ≤ out.old.room }
    ensures { out.new ≡ with out.old (bestmove_text best) }
{
    match best {
        Some(m) => put_move(b"", m, out),
        None => out.put(b"0000"),
    }
}

/// Writes a message in its canonical spelling, with no line feed. `written_messages_are_read_again` says that
/// `read_engine` reads it again, and `written_messages_fit_the_line` how long it is.
#[tactic(auto, unfolding(crate::specs::Said::said_text))]
pub fn write_engine(msg: &EngineMsg, out: &mut Out)
    requires writable { CanWriteEngineMsg (uci_message_of msg.now) }
    requires room { length out.old.text + length (said_text (uci_message_of msg.now))
        ≤ out.old.room }
    ensures { out.new ≡ with out.old (said_text (uci_message_of msg.now)) }
{
    match msg {
        EngineMsg::Name(text) => {
            out.put(b"id name");
            put_spaced(text, out);
        }
        EngineMsg::UciOk => out.put(b"uciok"),
        EngineMsg::ReadyOk => out.put(b"readyok"),
        EngineMsg::Best { best, hint } => {
            out.put(b"bestmove ");
            put_best(*best, out);
            put_optional_move(b" ponder ", *hint, out);
        }
        EngineMsg::OptionLine(option) => put_option(option, out),
        EngineMsg::Info(info) => put_info(info, out),
        EngineMsg::Nothing => {}
    }
}
