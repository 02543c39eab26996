// Each rule of an engine's conduct has a log of which the last line breaks it alone.
use crate::rows::cut;
use engine_conduct::{ConductFault, ConductRule, EngineJudge};
use script_lines::read_mark;
use session_judge::Listener;
use std::process::Abort;

// A log a line, its marks with bars between.
const LOGS: &str = "form|U uci|u id\n\
unasked|U uci|u uciok|u uciok\n\
late|U uci|u uciok|u info depth 3\n\
option|U uci|u option name A type spin default 9 min 1 max 4\n\
infinite|U position startpos|U go infinite|u bestmove e2e4\n\
move|U position startpos|U go depth 1|u bestmove e2e5\n\
pv|U position startpos|U go depth 1|u info pv e2e4 e2e4\n\
searchmoves|U position startpos|U go depth 1 searchmoves e2e4|u bestmove d2d4\n\
ponder|U position startpos|U go depth 1|u bestmove e2e4 ponder e2e4\n\
gone|U uci|u.";

// In Chess960 a king castles by his move to the square of his rook, and by no other.
const CHESS960_LOGS: &str = "move|U setoption name UCI_Chess960 value true|\
U position fen r3k2r/8/8/8/8/8/8/R3K2R w HAha -|U go depth 1|u bestmove e1g1\n\
move|U setoption name UCI_Chess960 value false|\
U position fen r3k2r/8/8/8/8/8/8/R3K2R w KQkq -|U go depth 1|u bestmove e1h1\n\
pv|U setoption name UCI_Chess960 value true|\
U position fen r3k2r/8/8/8/8/8/8/R3K2R w HAha -|U go depth 1|u info pv e1h1 e8c8\n\
searchmoves|U setoption name UCI_Chess960 value true|\
U position startpos moves g1f3 g8f6 g2g3 g7g6 f1g2 f8g7|U go searchmoves e1f1|u bestmove e1h1\n\
ponder|U setoption name UCI_Chess960 value true|\
U position fen r3k2r/8/8/8/8/8/8/R3K2R w HAha -|U go depth 1|u bestmove e1a1 ponder e8g8";

// Logs of which no line is blamed, behind the number of their searches without a position.
const INNOCENT_LOGS: &str = "0|U setoption name UCI_Chess960 value true|\
U position fen r3k2r/8/8/8/8/8/8/R3K2R w HAha -|U go depth 1|u info pv e1h1 e8a8|\
u bestmove e1a1 ponder e8h8\n\
0|U setoption name UCI_Chess960 value true|U setoption name UCI_Chess960 value false|\
U position fen r3k2r/8/8/8/8/8/8/R3K2R w KQkq -|U go depth 1|u bestmove e1g1\n\
1|U setoption name UCI_Chess960 value true|\
U position startpos moves e2e4 e7e5 g1f3 g8f6 f1e2 f8e7 e1g1|U go depth 1|u bestmove a1a1\n\
1|U setoption name UCI_Variant value atomic|U setoption name UCI_Chess960 value true|\
U position startpos|U go depth 1|u bestmove a1a1";

fn rule_named(word: &str) -> ConductRule {
    match word {
        "form" => ConductRule::Form,
        "unasked" => ConductRule::Unasked,
        "late" => ConductRule::Late,
        "option" => ConductRule::Declared,
        "infinite" => ConductRule::Infinite,
        "move" => ConductRule::Best,
        "pv" => ConductRule::Pv,
        "searchmoves" => ConductRule::SearchMoves,
        "ponder" => ConductRule::Ponder,
        _ => ConductRule::Gone,
    }
}

// Hears the marks. What is blamed is nothing but the last.
fn heard(rt: &impl Abort, marks: &str, judge: &mut EngineJudge) -> Option<ConductFault> {
    let mut found = None;
    let mut number = 0u64;
    for text in marks.split('|') {
        assert!(rt; found.is_none(), "{text}");
        number = number.saturating_add(1);
        if let Ok(mark) = read_mark(text.as_bytes()) {
            found = judge.hear(number, &mark);
        }
    }
    assert!(rt; judge.unjudged_from().is_none(), "{marks}");
    found
}

fn each_is_blamed(rt: &impl Abort, logs: &str) {
    for log in logs.lines() {
        let (rule, marks) = cut(log);
        let mut judge = EngineJudge::new(Listener::Bridge);
        let fault = heard(rt, marks, &mut judge).expect(rt, log);
        assert!(rt;
            fault.rule == rule_named(rule) && judge.unplaced() == 0,
            "{log}"
        );
    }
}

#[test]
fn each_rule_is_broken_alone(rt: HostRuntime) {
    each_is_blamed(&rt, LOGS);
}

#[test]
fn castling_in_chess960_is_no_other_move(rt: HostRuntime) {
    each_is_blamed(&rt, CHESS960_LOGS);
}

#[test]
fn no_line_is_blamed_by_other_rules(rt: HostRuntime) {
    for log in INNOCENT_LOGS.lines() {
        let (unplaced, marks) = cut(log);
        let mut judge = EngineJudge::new(Listener::Bridge);
        let wanted = if unplaced == "1" { 1u64 } else { 0u64 };
        let is_innocent = heard(&rt, marks, &mut judge).is_none();
        assert!(rt; is_innocent && judge.unplaced() == wanted, "{log}");
    }
}

// The option is declared to be on behind an order that set it: by which rules the engine castles is open until the next
// order, behind which the last line is blamed.
const OPEN_LOG: &str = "U uci|U setoption name UCI_Chess960 value false|\
u option name UCI_Chess960 type check default true|u uciok|U position startpos|U go depth 1|\
u bestmove a1a1|U setoption name UCI_Chess960 value false|U position startpos|U go depth 1|\
u bestmove a1a1";

#[test]
fn a_default_behind_an_order_leaves_the_rules_open(rt: HostRuntime) {
    let mut judge = EngineJudge::new(Listener::Tap);
    let mut blamed = 0u64;
    let mut number = 0u64;
    for text in OPEN_LOG.split('|') {
        number = number.saturating_add(1);
        if let Ok(mark) = read_mark(text.as_bytes()) {
            if let Some(fault) = judge.hear(number, &mark) {
                assert!(rt;
                    (number == 3 && fault.rule == ConductRule::Declared)
                        || (number == 11 && fault.rule == ConductRule::Best)
                );
                blamed = blamed.saturating_add(1);
            }
        }
    }
    assert!(rt; blamed == 2 && judge.unplaced() == 1);
}
