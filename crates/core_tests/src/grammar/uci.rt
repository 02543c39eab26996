// The reports of engines where the interface is shown nothing of them.
use crate::expect::expect;
use std::process::Abort;
use uci_lines::{EngineMsg, OptionKind, OptionMsg, Score, read_engine};

/// A line, and its time, its score, and whether that is a bound.
type Row = (&'static str, Option<u64>, Option<Score>, bool);

const REPORTS: [Row; 6] = [
    (
        "info depth 1 seldepth 1 multipv 1 score cp -129 nodes 132 nps 132000 time 1 pv f6d5",
        Some(1),
        Some(Score::Cp(-129)),
        false,
    ),
    (
        "info depth 17 score cp 38 upperbound",
        None,
        Some(Score::Cp(38)),
        true,
    ),
    (
        "info depth 3 depth 007 depth x time 5",
        Some(5),
        None,
        false,
    ),
    ("info score cp time 7", Some(7), None, false),
    ("info score mate -3", None, Some(Score::Mate(-3)), false),
    ("info string depth 9", None, None, false),
];

/// True if a line is a report with these values.
fn reports(line: &str, time: Option<u64>, score: Option<Score>, bound: bool) -> bool {
    match read_engine(line.as_bytes()) {
        EngineMsg::Info(info) => info.time == time && info.score == score && info.bound == bound,
        _ => false,
    }
}

#[test]
fn engine_lines(rt: HostRuntime) {
    for (line, time, score, bound) in &REPORTS {
        expect(&rt, reports(line, *time, *score, *bound), line);
    }
}

#[test]
fn options_without_a_name(rt: HostRuntime) {
    let unnamed = matches!(
        read_engine(b"option name type check"),
        EngineMsg::OptionLine(OptionMsg {
            name: b"",
            kind: OptionKind::Check { on: false },
        })
    );
    expect(&rt, unnamed, "no name");
}
