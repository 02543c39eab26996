// The values kept of the lines of engines where no answer shows them: exact times, numbers and scores.
use crate::expect::expect;
use chess_board::Position;
use std::process::Abort;
use think_text::SearchInfo;
use uci_lines::{EngineMsg, read_engine};

/// Three lines of an engine at the standard start, and the time, the number and the score that are
/// kept of them.
type Row = ([&'static str; 3], u64, u64, Option<i64>);

/// The number of the second row is more than there are moves. Then come the score of the first
/// variation, a bound and other variations.
const KEPT: [Row; 10] = [
    (
        [
            "info depth 12 time 4200 nodes 900000 currmove e2e4 currmovenumber 3",
            "info depth 5 score mate 3 pv e2e4 e7e5 a1a8",
            "info string time 1",
        ],
        4200,
        3,
        Some(100_003),
    ),
    (
        [
            "info depth 3 currmove d2d4 currmovenumber 1",
            "info currmove e7e5 currmovenumber 25",
            "info time 9",
        ],
        9,
        25,
        None,
    ),
    (["info score cp 30", "info score cp -7", ""], 0, 0, Some(-7)),
    (["info score cp 30", "info depth 9", ""], 0, 0, Some(30)),
    (["info multipv 1 score cp -5", "", ""], 0, 0, Some(-5)),
    (["info score mate -2", "", ""], 0, 0, Some(-100_002)),
    (["info score mate 0", "", ""], 0, 0, Some(-100_000)),
    (
        [
            "info score cp 30",
            "info score cp 13 lowerbound",
            "info score mate 2 upperbound",
        ],
        0,
        0,
        Some(30),
    ),
    (
        [
            "info score cp 30",
            "info multipv 2 score cp -69",
            "info multipv 0 score cp 7",
        ],
        0,
        0,
        Some(30),
    ),
    (
        [
            "info score cp 30 lowerbound",
            "info multipv 2 score cp -69",
            "",
        ],
        0,
        0,
        None,
    ),
];

/// Hears a line of an engine at the standard start.
fn hear(search_info: &mut SearchInfo, line: &str) {
    if let EngineMsg::Info(info) = read_engine(line.as_bytes()) {
        search_info.hear(&info, &Position::start());
    }
}

/// True if so much is kept of three lines.
fn keeps(row: &Row) -> bool {
    let ([first, second, third], time, number, score) = row;
    let mut search_info = SearchInfo::new();
    hear(&mut search_info, first);
    hear(&mut search_info, second);
    hear(&mut search_info, third);
    search_info.time == *time && search_info.number == *number && search_info.score == *score
}

#[test]
fn keeps_what_was_reported_last(rt: HostRuntime) {
    for row in &KEPT {
        let (lines, ..) = row;
        expect(&rt, keeps(row), lines[1]);
    }
}
