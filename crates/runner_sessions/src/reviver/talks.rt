// Engines that die in mid-search, whose interface and they wait for what is written.
use crate::programs::Program;
use crate::talks::{Talk, expect_talk};
use paced_host::DueText;

// Each engine ends once it took `go`. The interface's `stop` comes once the second one has ended.
const SECOND_LIFE: Talk = Talk {
    name: "a search goes on in the second life",
    program: Program::Reviver,
    arguments: "2,a.log,toy",
    iface: &[
        DueText {
            lines: 0,
            text: b"uci\n",
        },
        DueText {
            lines: 2,
            text: b"setoption name Hash value 8\nisready\n",
        },
        DueText {
            lines: 4,
            text: b"position startpos\ngo infinite\n",
        },
        DueText {
            lines: 8,
            text: b"stop\n",
        },
    ],
    lives: &[
        &FIRST_LIFE,
        &[
            DueText {
                lines: 6,
                text: b"uciok\n",
            },
            DueText {
                lines: 7,
                text: b"",
            },
        ],
    ],
    mark: b"u!\n",
    code: 0,
    diag: b"",
    log: b"\
        x uci\n\
        U uci\n\
        u uciok\n\
        X uciok\n\
        x setoption name Hash value 8\n\
        x isready\n\
        U setoption name Hash value 8\n\
        U isready\n\
        u readyok\n\
        X readyok\n\
        x position startpos\n\
        x go infinite\n\
        U position startpos\n\
        U go infinite\n\
        u!\n\
        U uci\n\
        u uciok\n\
        U setoption name Hash value 8\n\
        U position startpos\n\
        U go infinite\n\
        u!\n\
        x stop\n\
        X bestmove 0000\n\
        x.\n",
};

const FIRST_LIFE: [DueText; 3] = [
    DueText {
        lines: 1,
        text: b"uciok\n",
    },
    DueText {
        lines: 3,
        text: b"readyok\n",
    },
    DueText {
        lines: 5,
        text: b"",
    },
];

// The interface's `stop` comes once no second engine was started. The log has the end of the first
// life as that of the last.
const NO_SECOND_LIFE: Talk = Talk {
    name: "a second start is refused",
    iface: &[
        DueText {
            lines: 0,
            text: b"uci\n",
        },
        DueText {
            lines: 2,
            text: b"setoption name Hash value 8\nisready\n",
        },
        DueText {
            lines: 4,
            text: b"position startpos\ngo infinite\n",
        },
        DueText {
            lines: 6,
            text: b"stop\n",
        },
    ],
    lives: &[&FIRST_LIFE],
    mark: b"u.\n",
    code: 8,
    diag: b"reviver: engine start failed\n",
    log: b"\
        x uci\n\
        U uci\n\
        u uciok\n\
        X uciok\n\
        x setoption name Hash value 8\n\
        x isready\n\
        U setoption name Hash value 8\n\
        U isready\n\
        u readyok\n\
        X readyok\n\
        x position startpos\n\
        x go infinite\n\
        U position startpos\n\
        U go infinite\n\
        u.\n\
        x stop\n\
        X bestmove 0000\n\
        x.\n",
    ..SECOND_LIFE
};

#[test]
fn a_search_goes_on_in_the_second_life(rt: HostRuntime) {
    expect_talk(&rt, rt.alloc(), &SECOND_LIFE);
    expect_talk(&rt, rt.alloc(), &NO_SECOND_LIFE);
}
