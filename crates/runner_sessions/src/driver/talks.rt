// Whole sessions of the driver, whose interface and engine wait for one another.
use crate::programs::Program;
use crate::talks::{Talk, expect_talk};
use paced_host::DueText;

// An interface that has the engine move twice, and quits. The engine has features once it was asked
// for them, and ends after `quit`.
const PLAYS: Talk = Talk {
    name: "an engine plays",
    program: Program::Driver,
    arguments: "d.log,engine",
    iface: &[
        DueText {
            lines: 0,
            text: b"uci\n",
        },
        DueText {
            lines: 3,
            text: b"position startpos moves e2e4\ngo movetime 1500\n",
        },
        DueText {
            lines: 5,
            text: b"position startpos moves e2e4 e7e5 g1f3\ngo movetime 1500\n",
        },
        DueText {
            lines: 6,
            text: b"quit\n",
        },
    ],
    lives: &[&[
        DueText {
            lines: 1,
            text: b"feature ping=1 setboard=1 usermove=1 analyze=1 myname=\"Old\" done=1\n",
        },
        DueText {
            lines: 4,
            text: b"move e7e5\n",
        },
        DueText {
            lines: 7,
            text: b"",
        },
    ]],
    mark: NO_MARK,
    code: 0,
    diag: b"",
    log: b"\
        x uci\n\
        U xboard\n\
        U protover 2\n\
        u feature ping=1 setboard=1 usermove=1 analyze=1 myname=\"Old\" done=1\n\
        X id name Old\n\
        X uciok\n\
        U accepted ping\n\
        U accepted setboard\n\
        U accepted usermove\n\
        U accepted analyze\n\
        U accepted myname\n\
        U accepted done\n\
        x position startpos moves e2e4\n\
        x go movetime 1500\n\
        U new\n\
        U force\n\
        U post\n\
        U usermove e2e4\n\
        U st 2\n\
        U go\n\
        u move e7e5\n\
        X bestmove e7e5\n\
        x position startpos moves e2e4 e7e5 g1f3\n\
        x go movetime 1500\n\
        U force\n\
        U usermove g1f3\n\
        U st 2\n\
        U go\n\
        x quit\n\
        U quit\n\
        u.\n",
};

// An interface that has a position analysed, and ends. The engine ends after `quit`.
const ANALYSES: Talk = Talk {
    name: "an engine analyses",
    iface: &[
        DueText {
            lines: 0,
            text: b"uci\n",
        },
        DueText {
            lines: 3,
            text: b"position startpos\ngo infinite\n",
        },
        DueText {
            lines: 5,
            text: b"stop\n",
        },
        DueText {
            lines: 7,
            text: b"",
        },
    ],
    lives: &[&[
        DueText {
            lines: 1,
            text: b"feature ping=1 setboard=1 usermove=1 analyze=1 myname=\"Old\" done=1\n",
        },
        DueText {
            lines: 4,
            text: b"9 25 100 5000 e4 e5\n",
        },
        DueText {
            lines: 6,
            text: b"pong 1\n",
        },
        DueText {
            lines: 8,
            text: b"",
        },
    ]],
    log: b"\
        x uci\n\
        U xboard\n\
        U protover 2\n\
        u feature ping=1 setboard=1 usermove=1 analyze=1 myname=\"Old\" done=1\n\
        X id name Old\n\
        X uciok\n\
        U accepted ping\n\
        U accepted setboard\n\
        U accepted usermove\n\
        U accepted analyze\n\
        U accepted myname\n\
        U accepted done\n\
        x position startpos\n\
        x go infinite\n\
        U new\n\
        U force\n\
        U post\n\
        U analyze\n\
        u 9 25 100 5000 e4 e5\n\
        X info depth 9 score cp 25 time 1000 nodes 5000 pv e2e4\n\
        x stop\n\
        U exit\n\
        U ping 1\n\
        u pong 1\n\
        X bestmove e2e4\n\
        x.\n\
        U quit\n\
        u.\n",
    ..PLAYS
};

// No piece of a log of the driver ends so.
const NO_MARK: &[u8] = b"u!\n";

#[test]
fn an_engine_plays_and_analyses(rt: HostRuntime) {
    expect_talk(&rt, rt.alloc(), &PLAYS);
    expect_talk(&rt, rt.alloc(), &ANALYSES);
}
