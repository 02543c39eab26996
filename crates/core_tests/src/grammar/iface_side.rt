// A fact that no clause says: that the definitions mean the lines that real engines write.
use crate::expect::{expect, expect_text};
use crate::rows::{
    bytes_in, bytes_of, cut, first, move_in, move_of, number_of, signed_of, small_of,
};
use cecp_engine_lines::{read_reply, write_iface, written_messages_are_read_again};
use cecp_lines::{IfaceMsg, Loss, Outcome, Reason, Reply, Spelling, UserError};
use chess_board::Side;
use line_io::Out;
use std::process::Abort;

// A line, the kind of the reply, by its first letter, and the reply.
const REPLIES: &str =
    "feature option=\"Resign -check 0\"|feature|name=option|value=\"Resign -check 0\"
feature done=1|feature|name=done|value=1
pong 1|pong|number=1
move e2e4|move|move=e2e4
move a7a8n|move|move=a7a8n
Illegal move: e2e4|illegal|move=e2e4
Illegal move (game too long): e2e4|long game|move=e2e4
Error (unknown command): foo|unknown|line=foo
Error (line too long): ...|big line|line=...
tellusererror Illegal position|told
1/2-1/2 {Draw by repetition}|repetition
0-1 {Illegal move by engine: e2e5}|white|answer=e2e5
1-0 {Illegal move by engine: !abcdefghijklmn~}|dark|answer=!abcdefghijklmn~
1-0 {Illegal move by engine}|dark
0-1 {Engine ended}|ended
Hint: e1g1|hint|move=e1g1";

const THINKING: &str =
    "12 -35 1518 456789 e2e4 a7a8n|coordinates|depth=12|score=-35|time=1518|nodes=456789|pv=e2e4 a7a8n
1 0 0 20 (e2e4) e1g1|coordinates|depth=1|score=0|time=0|nodes=20|hint=e2e4|pv=e1g1
stat01: 1234 30000 7 5 30|stat01|time=1234|nodes=30000|depth=7|left=5|all=30
stat01: 1234 30000 7 5 30 e2e4|stat01|time=1234|nodes=30000|depth=7|left=5|all=30|move=e2e4";

// Thinking lines in standard algebraic notation.
const SANS: &str =
    "1 0 0 20 O-O O-O-O Rf8|algebraic|depth=1|score=0|time=0|nodes=20|pv=O-O O-O-O Rf8
1 0 0 20 (Nf3) Nc6 Bb5|algebraic|depth=1|score=0|time=0|nodes=20|hint=Nf3|pv=Nc6 Bb5
1 0 0 20 a8=Q+ Ke7 h8=N axb1=B|algebraic|depth=1|score=0|time=0|nodes=20|pv=a8=Q+ Ke7 h8=N axb1=B
1 0 0 20 Qh5d5 Qad5 Q1d5 Qhe5+|algebraic|depth=1|score=0|time=0|nodes=20|pv=Qh5d5 Qad5 Q1d5 Qhe5+
1 0 0 20 (exd5) Qf6+ Kg8 Qd8#|algebraic|depth=1|score=0|time=0|nodes=20|hint=exd5|pv=Qf6+ Kg8 Qd8#
1 0 0 20 Rxa8+ R1xh8 Qa1xb2+ O-O-O#|algebraic|depth=1|score=0|time=0|nodes=20|pv=Rxa8+ R1xh8 Qa1xb2+ O-O-O#";

// Lines that are no replies.
const NONE: &str = "pong 01|none
pong 4294967296|none
move a7a8N|none
Illegal move:e2e4|none
Error (bad value): x |none
1-0 {Illegal move by engine: }|none
1-0 {Illegal move by engine: abcdefghijklmnopq}|none
1-0 {Illegal move by engine: e7{e5}|none
1-0 {Illegal move by engine: e7}e5}|none
1-0 {Illegal move by engine: e7 e5}|none
1-0 {Illegal move by engine: e7e5} |none
1/2-1/2 {Engine ended}|none
12 -35 1518 456789 |none";

// Thinking lines in neither spelling: both are mixed, or a text is not as it is written.
const UNSPELLED: &str = "1 0 0 20 e2e4 Nf6|none
1 0 0 20 (e2e4) Nf6|none
1 0 0 20 (e4) g8f6|none
1 0 0 20 0-0|none
1 0 0 20 Nf3!|none
1 0 0 20 Nf3+#|none
1 0 0 20 e8Q|none
1 0 0 20 e8|none
1 0 0 20 e5=Q|none
1 0 0 20 ed5|none
1 0 0 20 Kfg1|none
1 0 0 20 Nf3  Nc6|none";

fn thinking<'a>(rt: &impl Abort, spelling: Spelling, fields: &'a str) -> Reply<'a> {
    Reply::Thinking {
        depth: number_of(rt, fields, "depth"),
        score: signed_of(rt, fields, "score"),
        time: number_of(rt, fields, "time"),
        nodes: number_of(rt, fields, "nodes"),
        spelling,
        hint: bytes_in(fields, "hint"),
        pv: bytes_of(rt, fields, "pv"),
    }
}

fn lost(side: Side, loss: Loss<'_>) -> Reply<'_> {
    Reply::Lost { side, loss }
}

fn refusal<'a>(rt: &impl Abort, reason: Reason, fields: &'a str) -> Reply<'a> {
    Reply::Error {
        reason,
        line: bytes_of(rt, fields, "line"),
    }
}

/// The reply of a row whose reply has a move, or a search.
fn moved<'a>(rt: &impl Abort, kind: &str, fields: &str) -> Reply<'a> {
    match first(kind) {
        b'm' => Reply::Move(move_of(rt, fields, "move")),
        b'i' => Reply::Illegal(move_of(rt, fields, "move")),
        b'l' => Reply::IllegalLong(move_of(rt, fields, "move")),
        b'h' => Reply::Hint(move_of(rt, fields, "move")),
        b's' => Reply::Stat01 {
            time: number_of(rt, fields, "time"),
            nodes: number_of(rt, fields, "nodes"),
            depth: number_of(rt, fields, "depth"),
            left: number_of(rt, fields, "left"),
            all: number_of(rt, fields, "all"),
            current: move_in(rt, fields, "move"),
        },
        _ => panic!(rt; "no reply: {kind}"),
    }
}

/// The meaning that a row gives to a line.
fn meant<'a>(rt: &impl Abort, want: &'a str) -> Option<Reply<'a>> {
    let (kind, fields) = cut(want);
    Some(match first(kind) {
        b'n' => return None,
        b'f' => Reply::Feature {
            name: bytes_of(rt, fields, "name"),
            value: bytes_of(rt, fields, "value"),
        },
        b'p' => Reply::Pong(small_of(rt, fields, "number")),
        b'u' => refusal(rt, Reason::UnknownCommand, fields),
        b'b' => refusal(rt, Reason::LineTooLong, fields),
        b't' => Reply::TellError(UserError::Position),
        b'r' => Reply::Result(Outcome::Repetition),
        b'w' => lost(Side::White, Loss::IllegalMove(bytes_in(fields, "answer"))),
        b'd' => lost(Side::Black, Loss::IllegalMove(bytes_in(fields, "answer"))),
        b'e' => lost(Side::White, Loss::Ended),
        b'c' => thinking(rt, Spelling::Coordinates, fields),
        b'a' => thinking(rt, Spelling::San, fields),
        _ => moved(rt, kind, fields),
    })
}

fn expect_read(rt: &impl Abort, rows: &str) {
    for row in rows.split('\n') {
        let (line, want) = cut(row);
        expect(rt, read_reply(line.as_bytes()) == meant(rt, want), row);
    }
}

#[test]
fn lines_of_engines(rt: HostRuntime) {
    for rows in [REPLIES, THINKING, SANS, NONE, UNSPELLED] {
        expect_read(&rt, rows);
    }
}

#[test]
fn writes(rt: HostRuntime) {
    written_messages_are_read_again();
    let mut out = Out::make(rt.alloc(), 256).expect(&rt, "memory");
    write_iface(&IfaceMsg::Quit, &mut out);
    expect_text(&rt, out.bytes(), "quit");
}
