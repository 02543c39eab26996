// Lines as engines print them.
ghost use Rattle.std.specs.Prelude.{◌≤◌, length};
ghost use Rattle.uci_lines.specs.Messages.{uci_message_of};
ghost use Rattle.uci_lines.specs.Writable.{CanWriteEngineMsg};
ghost use Rattle.uci_interface_lines.specs.Said.{said_text};

use crate::expect::expect_text;
use chess_board::{Move, Square};
use line_io::Out;
use std::alloc::Global;
use std::process::Abort;
use uci_interface_lines::{
    write_engine, written_messages_are_read_again, written_messages_fit_the_line,
};
use uci_lines::{EngineMsg, OptionKind, OptionMsg};

const E2E4: Move = Move {
    from: Square { index: 12 },
    to: Square { index: 28 },
    promotion: None,
};

fn expect_written(rt: &impl Abort, alloc: Global, msg: &EngineMsg, want: &str)
    requires writable { CanWriteEngineMsg (uci_message_of msg.now) }
    requires short { length (said_text (uci_message_of msg.now)) ≤ 200 }
{
    let mut out = Out::make(alloc, 200).expect(rt, "memory");
    write_engine(msg, &mut out);
    expect_text(rt, out.bytes(), want);
}

#[test]
#[tactic(auto, unfolding(uci_interface_lines::specs::Said::said_text))]
fn writes_what_an_engine_says(rt: HostRuntime) {
    written_messages_are_read_again();
    written_messages_fit_the_line();
    let alloc = rt.alloc();
    expect_written(&rt, alloc, &EngineMsg::Name(b"Toga II"), "id name Toga II");
    expect_written(&rt, alloc, &EngineMsg::UciOk, "uciok");
    let best = EngineMsg::Best {
        best: Some(E2E4),
        hint: None,
    };
    expect_written(&rt, alloc, &best, "bestmove e2e4");
    let ponder = EngineMsg::OptionLine(OptionMsg {
        name: b"Ponder",
        kind: OptionKind::Check { on: false },
    });
    let line = "option name Ponder type check default false";
    expect_written(&rt, alloc, &ponder, line);
}
