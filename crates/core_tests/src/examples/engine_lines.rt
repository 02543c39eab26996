// Lines of the Universal Chess Interface, from both of its sides.
use chess_board::Side;
use line_io::Out;
use protocol_tokens::GoKind;
use uci_interface_lines::{go_kind, spoken, write_engine};
use uci_lines::{EngineMsg, read_engine};

/// uci_lines: a report of an engine is read.
#[test]
fn an_engine_reports(rt: HostRuntime) {
    let depth = match read_engine(b"info depth 9 score cp 25 pv e2e4 e7e5") {
        EngineMsg::Info(info) => info.depth,
        _ => None,
    };
    assert!(rt; depth == Some(9));
}

/// uci_interface_lines: orders are read, and a line is written for an interface.
#[test]
#[tactic(auto, unfolding(uci_interface_lines::specs::Said::said_text))]
fn an_engine_is_asked(rt: HostRuntime) {
    match spoken(b"position startpos moves e2e4") {
        Some(said) => assert!(rt;
            said.end.side() == Side::Black && said.moves == b"e2e4".as_slice()
        ),
        None => panic!(rt; "no position"),
    }
    assert!(rt; spoken(b"position startpos moves e2e5").is_none());
    assert!(rt; go_kind(b"go wtime 60000 ponder") == GoKind::Ponder);
    let mut line = Out::make(rt.alloc(), 200).expect(&rt, "memory for a line");
    write_engine(&EngineMsg::ReadyOk, &mut line);
    assert!(rt; line.bytes() == b"readyok".as_slice());
}
