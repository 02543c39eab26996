// Lines of the Chess Engine Communication Protocol, from both of its sides.
use cecp_engine_lines::{read_reply, write_iface};
use cecp_lines::{IfaceFault, IfaceMsg, Reply, read_iface, write_reply};
use chess_board::read_move;
use line_io::Out;

/// cecp_lines: lines of an interface are read, and a reply is written.
#[test]
#[tactic(auto, using(crate::proofs::Numbers::one_digit))]
fn an_interface_is_heard(rt: HostRuntime) {
    match read_iface(b"usermove e2e4") {
        Ok(IfaceMsg::UserMove(opening)) => assert!(rt; Some(opening) == read_move(b"e2e4")),
        _ => panic!(rt; "no move"),
    }
    assert!(rt; matches!(read_iface(b"ping one"), Err(IfaceFault::BadArgument)));
    assert!(rt; matches!(read_iface(b"pingpong"), Err(IfaceFault::UnknownCommand)));
    let mut line = Out::make(rt.alloc(), 200).expect(&rt, "memory for a line");
    write_reply(&Reply::Pong(1), &mut line);
    assert!(rt; line.bytes() == b"pong 1".as_slice());
}

/// cecp_engine_lines: a line is written for an engine, and its replies are read.
#[test]
fn an_engine_replies(rt: HostRuntime) {
    let mut line = Out::make(rt.alloc(), 200).expect(&rt, "memory for a line");
    write_iface(&IfaceMsg::New, &mut line);
    assert!(rt; line.bytes() == b"new".as_slice());
    assert!(rt; read_reply(b"pong 7") == Some(Reply::Pong(7)));
    assert!(rt; read_reply(b"resign") == Some(Reply::Resign));
    assert!(rt; read_reply(b"pong seven").is_none());
}
