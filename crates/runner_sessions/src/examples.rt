//! An example of each library that README names: `scripts/dev/examples --write` puts them into the libraries' heads.
use cecp_driver::Driver;
use engine_revival::Revival;

/// engine_revival: an engine dies in mid-search, begins again, and is given the search.
#[test]
fn an_engine_begins_again(rt: HostRuntime) {
    let mut revival = Revival::make(rt.alloc(), 2).expect(&rt, "memory");
    assert!(rt; !revival.awaits_next());
    assert!(rt; revival.order(b"uci").child == b"uci\n".as_slice());
    assert!(rt; revival.is_alive());
    assert!(rt; revival.heard(b"uciok").up == b"uciok\n".as_slice());
    assert!(rt; !revival.awaits_next());
    assert!(rt; revival.order(b"position startpos").child.is_empty());
    assert!(rt; !revival.awaits_next());
    let search = b"position startpos\ngo infinite\n".as_slice();
    assert!(rt; revival.order(b"go infinite").child == search);
    assert!(rt; revival.is_alive());
    assert!(rt; revival.ended());
    assert!(rt; revival.begin().child == b"uci\n".as_slice());
    assert!(rt; revival.is_alive());
    assert!(rt; revival.heard(b"uciok").child == search);
}

/// cecp_driver: the interface's orders and the engine's lines come in, and lines for both come out.
#[test]
fn a_driver_is_between_both(rt: HostRuntime) {
    let mut driver = Driver::make(rt.alloc()).expect(&rt, "memory");
    assert!(rt; driver.order(b"uci").child == b"xboard\nprotover 2\n".as_slice());
    let named = driver.heard(b"feature ping=1 setboard=1 usermove=1 myname=\"Old\" done=1");
    assert!(rt; named.up == b"id name Old\nuciok\n".as_slice());
    assert!(rt;
        driver
            .order(b"position startpos moves e2e4")
            .child
            .is_empty()
    );
    let begun = driver.order(b"go movetime 1500");
    assert!(rt; begun.child == b"new\nforce\npost\nusermove e2e4\nst 2\ngo\n".as_slice());
    assert!(rt; driver.heard(b"move e7e5").up == b"bestmove e7e5\n".as_slice());
}
