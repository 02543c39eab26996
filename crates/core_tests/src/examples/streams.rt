// Lines of a source.
use line_io::{Item, Lines, MemSource};

/// line_io: the lines of a source in memory, of which one is longer than the limit.
#[test]
fn lines_are_given(rt: HostRuntime) {
    let bytes = b"uci\nisready\nquit".as_slice();
    let mut source = MemSource::make(rt.alloc(), bytes, 100, &[]).expect(&rt, "memory");
    let mut lines = Lines::make(rt.alloc(), 4).expect(&rt, "memory");
    assert!(rt; matches!(lines.next(&mut source), Ok(Item::Line(b"uci"))));
    assert!(rt; matches!(lines.next(&mut source), Ok(Item::Long)));
    assert!(rt; matches!(lines.next(&mut source), Ok(Item::Line(b"quit"))));
    assert!(rt; matches!(lines.next(&mut source), Ok(Item::End)));
}
