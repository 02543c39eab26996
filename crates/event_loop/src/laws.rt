// The facts of first lines.
ghost use Rattle.event_loop.specs.First.{FirstLinesJoin};

/// A law: with whole first lines the interface's arrivals are those of the first lines and then of
/// what it gave, as if it had given both.
pub fn first_lines_join()
    ensures { FirstLinesJoin }
{}
