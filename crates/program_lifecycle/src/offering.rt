// Offers to sinks that may have failed before.
ghost use Rattle.std.specs.Prelude.{◌≡◌, is_some};
ghost use Rattle.program_lifecycle.specs.Streams.{log_state, Offered};

use line_io::{Sink, write_all};

/// The sinks that failed.
#[derive(Clone, Copy, Debug, PartialEq, Eq)]
pub struct LoopEnd {
    pub output: bool,
    pub engine: bool,
    pub log: bool,
}

/// Offers a piece to a sink, unless it failed before, and reports whether it has failed.
pub fn offer<S: Sink>(sink: &mut S, piece: &[u8], failed: bool) -> bool
    ensures { Offered failed result (S.state sink.old) (S.state sink.new) piece.now }
{
    if failed {
        return true;
    }
    write_all(sink, piece).is_err()
}

/// The same to a log that may be missing.
pub fn offer_log<L: Sink>(log: &mut Option<L>, piece: &[u8], failed: bool) -> bool
    ensures offered { Offered failed result
        (log_state L.state log.old) (log_state L.state log.new) piece.now }
    ensures kept { is_some log.new ≡ is_some log.old }
{
    match log {
        Some(log) => offer(log, piece, failed),
        None => failed,
    }
}
