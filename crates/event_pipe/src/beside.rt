// Three pieces of work side by side.
ghost use denote.Param.Send.{IsSync};

use std::thread::{Threads, join_mut};

/// Calls all three, the first two in threads of their own and the last in this one. If no thread can
/// be made for one of the first two, it is called in the thread that would have made it, once the
/// others that stand after it are done.
pub fn join_three<
    F: FnMut() -> A + Send,
    G: FnMut() -> B + Send,
    H: FnMut() -> C,
    A: Send,
    B: Send,
    C,
    R: Threads + Sync,
>(rt: &R, first: &mut F, second: &mut G, last: &mut H) -> (A, B, C)
    requires { F.pre first.old × G.pre second.old × H.pre last.old }
    ensures first { F.step first.old result.0 first.new }
    ensures second { G.step second.old result.1 second.new }
    ensures last { H.step last.old result.2 last.new }
{
    let (a, (b, c)) = join_mut(
        rt,
        first,
        &mut ||
            requires { IsSync R.row × G.pre second.now × H.pre last.now }
        { join_mut(rt, second, last) },
    );
    (a, b, c)
}
