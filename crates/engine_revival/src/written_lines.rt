// The lines that are written: orders to a life, and answers in its place.
ghost use Rattle.std.specs.Prelude.{◌≡◌, ◌≤◌, ◌<◌, ◌+◌, ◌*◌, ◌++◌, ◌∷◌, [], length, if◌then◌else◌};
ghost use Rattle.line_io.specs.Out.{with};
ghost use Rattle.line_io.specs.Lines.{line_feed};
ghost use Rattle.engine_revival.specs.Orders as orders;
ghost use Rattle.engine_revival.specs.Kept.{SpellsRevivalOrder, spelled};
ghost use Rattle.engine_revival.specs.Lists.{revival_batch_text};
ghost use Rattle.engine_revival.specs.Steps.{stand_in_text, readies, readyoks};

use crate::words::StandInAnswer;
use line_io::Out;
use uci_lines::write_order;

pub(crate) fn put_line(line: &[u8], out: &mut Out)
    requires { length out.old.text + length line.now < out.old.room }
    ensures { out.new ≡ with out.old (line.now ++ line_feed ∷ []) }
{
    out.put(line);
    out.put(b"\n");
}

// Puts the line of an order if it is to be written.
pub(crate) fn put_if(is_written: bool, line: &[u8], out: &mut Out)
    requires spells { SpellsRevivalOrder line.now }
    requires room { length out.old.text + length line.now < out.old.room }
    ensures out { out.new
        ≡ with out.old (revival_batch_text (if is_written then spelled line.now ∷ [] else [])) }
    ensures short { length out.new.text ≤ length out.old.text + (length line.now + 1) }
{
    if is_written {
        put_line(line, out);
    }
}

#[tactic(auto, unfolding(crate::specs::Orders::revival_order_text, uci_lines::specs::Orders::uci_order_text))]
pub(crate) fn put_uci(out: &mut Out)
    requires { length out.old.text + 16 ≤ out.old.room }
    ensures out { out.new ≡ with out.old (revival_batch_text (orders.Uci ∷ [])) }
    ensures short { length out.new.text ≤ length out.old.text + 16 }
{
    write_order(&uci_lines::Order::Uci, out);
    out.put(b"\n");
}

#[tactic(auto, unfolding(crate::specs::Orders::revival_order_text, uci_lines::specs::Orders::uci_order_text))]
fn put_ready(out: &mut Out)
    requires { length out.old.text + 8 ≤ out.old.room }
    ensures { out.new ≡ with out.old (revival_batch_text (orders.IsReady ∷ [])) }
{
    write_order(&uci_lines::Order::IsReady, out);
    out.put(b"\n");
}

// Puts `isready` so often.
pub(crate) fn put_readies(times: u32, out: &mut Out)
    requires { length out.old.text + 8 * times ≤ out.old.room }
    ensures { out.new ≡ with out.old (revival_batch_text (readies times)) }
{
    let mut left = times;
    while left > 0 {
        put_ready(out);
        left -= 1;
    }
}

// Puts `readyok` so often.
fn put_readyoks(times: u32, up: &mut Out)
    requires { length up.old.text + 8 * times ≤ up.old.room }
    ensures { up.new ≡ with up.old (readyoks times) }
{
    let mut left = times;
    while left > 0 {
        up.put(b"readyok\n");
        left -= 1;
    }
}

#[tactic(auto, unfolding(crate::specs::Orders::revival_order_text, uci_lines::specs::Orders::uci_order_text))]
pub(crate) fn put_quit(out: &mut Out)
    requires { length out.old.text + 16 ≤ out.old.room }
    ensures out { out.new ≡ with out.old (revival_batch_text (orders.Quit ∷ [])) }
    ensures short { length out.new.text ≤ length out.old.text + 16 }
{
    write_order(&uci_lines::Order::Quit, out);
    out.put(b"\n");
}

// Puts what stands in for an engine, where so many `isready` are held.
pub(crate) fn put_answer(answer: StandInAnswer, held: u32, up: &mut Out)
    requires { length up.old.text + (16 + 8 * held) ≤ up.old.room }
    ensures { up.new ≡ with up.old (stand_in_text answer held) }
{
    match answer {
        StandInAnswer::Nothing => {}
        StandInAnswer::UciOk => {
            up.put(b"uciok\n");
            put_readyoks(held, up);
        }
        StandInAnswer::ReadyOk => put_readyoks(held, up),
        StandInAnswer::NoMove => {
            put_readyoks(held, up);
            up.put(b"bestmove 0000\n");
        }
    }
}
