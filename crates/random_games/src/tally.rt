// The counts of a drill.
ghost use Rattle.std.specs.Prelude.{◌≡◌, ◌≤◌, ◌<◌, ◌+◌, ◌^◌, length};
ghost use Rattle.line_io.specs.Lines.{parts_by_feed};
ghost use Rattle.random_games.specs.Tally.{nothing};
ghost use Rattle.random_games.specs.Sent.{counted_texts, shows_move};
ghost use Rattle.line_io.specs.declared.limits.TheConstants.{SCRIPT_LINE};

use line_io::split_line;

// The greatest number of steps that is counted.
const MOST_STEPS: u64 = 1_000_000;

/// Steps, lines to both peers, and moves that were shown.
#[derive(Clone, Copy)]
pub struct Tally {
    pub steps: u64,
    pub to_iface: u64,
    pub to_engine: u64,
    pub shown: u64,
}

fn count_lines(text: &[u8]) -> u64
    requires { length text.now ≤ SCRIPT_LINE }
    ensures value { result ≡ length (parts_by_feed text.now) }
    ensures few { result ≤ SCRIPT_LINE }
{
    let mut rest = text;
    let mut count = 0;
    while !rest.is_empty() {
        let (_, after) = split_line(rest);
        count += 1;
        rest = after;
    }
    count
}

// A step that shows a move writes it first.
fn shows_move(iface: &[u8]) -> bool
    ensures { result ≡ shows_move iface.now }
{
    iface.starts_with(b"move ")
}

impl Tally {
    /// No step yet.
    pub fn nothing() -> Tally
        ensures { result ≡ nothing }
    {
        Tally {
            steps: 0,
            to_iface: 0,
            to_engine: 0,
            shown: 0,
        }
    }

    /// Counts a step, by the texts that it wrote to both peers.
    pub fn count(&mut self, iface: &[u8], engine: &[u8])
        requires iface { length iface.now ≤ SCRIPT_LINE }
        requires engine { length engine.now ≤ SCRIPT_LINE }
        requires few { (self.old.steps < 2 ^ 32) × (self.old.to_iface < 2 ^ 52)
            × (self.old.to_engine < 2 ^ 52) × (self.old.shown < 2 ^ 52) }
        ensures counted { self.new ≡ counted_texts self.old iface.now engine.now }
        ensures to_iface { self.new.to_iface ≤ self.old.to_iface + SCRIPT_LINE }
        ensures to_engine { self.new.to_engine ≤ self.old.to_engine + SCRIPT_LINE }
        ensures shown { self.new.shown ≤ self.old.shown + 1 }
    {
        self.to_iface += count_lines(iface);
        self.to_engine += count_lines(engine);
        self.steps += 1;
        if shows_move(iface) {
            self.shown += 1;
        }
    }
}
