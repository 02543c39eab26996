// Settings that come before the engine's options are known.
ghost use Rattle.std.specs.Prelude.{◌≡◌, ◌≤◌, ◌+◌, ◌∷◌, [], length, MatchOption, position, true};
ghost use Rattle.std.specs.List.{before_first, after_first};
ghost use Rattle.line_io.specs.Event.{is_line};
ghost use Rattle.line_io.specs.Lines.{parts_by_feed, is_feed};
ghost use Rattle.line_io.specs.Out.{with};
ghost use Rattle.option_map.specs.DeclaredOptions.Data.{answer_seen};
ghost use Rattle.option_map.specs.WaitingOrders.Held.{with_orders};
ghost use Rattle.option_map.specs.FeatureLists.Features.{reply_lines};
ghost use Rattle.desk_rules.specs.Lines.{early_answer, refused_option};
ghost use Rattle.desk_rules.specs.Orders.{AllJoin, early_orders};
ghost use Rattle.desk_rules.specs.Replies.{early_refusal, early_refusals};
ghost use Rattle.desk_rules.specs.declared.early.TheConstants.{EARLY_BYTES};

use crate::answers::put_error_line;
use crate::ask::set;
use crate::orders::hold;
use cecp_lines::{Reason, read_iface};
use line_io::{NoMemory, Out};
use option_map::{AskedOption, HeldOrders, OptionFault, Options};
use protocol_tokens::trim;
use std::alloc::Global;
use std::marker::Model;

/// The greatest number of early lines that wait.
pub const MOST_EARLY: usize = 250;

/// The greatest number of their bytes, with a line feed each.
pub const EARLY_BYTES: usize = 32_768;

/// The settings that came before the engine's options are known, as they came, the oldest first: at most `MOST_EARLY` lines, and
/// `EARLY_BYTES` with a line feed each. The memory is taken when it is made.
#[derive(Drop)]
pub struct Early {
    texts: Out,
    /// The number of lines.
    count: usize,
}

impl Model for Early {
    ghost use Rattle.std.specs.Prelude.{ℕ, List};
    ghost use Rattle.line_io.specs.Lines.{parts_by_feed};
    ghost use Rattle.desk_rules.specs.Early.{EarlyLinesAreKept};

    ghost Value = { List (List ℕ) };

    ghost view = { λ e. parts_by_feed e.texts.text };

    ghost invariant = { λ e. EarlyLinesAreKept e.texts e.count };
}

fn feed_at(text: &[u8]) -> Option<usize>
    ensures { result ≡ position is_feed text.now }
{
    text.iter().position(|b| *b == b'\n')
}

// The text before the first line feed, and the text behind it.
fn split_at_feed(text: &[u8]) -> (&[u8], &[u8])
    ensures line { result.0.now ≡ before_first is_feed text.now }
    ensures others { result.1.now ≡ after_first is_feed text.now }
{
    match feed_at(text) {
        Some(at) => (&text[..at], &text[at + 1..]),
        None => (text, &[]),
    }
}

// The first line of a text, and the text of the others.
fn next_line(text: &[u8]) -> Option<(&[u8], &[u8])>
    ensures first { MatchOption result (parts_by_feed text.now ≡ []) (λ p. parts_by_feed text.now
        ≡ p.0.now ∷ parts_by_feed p.1.now) }
{
    if text.is_empty() {
        None
    } else {
        Some(split_at_feed(text))
    }
}

// The options' answer to an early line.
fn early_answer<'a>(
    options: &'a Options,
    line: &'a [u8],
) -> Result<Option<AskedOption<'a>>, OptionFault>
    ensures { answer_seen result ≡ early_answer options.now line.now }
{
    match read_iface(line) {
        Ok(message) => options.asked(&message),
        Err(_) => Ok(None),
    }
}

// Holds what the lines of a text ask for, in turn.
fn hold_lines(text: &[u8], options: &Options, held: &mut HeldOrders)
    requires { AllJoin held.old (early_orders options.now (parts_by_feed text.now)) }
    ensures { held.new ≡ with_orders held.old (early_orders options.now (parts_by_feed text.now)) }
{
    let mut others = text;
    while let Some((line, after)) = next_line(others) {
        others = after;
        hold(set(early_answer(options, line)), held);
    }
}

// Puts why an early line is refused, if it is.
fn put_refusal(line: &[u8], options: &Options, out: &mut Out)
    requires { length out.old.text
        + length (reply_lines (early_refusal (refused_option (early_answer options.now line.now))
        line.now)) ≤ out.old.room }
    ensures { out.new
        ≡ with out.old
        (reply_lines (early_refusal (refused_option (early_answer options.now line.now))
        line.now)) }
{
    match early_answer(options, line) {
        Ok(_) => {}
        Err(OptionFault::UnknownOption) => put_error_line(Reason::UnknownOption, trim(line), out),
        Err(OptionFault::BadValue) => put_error_line(Reason::BadValue, trim(line), out),
    }
}

// Puts the refusals of the lines of a text, in turn.
fn put_lines(text: &[u8], options: &Options, out: &mut Out)
    requires { length out.old.text
        + length (reply_lines (early_refusals options.now (parts_by_feed text.now))) ≤
        out.old.room }
    ensures { out.new ≡ with out.old (reply_lines (early_refusals options.now (parts_by_feed
        text.now))) }
{
    let mut others = text;
    while let Some((line, after)) = next_line(others) {
        others = after;
        put_refusal(line, options, out);
    }
}

impl Early {
    ghost use Rattle.std.specs.Prelude.{IfOk, ◌++◌};
    ghost use Rattle.desk_rules.specs.Early.{may_wait};

    /// No lines.
    pub fn make(alloc: Global) -> Result<Early, NoMemory>
        ensures { IfOk result (λ early. early ≡ []) }
    {
        let texts = Out::make(alloc, EARLY_BYTES)?;
        Ok(Early { texts, count: 0 })
    }

    /// True if one more line may wait.
    pub fn fits(&self, line: &[u8]) -> bool
        ensures { result ≡ may_wait self.now line.now }
    {
        self.count < MOST_EARLY
            && line.len() < EARLY_BYTES
            && self.texts.bytes().len() < EARLY_BYTES - line.len()
    }

    /// Keeps one more line.
    pub fn add(&mut self, line: &[u8])
        requires line { is_line line.now ≡ true }
        requires room { may_wait self.old line.now ≡ true }
        ensures { self.new ≡ self.old ++ line.now ∷ [] }
    {
        self.texts.put(line);
        self.texts.put(b"\n");
        self.count += 1;
    }

    /// Drops all lines.
    pub fn clear(&mut self)
        ensures { self.new ≡ [] }
    {
        self.texts.clear();
        self.count = 0;
    }

    /// Holds what the lines ask of the options, in turn.
    pub fn hold_all(&self, options: &Options, held: &mut HeldOrders)
        requires { AllJoin held.old (early_orders options.now self.now) }
        ensures { held.new ≡ with_orders held.old (early_orders options.now self.now) }
    {
        hold_lines(self.texts.bytes(), options, held);
    }

    /// Puts the refusals of the lines that the options refuse, in turn.
    pub fn put_refusals(&self, options: &Options, out: &mut Out)
        requires { length out.old.text
            + length (reply_lines (early_refusals options.now self.now)) ≤ out.old.room }
        ensures { out.new ≡ with out.old (reply_lines (early_refusals options.now self.now)) }
    {
        put_lines(self.texts.bytes(), options, out);
    }
}
