// The meaning of a line of the engine.
ghost use Rattle.std.specs.Prelude.{◌≡◌};
ghost use Rattle.std.specs.Option.{option_map};
ghost use Rattle.protocol_tokens.specs.Tokens.{tokens, first_token};
ghost use Rattle.driver_state_machine.specs.Says.{engine_message_seen, says_in, report_in, pong_number_in, word_named};

use crate::numbers::{clamped, natural, next_number, ten_times};
use protocol_tokens::{named, next_token, read_number, split_token};

/// The meaning of a line of the engine (CECP version 2, "Commands from the engine to xboard").
#[derive(Clone, Copy)]
pub enum EngineSaid<'a> {
    /// A line that says nothing to a driver.
    Other,
    /// `move`, and the text after it, empty if there is none.
    Move(&'a [u8]),
    /// `resign`, or a result.
    Over,
    Pong(u32),
    /// `feature`, and the rest.
    Feature(&'a [u8]),
    /// A thinking line: its numbers, as a UCI interface wants them, and the text after these.
    Report {
        depth: u64,
        score: i64,
        time: u64,
        nodes: u64,
        moves: &'a [u8],
    },
}

/// The words that a line of the engine may begin with.
#[derive(Clone, Copy)]
enum EngineWord {
    Move,
    Over,
    Pong,
    Feature,
    Other,
}

static ENGINE_WORDS: [(&[u8], EngineWord); 7] = [
    (b"move", EngineWord::Move),
    (b"resign", EngineWord::Over),
    (b"1-0", EngineWord::Over),
    (b"0-1", EngineWord::Over),
    (b"1/2-1/2", EngineWord::Over),
    (b"pong", EngineWord::Pong),
    (b"feature", EngineWord::Feature),
];

fn word_named(word: &[u8]) -> EngineWord
    ensures { result ≡ word_named word.now }
{
    named(&ENGINE_WORDS, word).unwrap_or(EngineWord::Other)
}

fn read_report(line: &[u8]) -> Option<EngineSaid<'_>>
    ensures { option_map engine_message_seen result ≡ report_in (tokens line.now) }
{
    let (depth, others) = next_number(line)?;
    let (score, others) = next_number(others)?;
    let (time, others) = next_number(others)?;
    let (nodes, moves) = next_number(others)?;
    Some(EngineSaid::Report {
        depth: natural(depth),
        score: clamped(score),
        time: ten_times(natural(time)),
        nodes: natural(nodes),
        moves,
    })
}

/// The number after `pong`.
fn read_pong(rest: &[u8]) -> Option<u32>
    ensures { result ≡ pong_number_in (tokens rest.now) }
{
    read_number(next_token(rest)?.0)
}

/// The token after the first, empty if there is none.
fn second(rest: &[u8]) -> &[u8]
    ensures { result.now ≡ first_token rest.now }
{
    let (token, _) = split_token(rest);
    token
}

/// The meaning of a line of the engine, by its first token; of a thinking line, by its first four.
#[tactic(auto, unfolding(crate::specs::Says::says_in))]
pub fn read_said(line: &[u8]) -> EngineSaid<'_>
    ensures { engine_message_seen result ≡ says_in line.now }
{
    let (word, rest) = split_token(line);
    match word_named(word) {
        EngineWord::Move => EngineSaid::Move(second(rest)),
        EngineWord::Over => EngineSaid::Over,
        EngineWord::Pong => match read_pong(rest) {
            Some(n) => EngineSaid::Pong(n),
            None => EngineSaid::Other,
        },
        EngineWord::Feature => EngineSaid::Feature(rest),
        EngineWord::Other => match read_report(line) {
            Some(report) => report,
            None => EngineSaid::Other,
        },
    }
}
