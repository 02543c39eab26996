// The commands of the program.
ghost use Rattle.std.specs.Prelude.{◌≡◌, IfSome};
ghost use Rattle.std.specs.Option.{option_map};
ghost use Rattle.replay_commands_on_core.specs.Commands.{Drive, HasProper, command_without_arguments, request_by_command, command_by, replay_command_of, command_named, drill_of, judge_by_word, judge_by_words, judge_of, moves_of, revive_of, argument_bytes};

use crate::settings::read_settings;
use policy_rules::{Settings, read_number};
use protocol_tokens::named;
use random_games::{MODULUS, MOST_ROUNDS};
use session_judge::Listener;

/// The command in the program's arguments.
#[derive(Clone, Copy)]
pub enum ReplayCommand<'a> {
    /// Replays the marks of the input with these settings.
    Replay(Settings),
    /// Compares the input with the lawful script of its events.
    Check(Settings),
    /// Turns the input, a script of version 1, into one with a header of these settings.
    Migrate(Settings),
    /// Judges the log of any bridge, which this one wrote.
    Judge(Listener),
    /// Judges the engine's own conduct in such a log.
    JudgeEngine(Listener),
    /// Plays the input to an engine that is started again, of which so many lives may be begun.
    Revive { lives: u32 },
    /// Plays the input to a driver between a UCI interface and a CECP engine.
    Drive,
    /// Writes the games of the session in the input, with these settings.
    Games(Settings),
    /// Writes the positions of the session in the input, with these settings.
    Positions(Settings),
    /// Plays the drill of a number, with so many rounds.
    Drill { number: u32, count: u32 },
    /// Lists the legal moves of the position that these arguments spell.
    Moves(&'a [Vec<u8>]),
}

fn read_drill(arguments: &[Vec<u8>]) -> Option<ReplayCommand>
    ensures value { option_map request_by_command result ≡ drill_of (argument_bytes arguments.now) }
    ensures proper { IfSome result (λ command. HasProper command) }
{
    let [number, count] = arguments else {
        return None;
    };
    Some(ReplayCommand::Drill {
        number: read_number(number.as_slice(), 10, 0, MODULUS - 1)?,
        count: read_number(count.as_slice(), 10, 0, MOST_ROUNDS)?,
    })
}

fn read_judge_word<'a>(word: &[u8]) -> Option<ReplayCommand<'a>>
    ensures value { option_map request_by_command result ≡ judge_by_word word.now }
    ensures proper { IfSome result (λ command. HasProper command) }
{
    if word == b"tap".as_slice() {
        Some(ReplayCommand::Judge(Listener::Tap))
    } else if word == b"engine".as_slice() {
        Some(ReplayCommand::JudgeEngine(Listener::Bridge))
    } else {
        None
    }
}

fn read_judge_words<'a>(first: &[u8], second: &[u8]) -> Option<ReplayCommand<'a>>
    ensures value { option_map request_by_command result ≡ judge_by_words first.now second.now }
    ensures proper { IfSome result (λ command. HasProper command) }
{
    if first == b"tap".as_slice() && second == b"engine".as_slice() {
        Some(ReplayCommand::JudgeEngine(Listener::Tap))
    } else {
        None
    }
}

/// The command `judge`, which takes no arguments, or `tap` for the log of a tap, and behind it perhaps `engine`.
fn read_judge<'a>(arguments: &[Vec<u8>]) -> Option<ReplayCommand<'a>>
    ensures value { option_map request_by_command result ≡ judge_of (argument_bytes arguments.now) }
    ensures proper { IfSome result (λ command. HasProper command) }
{
    match arguments {
        [] => Some(ReplayCommand::Judge(Listener::Bridge)),
        [word] => read_judge_word(word.as_slice()),
        [first, second] => read_judge_words(first.as_slice(), second.as_slice()),
        _ => None,
    }
}

/// The command `drive`, which takes no arguments.
fn read_drive<'a>(arguments: &[Vec<u8>]) -> Option<ReplayCommand<'a>>
    ensures value { option_map request_by_command result ≡ command_without_arguments Drive
        (argument_bytes arguments.now) }
    ensures proper { IfSome result (λ command. HasProper command) }
{
    match arguments {
        [] => Some(ReplayCommand::Drive),
        _ => None,
    }
}

fn read_revive(arguments: &[Vec<u8>]) -> Option<ReplayCommand>
    ensures value { option_map request_by_command result ≡ revive_of (argument_bytes
        arguments.now) }
    ensures proper { IfSome result (λ command. HasProper command) }
{
    let [lives] = arguments else {
        return None;
    };
    Some(ReplayCommand::Revive {
        lives: read_number(lives.as_slice(), 1, 1, 9)?,
    })
}

/// The names of the commands.
#[derive(Clone, Copy)]
enum CommandName {
    Replay,
    Check,
    Migrate,
    Judge,
    Revive,
    Drive,
    Games,
    Positions,
    Drill,
    Moves,
}

static COMMAND_NAMES: [(&[u8], CommandName); 10] = [
    (b"replay", CommandName::Replay),
    (b"check", CommandName::Check),
    (b"migrate", CommandName::Migrate),
    (b"judge", CommandName::Judge),
    (b"revive", CommandName::Revive),
    (b"drive", CommandName::Drive),
    (b"games", CommandName::Games),
    (b"positions", CommandName::Positions),
    (b"drill", CommandName::Drill),
    (b"moves", CommandName::Moves),
];

/// The command `moves`, which takes one argument or more.
fn read_moves(arguments: &[Vec<u8>]) -> Option<ReplayCommand>
    ensures value { option_map request_by_command result ≡ moves_of (argument_bytes arguments.now) }
    ensures proper { IfSome result (λ command. HasProper command) }
{
    if arguments.is_empty() {
        None
    } else {
        Some(ReplayCommand::Moves(arguments))
    }
}

fn read_by(name: Option<CommandName>, arguments: &[Vec<u8>]) -> Option<ReplayCommand>
    ensures value { option_map request_by_command result ≡ command_by name (argument_bytes
        arguments.now) }
    ensures proper { IfSome result (λ command. HasProper command) }
{
    match name? {
        CommandName::Replay => Some(ReplayCommand::Replay(read_settings(arguments)?)),
        CommandName::Check => Some(ReplayCommand::Check(read_settings(arguments)?)),
        CommandName::Migrate => Some(ReplayCommand::Migrate(read_settings(arguments)?)),
        CommandName::Judge => read_judge(arguments),
        CommandName::Revive => read_revive(arguments),
        CommandName::Drive => read_drive(arguments),
        CommandName::Games => Some(ReplayCommand::Games(read_settings(arguments)?)),
        CommandName::Positions => Some(ReplayCommand::Positions(read_settings(arguments)?)),
        CommandName::Drill => read_drill(arguments),
        CommandName::Moves => read_moves(arguments),
    }
}

fn read_named<'a>(name: &[u8], arguments: &'a [Vec<u8>]) -> Option<ReplayCommand<'a>>
    ensures value { option_map request_by_command result
        ≡ command_named name.now (argument_bytes arguments.now) }
    ensures proper { IfSome result (λ command. HasProper command) }
{
    read_by(named(&COMMAND_NAMES, name), arguments)
}

/// The command of the arguments, which do not include the program's name.
pub fn read_command(arguments: &[Vec<u8>]) -> Option<ReplayCommand>
    ensures value { option_map request_by_command result ≡ replay_command_of (argument_bytes
        arguments.now) }
    ensures proper { IfSome result (λ command. HasProper command) }
{
    let [name, rest @ ..] = arguments else {
        return None;
    };
    read_named(name.as_slice(), rest)
}
