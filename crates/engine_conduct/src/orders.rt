// The orders to an engine, by their first tokens.
ghost use Rattle.std.specs.Prelude.{◌≡◌};
ghost use Rattle.std.specs.Option.{option_map};
ghost use Rattle.protocol_tokens.specs.Tokens.{tokens};
ghost use Rattle.engine_conduct.specs.Orders.{castling_named, castling_variant, declared_game, declared_set, game_named, is_unlimited, is_plain_game, begins_pondering, option_named, order_heard, order_word, position_placed, choice_set_by, value_behind, variant_played, variant_set, variant_set_in};

use crate::words::{behind_first, has_token, is_word, token_alone};
use chess_board::{Position, Variant};
use protocol_tokens::{next_token, split_token};
use uci_interface_lines::spoken_by;
use uci_lines::{EngineMsg, OptionKind, read_engine};

/// The words with which orders begin.
#[derive(Clone, Copy)]
pub(crate) enum AskedWord {
    Uci,
    IsReady,
    SetOption,
    NewGame,
    Position,
    Go,
    Stop,
    PonderHit,
    Quit,
    /// `debug` or `register`, to which no answer is due.
    Passing,
}

/// An order, by its first token.
#[derive(Clone, Copy)]
pub(crate) enum HeardOrder {
    Word(AskedWord),
    /// UCI has no such word: it may make an engine say anything.
    Foreign,
    Blank,
}

/// Whether the rules of Chess960 are on.
#[derive(Clone, Copy, PartialEq, Eq)]
pub enum Castling {
    /// Off: nothing was said.
    Usual,
    /// On by the default of an option.
    Declared,
    /// Off by an order.
    Standard,
    /// On by an order.
    Chess960,
    /// An option was declared to be on behind an order that set it: on or off.
    Unclear,
}

/// Chess, or another game that an engine plays too.
#[derive(Clone, Copy, PartialEq, Eq)]
pub enum PlayedGame {
    Chess,
    Other,
}

/// The options that choose the game.
#[derive(Clone, Copy)]
pub(crate) enum GameOption {
    Chess960,
    Variant,
}

/// What is chosen by such an option.
#[derive(Clone, Copy)]
pub(crate) enum GameChoice {
    /// By an order, the rules of castling.
    Castling(Castling),
    /// By a default, those of Chess960.
    Declared,
    Game(PlayedGame),
}

fn order_word(token: &[u8]) -> Option<AskedWord>
    ensures { result ≡ order_word token.now }
{
    if is_word(token, "uci") {
        Some(AskedWord::Uci)
    } else if is_word(token, "isready") {
        Some(AskedWord::IsReady)
    } else if is_word(token, "setoption") {
        Some(AskedWord::SetOption)
    } else if is_word(token, "ucinewgame") {
        Some(AskedWord::NewGame)
    } else if is_word(token, "position") {
        Some(AskedWord::Position)
    } else if is_word(token, "go") {
        Some(AskedWord::Go)
    } else if is_word(token, "stop") {
        Some(AskedWord::Stop)
    } else if is_word(token, "ponderhit") {
        Some(AskedWord::PonderHit)
    } else if is_word(token, "quit") {
        Some(AskedWord::Quit)
    } else if is_word(token, "debug") || is_word(token, "register") {
        Some(AskedWord::Passing)
    } else {
        None
    }
}

/// The order that a line is, by its first token.
pub(crate) fn order_heard(line: &[u8]) -> HeardOrder
    ensures { result ≡ order_heard line.now }
{
    let token = split_token(line).0;
    match order_word(token) {
        Some(word) => HeardOrder::Word(word),
        None if token.is_empty() => HeardOrder::Blank,
        None => HeardOrder::Foreign,
    }
}

fn option_named(name: &[u8]) -> Option<GameOption>
    ensures { result ≡ option_named name.now }
{
    if name.eq_ignore_ascii_case(b"UCI_Chess960") {
        Some(GameOption::Chess960)
    } else if name.eq_ignore_ascii_case(b"UCI_Variant") || name.eq_ignore_ascii_case(b"Variant") {
        Some(GameOption::Variant)
    } else {
        None
    }
}

fn is_plain_game(name: &[u8]) -> bool
    ensures { result ≡ is_plain_game name.now }
{
    name.eq_ignore_ascii_case(b"chess")
        || name.eq_ignore_ascii_case(b"normal")
        || name.eq_ignore_ascii_case(b"standard")
}

fn castling_named(value: &[u8]) -> Castling
    ensures { result ≡ castling_named (token_alone (tokens value.now)) }
{
    match token_alone(value) {
        Some(token) if is_word(token, "false") => Castling::Standard,
        _ => Castling::Chess960,
    }
}

ghost use Rattle.engine_conduct.specs.Words.{token_alone};

fn game_named(value: &[u8]) -> PlayedGame
    ensures { result ≡ game_named (token_alone (tokens value.now)) }
{
    match token_alone(value) {
        Some(token) if is_plain_game(token) => PlayedGame::Chess,
        _ => PlayedGame::Other,
    }
}

fn choice_set_by(option: GameOption, value: &[u8]) -> GameChoice
    ensures { result ≡ choice_set_by option (token_alone (tokens value.now)) }
{
    match option {
        GameOption::Chess960 => GameChoice::Castling(castling_named(value)),
        GameOption::Variant => GameChoice::Game(game_named(value)),
    }
}

// The value, which is what follows `value`, or nothing.
fn value_behind(text: &[u8]) -> Option<&[u8]>
    ensures { option_map (λ t. tokens t.now) result ≡ value_behind (tokens text.now) }
{
    match next_token(text) {
        Some((word, others)) if is_word(word, "value") => Some(others),
        Some(_) => None,
        None => Some(text),
    }
}

fn variant_set_in(text: &[u8]) -> Option<GameChoice>
    ensures { result ≡ variant_set_in (tokens text.now) }
{
    let (word, behind) = next_token(text)?;
    let (name, others) = next_token(behind)?;
    if !is_word(word, "name") {
        return None;
    }
    let option = option_named(name)?;
    let value = value_behind(others)?;
    Some(choice_set_by(option, value))
}

/// What a `setoption` line chooses, if it sets an option that chooses the game.
pub(crate) fn variant_set(line: &[u8]) -> Option<GameChoice>
    ensures { result ≡ variant_set line.now }
{
    variant_set_in(behind_first(line))
}

fn declared_game(default: &[u8]) -> Option<GameChoice>
    ensures { result ≡ declared_game default.now }
{
    if default.is_empty() || is_plain_game(default) {
        None
    } else {
        Some(GameChoice::Game(PlayedGame::Other))
    }
}

/// What an `option` line chooses by its default.
pub(crate) fn declared_set(line: &[u8]) -> Option<GameChoice>
    ensures { result ≡ declared_set (engine_message line.now) }
{
    let EngineMsg::OptionLine(option) = read_engine(line) else {
        return None;
    };
    match (option_named(option.name)?, option.kind) {
        (GameOption::Chess960, OptionKind::Check { on: true }) => Some(GameChoice::Declared),
        (GameOption::Variant, OptionKind::Combo { default, values: _ }) => declared_game(default),
        _ => None,
    }
}

ghost use Rattle.uci_lines.specs.Engine.{engine_message};

// By whose rules kings castle, if it is known.
fn castling_variant(castling: Castling) -> Option<Variant>
    ensures { result ≡ castling_variant castling }
{
    match castling {
        Castling::Usual | Castling::Standard => Some(Variant::Normal),
        Castling::Declared | Castling::Chess960 => Some(Variant::Fischer),
        Castling::Unclear => None,
    }
}

/// The rules by which positions are read, if they are known.
pub(crate) fn variant_played(castling: Castling, game: PlayedGame) -> Option<Variant>
    ensures { result ≡ variant_played castling game }
{
    match game {
        PlayedGame::Chess => castling_variant(castling),
        PlayedGame::Other => None,
    }
}

/// The position of a `position` line by these rules.
pub(crate) fn position_placed(variant: Option<Variant>, line: &[u8]) -> Option<Position>
    ensures { result ≡ position_placed variant line.now }
{
    match spoken_by(variant?, line) {
        Some(said) => Some(said.end),
        None => None,
    }
}

/// True if a `go` begins a search on the move that the other side is expected to make.
pub(crate) fn begins_pondering(line: &[u8]) -> bool
    ensures { result ≡ begins_pondering (tokens line.now) }
{
    has_token(line, "ponder")
}

/// True if a `go` says `infinite`, and nothing that ends the search.
pub(crate) fn is_unlimited(line: &[u8]) -> bool
    ensures { result ≡ is_unlimited (tokens line.now) }
{
    has_token(line, "infinite")
        && !has_token(line, "depth")
        && !has_token(line, "nodes")
        && !has_token(line, "mate")
        && !has_token(line, "movetime")
}
