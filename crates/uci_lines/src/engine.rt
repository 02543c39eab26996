// Reads what an engine says.
ghost use Rattle.std.specs.Prelude.{◌≡◌, ◌↔◌, ℕ, List, codes};
ghost use Rattle.protocol_tokens.specs.Tokens.{first_token};
ghost use Rattle.uci_lines.specs.Engine.{name_said, best_said, said_after, answer_text, engine_message};
ghost use Rattle.uci_lines.specs.Writable.{CanWriteEngineMsg};
ghost use Rattle.uci_lines.specs.Messages.{EngineMsg as AnyEngineMsg, uci_message_of};
ghost use Rattle.uci_lines.specs.Spells.{SpellsMessage, FirstKnownWordIs};

use crate::cut::{Delimiter, find_word, is_word};
use crate::info::read_info;
use crate::messages::EngineMsg;
use crate::option::read_option;
use chess_board::read_move;
use protocol_tokens::split_token;

fn read_name(text: &[u8]) -> EngineMsg<'_>
    ensures value { uci_message_of result ≡ name_said text.now }
    ensures writable { CanWriteEngineMsg (uci_message_of result) }
{
    let (word, others) = split_token(text);
    if is_word(word, "name") {
        EngineMsg::Name(others)
    } else {
        EngineMsg::Nothing
    }
}

fn read_best(text: &[u8]) -> EngineMsg<'_>
    ensures value { uci_message_of result ≡ best_said text.now }
    ensures writable { CanWriteEngineMsg (uci_message_of result) }
{
    let (word, others) = split_token(text);
    let best = read_move(word);
    let hint = match find_word(others, Delimiter::Ponder) {
        Some(found) => read_move(split_token(found.after).0),
        None => None,
    };
    EngineMsg::Best { best, hint }
}

fn read_after<'a>(word: &[u8], text: &'a [u8]) -> EngineMsg<'a>
    ensures value { uci_message_of result ≡ said_after word.now text.now }
    ensures writable { CanWriteEngineMsg (uci_message_of result) }
{
    if is_word(word, "id") {
        read_name(text)
    } else if is_word(word, "uciok") {
        EngineMsg::UciOk
    } else if is_word(word, "readyok") {
        EngineMsg::ReadyOk
    } else if is_word(word, "bestmove") {
        read_best(text)
    } else if is_word(word, "info") {
        EngineMsg::Info(read_info(text))
    } else {
        read_option(text)
    }
}

#[tactic(auto, unfolding(crate::specs::Engine::engine_message))]
fn read_message(line: &[u8]) -> EngineMsg<'_>
    ensures value { uci_message_of result ≡ engine_message line.now }
    ensures writable { CanWriteEngineMsg (uci_message_of result) }
{
    match find_word(line, Delimiter::Message) {
        Some(found) => read_after(found.word, found.after),
        None => EngineMsg::Nothing,
    }
}

/// The message in a line of the engine (UCI, "Engine to GUI"). The line may end with a CR, and has no LF.
/// `lines_say_one_message` says that each line spells exactly one message.
pub fn read_engine(line: &[u8]) -> EngineMsg<'_>
    ensures value { uci_message_of result ≡ engine_message line.now }
    // A message is read if and only if the line spells it.
    ensures spelled { (m : AnyEngineMsg) → (uci_message_of result ≡ m)
        ↔ SpellsMessage line.now m }
    ensures writable { CanWriteEngineMsg (uci_message_of result) }
{
    read_message(line)
}

#[tactic(auto, unfolding(crate::specs::Engine::answer_text))]
fn find_answer(line: &[u8]) -> &[u8]
    ensures { result.now ≡ answer_text line.now }
{
    match find_word(line, Delimiter::Message) {
        Some(found) if is_word(found.word, "bestmove") => split_token(found.after).0,
        _ => b"",
    }
}

/// The token behind `bestmove`, whatever it spells; nothing if there is none, or if the line says something else.
pub fn answer_text(line: &[u8]) -> &[u8]
    ensures value { result.now ≡ answer_text line.now }
    // The first known word of the line is `bestmove`, and the answer is the next token.
    ensures answer { (text : List ℕ) → FirstKnownWordIs line.now (codes "bestmove") text
        → result.now ≡ first_token text }
{
    find_answer(line)
}
