//! The edges that the programs share: the arguments after a program's name, why they are refused, an engine with its log
//! as arguments ask for it, what all programs say of themselves, and standard streams that may be closed at the start.
#![tactic(auto)]

mod arguments;
mod streams;

pub use arguments::{
    ARGUMENT_ROOM, ARGUMENTS_ROOM, About, ArgumentsRefusal, EngineRequest, OwnText, VERSION,
    answer_about, arguments_of, own_text, read_arguments, version_line,
};
pub use streams::{ClosedStreams, IfOpen, NO_MEMORY};
