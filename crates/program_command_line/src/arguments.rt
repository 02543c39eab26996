// The arguments of a program: as they come, and as a request; and what a program says of itself.
pub(crate) mod about;
pub(crate) mod given;
pub(crate) mod refusal;
pub(crate) mod request;
pub(crate) mod version;

pub use about::{About, OwnText, answer_about, own_text, version_line};
pub use given::{ARGUMENT_ROOM, ARGUMENTS_ROOM, arguments_of};
pub use refusal::ArgumentsRefusal;
pub use request::{EngineRequest, read_arguments};
pub use version::VERSION;
