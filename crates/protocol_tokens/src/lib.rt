//! The common parts of the grammars of both peers: tokens, numbers, tables of words and the kinds of a search.
#![tactic(auto)]

mod kinds;
mod numbers;
mod tables;
mod tokens;

pub use kinds::GoKind;
pub use numbers::{
    MINUTE, SECOND, read_centis, read_count, read_digits, read_number, read_seconds, read_signed,
};
pub use tables::named;
pub use tokens::{
    is_quit, is_white, next_token, split_at_white, split_token, trim, trim_end, trim_start,
};
