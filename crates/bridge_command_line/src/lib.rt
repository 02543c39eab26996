//! The arguments of the programs `bridge` and `wineravine`, read by `clap`: the settings that both choose, and
//! what else each asks for.
#![tactic(auto)]

mod arguments;
mod bridge_arguments;
mod bridge_request;
mod found;
mod help;
mod lines;
mod wineravine_arguments;
mod wineravine_request;

pub use arguments::{flag_option, log_file, option, with_arg, with_policy};
pub use bridge_request::{BridgeRequest, read_bridge_arguments};
pub use found::{
    copied_value, first_value, flag, is_named, policy_of, put_copies, put_values, texts, values,
};
pub use help::HELP;
pub use wineravine_arguments::wineravine_command;
pub use wineravine_request::{
    AskedProgram, WineravineRequest, WrongArguments, read_wineravine_arguments,
};
