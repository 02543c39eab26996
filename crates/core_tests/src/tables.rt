//! The behaviour of the tables beyond what the worked sessions show.
mod options;
mod search_info;
mod settings;
