//! Reading a log as a script, and writing the lines of its transcript.
#![tactic(auto)]

mod append;
mod boxes;
mod command;
mod commands;
mod fault;
mod fields;
mod format;
mod header;
mod line_fault;
mod lines;
mod log_text;
mod number;
mod parsing;
mod piece;
mod plain;
mod points;
mod poses;
mod queries;
mod reply;
mod room;
mod script;
mod transcript_lines;

pub use command::Command;
pub use commands::MAX_COMMANDS;
pub use fault::{LogCause, ParseFault};
pub use format::Format;
pub use log_text::{write_command, write_header, write_script};
pub use number::natural_in;
pub use parsing::parse;
pub use plain::PlainScript;
pub use reply::Reply;
pub use script::Script;
pub use transcript_lines::reply_line;
