//! The top call of the program.
#![tactic(auto)]

mod commands;
mod lines;
mod options;
mod output;
mod request;
mod status;
mod word;
mod words;

pub use commands::plain;
pub use request::Command;
pub use status::Status;
pub use word::Word;
pub use words::command;
