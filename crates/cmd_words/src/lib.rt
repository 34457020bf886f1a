//! The words of beebtube's command line: the grammar, and the files that a command reads.
#![tactic(auto)]

mod alone;
mod command;
mod discs;
mod files;
mod given;
mod keys;
mod law;
mod words;

pub use command::Command;
pub use given::Given;
pub use keys::{InputKind, MOST_KEEP};
pub use law::{options_are_order_free, options_stand_anywhere};
pub use words::command_of;
