//! The outcome of a command: its ending, its text, and its outputs as data. The file of each output
//! is made just before it is written.
#![tactic(auto)]

mod discs;
mod file;
mod frames;
mod left;
mod memories;
mod names;
mod output;
mod outputs;
mod plugs;
mod product;
mod sound;
mod trace;

pub use left::{Kept, Left};
pub use names::Names;
pub use output::Output;
pub use product::{Outcome, file_outcome, listing_outcome, machine_outcome, said_outcome};
pub use trace::{entries_of, trace_of, wrong_outcome};
