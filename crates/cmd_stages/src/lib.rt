//! The stages of a command: reading its files in order, working on them, and writing the outcome in
//! order.
#![tactic(auto)]

mod law;
mod name;
mod outcome;
mod read;
mod stop;
mod write;

pub use law::stages_carry_out;
pub use name::Name;
pub use outcome::{Leaves, Outcome};
pub use read::read_all;
pub use stop::{Refusal, Stop};
pub use write::write_outcome;
