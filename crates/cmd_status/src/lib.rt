//! The endings of a command, the causes of its refusals, and the program's number and text of each.
#![tactic(auto)]

mod status;

pub use status::{Cause, Ending, Status, Which, status_of};
