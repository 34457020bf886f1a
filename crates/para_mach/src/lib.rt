//! The 6502 Second Processor as a party at the Tube.
#![tactic(auto)]

mod bus;
mod machine;
mod memory;
mod notes;

pub use machine::{ParaError, ParaMachine};
