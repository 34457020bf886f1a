//! The BBC Micro as a party at the Tube.
#![tactic(auto)]

mod bus;
mod machine;

pub use machine::HostMachine;
