//! A processor at a bus as a party at the Tube: its steps, and the loop that does them, for any
//! bus.
#![tactic(auto)]

mod bus;
mod processor;
mod run;
mod skip_while;
mod steps;

pub use bus::{AccessError, Done, Interrupts, TubeBus};
pub use processor::Processor;
pub use skip_while::{SkipWhile, skip_over};
pub use steps::{RunExit, advance_at, advance_seeing, answer, carry_on, look, take_lines};
