//! The 6522, or Versatile Interface Adapter, one microsecond at a time (6522 data sheet).
#![tactic(auto)]

mod chip;
mod interrupt_flags;
mod law;
mod levels;
mod quiet;
mod timer1;
mod timer2;
mod via;

pub use law::{timer1_fires_once, timer1_runs_free, timer2_fires_once};
pub use via::Via;

/// The levels that are put on the pins from outside. Of both ports only the input bits count.
#[derive(Clone, Copy, Debug, PartialEq, Eq)]
pub struct Pins {
    pub a: u8,
    pub b: u8,
    pub ca1: bool,
    pub ca2: bool,
    pub cb1: bool,
    pub cb2: bool,
}
