//! The text of a list of Tube accesses, and the test of its answers by the chip.
#![tactic(auto)]

mod beginning;
mod hex;
mod law;
mod line;
mod merging;
mod reading;
mod writing;
mod wrong;

use beeb_bits::{Clock, Side, Tick};
pub use law::text_reads_back;
pub use line::push_access;
pub use merging::merge;
pub use reading::read;
use thiserror::Error;
use tube_chip::Op;
pub use writing::{write, write_both};
pub use wrong::first_wrong;

/// One access of a side to the Tube.
#[derive(Clone, Copy, Debug, PartialEq, Eq)]
pub struct Entry {
    pub tick: Tick,
    pub side: Side,
    pub op: Op,
    /// The byte answered, 00 for a write or a reset.
    pub answer: u8,
}

/// A trace: the clock of the machines, and their accesses to the Tube in order.
#[derive(Debug, Drop)]
pub struct Trace {
    pub clock: Clock,
    pub entries: Vec<Entry>,
}

/// The reason why a text is no trace. Lines count from 1, after the beginning of its clock.
#[derive(Clone, Copy, Debug, PartialEq, Eq, Error)]
pub enum TraceError {
    #[error("line {line} is outside the form of a trace")]
    BadLine { line: u64 },
    #[error("line {line} is not after the line before it")]
    BadOrder { line: u64 },
    #[error("no memory")]
    NoMemory,
}
