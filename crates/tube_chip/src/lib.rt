//! The Tube chip, which joins the host and the parasite (Acorn Application Note 004), and the order
//! of events at it.
#![tactic(auto)]

mod chip;
mod flags;
mod law;
mod packing;
mod register;

pub use chip::Chip;
pub use law::{packing_is_one_to_one, rising_list_is_merge};

/// An operation of a side: an access to one of its eight Tube addresses, by the low three address
/// bits, or the host's reset.
#[derive(Clone, Copy, Debug, PartialEq, Eq)]
pub enum Op {
    /// A read of a number below 8.
    Read(u8),
    /// A write to a number below 8, and the byte.
    Write(u8, u8),
    /// The host's reset of the chip, HRST.
    Reset,
}

/// The lines that the chip drives, and the counts of two of them, as a machine's look sees them.
#[derive(Clone, Copy, Debug, PartialEq, Eq)]
pub struct Lines {
    /// The parasite's reset line, PRST, is active.
    pub prst: bool,
    /// The number of times it became active, modulo 2^32.
    pub resets: u32,
    /// The number of times the parasite's NMI, PNMI, was asked for, modulo 2^32.
    pub nmis: u32,
    /// The parasite's IRQ, PIRQ.
    pub pirq: bool,
    /// The host's IRQ, HIRQ.
    pub hirq: bool,
}

/// An answer of the chip: a byte to an operation, the lines to a look.
#[derive(Clone, Copy, Debug, PartialEq, Eq)]
pub enum Answer {
    Byte(u8),
    Seen(Lines),
}
