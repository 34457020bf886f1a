//! The parts that both processors share: sums and shifts, the registers and their flags, and a bus
//! access.
#![tactic(auto)]

ghost use Rattle.std.specs.Prelude.{ℕ, ◌≡◌, ◌<◌, ◌%◌, true, leb, Bool};
ghost use Rattle.op_table.specs.declared.Part.{Part};
ghost use Rattle.cpu_alu.specs.Arithmetic.{adc, sbc};
ghost use Rattle.cpu_alu.specs.Decimal.{digits, plus, less};

mod addresses;
mod arithmetic;
mod flags;
mod instructions;
mod uses;

pub use addresses::{crosses_page, in_zero_page, word, wrapping_sum};
pub use arithmetic::{adc, asl, compare, lsr, rol, ror, sbc};
pub use flags::{
    CARRY, DECIMAL, INTERRUPT, NEGATIVE, OVERFLOW, PULLED, PUSHED_BY_INTERRUPT, PUSHED_BY_PROGRAM,
    ZERO, has_flag, with_flag,
};
pub use uses::{BusUse, bus_use};

/// The result of an operation: its byte, and the flags of P that it may set.
#[derive(Clone, Copy, Debug, PartialEq, Eq)]
pub struct Sum {
    /// The byte.
    pub value: u8,
    /// Carry.
    pub c: bool,
    /// Zero.
    pub z: bool,
    /// Overflow.
    pub v: bool,
    /// Negative.
    pub n: bool,
}

/// The registers: the MCS6500 Programming Manual, chapters 2, 3, 7 and 8. In `p` C is bit 0, Z bit
/// 1, I bit 2, D bit 3, V bit 6 and N bit 7. Bits 4 and 5 exist only in pushed flags, and are clear
/// in `p`.
#[derive(Clone, Copy, Debug, PartialEq, Eq)]
pub struct Regs {
    /// The program counter.
    pub pc: u16,
    /// The accumulator.
    pub a: u8,
    /// Index X.
    pub x: u8,
    /// Index Y.
    pub y: u8,
    /// The stack pointer, an address in page 1.
    pub s: u8,
    /// The flags.
    pub p: u8,
}

/// One access to the bus.
#[derive(Clone, Copy, Debug, PartialEq, Eq)]
pub enum Cycle {
    /// A byte is read from an address.
    Read(u16),
    /// A byte is written to an address.
    Write(u16, u8),
}

/// Proves a law and does no work: in decimal mode, on both parts, bytes of two decimal digits add
/// and subtract as the numbers below 100 that they show. The carry is set if a sum is at least 100,
/// or if a difference is not negative.
/// Source: the MCS6500 Programming Manual, section 2.2.
pub fn decimal_mode_is_arithmetic()
    ensures sum { (part : Part) (c : Bool) (x y : ℕ) → x < 100 → y < 100 → (adc part true (digits x) (digits y) c).value ≡ digits (plus x y c % 100) }
    ensures sum_carry { (part : Part) (c : Bool) (x y : ℕ) → x < 100 → y < 100 → (adc part true (digits x) (digits y) c).c ≡ leb 100 (plus x y c) }
    ensures difference { (part : Part) (c : Bool) (x y : ℕ) → x < 100 → y < 100 →
        (sbc part true (digits x) (digits y) c).value ≡ digits (less x y c % 100) }
    ensures difference_carry { (part : Part) (c : Bool) (x y : ℕ) → x < 100 → y < 100 →
        (sbc part true (digits x) (digits y) c).c ≡ leb 100 (less x y c) }
{}
