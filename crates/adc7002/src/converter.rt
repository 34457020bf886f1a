//! The converter.
ghost use Rattle.std.specs.Prelude.{◌≡◌, ◌<◌};
ghost use Rattle.adc7002.specs.State.{power_on};
ghost use Rattle.adc7002.specs.Registers.{status, answer_of, write_leaves, cb1};
ghost use Rattle.adc7002.specs.Step.{low_byte, end_leaves, steps};
ghost use Rattle.adc7002.specs.Calm.{KeepsItsLine};

use beeb_bits::bit;
use std::marker::Model;

/// The steps of a conversion to 8 bits, and to 12.
const SHORT: u16 = 4_000;

const LONG: u16 = 10_000;

/// A uPD7002.
#[derive(Drop)]
pub struct Adc {
    // The low four bits of the last byte written to register 0: bits 1 and 0 are the channel, and
    // bit 3 selects 12 bits.
    kept: u8,
    // The number of steps before the conversion ends; 0 if none is in progress.
    left: u16,
    // The result's two bytes.
    high: u8,
    low: u8,
    // A conversion has ended after the last write to register 0.
    has_ended: bool,
}

impl Model for Adc {
    ghost use Rattle.std.specs.Prelude.{◌<◌};
    ghost use Rattle.adc7002.specs.State.{State};

    ghost Value = { State };

    ghost view = { λ a. record { kept = a.kept; left = a.left; high = a.high; low = a.low; has_ended = a.has_ended } };

    ghost invariant = { λ a. a.kept < 16 };
}

// Returns the low byte of the result of a conversion of `level`.
fn low_byte(kept: u8, level: u16) -> u8
    ensures { result ≡ low_byte kept level }
{
    if bit(kept, 3) {
        (level % 256) as u8 & 0xf0
    } else {
        0x00
    }
}

impl Adc {
    /// Returns the converter at power-on: all is 0, and no conversion is in progress.
    pub fn new() -> Adc
        ensures { result ≡ power_on }
    {
        Adc {
            kept: 0,
            left: 0,
            high: 0,
            low: 0,
            has_ended: false,
        }
    }

    /// Writes a register. A write to register 0 begins a conversion, and stops one that is in
    /// progress. Other writes do nothing.
    pub fn write(&mut self, reg: u8, v: u8)
        ensures { self.new ≡ write_leaves reg v self.old }
    {
        if reg == 0 {
            self.kept = v % 16;
            self.left = if bit(v, 3) { LONG } else { SHORT };
            self.has_ended = false;
        }
    }

    /// Returns the byte of a register, 0 to 3: the status, the result's high byte, its low byte,
    /// and FE.
    pub fn read(&self, reg: u8) -> u8
        requires { reg < 4 }
        ensures { result ≡ answer_of reg self.now }
    {
        match reg {
            0 => self.status(),
            1 => self.high,
            2 => self.low,
            _ => 0xfe,
        }
    }

    // Returns the status: bit 7 during a conversion, otherwise bit 6; the result's two highest
    // bits; and the four stored bits.
    fn status(&self) -> u8
        ensures { result ≡ status self.now }
    {
        let goes_on = if self.left == 0 { 0x40 } else { 0x80 };
        goes_on + 16 * (self.high / 64) + self.kept
    }

    /// Does `n` steps, each with `levels` on the four channels.
    #[inline(always)]
    pub fn advance(&mut self, levels: [u16; 4], n: u64)
        ensures { self.new ≡ steps levels n self.old }
    {
        let left = u64::from(self.left);
        if n < left {
            self.left = (left - n) as u16;
        } else if left != 0 {
            self.end(levels[usize::from(self.kept % 4)]);
        }
    }

    // Ends a conversion, with its channel at `level`.
    #[cold]
    #[inline(never)]
    fn end(&mut self, level: u16)
        ensures { self.new ≡ end_leaves level self.old }
    {
        self.left = 0;
        self.high = (level / 256) as u8;
        self.low = low_byte(self.kept, level);
        self.has_ended = true;
    }

    /// Returns the level of EOC, end of conversion, the line to the system VIA's CB1. It is low
    /// from a conversion's end to the next write to register 0.
    #[inline(always)]
    pub fn cb1(&self) -> bool
        ensures { result ≡ cb1 self.now }
    {
        !self.has_ended
    }

    /// Returns a number of steps during which the line does not change, with any levels.
    #[inline(always)]
    pub fn calm(&self) -> u64
        ensures { KeepsItsLine result self.now }
    {
        if self.left == 0 {
            u64::MAX
        } else {
            u64::from(self.left) - 1
        }
    }
}
