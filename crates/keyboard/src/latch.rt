//! The addressable latch of the system VIA: IC32, an LS259.
ghost use Rattle.std.specs.Prelude.{◌≡◌, false, replicate};
ghost use Rattle.keyboard.specs.Latch.{latch_after, scans_itself, screen_size};

use beeb_bits::bit;

/// The latch's eight bits.
#[derive(Clone, Copy, Debug, PartialEq, Eq)]
pub struct Latch {
    pub bits: [bool; 8],
}

impl Latch {
    /// Returns the latch at power-on: all bits are 0.
    pub fn new() -> Latch
        ensures { result.bits ≡ replicate 8 false }
    {
        Latch { bits: [false; 8] }
    }

    /// Takes the pins `p` of port B after a write to register 0 or 2 of the system VIA: latch bit
    /// `p AND 7` becomes bit 3 of `p`.
    pub fn write(&mut self, p: u8)
        ensures { self.new.bits ≡ latch_after p self.old.bits }
    {
        self.bits[usize::from(p % 8)] = bit(p, 3);
    }

    /// Reports if bit 3, keyboard write enable, is set: the keyboard scans its columns by itself.
    pub fn scans_itself(&self) -> bool
        ensures { result ≡ scans_itself self.now.bits }
    {
        self.bits[3]
    }

    /// Returns the bytes of the screen, by bits 5 and 4.
    pub fn screen_size(&self) -> u16
        ensures { result ≡ screen_size self.now.bits }
    {
        match (self.bits[5], self.bits[4]) {
            (false, false) => 16_384,
            (false, true) => 8_192,
            (true, false) => 20_480,
            (true, true) => 10_240,
        }
    }
}
