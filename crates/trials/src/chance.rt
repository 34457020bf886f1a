//! Pseudo-random numbers.
ghost use Rattle.std.specs.Prelude.{◌<◌};

use beeb_bits::Clock;
use rand_core::utils::NextWord;
use rand_pcg::Lcg64Xsh32;

/// The PCG generator (XSH RR 64/32) of a seed.
#[derive(Drop)]
pub struct Chance {
    words: Lcg64Xsh32,
}

impl Chance {
    /// Makes the generator of a seed. Each kind of trial has a stream of its own.
    pub fn new(seed: u64, stream: u64) -> Chance {
        Chance {
            words: Lcg64Xsh32::new(seed, stream),
        }
    }

    pub fn word(&mut self) -> u32 {
        self.words.next_word()
    }

    pub fn byte(&mut self) -> u8 {
        (self.word() % 256) as u8
    }

    /// Returns a number below `n`, or 0.
    pub fn below(&mut self, n: u32) -> u32
        ensures { 0 < n → result < n }
    {
        if n == 0 { 0 } else { self.word() % n }
    }

    /// Returns true once in `n` times.
    pub fn once_in(&mut self, n: u32) -> bool {
        self.below(n) == 0
    }

    /// Returns one of the addresses.
    pub fn among(&mut self, addresses: &[u16]) -> u16 {
        let place = self.word() as usize;
        if addresses.is_empty() {
            return 0;
        }
        addresses[place % addresses.len()]
    }

    pub fn clock(&mut self) -> Clock {
        if self.once_in(2) {
            Clock::Three
        } else {
            Clock::Four
        }
    }

    /// Returns an address below 8000.
    pub fn memory(&mut self) -> u16 {
        (self.word() % 0x8000) as u16
    }
}
