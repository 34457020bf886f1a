//! The noise.
ghost use Rattle.std.specs.Prelude.{◌≡◌, ◌<◌, ◌≤◌};
ghost use Rattle.sn76489.specs.State.{power_on};
ghost use Rattle.sn76489.specs.Writes.{noise_with_control, noise_with_volume};
ghost use Rattle.sn76489.specs.Clock.{shift_clocks, shifts_at, shift_leaves, noise_clock_leaves};
ghost use Rattle.sn76489.specs.Level.{noise_output, loudness};
ghost use Rattle.sn76489.specs.Quiet.{noise_quiet};

use crate::tone::loudness;
use beeb_bits::bit;
use std::marker::Model;

/// The first value of the shift register.
const START: u16 = 0x4000;

#[derive(Drop)]
pub(crate) struct Noise {
    control: u8,
    // The shift register, of 15 bits, with linear feedback (LFSR).
    register: u16,
    volume: u8,
}

impl Model for Noise {
    ghost use Rattle.std.specs.Prelude.{◌<◌};
    ghost use Rattle.sn76489.specs.State.{Noise};

    ghost Value = { Noise };

    ghost view = { λ n. record { control = n.control; register = n.register; volume = n.volume } };

    ghost invariant = { λ n. (n.control < 8) × (n.register < 32768) × (n.volume < 16) };
}

// Returns the number of clocks from one shift to the next, at rates 0, 1 and 2.
fn shift_clocks(rate: u8) -> u8
    ensures value { result ≡ shift_clocks rate }
    ensures some { 0 < result }
{
    match rate {
        0 => 32,
        1 => 64,
        _ => 128,
    }
}

// Returns the register after a shift.
fn shifted(white: bool, register: u16) -> u16
    requires { register < 32768 }
    ensures value { result ≡ shift_leaves white register }
    ensures bound { result < 32768 }
{
    let entering = if white {
        (register + register / 2) % 2
    } else {
        register % 2
    };
    register / 2 + START * entering
}

impl Noise {
    /// Returns the noise at power-on.
    pub(crate) fn new() -> Noise
        ensures { result ≡ power_on.noise }
    {
        Noise {
            control: 0,
            register: START,
            volume: 15,
        }
    }

    // Reports if the noise shifts in the clock `number`.
    fn shifts_at(&self, number: u8, tone3_rises: bool) -> bool
        ensures { result ≡ shifts_at number tone3_rises self.now }
    {
        match self.control % 4 {
            3 => tone3_rises,
            rate => number % shift_clocks(rate) == 0,
        }
    }

    /// Does the clock `number`. Tone 3 rises in it or not.
    pub(crate) fn clock(&mut self, number: u8, tone3_rises: bool)
        ensures { self.new ≡ noise_clock_leaves number tone3_rises self.old }
    {
        if self.shifts_at(number, tone3_rises) {
            self.register = shifted(bit(self.control, 2), self.register);
        }
    }

    /// Returns a number of clocks after the clock `number` without a shift by the rate.
    pub(crate) fn quiet(&self, number: u8) -> u16
        ensures { result ≡ noise_quiet number self.now }
    {
        let each = shift_clocks(self.control % 4);
        u16::from(each - 1 - number % each)
    }

    /// Writes a byte to the noise control. The shift register is reset.
    pub(crate) fn set_control(&mut self, v: u8)
        ensures { self.new ≡ noise_with_control v self.old }
    {
        self.control = v % 8;
        self.register = START;
    }

    /// Writes a byte to the volume.
    pub(crate) fn set_volume(&mut self, v: u8)
        ensures { self.new ≡ noise_with_volume v self.old }
    {
        self.volume = v % 16;
    }

    /// Returns the amplitude of the noise.
    pub(crate) fn loudness(&self) -> u16
        ensures value { result ≡ loudness (noise_output self.now) (self.now).volume }
        ensures bound { result ≤ 8191 }
    {
        loudness(self.register % 2 == 1, self.volume)
    }
}
