//! The chip.
ghost use Rattle.std.specs.Prelude.{◌≡◌, ◌<◌, ◌≤◌, pos};
ghost use Rattle.sn76489.specs.State.{power_on};
ghost use Rattle.sn76489.specs.Writes.{register_written, write_leaves};
ghost use Rattle.sn76489.specs.Clock.{clock_leaves, clocks};
ghost use Rattle.sn76489.specs.Level.{level};
ghost use Rattle.sn76489.specs.Quiet.{IsQuiet};

use crate::noise::Noise;
use crate::tone::Tone;
use beeb_bits::bit;
use std::marker::Model;

/// An SN76489AN.
#[derive(Drop)]
pub struct Sound {
    tone1: Tone,
    tone2: Tone,
    tone3: Tone,
    noise: Noise,
    // The register that a byte with bit 7 clear is for.
    latched: u8,
    // The number of clocks, modulo 128.
    count: u8,
}

impl Model for Sound {
    ghost use Rattle.std.specs.Prelude.{◌<◌};
    ghost use Rattle.sn76489.specs.State.{State};

    ghost Value = { State };

    ghost view = { λ s. record {
      tone1 = s.tone1;
      tone2 = s.tone2;
      tone3 = s.tone3;
      noise = s.noise;
      latched = s.latched;
      count = s.count;
    } };

    ghost invariant = { λ s. (s.latched < 8) × (s.count < 128) };
}

impl Sound {
    /// Returns the chip at power-on. It is silent: all volumes are 15.
    pub fn new() -> Sound
        ensures { result ≡ power_on }
    {
        Sound {
            tone1: Tone::new(),
            tone2: Tone::new(),
            tone3: Tone::new(),
            noise: Noise::new(),
            latched: 0,
            count: 0,
        }
    }

    /// Writes a byte. If bit 7 is set, the byte latches a register and sets its low bits. Otherwise
    /// it is for the latched register: the upper six bits of a period, or a volume or the noise
    /// control.
    pub fn write(&mut self, v: u8)
        ensures { self.new ≡ write_leaves v self.old }
    {
        if bit(v, 7) {
            self.latched = v / 16 % 8;
        }
        self.write_register(self.latched, v);
    }

    // Writes a byte to `register`.
    fn write_register(&mut self, register: u8, v: u8)
        ensures { self.new ≡ register_written register v self.old }
    {
        match register {
            0 => self.tone1.set_period(v),
            1 => self.tone1.set_volume(v),
            2 => self.tone2.set_period(v),
            3 => self.tone2.set_volume(v),
            4 => self.tone3.set_period(v),
            5 => self.tone3.set_volume(v),
            6 => self.noise.set_control(v),
            _ => self.noise.set_volume(v),
        }
    }

    /// Does one clock: tones 1, 2 and 3, and then the noise.
    pub fn clock(&mut self)
        ensures { self.new ≡ clock_leaves self.old }
    {
        self.tone1.clock();
        self.tone2.clock();
        let tone3_rises = self.tone3.clock();
        self.count = (self.count + 1) % 128;
        self.noise.clock(self.count, tone3_rises);
    }

    /// Does `n` clocks.
    pub fn advance(&mut self, n: u64)
        ensures { self.new ≡ clocks n self.old }
    {
        let mut done = 0;
        while done < n {
            done += self.rest(n - done);
            if done < n {
                self.clock();
                done += 1;
            }
        }
    }

    // Does at most `most` quiet clocks, and returns their number. In a quiet clock counters only go
    // down.
    fn rest(&mut self, most: u64) -> u64
        ensures clocks { self.new ≡ clocks result self.old }
        ensures bound { result ≤ most }
    {
        let some = most.min(u64::from(self.quiet()));
        self.lower(some as u16);
        some
    }

    // Returns a number of next clocks without a change of a tone's output or a shift of the noise.
    fn quiet(&self) -> u16
        ensures { IsQuiet result self.now }
    {
        let tones = self.tone1.quiet().min(self.tone2.quiet());
        let rest = self.tone3.quiet().min(self.noise.quiet(self.count));
        tones.min(rest)
    }

    // Does `n` quiet clocks.
    fn lower(&mut self, n: u16)
        requires { IsQuiet n self.old }
        ensures { self.new ≡ clocks n self.old }
    {
        self.tone1.lower(n);
        self.tone2.lower(n);
        self.tone3.lower(n);
        self.count = ((u16::from(self.count) + n) % 128) as u8;
    }

    /// Returns the output level: the sum of the amplitudes of all voices whose output is 1.
    pub fn level(&self) -> i16
        ensures { result ≡ pos (level self.now) }
    {
        let tones = self.tone1.loudness() + self.tone2.loudness() + self.tone3.loudness();
        (tones + self.noise.loudness()) as i16
    }
}
