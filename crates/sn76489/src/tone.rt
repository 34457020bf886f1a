//! A tone, and the amplitude of a voice.
ghost use Rattle.std.specs.Prelude.{◌≡◌, ◌<◌, ◌≤◌};
ghost use Rattle.sn76489.specs.State.{silent_tone};
ghost use Rattle.sn76489.specs.Writes.{tone_with_period, tone_with_volume};
ghost use Rattle.sn76489.specs.Clock.{tone_clock_leaves, rises, period_clocks};
ghost use Rattle.sn76489.specs.Level.{loudness};
ghost use Rattle.sn76489.specs.Quiet.{tone_quiet, tone_lowered};

use beeb_bits::bit;
use std::marker::Model;

/// The amplitudes of volumes 0 to 15.
const AMPLITUDES: [u16; 16] = [
    8191, 6506, 5168, 4105, 3261, 2590, 2057, 1634, 1298, 1031, 819, 650, 517, 410, 326, 0,
];

/// Returns the amplitude of an output at a volume.
pub(crate) fn loudness(output: bool, volume: u8) -> u16
    requires { volume < 16 }
    ensures value { result ≡ loudness output volume }
    ensures bound { result ≤ 8191 }
{
    if output {
        AMPLITUDES[usize::from(volume)]
    } else {
        0
    }
}

#[derive(Drop)]
pub(crate) struct Tone {
    period: u16,
    counter: u16,
    output: bool,
    volume: u8,
}

impl Model for Tone {
    ghost use Rattle.std.specs.Prelude.{◌<◌};
    ghost use Rattle.sn76489.specs.State.{Tone};

    ghost Value = { Tone };

    ghost view = { λ t. record { period = t.period; counter = t.counter; output = t.output; volume = t.volume } };

    ghost invariant = { λ t. (t.period < 1024) × (t.volume < 16) };
}

// Returns the number of clocks of a period.
fn period_clocks(period: u16) -> u16
    ensures { result ≡ period_clocks period }
{
    if period == 0 { 1024 } else { period }
}

impl Tone {
    /// Returns a tone at power-on.
    pub(crate) fn new() -> Tone
        ensures { result ≡ silent_tone }
    {
        Tone {
            period: 0,
            counter: 0,
            output: false,
            volume: 15,
        }
    }

    /// Does a clock, and reports if the output became 1.
    pub(crate) fn clock(&mut self) -> bool
        ensures tone { self.new ≡ tone_clock_leaves self.old }
        ensures rises { result ≡ rises self.old }
    {
        if self.counter > 1 {
            self.counter -= 1;
            return false;
        }
        self.counter = period_clocks(self.period);
        self.output = !self.output;
        self.output
    }

    /// Returns the number of next clocks that only lower the counter.
    pub(crate) fn quiet(&self) -> u16
        ensures { result ≡ tone_quiet self.now }
    {
        self.counter.saturating_sub(1)
    }

    /// Does `n` clocks that only lower the counter.
    pub(crate) fn lower(&mut self, n: u16)
        requires { n ≤ tone_quiet self.old }
        ensures { self.new ≡ tone_lowered n self.old }
    {
        self.counter -= n;
    }

    /// Writes a byte to the period.
    pub(crate) fn set_period(&mut self, v: u8)
        ensures { self.new ≡ tone_with_period v self.old }
    {
        self.period = if bit(v, 7) {
            16 * (self.period / 16) + u16::from(v % 16)
        } else {
            16 * u16::from(v % 64) + self.period % 16
        };
    }

    /// Writes a byte to the volume.
    pub(crate) fn set_volume(&mut self, v: u8)
        ensures { self.new ≡ tone_with_volume v self.old }
    {
        self.volume = v % 16;
    }

    /// Returns the amplitude of the tone.
    pub(crate) fn loudness(&self) -> u16
        ensures value { result ≡ loudness (self.now).output (self.now).volume }
        ensures bound { result ≤ 8191 }
    {
        loudness(self.output, self.volume)
    }
}
