//! Timer 1.
ghost use Rattle.std.specs.Prelude.{◌≡◌, ◌<◌, ◌+◌, false, true};
ghost use Rattle.via6522.specs.Timers.{word, timer1_after, timer1_flags, timer1_started};
ghost use Rattle.via6522.specs.Jumps.{timer1_at_end, timer1_later, timer1_flags_within, Timer1SetsNoFlag};
ghost use Rattle.via6522.specs.CodeQuiet.{timer1_ahead};

use std::marker::Model;

/// Returns the 16-bit number of two bytes.
pub(crate) fn word(high: u8, low: u8) -> u16
    ensures { result ≡ word high low }
{
    256 * u16::from(high) + u16::from(low)
}

#[derive(Drop)]
pub(crate) struct Timer1 {
    // T1C.
    pub(crate) counter: u16,
    // T1L, whose bytes are T1L-L and T1L-H.
    pub(crate) latch_low: u8,
    pub(crate) latch_high: u8,
    // The next step loads the counter from the latch.
    pub(crate) reload: bool,
    // T1C-H was written after the timer last set its flag in one-shot mode.
    pub(crate) armed: bool,
}

impl Model for Timer1 {
    ghost use Rattle.via6522.specs.State.{Timer1};

    ghost Value = { Timer1 };

    ghost view = { λ t. record {
      counter = t.counter;
      latch_low = t.latch_low;
      latch_high = t.latch_high;
      reload = t.reload;
      armed = t.armed;
    } };
}

impl Timer1 {
    /// Does a step, and reports if the step sets the flag.
    pub(crate) fn step(&mut self, runs_free: bool) -> bool
        ensures timer { self.new ≡ timer1_after runs_free self.old }
        ensures flag { result ≡ timer1_flags runs_free self.old }
    {
        if self.reload {
            self.counter = word(self.latch_high, self.latch_low);
            self.reload = false;
            return false;
        }
        self.counter = self.counter.wrapping_sub(1);
        if self.counter != 0xffff {
            return false;
        }
        if runs_free {
            self.reload = true;
            return true;
        }
        let was_armed = self.armed;
        self.armed = false;
        was_armed
    }

    /// Does `n` steps, and reports if one of them sets the flag.
    pub(crate) fn advance(&mut self, runs_free: bool, n: u64) -> bool
        ensures timer { self.new ≡ timer1_later runs_free n self.old }
        ensures flag { result ≡ timer1_flags_within runs_free n self.old }
    {
        if n == 0 {
            return false;
        }
        if self.reload {
            self.counter = word(self.latch_high, self.latch_low);
            self.reload = false;
            return self.count(runs_free, n - 1);
        }
        self.count(runs_free, n)
    }

    // Does what `advance` does, if the next step counts.
    fn count(&mut self, runs_free: bool, n: u64) -> bool
        requires { self.old.reload ≡ false }
        ensures timer { self.new ≡ timer1_later runs_free n self.old }
        ensures flag { result ≡ timer1_flags_within runs_free n self.old }
    {
        let counter = u64::from(self.counter);
        if n <= counter {
            self.counter -= n as u16;
            return false;
        }
        if runs_free {
            self.run_on(n - counter - 1);
            return true;
        }
        self.counter = self.counter.wrapping_sub((n % 65_536) as u16);
        let was_armed = self.armed;
        self.armed = false;
        was_armed
    }

    // Does `n` steps in free-running mode after a step that set the flag.
    fn run_on(&mut self, n: u64)
        ensures { self.new ≡ timer1_later true n (timer1_at_end self.old) }
    {
        let latch = u64::from(word(self.latch_high, self.latch_low));
        let phase = n % (latch + 2);
        if phase == 0 {
            self.counter = 0xffff;
            self.reload = true;
        } else {
            self.counter = (latch + 1 - phase) as u16;
            self.reload = false;
        }
    }

    /// Returns a number of steps, from the timer of `quiet` quiet steps before, that do not set the
    /// flag.
    pub(crate) fn calm(&self, runs_free: bool, quiet: u16) -> u64
        requires within { self.now.counter + quiet < 65536 }
        requires loaded { 0 < quiet → self.now.reload ≡ false }
        ensures { Timer1SetsNoFlag runs_free result (timer1_ahead quiet self.now) }
    {
        if !runs_free && !self.armed {
            return u64::MAX;
        }
        if self.reload {
            return u64::from(word(self.latch_high, self.latch_low)) + 1;
        }
        u64::from(self.counter) + u64::from(quiet)
    }

    /// Writes the counter's high byte, T1C-H.
    pub(crate) fn start(&mut self, high: u8)
        ensures { self.new ≡ timer1_started high self.old }
    {
        self.latch_high = high;
        self.counter = word(high, self.latch_low);
        self.reload = true;
        self.armed = true;
    }
}
