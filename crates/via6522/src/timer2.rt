//! Timer 2.
ghost use Rattle.std.specs.Prelude.{◌≡◌, ◌<◌, ◌+◌, false};
ghost use Rattle.via6522.specs.Timers.{timer2_after, timer2_flags, timer2_started};
ghost use Rattle.via6522.specs.CodeQuiet.{timer2_ahead};
ghost use Rattle.via6522.specs.Jumps.{timer2_later, timer2_flags_within, Timer2SetsNoFlag};

use crate::timer1::word;
use std::marker::Model;

#[derive(Drop)]
pub(crate) struct Timer2 {
    // T2C.
    pub(crate) counter: u16,
    // T2L-L.
    pub(crate) latch_low: u8,
    // The next step does not count.
    pub(crate) fresh: bool,
    // T2C-H was written after the timer last set its flag.
    pub(crate) armed: bool,
}

impl Model for Timer2 {
    ghost use Rattle.via6522.specs.State.{Timer2};

    ghost Value = { Timer2 };

    ghost view = { λ t. record { counter = t.counter; latch_low = t.latch_low; fresh = t.fresh; armed = t.armed } };
}

impl Timer2 {
    /// Does a step, unless `stands_still`, and reports if the step sets the flag.
    pub(crate) fn step(&mut self, stands_still: bool) -> bool
        ensures timer { self.new ≡ timer2_after stands_still self.old }
        ensures flag { result ≡ timer2_flags stands_still self.old }
    {
        if stands_still {
            return false;
        }
        if self.fresh {
            self.fresh = false;
            return false;
        }
        self.counter = self.counter.wrapping_sub(1);
        if self.counter != 0xffff {
            return false;
        }
        let was_armed = self.armed;
        self.armed = false;
        was_armed
    }

    /// Does `n` steps, unless `stands_still`, and reports if one of them sets the flag.
    pub(crate) fn advance(&mut self, stands_still: bool, n: u64) -> bool
        ensures timer { self.new ≡ timer2_later stands_still n self.old }
        ensures flag { result ≡ timer2_flags_within stands_still n self.old }
    {
        if stands_still {
            return false;
        }
        if n == 0 {
            return false;
        }
        if self.fresh {
            self.fresh = false;
            return self.count(n - 1);
        }
        self.count(n)
    }

    // Does what `advance` does, if the next step counts.
    fn count(&mut self, n: u64) -> bool
        requires { self.old.fresh ≡ false }
        ensures timer { self.new ≡ timer2_later false n self.old }
        ensures flag { result ≡ timer2_flags_within false n self.old }
    {
        if n <= u64::from(self.counter) {
            self.counter -= n as u16;
            return false;
        }
        self.counter = self.counter.wrapping_sub((n % 65_536) as u16);
        let fires = self.armed;
        self.armed = false;
        fires
    }

    /// Returns a number of steps that do not set the flag, from the timer of `quiet` quiet steps
    /// before.
    pub(crate) fn calm(&self, stands_still: bool, quiet: u16) -> u64
        requires { stands_still ≡ false → self.now.counter + quiet < 65536 }
        ensures { Timer2SetsNoFlag stands_still result (timer2_ahead stands_still quiet self.now) }
    {
        if stands_still {
            return u64::MAX;
        }
        if !self.armed {
            return u64::MAX;
        }
        u64::from(self.counter) + u64::from(quiet)
    }

    /// Writes the counter's high byte, T2C-H.
    pub(crate) fn start(&mut self, high: u8)
        ensures { self.new ≡ timer2_started high self.old }
    {
        self.counter = word(high, self.latch_low);
        self.fresh = true;
        self.armed = true;
    }
}
