//! Quiet steps: both timers only count down.
ghost use Rattle.std.specs.Prelude.{◌≡◌};
ghost use Rattle.via6522.specs.CodeQuiet.{ahead, IsQuiet, NextAreQuiet};

use crate::chip::Chip;
use beeb_bits::bit;

impl Chip {
    // Returns the number of quiet steps that come next.
    fn quiet_steps(&self) -> u16
        ensures { NextAreQuiet result self.now }
    {
        if self.timer1.reload {
            return 0;
        }
        if bit(self.acr, 5) {
            return self.timer1.counter;
        }
        if self.timer2.fresh {
            return 0;
        }
        self.timer1.counter.min(self.timer2.counter)
    }

    /// Does all quiet steps that come next, and returns their number.
    pub(crate) fn wind(&mut self) -> u16
        ensures same { ahead result self.new ≡ self.old }
        ensures quiet { IsQuiet result self.new }
    {
        let quiet = self.quiet_steps();
        self.timer1.counter -= quiet;
        if !bit(self.acr, 5) {
            self.timer2.counter -= quiet;
        }
        quiet
    }

    /// Takes back `quiet` quiet steps.
    pub(crate) fn unwind(&mut self, quiet: u16)
        requires { IsQuiet quiet self.old }
        ensures { self.new ≡ ahead quiet self.old }
    {
        self.timer1.counter += quiet;
        if !bit(self.acr, 5) {
            self.timer2.counter += quiet;
        }
    }
}
