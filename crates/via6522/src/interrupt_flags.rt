//! The causes of an interrupt, by their bits in the interrupt flag register and the interrupt
//! enable register.
ghost use Rattle.std.specs.Prelude.{◌≡◌, ◌≤◌, ◌&&◌, ◌||◌};
ghost use Rattle.via6522.specs.State.{no_cause};
ghost use Rattle.via6522.specs.Registers.{causes_byte, set_marked, clear_marked};

use beeb_bits::{bit, weight};
use std::marker::Model;

/// A flag for each cause: bits 6 to 0 of IFR or of IER.
#[derive(Drop)]
pub(crate) struct InterruptFlags {
    pub(crate) timer1: bool,
    pub(crate) timer2: bool,
    pub(crate) cb1: bool,
    pub(crate) cb2: bool,
    pub(crate) shift: bool,
    pub(crate) ca1: bool,
    pub(crate) ca2: bool,
}

impl Model for InterruptFlags {
    ghost use Rattle.via6522.specs.State.{InterruptFlags};

    ghost Value = { InterruptFlags };

    ghost view = { λ s. record {
      timer1 = s.timer1;
      timer2 = s.timer2;
      cb1 = s.cb1;
      cb2 = s.cb2;
      shift = s.shift;
      ca1 = s.ca1;
      ca2 = s.ca2;
    } };
}

impl InterruptFlags {
    pub(crate) fn none() -> InterruptFlags
        ensures { result ≡ no_cause }
    {
        InterruptFlags {
            timer1: false,
            timer2: false,
            cb1: false,
            cb2: false,
            shift: false,
            ca1: false,
            ca2: false,
        }
    }

    /// Returns the causes as bits 6 to 0.
    pub(crate) fn byte(&self) -> u8
        ensures value { result ≡ causes_byte self.now }
        ensures bound { result ≤ 127 }
    {
        weight(64, self.timer1)
            + weight(32, self.timer2)
            + weight(16, self.cb1)
            + weight(8, self.cb2)
            + weight(4, self.shift)
            + weight(2, self.ca1)
            + weight(1, self.ca2)
    }

    /// Sets the bits that `v` marks.
    pub(crate) fn set_marked(&mut self, v: u8)
        ensures { self.new ≡ set_marked v self.old }
    {
        self.timer1 = self.timer1 || bit(v, 6);
        self.timer2 = self.timer2 || bit(v, 5);
        self.cb1 = self.cb1 || bit(v, 4);
        self.cb2 = self.cb2 || bit(v, 3);
        self.shift = self.shift || bit(v, 2);
        self.ca1 = self.ca1 || bit(v, 1);
        self.ca2 = self.ca2 || bit(v, 0);
    }

    /// Clears the bits that `v` marks.
    pub(crate) fn clear_marked(&mut self, v: u8)
        ensures { self.new ≡ clear_marked v self.old }
    {
        self.timer1 = self.timer1 && !bit(v, 6);
        self.timer2 = self.timer2 && !bit(v, 5);
        self.cb1 = self.cb1 && !bit(v, 4);
        self.cb2 = self.cb2 && !bit(v, 3);
        self.shift = self.shift && !bit(v, 2);
        self.ca1 = self.ca1 && !bit(v, 1);
        self.ca2 = self.ca2 && !bit(v, 0);
    }
}
