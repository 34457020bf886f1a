//! The 6522 as callers see it. Most steps only decrement one count, that of the quiet steps.
ghost use Rattle.std.specs.Prelude.{◌≡◌, ◌<◌, ◌≤◌};
ghost use Rattle.via6522.specs.declared.Pins.{Pins};
ghost use Rattle.via6522.specs.State.{power_on};
ghost use Rattle.via6522.specs.Registers.{out_a, out_b, asks, answer_of, read_leaves, write_leaves};
ghost use Rattle.via6522.specs.Step.{step, steps, edges_seen};
ghost use Rattle.via6522.specs.CodeQuiet.{pins_with};
ghost use Rattle.via6522.specs.Jumps.{timers_later, AsksAlike};

use crate::Pins;
use crate::chip::Chip;
use crate::levels::lines_of;
use std::marker::Model;

/// A 6522.
#[derive(Drop)]
pub struct Via {
    // The chip after the quiet steps that are not done yet.
    chip: Chip,
    // The number of quiet steps that come next: in each, both timers only count down.
    quiet: u16,
    // The chip requests an interrupt: a flag and its enable bit are both set.
    is_asking: bool,
}

impl Model for Via {
    ghost use Rattle.std.specs.Prelude.{◌≡◌};
    ghost use Rattle.via6522.specs.State.{State};
    ghost use Rattle.via6522.specs.Registers.{asks};
    ghost use Rattle.via6522.specs.CodeQuiet.{ahead, IsQuiet};

    ghost Value = { State };

    ghost view = { λ v. ahead v.quiet v.chip };

    ghost invariant = { λ v. IsQuiet v.quiet v.chip × (v.is_asking ≡ asks v.chip) };
}

impl Via {
    /// Returns the chip at power-on: all registers are 0. Before the first step CA1 and CA2 are
    /// low, and CB1 and CB2 are high.
    pub fn new() -> Via
        ensures { result ≡ power_on }
    {
        Via {
            chip: Chip::new(),
            quiet: 0,
            is_asking: false,
        }
    }

    /// Does one step of a microsecond: both timers, and then the edges of the control lines since
    /// the last step.
    #[inline(always)]
    pub fn step(&mut self, pins: Pins)
        ensures { self.new ≡ step pins self.old }
    {
        let lines = lines_of(pins);
        if self.quiet != 0 && lines == self.chip.lines() {
            self.quiet -= 1;
        } else {
            self.step_in_full(lines);
        }
    }

    // Does a step if a line changes or a timer does more than count.
    #[cold]
    #[inline(never)]
    fn step_in_full(&mut self, lines: u8)
        ensures { self.new ≡ step (pins_with lines) self.old }
    {
        self.chip.unwind(self.quiet);
        self.chip.step(lines);
        self.quiet = self.chip.wind();
        self.is_asking = self.chip.irq();
    }

    /// Does `n` steps, each with the pins `pins`.
    #[inline(always)]
    pub fn advance(&mut self, pins: Pins, n: u64)
        ensures { self.new ≡ steps pins n self.old }
    {
        let lines = lines_of(pins);
        if n <= u64::from(self.quiet) && lines == self.chip.lines() {
            self.quiet -= n as u16;
        } else if n > 0 {
            self.advance_in_full(lines, n);
        }
    }

    // Does `n` steps if a line changes or a timer does more than count.
    #[cold]
    #[inline(never)]
    fn advance_in_full(&mut self, lines: u8, n: u64)
        ensures { self.new ≡ edges_seen (pins_with lines) (timers_later n self.old) }
    {
        self.chip.unwind(self.quiet);
        self.chip.advance(lines, n);
        self.quiet = self.chip.wind();
        self.is_asking = self.chip.irq();
    }

    /// Returns a number of steps with the pins `pins` during which the interrupt request does not
    /// change.
    #[inline(always)]
    pub fn calm(&self, pins: Pins) -> u64
        ensures { AsksAlike pins result self.now }
    {
        if self.is_asking {
            return u64::MAX;
        }
        if lines_of(pins) != self.chip.lines() {
            return 0;
        }
        self.chip.calm(self.quiet)
    }

    /// Reads a register, 0 to F. Returns its byte, and clears the flags that the read clears.
    pub fn read(&mut self, reg: u8, pins: Pins) -> u8
        requires { reg < 16 }
        ensures answer { result ≡ answer_of reg pins self.old }
        ensures state { self.new ≡ read_leaves reg self.old }
    {
        self.chip.unwind(self.quiet);
        let answer = self.chip.read(reg, pins);
        self.quiet = self.chip.wind();
        self.is_asking = self.chip.irq();
        answer
    }

    /// Returns the byte of a register B to E: ACR, PCR, IFR or IER. It does not depend on the pins,
    /// and a read of it changes nothing.
    #[inline(always)]
    pub fn held(&self, reg: u8) -> u8
        requires low { 11 ≤ reg }
        requires high { reg ≤ 14 }
        ensures answer { (pins : Pins) → result ≡ answer_of reg pins self.now }
        ensures state { read_leaves reg self.now ≡ self.now }
    {
        self.chip.held(reg, self.is_asking)
    }

    /// Writes a byte to a register, 0 to F.
    pub fn write(&mut self, reg: u8, v: u8)
        requires { reg < 16 }
        ensures { self.new ≡ write_leaves reg v self.old }
    {
        self.chip.unwind(self.quiet);
        self.chip.write(reg, v);
        self.quiet = self.chip.wind();
        self.is_asking = self.chip.irq();
    }

    /// Reports if the chip requests an interrupt: a flag and its enable bit are both set.
    #[inline(always)]
    pub fn irq(&self) -> bool
        ensures { result ≡ asks self.now }
    {
        self.is_asking
    }

    /// Returns the output bits of port A, with ones for inputs.
    #[inline(always)]
    pub fn out_a(&self) -> u8
        ensures { result ≡ out_a self.now }
    {
        self.chip.out_a()
    }

    /// Returns the output bits of port B, with ones for inputs.
    pub fn out_b(&self) -> u8
        ensures { result ≡ out_b self.now }
    {
        self.chip.out_b()
    }
}
