//! The controller as its callers see it. Quiet steps are only counted.
ghost use Rattle.std.specs.Prelude.{ℕ, ◌≡◌, ◌≤◌, ◌<◌, false, None, Some, MatchOption};
ghost use Rattle.wd1770.specs.State.{power_on};
ghost use Rattle.wd1770.specs.Select.{disc_of};
ghost use Rattle.wd1770.specs.Commands.{latch_leaves};
ghost use Rattle.wd1770.specs.Registers.{answer_of, read_leaves, write_leaves};
ghost use Rattle.wd1770.specs.Step.{step, steps};
ghost use Rattle.wd1770.specs.Ends.{is_busy};
ghost use Rattle.wd1770.specs.CodeQuiet.{RestsFor};

use crate::controller::Controller;
use disc_image::Disc;
use std::marker::Model;

/// A WD1770 with drives 0 and 1.
#[derive(Drop)]
pub struct Fdc {
    // The controller before the last `past` steps, which are quiet.
    controller: Controller,
    // The number of quiet steps since then, and its limit. In a quiet step only the discs' angle
    // and the waiting times change.
    past: u32,
    quiet: u32,
}

impl Model for Fdc {
    ghost use Rattle.std.specs.Prelude.{◌≤◌};
    ghost use Rattle.wd1770.specs.State.{State};
    ghost use Rattle.wd1770.specs.CodeQuiet.{later, quiet_steps};

    ghost Value = { State };

    ghost view = { λ f. later f.past f.controller };

    ghost invariant = { λ f.
        (f.past ≤ f.quiet)
        × (f.quiet ≤ quiet_steps f.controller.command f.controller.angle f.controller.sector) };
}

impl Fdc {
    /// Returns the controller at power-on with the discs of drives 0 and 1. Its latch is 00, which
    /// is a reset, and both heads are at track 0.
    pub fn new(d0: Option<Disc>, d1: Option<Disc>) -> Fdc
        ensures { result ≡ power_on d0 d1 }
    {
        Fdc {
            controller: Controller::new(d0, d1),
            past: 0,
            quiet: 0,
        }
    }

    /// Writes the disc latch: bit 0 selects drive 0, 1 drive 1, 2 side 1, 3 single density. Bit 5
    /// clear is a reset.
    pub fn latch(&mut self, v: u8)
        ensures { self.new ≡ latch_leaves v self.old }
    {
        self.controller.pass(u64::from(self.past));
        self.controller.latch(v);
        self.past = 0;
        self.quiet = self.controller.quiet_steps();
    }

    /// Reads a register: 0 is the status, 1 the track, 2 the sector, 3 the data register. A read of
    /// the status clears INTRQ, and one of the data DRQ.
    pub fn read(&mut self, reg: u8) -> u8
        requires { reg < 4 }
        ensures answer { result ≡ answer_of reg self.old }
        ensures state { self.new ≡ read_leaves reg self.old }
    {
        self.controller.read(reg, self.past)
    }

    /// Writes a register: 0 is the command, 1 the track, 2 the sector, 3 the data register. A write
    /// of data clears DRQ.
    pub fn write(&mut self, reg: u8, v: u8)
        requires { reg < 4 }
        ensures { self.new ≡ write_leaves reg v self.old }
    {
        self.controller.pass(u64::from(self.past));
        self.controller.write(reg, v);
        self.past = 0;
        self.quiet = self.controller.quiet_steps();
    }

    /// Does one step of a microsecond.
    #[inline(always)]
    pub fn step(&mut self)
        ensures { self.new ≡ step self.old }
    {
        if self.past < self.quiet {
            self.past += 1;
        } else {
            self.work();
        }
    }

    // Does a step that may not be quiet.
    #[inline(never)]
    fn work(&mut self)
        ensures { self.new ≡ step self.old }
    {
        self.controller.pass(u64::from(self.past));
        self.controller.step();
        self.past = 0;
        self.quiet = self.controller.quiet_steps();
    }

    /// Does `n` steps.
    #[inline(always)]
    pub fn advance(&mut self, n: u64)
        ensures { self.new ≡ steps n self.old }
    {
        if n <= u64::from(self.quiet - self.past) {
            self.past += n as u32;
        } else {
            self.work_on(n);
        }
    }

    // Does `n` steps. Some of them may not be quiet.
    #[inline(never)]
    fn work_on(&mut self, n: u64)
        ensures { self.new ≡ steps n self.old }
    {
        let mut left = n;
        while left > 0 {
            left = self.some_steps(left);
        }
    }

    // Does some of `n` steps, at least one, and returns the number that is left.
    fn some_steps(&mut self, n: u64) -> u64
        requires { 0 < n }
        ensures fewer { result < n }
        ensures rest { steps result self.new ≡ steps n self.old }
    {
        if !self.controller.is_busy() {
            self.rest(n);
            return 0;
        }
        let quiet = u64::from(self.quiet - self.past);
        if n <= quiet {
            self.past += n as u32;
            return 0;
        }
        self.past = self.quiet;
        self.work();
        n - quiet - 1
    }

    // Does `n` steps with no command in progress.
    fn rest(&mut self, n: u64)
        requires { is_busy self.old.command ≡ false }
        ensures { self.new ≡ steps n self.old }
    {
        self.controller.pass(u64::from(self.past));
        self.controller.pass(n);
        self.past = 0;
        self.quiet = self.controller.quiet_steps();
    }

    /// Returns a number of steps during which only the discs' angle and the waiting times change.
    #[inline(always)]
    pub fn calm(&self) -> u64
        ensures rest { RestsFor result self.now }
        ensures nmis { (m : ℕ) → m ≤ result → (steps m self.now).nmis ≡ self.now.nmis }
    {
        u64::from(self.quiet - self.past)
    }

    /// Returns DRQ: a byte is to be read or written.
    pub fn drq(&self) -> bool
        ensures { result ≡ self.now.drq }
    {
        self.controller.drq
    }

    /// Returns INTRQ: a command has ended.
    pub fn intrq(&self) -> bool
        ensures { result ≡ self.now.intrq }
    {
        self.controller.intrq
    }

    /// Returns the number of rises of "DRQ or INTRQ", mod 2^64. Rises are counted after steps and
    /// after whole register accesses.
    #[inline(always)]
    pub fn nmis(&self) -> u64
        ensures { result ≡ self.now.nmis }
    {
        self.controller.nmis
    }

    /// Returns the disc in drive 0 or 1. Returns `None` if the drive has none, and for any other
    /// number.
    pub fn disc(&self, drive: u8) -> Option<&Disc>
        ensures { MatchOption result (disc_of drive self.now ≡ None) (λ disc. disc_of drive self.now ≡ Some disc.now) }
    {
        self.controller.disc(drive)
    }
}
