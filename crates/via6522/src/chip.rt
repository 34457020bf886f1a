//! The chip, one step at a time. `Via` uses it for the steps that are not quiet.
ghost use Rattle.std.specs.Prelude.{◌≡◌, ◌<◌, ◌≤◌};
ghost use Rattle.beeb_bits.specs.Bits.{bit};
ghost use Rattle.via6522.specs.declared.Pins.{Pins};
ghost use Rattle.via6522.specs.State.{power_on};
ghost use Rattle.via6522.specs.CodeQuiet.{levels_in, pins_with, ahead, IsQuiet};
ghost use Rattle.via6522.specs.Registers.{port, out_a, out_b, asks, answer_of, port_a_noticed, port_b_noticed, enabled_by, read_leaves, write_leaves};
ghost use Rattle.via6522.specs.Step.{edges_seen, step};
ghost use Rattle.via6522.specs.Jumps.{timers_later, Timer1IsCalm, Timer2IsCalm};

use crate::Pins;
use crate::interrupt_flags::InterruptFlags;
use crate::levels::{ControlLines, is_edge};
use crate::timer1::Timer1;
use crate::timer2::Timer2;
use beeb_bits::{bit, weight};
use std::marker::Model;

/// The registers, timers and lines.
#[derive(Drop)]
pub(crate) struct Chip {
    orb: u8,
    ora: u8,
    ddrb: u8,
    ddra: u8,
    pub(crate) timer1: Timer1,
    pub(crate) timer2: Timer2,
    sr: u8,
    // ACR, the auxiliary control register, and PCR, the peripheral control register.
    pub(crate) acr: u8,
    pcr: u8,
    // IFR, the interrupt flag register, and IER, the interrupt enable register.
    flags: InterruptFlags,
    enabled: InterruptFlags,
    levels: ControlLines,
}

impl Model for Chip {
    ghost use Rattle.via6522.specs.State.{State};

    ghost Value = { State };

    ghost view = { λ v. record {
      orb = v.orb;
      ora = v.ora;
      ddrb = v.ddrb;
      ddra = v.ddra;
      timer1 = v.timer1;
      timer2 = v.timer2;
      sr = v.sr;
      acr = v.acr;
      pcr = v.pcr;
      flags = v.flags;
      enabled = v.enabled;
      levels = v.levels;
    } };
}

// Returns the byte of a port: the output bits are those written, the others are those of the pins.
fn port(direction: u8, written: u8, pins: u8) -> u8
    ensures { result ≡ port direction written pins }
{
    (written & direction) | (pins & !direction)
}

impl Chip {
    /// Returns the chip at power-on: all registers are 0. Before the first step CA1 and CA2 are
    /// low, and CB1 and CB2 are high.
    pub(crate) fn new() -> Chip
        ensures { result ≡ power_on }
    {
        Chip {
            orb: 0,
            ora: 0,
            ddrb: 0,
            ddra: 0,
            timer1: Timer1 {
                counter: 0,
                latch_low: 0,
                latch_high: 0,
                reload: false,
                armed: false,
            },
            timer2: Timer2 {
                counter: 0,
                latch_low: 0,
                fresh: false,
                armed: false,
            },
            sr: 0,
            acr: 0,
            pcr: 0,
            flags: InterruptFlags::none(),
            enabled: InterruptFlags::none(),
            levels: ControlLines { lines: 0b1100 },
        }
    }

    /// Returns the levels of the control lines in the last step.
    #[inline(always)]
    pub(crate) fn lines(&self) -> u8
        ensures { levels_in result ≡ (self.now).levels }
    {
        self.levels.lines
    }

    /// Does one step of a microsecond with the levels `lines` of the control lines.
    pub(crate) fn step(&mut self, lines: u8)
        ensures { self.new ≡ step (pins_with lines) self.old }
    {
        let timer1 = self.timer1.step(bit(self.acr, 6));
        let timer2 = self.timer2.step(bit(self.acr, 5));
        self.flags.timer1 = self.flags.timer1 || timer1;
        self.flags.timer2 = self.flags.timer2 || timer2;
        self.see_edges(lines);
    }

    /// Does `n` steps, at least one, with the levels `lines` of the control lines.
    pub(crate) fn advance(&mut self, lines: u8, n: u64)
        ensures { self.new ≡ edges_seen (pins_with lines) (timers_later n self.old) }
    {
        let timer1 = self.timer1.advance(bit(self.acr, 6), n);
        let timer2 = self.timer2.advance(bit(self.acr, 5), n);
        self.flags.timer1 = self.flags.timer1 || timer1;
        self.flags.timer2 = self.flags.timer2 || timer2;
        self.see_edges(lines);
    }

    /// Returns a number of steps, from the chip of `quiet` quiet steps before. No step of them sets
    /// an enabled flag of a timer.
    pub(crate) fn calm(&self, quiet: u16) -> u64
        requires { IsQuiet quiet self.now }
        ensures timer1 { Timer1IsCalm result (ahead quiet self.now) }
        ensures timer2 { Timer2IsCalm result (ahead quiet self.now) }
    {
        self.timer1_calm(quiet).min(self.timer2_calm(quiet))
    }

    fn timer1_calm(&self, quiet: u16) -> u64
        requires { IsQuiet quiet self.now }
        ensures { Timer1IsCalm result (ahead quiet self.now) }
    {
        if !self.enabled.timer1 {
            return u64::MAX;
        }
        self.timer1.calm(bit(self.acr, 6), quiet)
    }

    fn timer2_calm(&self, quiet: u16) -> u64
        requires { IsQuiet quiet self.now }
        ensures { Timer2IsCalm result (ahead quiet self.now) }
    {
        if !self.enabled.timer2 {
            return u64::MAX;
        }
        self.timer2.calm(bit(self.acr, 5), quiet)
    }

    // Sets the flag of each control line that has had an active edge since the last step.
    fn see_edges(&mut self, lines: u8)
        ensures { self.new ≡ edges_seen (pins_with lines) self.old }
    {
        let pcr = self.pcr;
        let before = self.levels.lines;
        let ca1 = is_edge(bit(pcr, 0), bit(before, 0), bit(lines, 0));
        let ca2 = !bit(pcr, 3) && is_edge(bit(pcr, 2), bit(before, 1), bit(lines, 1));
        let cb1 = is_edge(bit(pcr, 4), bit(before, 2), bit(lines, 2));
        let cb2 = !bit(pcr, 7) && is_edge(bit(pcr, 6), bit(before, 3), bit(lines, 3));
        self.flags.ca1 = self.flags.ca1 || ca1;
        self.flags.ca2 = self.flags.ca2 || ca2;
        self.flags.cb1 = self.flags.cb1 || cb1;
        self.flags.cb2 = self.flags.cb2 || cb2;
        self.levels.lines = lines;
    }

    /// Reads a register, 0 to F. Returns its byte, and clears the flags that the read clears.
    pub(crate) fn read(&mut self, reg: u8, pins: Pins) -> u8
        requires { reg < 16 }
        ensures answer { result ≡ answer_of reg pins self.old }
        ensures state { self.new ≡ read_leaves reg self.old }
    {
        let answer = self.answer(reg, pins);
        match reg {
            0 => self.notice_port_b(),
            1 => self.notice_port_a(),
            4 => self.flags.timer1 = false,
            8 => self.flags.timer2 = false,
            10 => self.flags.shift = false,
            _ => {}
        }
        answer
    }

    fn answer(&self, reg: u8, pins: Pins) -> u8
        requires { reg < 16 }
        ensures { result ≡ answer_of reg pins self.now }
    {
        match reg {
            0 => port(self.ddrb, self.orb, pins.b),
            2 => self.ddrb,
            3 => self.ddra,
            4 => (self.timer1.counter % 256) as u8,
            5 => (self.timer1.counter / 256) as u8,
            6 => self.timer1.latch_low,
            7 => self.timer1.latch_high,
            8 => (self.timer2.counter % 256) as u8,
            9 => (self.timer2.counter / 256) as u8,
            10 => self.sr,
            11 => self.acr,
            12 => self.pcr,
            13 => weight(128, self.irq()) + self.flags.byte(),
            14 => 128 + self.enabled.byte(),
            _ => port(self.ddra, self.ora, pins.a),
        }
    }

    /// Returns the byte of a register, B to E. `is_asking` says if the chip requests an interrupt.
    #[inline(always)]
    pub(crate) fn held(&self, reg: u8, is_asking: bool) -> u8
        requires low { 11 ≤ reg }
        requires high { reg ≤ 14 }
        requires asks { is_asking ≡ asks self.now }
        ensures { (pins : Pins) → result ≡ answer_of reg pins self.now }
    {
        match reg {
            11 => self.acr,
            12 => self.pcr,
            13 => weight(128, is_asking) + self.flags.byte(),
            _ => 128 + self.enabled.byte(),
        }
    }

    /// Writes a byte to a register, 0 to F.
    pub(crate) fn write(&mut self, reg: u8, v: u8)
        requires { reg < 16 }
        ensures { self.new ≡ write_leaves reg v self.old }
    {
        match reg {
            0 => {
                self.orb = v;
                self.notice_port_b();
            }
            1 => {
                self.ora = v;
                self.notice_port_a();
            }
            2 => self.ddrb = v,
            3 => self.ddra = v,
            4 | 6 => self.timer1.latch_low = v,
            5 => {
                self.timer1.start(v);
                self.flags.timer1 = false;
            }
            7 => {
                self.timer1.latch_high = v;
                self.flags.timer1 = false;
            }
            8 => self.timer2.latch_low = v,
            9 => {
                self.timer2.start(v);
                self.flags.timer2 = false;
            }
            10 => {
                self.sr = v;
                self.flags.shift = false;
            }
            11 => self.acr = v,
            12 => self.pcr = v,
            13 => self.flags.clear_marked(v),
            14 => self.enable(v),
            _ => self.ora = v,
        }
    }

    // Clears the flags of port A's control lines, as an access to ORA does. The flag of an
    // independent CA2 stays.
    fn notice_port_a(&mut self)
        ensures { self.new ≡ port_a_noticed self.old }
    {
        self.flags.ca1 = false;
        self.flags.ca2 = self.flags.ca2 && bit(self.pcr, 1);
    }

    // Clears the flags of port B's control lines, as an access to ORB does. The flag of an
    // independent CB2 stays.
    fn notice_port_b(&mut self)
        ensures { self.new ≡ port_b_noticed self.old }
    {
        self.flags.cb1 = false;
        self.flags.cb2 = self.flags.cb2 && bit(self.pcr, 5);
    }

    // Writes IER: the marked bits become set if bit 7 is set, otherwise clear.
    fn enable(&mut self, v: u8)
        ensures { self.new ≡ enabled_by v self.old }
    {
        if bit(v, 7) {
            self.enabled.set_marked(v);
        } else {
            self.enabled.clear_marked(v);
        }
    }

    /// Reports if the chip requests an interrupt: a flag and its enable bit are both set.
    pub(crate) fn irq(&self) -> bool
        ensures { result ≡ asks self.now }
    {
        let set = &self.flags;
        let enabled = &self.enabled;
        (set.timer1 && enabled.timer1)
            || (set.timer2 && enabled.timer2)
            || (set.cb1 && enabled.cb1)
            || (set.cb2 && enabled.cb2)
            || (set.shift && enabled.shift)
            || (set.ca1 && enabled.ca1)
            || (set.ca2 && enabled.ca2)
    }

    /// Returns the output bits of port A, with ones for inputs.
    pub(crate) fn out_a(&self) -> u8
        ensures { result ≡ out_a self.now }
    {
        port(self.ddra, self.ora, 0xff)
    }

    /// Returns the output bits of port B, with ones for inputs.
    pub(crate) fn out_b(&self) -> u8
        ensures { result ≡ out_b self.now }
    {
        port(self.ddrb, self.orb, 0xff)
    }
}
