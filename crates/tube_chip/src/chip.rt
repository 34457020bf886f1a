//! The chip.
ghost use Rattle.std.specs.Prelude.{◌≡◌, ◌<◌, ◌+◌, ℕ, [], ◌∷◌, true, nat_lt, if◌then◌else◌};
ghost use Rattle.beeb_bits.specs.Bits.{weight};
ghost use Rattle.beeb_bits.specs.declared.Side.TheVariants.{Host, Para};
ghost use Rattle.tube_chip.specs.Register.{count, write_leaves};
ghost use Rattle.tube_chip.specs.State.{power_on, lines_of, is_empty, is_ready, wants_service, asks_nmi, clear_leaves};
ghost use Rattle.tube_chip.specs.Act.{MayDo, LeavesLines, LeavesSeen, is_status, register_number, status, answer_of, control_leaves, op_leaves, count_of_rises, with_counts, chip_after};
ghost use Rattle.tube_chip.specs.declared.Op.TheVariants.{Read, Write, Reset};

use crate::flags::{Flags, flags_after, flags_byte, no_flags};
use crate::register::Register;
use crate::{Lines, Op};
use beeb_bits::{Side, bit, weight};
use std::marker::Model;

/// The registers to the host.
#[derive(Drop)]
pub(crate) struct ToHost {
    pub(crate) r1: Register<24>,
    pub(crate) r2: Register<1>,
    pub(crate) r3: Register<2>,
    pub(crate) r4: Register<1>,
}

/// The registers to the parasite.
#[derive(Drop)]
pub(crate) struct ToPara {
    pub(crate) r1: Register<1>,
    pub(crate) r2: Register<1>,
    pub(crate) r3: Register<2>,
    pub(crate) r4: Register<1>,
}

/// The Tube chip.
#[derive(Drop)]
pub struct Chip {
    pub(crate) flags: Flags,
    pub(crate) to_host: ToHost,
    pub(crate) to_para: ToPara,
    pub(crate) nmis: u32,
    pub(crate) resets: u32,
}

impl Model for Chip {
    ghost use Rattle.tube_chip.specs.State.{State};
    ghost use Rattle.tube_chip.specs.Code.{flags_of};

    ghost Value = { State };

    ghost view = { λ c. record {
      flags = flags_of c.flags;
      to_host = record { r1 = c.to_host.r1; r2 = c.to_host.r2; r3 = c.to_host.r3; r4 = c.to_host.r4 };
      to_para = record { r1 = c.to_para.r1; r2 = c.to_para.r2; r3 = c.to_para.r3; r4 = c.to_para.r4 };
      nmis = c.nmis;
      resets = c.resets;
    } };
}

// Returns empty registers to the host, but for the one byte 00 in register 3.
fn clear_to_host() -> ToHost
    ensures { result ≡ record { r1 = power_on.to_host.r1; r2 = power_on.to_host.r2; r3 = power_on.to_host.r3; r4 = power_on.to_host.r4 } }
{
    let mut r3 = Register::new();
    r3.replace(0);
    ToHost {
        r1: Register::new(),
        r2: Register::new(),
        r3,
        r4: Register::new(),
    }
}

// Returns empty registers to the parasite.
fn clear_to_para() -> ToPara
    ensures { result ≡ record { r1 = power_on.to_para.r1; r2 = power_on.to_para.r2; r3 = power_on.to_para.r3; r4 = power_on.to_para.r4 } }
{
    ToPara {
        r1: Register::new(),
        r2: Register::new(),
        r3: Register::new(),
        r4: Register::new(),
    }
}

// Returns `true` if register 3 has what its reader waits for.
fn is_ready(v: bool, r3: &Register<2>) -> bool
    ensures { result ≡ is_ready v r3.now }
{
    if v { r3.count() == 2 } else { !r3.is_empty() }
}

// Returns `true` if register 3 has room: for a second byte if V is set, and otherwise only if it is
// empty.
fn has_room(v: bool, r3: &Register<2>) -> bool
    ensures { result ≡ nat_lt (count r3.now) (if v then 2 else 1) }
{
    if v { r3.count() < 2 } else { r3.is_empty() }
}

// Adds a byte to register 3 if V is set, and otherwise replaces what it holds by the byte.
fn send(v: bool, byte: u8, r3: &mut Register<2>)
    ensures { r3.new ≡ write_leaves (if v then 2 else 1) byte r3.old }
{
    if v {
        r3.add(byte);
    } else {
        r3.replace(byte);
    }
}

fn status_byte(is_available: bool, is_not_full: bool, low: u8) -> u8
    requires { low < 64 }
    ensures { result ≡ weight 128 is_available + weight 64 is_not_full + low }
{
    weight(128, is_available) + weight(64, is_not_full) + low
}

// Returns the count, plus one if a condition holds now that did not before.
fn risen(before: bool, now: bool, count: u32) -> u32
    ensures { result ≡ count_of_rises before now count }
{
    if !before && now {
        count.wrapping_add(1)
    } else {
        count
    }
}

impl Chip {
    /// Makes the chip at power-on: no flag set, counts at zero, and all registers empty with the
    /// byte 00 last taken, except that register 3 to the host holds one byte 00.
    pub fn new() -> Chip
        ensures { result ≡ power_on }
    {
        Chip {
            flags: no_flags(),
            to_host: clear_to_host(),
            to_para: clear_to_para(),
            nmis: 0,
            resets: 0,
        }
    }

    // Returns N: register 3 has what the parasite waits for, or room for what it sends.
    fn wants_service(&self) -> bool
        ensures { result ≡ wants_service self.now }
    {
        is_ready(self.flags.v, &self.to_para.r3) || self.to_host.r3.is_empty()
    }

    fn asks_nmi(&self) -> bool
        ensures { result ≡ asks_nmi self.now }
    {
        self.flags.m && self.wants_service()
    }

    /// Does an operation of a side, and returns its answer: the byte of a read, or 00 (Application
    /// Note 004, registers and control). A reset is the host's.
    #[tactic(auto, using(crate::proofs::Rises::status_leaves))]
    pub fn apply(&mut self, side: Side, op: Op) -> u8
        requires { MayDo side op }
        ensures chip { self.new ≡ chip_after self.old side op }
        ensures answer { result ≡ answer_of self.old side op }
    {
        match op {
            Op::Read(number) if number % 2 == 0 => self.status_of(side, number),
            Op::Read(_) | Op::Write(..) => self.access(side, op),
            Op::Reset => {
                self.clear();
                self.resets = self.resets.wrapping_add(1);
                0
            }
        }
    }

    /// Returns `true` only if an operation of a side changes no line and no flag: each line that it
    /// could affect is disabled.
    pub fn leaves_lines(&self, side: Side, op: Op) -> bool
        ensures { result ≡ true → LeavesLines self.now side op }
    {
        match (side, op) {
            (Side::Host, Op::Read(number)) => self.host_read_leaves_lines(number),
            (Side::Host, Op::Write(number, _)) => self.host_write_leaves_lines(number),
            (Side::Para, Op::Read(number)) => self.para_read_leaves_lines(number),
            (Side::Para, Op::Write(number, _)) => self.para_write_leaves_lines(number),
            (_, Op::Reset) => false,
        }
    }

    #[tactic(auto, using(crate::proofs::Rises::no_rise))]
    fn host_read_leaves_lines(&self, number: u8) -> bool
        ensures { result ≡ true → LeavesLines self.now Host (Read number) }
    {
        match number {
            0 | 1 | 2 | 3 | 4 | 6 => true,
            5 => !self.flags.m,
            7 => !self.flags.q,
            _ => false,
        }
    }

    #[tactic(auto, using(crate::proofs::Rises::no_rise))]
    fn host_write_leaves_lines(&self, number: u8) -> bool
        ensures { result ≡ true → (byte : ℕ) → LeavesLines self.now Host (Write number byte) }
    {
        match number {
            2 | 4 | 6 => true,
            1 => !self.flags.i,
            3 => true,
            5 => !self.flags.m,
            7 => !self.flags.j,
            _ => false,
        }
    }

    #[tactic(auto, using(crate::proofs::Rises::no_rise))]
    fn para_read_leaves_lines(&self, number: u8) -> bool
        ensures { result ≡ true → LeavesLines self.now Para (Read number) }
    {
        match number {
            0 | 2 | 3 | 4 | 6 => true,
            1 => !self.flags.i,
            5 => !self.flags.m,
            7 => !self.flags.j,
            _ => false,
        }
    }

    #[tactic(auto, using(crate::proofs::Rises::no_rise))]
    fn para_write_leaves_lines(&self, number: u8) -> bool
        ensures { result ≡ true → (byte : ℕ) → LeavesLines self.now Para (Write number byte) }
    {
        match number {
            0 | 2 | 4 | 6 => true,
            1 | 3 => true,
            5 => !self.flags.m,
            7 => !self.flags.q,
            _ => false,
        }
    }

    /// Returns `true` only if an operation of the host leaves the lines and the parasite's status
    /// bytes unchanged: it takes a byte of a register 1 that was not full, or reads a status.
    #[inline(always)]
    pub fn leaves_seen(&self, op: Op) -> bool
        ensures { result ≡ true → LeavesSeen self.now op }
    {
        match op {
            Op::Read(1) => self.to_host.r1.count() < 24,
            Op::Read(number) => number < 8 && number % 2 == 0,
            _ => false,
        }
    }

    /// Returns `true` if the host's interrupt request is enabled: Q (Application Note 004,
    /// control).
    pub fn enables_hirq(&self) -> bool
        ensures { result ≡ (self.now).flags.q }
    {
        self.flags.q
    }

    // Does an operation, and counts the rises.
    fn access(&mut self, side: Side, op: Op) -> u8
        requires { MayDo side op }
        ensures chip { self.new ≡ with_counts self.old (op_leaves self.old side op) }
        ensures answer { result ≡ answer_of self.old side op }
    {
        let asked = self.asks_nmi();
        let was_reset = self.flags.p;
        let answer = self.operate(side, op);
        self.nmis = risen(asked, self.asks_nmi(), self.nmis);
        self.resets = risen(was_reset, self.flags.p, self.resets);
        answer
    }

    // Does an operation, without the counts.
    fn operate(&mut self, side: Side, op: Op) -> u8
        requires { MayDo side op }
        ensures chip { self.new ≡ op_leaves self.old side op }
        ensures answer { result ≡ answer_of self.old side op }
    {
        match (side, op) {
            (Side::Host, Op::Read(number)) => self.host_reads(number),
            (Side::Para, Op::Read(number)) => self.para_reads(number),
            (Side::Host, Op::Write(number, byte)) => {
                self.host_writes(number, byte);
                0
            }
            (Side::Para, Op::Write(number, byte)) => {
                self.para_writes(number, byte);
                0
            }
            (_, Op::Reset) => {
                self.clear();
                0
            }
        }
    }

    // Returns the status of a register, as the host reads it.
    #[inline(always)]
    fn host_status(&self, number: u8) -> u8
        requires number { number < 8 }
        requires status { is_status number ≡ true }
        ensures { result ≡ status Host (register_number number) self.now }
    {
        match number {
            0 => status_byte(
                !self.to_host.r1.is_empty(),
                self.to_para.r1.is_empty(),
                flags_byte(self.flags),
            ),
            2 => status_byte(!self.to_host.r2.is_empty(), self.to_para.r2.is_empty(), 63),
            4 => status_byte(
                is_ready(self.flags.v, &self.to_host.r3),
                has_room(self.flags.v, &self.to_para.r3),
                63,
            ),
            _ => status_byte(!self.to_host.r4.is_empty(), self.to_para.r4.is_empty(), 63),
        }
    }

    // Returns the status of a register, as the parasite reads it.
    #[inline(always)]
    fn para_status(&self, number: u8) -> u8
        requires number { number < 8 }
        requires status { is_status number ≡ true }
        ensures { result ≡ status Para (register_number number) self.now }
    {
        match number {
            0 => status_byte(
                !self.to_para.r1.is_empty(),
                self.to_host.r1.count() < 24,
                flags_byte(self.flags),
            ),
            2 => status_byte(!self.to_para.r2.is_empty(), self.to_host.r2.is_empty(), 63),
            4 => status_byte(
                self.wants_service(),
                has_room(self.flags.v, &self.to_host.r3),
                63,
            ),
            _ => status_byte(!self.to_para.r4.is_empty(), self.to_host.r4.is_empty(), 63),
        }
    }

    // Returns the status of a register, as `side` reads it.
    #[inline(always)]
    fn status_of(&self, side: Side, number: u8) -> u8
        requires number { number < 8 }
        requires status { is_status number ≡ true }
        ensures { result ≡ status side (register_number number) self.now }
    {
        match side {
            Side::Host => self.host_status(number),
            Side::Para => self.para_status(number),
        }
    }

    /// Returns the status of registers 1 to 4, as a side reads it without changing the chip
    /// (Application Note 004, status).
    pub fn status(&self, side: Side) -> [u8; 4]
        ensures { result ≡ status side 1 self.now ∷ status side 2 self.now ∷ status side 3 self.now ∷ status side 4 self.now ∷ [] }
    {
        [
            self.status_of(side, 0),
            self.status_of(side, 2),
            self.status_of(side, 4),
            self.status_of(side, 6),
        ]
    }

    fn host_reads(&mut self, number: u8) -> u8
        requires { number < 8 }
        ensures chip { self.new ≡ op_leaves self.old Host (Read number) }
        ensures answer { result ≡ answer_of self.old Host (Read number) }
    {
        match number {
            1 => self.to_host.r1.take(),
            3 => self.to_host.r2.take(),
            5 => self.to_host.r3.take(),
            7 => self.to_host.r4.take(),
            _ => self.host_status(number),
        }
    }

    fn para_reads(&mut self, number: u8) -> u8
        requires { number < 8 }
        ensures chip { self.new ≡ op_leaves self.old Para (Read number) }
        ensures answer { result ≡ answer_of self.old Para (Read number) }
    {
        match number {
            1 => self.to_para.r1.take(),
            3 => self.to_para.r2.take(),
            5 => self.to_para.r3.take(),
            7 => self.to_para.r4.take(),
            _ => self.para_status(number),
        }
    }

    fn host_writes(&mut self, number: u8, byte: u8)
        requires { number < 8 }
        ensures { self.new ≡ op_leaves self.old Host (Write number byte) }
    {
        match number {
            0 => self.control(byte),
            1 => self.to_para.r1.replace(byte),
            3 => self.to_para.r2.replace(byte),
            5 => send(self.flags.v, byte, &mut self.to_para.r3),
            7 => self.to_para.r4.replace(byte),
            _ => {}
        }
    }

    fn para_writes(&mut self, number: u8, byte: u8)
        requires { number < 8 }
        ensures { self.new ≡ op_leaves self.old Para (Write number byte) }
    {
        match number {
            1 => self.to_host.r1.add(byte),
            3 => self.to_host.r2.replace(byte),
            5 => send(self.flags.v, byte, &mut self.to_host.r3),
            7 => self.to_host.r4.replace(byte),
            _ => {}
        }
    }

    // Does a reset, without its count.
    fn clear(&mut self)
        ensures { self.new ≡ op_leaves self.old Host Reset }
    {
        self.flags = no_flags();
        self.to_host = clear_to_host();
        self.to_para = clear_to_para();
    }

    // Does a write to the control register.
    fn control(&mut self, byte: u8)
        ensures { self.new ≡ control_leaves byte self.old }
    {
        self.flags = flags_after(byte, self.flags);
        if bit(byte, 7) && bit(byte, 6) {
            self.to_host = clear_to_host();
            self.to_para = clear_to_para();
        }
    }

    /// Returns the lines and the counts, as a look sees them (Application Note 004, interrupts and
    /// reset).
    pub fn lines(&self) -> Lines
        ensures { result ≡ lines_of self.now }
    {
        Lines {
            prst: self.flags.p,
            resets: self.resets,
            nmis: self.nmis,
            pirq: (self.flags.i && !self.to_para.r1.is_empty())
                || (self.flags.j && !self.to_para.r4.is_empty()),
            hirq: self.flags.q && !self.to_host.r4.is_empty(),
        }
    }
}
