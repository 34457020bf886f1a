//! A processor of either part: it returns the access of each cycle, and takes the byte.
ghost use Rattle.std.specs.Prelude.{◌≡◌, ◌≢◌, ◌↔◌, IsTrue, IsSome, IsNone, Some};
ghost use Rattle.op_table.specs.declared.Part.{Part};
ghost use Rattle.cpu_core.specs.Sequences.{next_cycle, after_byte, halted, starting, after, sequence_at_look, fresh, power_on, HasEnded};
ghost use Rattle.cpu_core.specs.CodePhases.{wants, is_fetch, is_stuck};
ghost use Rattle.cpu_core.specs.CodeTies.{Tied};

use crate::Sequence;
use crate::kinds::Which;
use crate::progress::{Access, Phase, Progress, Start};
use crate::trail::{Trail, Turn};
use cpu_alu::{Cycle, INTERRUPT, Regs, has_flag};
use op_table::{Mnemonic, Mode, Part, Row};
use std::marker::{Model, PhantomData};

/// A processor of the part `P`, which makes one bus access in each cycle: `want` returns the
/// access, and `give` ends the cycle with the byte that was read. After the last cycle of an
/// instruction, a reset or an interrupt, `take_lines` or `begin_reset` begins the next one. An
/// opcode without an instruction halts an NMOS part: it then reads the address of that opcode in
/// each cycle, until `begin_reset`.
/// Source: the MCS6500 Hardware Manual, summary of single cycle execution, and the 65C02's data
/// sheet. On the 65C02, the address of a cycle whose byte is not used is this project's choice.
#[derive(Drop)]
pub struct Core<P: Which> {
    progress: Progress,
    start: Regs,
    part: PhantomData<P>,
    // The state as contracts see it, which takes no memory.
    trail: Trail,
}

impl<P: Which> Model for Core<P> {
    ghost use Rattle.std.specs.Prelude.{◌≡◌};
    ghost use Rattle.cpu_core.specs.State.{State};
    ghost use Rattle.cpu_core.specs.CodeTies.{Tied};

    ghost Value = { State };

    ghost view = { λ c. c.trail.state };

    ghost invariant = { λ c. (c.start ≡ c.trail.state.regs) × Tied P.part c.progress c.trail.state };
}

fn first_progress(regs: Regs) -> Progress
    ensures { (part : Part) → Tied part result (fresh Sequence.Reset regs) }
{
    Progress {
        phase: Phase::ResetFirst,
        writes: false,
        value: 0,
        at: regs.pc,
        to: 0,
        low: 0,
        index: 0,
        start: Start {
            phase: Phase::Opcode,
            access: Access::Load,
            always: false,
            by_y: false,
        },
        row: Row {
            mnemonic: Mnemonic::Nop,
            mode: Mode::Imp,
            bytes: 1,
            cycles: 2,
        },
        work: regs,
    }
}

/// Begins a sequence with the registers in `m.work`.
#[inline(always)]
fn set_off(m: &mut Progress, sequence: Sequence)
    ensures tied { (part : Part) → Tied part m.new (fresh sequence m.old.work) }
    ensures work { m.new.work ≡ m.old.work }
{
    m.at = m.work.pc;
    m.writes = false;
    match sequence {
        Sequence::Instruction => m.phase = Phase::Opcode,
        Sequence::Reset => m.phase = Phase::ResetFirst,
        Sequence::Nmi => {
            m.to = 0xFFFA;
            m.phase = Phase::InterruptFirst;
        }
        Sequence::Irq => {
            m.to = 0xFFFE;
            m.phase = Phase::InterruptFirst;
        }
    }
}

#[inline(always)]
fn looked(nmi: bool, irq: bool, r: &Regs) -> Sequence
    ensures { result ≡ sequence_at_look nmi irq r.now }
{
    if nmi {
        Sequence::Nmi
    } else if irq && !has_flag(r.p, INTERRUPT) {
        Sequence::Irq
    } else {
        Sequence::Instruction
    }
}

#[inline(always)]
fn is_last(phase: Phase) -> bool
    ensures { IsTrue result ↔ (phase ≡ Phase.Over) }
{
    match phase {
        Phase::Over => true,
        _ => false,
    }
}

#[inline(always)]
fn is_stuck(phase: Phase) -> bool
    ensures { result ≡ is_stuck phase }
{
    match phase {
        Phase::Halted => true,
        _ => false,
    }
}

#[inline(always)]
fn is_fetch(phase: Phase) -> bool
    ensures { result ≡ is_fetch phase }
{
    match phase {
        Phase::Opcode => true,
        _ => false,
    }
}

#[inline(always)]
fn in_progress(m: &Progress) -> Cycle
    requires { m.now.phase ≢ Phase.Over }
    ensures { wants m.now ≡ Some result }
{
    if m.writes {
        Cycle::Write(m.at, m.value)
    } else {
        Cycle::Read(m.at)
    }
}

impl<P: Which> Core<P> {
    /// Returns the part.
    #[inline(always)]
    pub fn part() -> Part
        ensures { result ≡ P.part }
    {
        P::kind()
    }

    /// Makes a processor at power-on, before the first cycle of a reset: all registers and flags
    /// are clear.
    pub fn new() -> Self
        ensures { result ≡ power_on }
    {
        let regs = Regs {
            pc: 0,
            a: 0,
            x: 0,
            y: 0,
            s: 0,
            p: 0,
        };
        Core {
            progress: first_progress(regs),
            start: regs,
            part: PhantomData,
            trail: Trail::new(),
        }
    }

    /// Returns a copy of the processor.
    #[inline]
    pub fn copy(&self) -> Self
        ensures { result ≡ self.now }
    {
        Core {
            progress: self.progress,
            start: self.start,
            part: PhantomData,
            trail: self.trail.after(&Turn::Rests),
        }
    }

    #[inline(always)]
    fn begin(&mut self, sequence: Sequence)
        requires { HasEnded P.part self.old }
        ensures { self.new ≡ fresh sequence (after P.part self.old) }
    {
        set_off(&mut self.progress, sequence);
        self.start = self.progress.work;
        self.trail = self.trail.after(&Turn::Begins(sequence, self.start));
    }

    /// Returns the access of the cycle in progress.
    #[inline(always)]
    pub fn want(&self) -> Cycle
        requires { IsSome (next_cycle P.part self.now) }
        ensures { next_cycle P.part self.now ≡ Some result }
    {
        in_progress(&self.progress)
    }

    /// Ends the cycle in progress with the byte that was read. After a write the byte does not
    /// matter.
    #[inline(always)]
    pub fn give(&mut self, byte: u8)
        requires { IsSome (next_cycle P.part self.old) }
        ensures { self.new ≡ after_byte P.part self.old byte }
    {
        let part = P::kind();
        self.trail = self.trail.after(&Turn::Given(part, byte));
        self.progress.step(part, byte);
    }

    /// Returns true if the cycle just given was the last of its sequence.
    #[inline(always)]
    pub fn last(&self) -> bool
        ensures { IsTrue result ↔ IsNone (next_cycle P.part self.now) }
    {
        is_last(self.progress.phase)
    }

    /// Returns true if an opcode without an instruction has halted the part.
    #[inline(always)]
    pub fn halted(&self) -> bool
        ensures { result ≡ halted P.part self.now }
    {
        match P::kind() {
            Part::Nmos => is_stuck(self.progress.phase),
            Part::Cmos => false,
        }
    }

    /// Returns true if the next cycle is the first of an instruction: not of a reset or an
    /// interrupt, and not of a halted part.
    #[inline(always)]
    pub fn starting(&self) -> bool
        ensures { result ≡ starting self.now }
    {
        is_fetch(self.progress.phase)
    }

    #[inline(always)]
    fn look(&self, nmi: bool, irq: bool) -> Sequence
        requires { IsNone (next_cycle P.part self.now) }
        ensures { result ≡ sequence_at_look nmi irq (after P.part self.now) }
    {
        looked(nmi, irq, &self.progress.work)
    }

    // Looks at the lines if at least one of them is active.
    #[inline(never)]
    fn take_asked(&mut self, nmi: bool, irq: bool)
        requires { IsNone (next_cycle P.part self.old) }
        ensures { self.new ≡ fresh (sequence_at_look nmi irq (after P.part self.old)) (after P.part self.old) }
    {
        let sequence = self.look(nmi, irq);
        self.begin(sequence);
    }

    /// Looks at the lines: begins an NMI; without one an IRQ if the flag I is clear; otherwise the
    /// next instruction.
    // Without an active line, the next instruction begins with constants.
    #[inline(always)]
    pub fn take_lines(&mut self, nmi: bool, irq: bool)
        requires { IsNone (next_cycle P.part self.old) }
        ensures { self.new ≡ fresh (sequence_at_look nmi irq (after P.part self.old)) (after P.part self.old) }
    {
        if nmi || irq {
            self.take_asked(nmi, irq);
        } else {
            self.begin(Sequence::Instruction);
        }
    }

    /// Begins a reset in place of the look, or on a halted part.
    pub fn begin_reset(&mut self)
        requires { HasEnded P.part self.old }
        ensures { self.new ≡ fresh Sequence.Reset (after P.part self.old) }
    {
        self.begin(Sequence::Reset);
    }

    /// Makes the next cycle the first of an instruction with the registers `regs`, from any state.
    #[inline(always)]
    pub fn set_out(&mut self, regs: &Regs)
        ensures { self.new ≡ fresh Sequence.Instruction regs.now }
    {
        self.progress.work = *regs;
        set_off(&mut self.progress, Sequence::Instruction);
        self.start = *regs;
        self.trail = self
            .trail
            .after(&Turn::Begins(Sequence::Instruction, self.start));
    }

    /// Returns the registers at the start of the sequence.
    #[inline(always)]
    pub fn at_start(&self) -> Regs
        ensures { result ≡ self.now.regs }
    {
        self.start
    }

    /// Returns the registers after the sequence that has ended.
    #[inline]
    pub fn at_end(&self) -> Regs
        requires { HasEnded P.part self.now }
        ensures { result ≡ after P.part self.now }
    {
        self.progress.work
    }
}
