//! The processor of a machine, as a trait.
ghost use Rattle.std.specs.Prelude.{◌≡◌, ◌↔◌, IsTrue, IsSome, IsNone, Some};
ghost use Rattle.op_table.specs.declared.Part.{Part};
ghost use Rattle.cpu_core.specs.declared.Sequence.TheVariants.{Instruction, Reset};
ghost use Rattle.cpu_core.specs.State.{State};
ghost use Rattle.cpu_core.specs.Sequences.{next_cycle, after_byte, halted, starting, HasEnded, after, sequence_at_look, fresh};

use cpu_alu::{Cycle, Regs};
use cpu_core::{Core, Which};
use op_table::Part;

/// A processor that does one access to the bus in each cycle. Contracts see its state, and which
/// part it is.
pub trait Processor: Drop {
    ghost core: { Self → State };

    ghost part: { Part };

    /// Returns the access of the cycle in progress.
    fn want(&self) -> Cycle
        requires { IsSome (next_cycle part (core self.now)) }
        ensures { next_cycle part (core self.now) ≡ Some result };

    /// Ends the cycle in progress, with the byte that was read.
    fn give(&mut self, byte: u8)
        requires { IsSome (next_cycle part (core self.old)) }
        ensures { core self.new ≡ after_byte part (core self.old) byte };

    /// Returns `true` if the cycle just given was the last of its sequence.
    fn last(&self) -> bool
        ensures { IsTrue result ↔ IsNone (next_cycle part (core self.now)) };

    /// Returns `true` if an opcode without an instruction has halted the processor.
    fn halted(&self) -> bool
        ensures { result ≡ halted part (core self.now) };

    /// Does the look at the lines: begins an NMI; otherwise an IRQ, if the flag I is clear;
    /// otherwise the next instruction.
    fn take_lines(&mut self, nmi: bool, irq: bool)
        requires { IsNone (next_cycle part (core self.old)) }
        ensures { core self.new ≡ fresh (sequence_at_look nmi irq (after part (core self.old))) (after part (core self.old)) };

    /// Begins a reset in place of the look, or while the processor is halted.
    fn begin_reset(&mut self)
        requires { HasEnded part (core self.old) }
        ensures { core self.new ≡ fresh Reset (after part (core self.old)) };

    /// Returns the part.
    fn kind(&self) -> Part
        ensures { result ≡ part };

    /// Returns `true` if the next cycle is the first of an instruction.
    fn starting(&self) -> bool
        ensures { result ≡ starting (core self.now) };

    /// Returns the registers at the start of the sequence.
    fn at_start(&self) -> Regs
        ensures { result ≡ (core self.now).regs };

    /// Makes the next cycle the first of an instruction, with these registers.
    fn set_out(&mut self, regs: &Regs)
        ensures { core self.new ≡ fresh Instruction regs.now };
}

impl<P: Which> Processor for Core<P> {
    ghost core = { λ c. c };

    ghost part = { P.part };

    #[inline(always)]
    fn want(&self) -> Cycle {
        self.want()
    }

    #[inline(always)]
    fn give(&mut self, byte: u8) {
        self.give(byte);
    }

    #[inline(always)]
    fn last(&self) -> bool {
        self.last()
    }

    #[inline(always)]
    fn halted(&self) -> bool {
        self.halted()
    }

    #[inline(always)]
    fn take_lines(&mut self, nmi: bool, irq: bool) {
        self.take_lines(nmi, irq);
    }

    fn begin_reset(&mut self) {
        self.begin_reset();
    }

    #[inline(always)]
    fn kind(&self) -> Part {
        P::kind()
    }

    #[inline(always)]
    fn starting(&self) -> bool {
        self.starting()
    }

    #[inline(always)]
    fn at_start(&self) -> Regs {
        self.at_start()
    }

    #[inline(always)]
    fn set_out(&mut self, regs: &Regs) {
        self.set_out(regs);
    }
}
