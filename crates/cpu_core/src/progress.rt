//! The progress of a sequence: the cycle in progress, and the latches for later cycles.
ghost use Rattle.std.specs.Prelude.{◌≡◌};
ghost use Rattle.cpu_alu.specs.Addresses.{place, stack};
ghost use Rattle.cpu_core.specs.CodePhases.{progress_reading, progress_writing, progress_at_end, progress_at_operand, goes_to, progress_pushing, index_of};

use cpu_alu::Regs;
use op_table::Row;

/// The access to the operand.
#[derive(Clone, Copy, Debug, PartialEq, Eq)]
pub(crate) enum Access {
    /// A read.
    Load,
    /// A write.
    Store,
    /// A read and a write back.
    Change,
}

/// The cycle in progress. The most frequent phases come first, since `step` finds a phase by their
/// order.
#[derive(Clone, Copy, Debug, PartialEq, Eq)]
pub(crate) enum Phase {
    /// The opcode.
    Opcode,
    /// The operand is read or written.
    Operand,
    /// The address in the zero page.
    ZeroPage,
    /// The low byte of the address.
    AbsoluteLow,
    /// The high byte of the address, of the instruction or at a pointer.
    AddressHigh,
    /// The byte after an opcode without an operand.
    Implied,
    /// A branch's operand.
    Branch,
    /// The first cycle of a taken branch after its operand.
    BranchTaken,
    /// The low byte of the address, before an index is added.
    IndexedLow,
    /// The high byte of the address, before an index is added.
    IndexedHigh,
    /// The index is added.
    IndexAdded,
    /// The byte after a push.
    Push,
    /// A byte is pushed.
    PushByte,
    /// The byte after a pull.
    Pull,
    /// The stack before the pull.
    PullStack,
    /// A byte is pulled.
    PullByte,
    /// The byte after a shift, INC or DEC of A.
    Accumulator,
    /// The low byte of the target of JSR.
    CallLow,
    /// JSR reads the stack before it pushes.
    CallStack,
    /// JSR pushes the high byte of PC.
    CallPushHigh,
    /// JSR pushes the low byte of PC.
    CallPushLow,
    /// The high byte of the target of JSR.
    CallHigh,
    /// The byte after RTS.
    Return,
    /// RTS reads the stack before it pulls.
    ReturnStack,
    /// RTS pulls the low byte of PC.
    ReturnLow,
    /// RTS pulls the high byte of PC.
    ReturnHigh,
    /// The byte at the pulled address.
    ReturnTarget,
    /// The low byte of the target of JMP.
    JumpLow,
    /// The high byte of the target of JMP, of the instruction or at its pointer.
    JumpHigh,
    /// The address of a pointer to which Y is added.
    IndexedPointer,
    /// The low byte of the pointer to which Y is added.
    IndexedPointerLow,
    /// The high byte of the pointer to which Y is added.
    IndexedPointerHigh,
    /// The operand is read again.
    ModifyAgain,
    /// The operand is written back.
    ModifyWrite,
    /// The address in the zero page, before an index is added.
    ZeroPageBase,
    /// The last cycle of a branch into another page.
    BranchCrossed,
    /// The address of a pointer.
    Pointer,
    /// The low byte of the pointer.
    PointerLow,
    /// The address of a pointer, before X is added.
    PointerBase,
    /// X is added, in the zero page.
    PointerIndex,
    /// The low byte of the pointer found with X.
    PointerIndexedLow,
    /// The last cycle of a sum or a difference in decimal mode.
    Decimal,
    /// The low byte of JMP's pointer.
    IndirectLow,
    /// The high byte of JMP's pointer.
    IndirectHigh,
    /// The low byte of JMP's pointer, before X is added.
    IndirectIndexedLow,
    /// The high byte of JMP's pointer, before X is added.
    IndirectIndexedHigh,
    /// The last byte of an indirect JMP again.
    IndirectAgain,
    /// The low byte at the pointer.
    IndirectTargetLow,
    /// The byte after BRK.
    Break,
    /// The high byte of PC is pushed by an interrupt or BRK.
    InterruptPushHigh,
    /// The low byte of PC is pushed.
    InterruptPushLow,
    /// The flags are pushed.
    InterruptPushFlags,
    /// The low byte of a vector.
    VectorLow,
    /// The high byte of a vector.
    VectorHigh,
    /// The first cycle of an interrupt.
    InterruptFirst,
    /// The second cycle of an interrupt.
    InterruptSecond,
    /// The first cycle of a reset.
    ResetFirst,
    /// The second cycle of a reset.
    ResetSecond,
    /// The stack is read in place of an interrupt's first push.
    ResetThird,
    /// The stack is read in place of an interrupt's second push.
    ResetFourth,
    /// The stack is read in place of an interrupt's third push.
    ResetFifth,
    /// The second of three bytes of an opcode that does nothing.
    SpareSecond,
    /// The last byte of an opcode that does nothing, `low` + 1 times.
    SpareLast,
    /// The byte after RTI.
    Resume,
    /// RTI reads the stack before it pulls.
    ResumeStack,
    /// RTI pulls the flags.
    ResumeFlags,
    /// RTI pulls the low byte of PC.
    ResumeLow,
    /// RTI pulls the high byte of PC.
    ResumeHigh,
    /// The address of an opcode without an instruction, which is read in each cycle.
    Halted,
    /// The sequence is over.
    Over,
}

/// The start of an instruction after its opcode.
#[derive(Clone, Copy, Debug, PartialEq, Eq)]
pub(crate) struct Start {
    /// The cycle after the opcode, or that of the opcode if it has no instruction or one that does
    /// nothing.
    pub phase: Phase,
    /// The access to the operand.
    pub access: Access,
    /// True if the cycle for a crossed page is always taken.
    pub always: bool,
    /// True if Y is the index to add, false if it is X.
    pub by_y: bool,
}

/// The cycle in progress, with its access and the latches. Small plain fields, changed in place,
/// make a cycle fast.
#[derive(Clone, Copy, Drop)]
pub(crate) struct Progress {
    /// The cycle in progress.
    pub phase: Phase,
    /// True if the cycle writes.
    pub writes: bool,
    /// The byte to write.
    pub value: u8,
    /// The address of the access.
    pub at: u16,
    /// An address for a later cycle: of an operand, a pointer, a vector, or a branch's target.
    pub to: u16,
    /// A byte for a later cycle: of an address or operand, the flags to push, or the cycles left.
    pub low: u8,
    /// The low byte of PC to push, or the flags that RTI pulled.
    pub index: u8,
    /// The start of the instruction.
    pub start: Start,
    /// The instruction.
    pub row: Row,
    /// The registers, which become those at the end.
    pub work: Regs,
}

impl Progress {
    /// Begins a cycle that reads.
    #[inline(always)]
    pub(crate) fn read(&mut self, phase: Phase, at: u16)
        ensures { self.new ≡ progress_reading self.old phase at }
    {
        self.phase = phase;
        self.at = at;
        self.writes = false;
    }

    /// Begins a cycle that reads byte `n` of the instruction.
    #[inline(always)]
    pub(crate) fn read_place(&mut self, phase: Phase, n: u8)
        ensures { self.new ≡ progress_reading self.old phase (place self.old.work n) }
    {
        let at = self.work.place(n);
        self.read(phase, at);
    }

    /// Begins a cycle that reads the stack at `k` above S.
    #[inline(always)]
    pub(crate) fn read_stack(&mut self, phase: Phase, k: u8)
        ensures { self.new ≡ progress_reading self.old phase (stack self.old.work k) }
    {
        let at = self.work.stack(k);
        self.read(phase, at);
    }

    /// Begins a cycle that writes to the stack at `k` above S.
    #[inline(always)]
    pub(crate) fn write_stack(&mut self, phase: Phase, k: u8, value: u8)
        ensures { self.new ≡ progress_writing self.old phase (stack self.old.work k) value }
    {
        self.phase = phase;
        self.at = self.work.stack(k);
        self.value = value;
        self.writes = true;
    }

    /// Returns the index to add.
    #[inline(always)]
    pub(crate) fn index_of(&self) -> u8
        ensures { result ≡ index_of self.now }
    {
        if self.start.by_y {
            self.work.y
        } else {
            self.work.x
        }
    }

    /// Begins the cycle at the operand, whose address is `at`.
    #[inline(always)]
    pub(crate) fn reach(&mut self, at: u16)
        ensures { self.new ≡ progress_at_operand self.old at }
    {
        self.phase = Phase::Operand;
        self.at = at;
        match self.start.access {
            Access::Store => {
                self.value = self.work.stored(self.row.mnemonic);
                self.writes = true;
            }
            _ => self.writes = false,
        }
    }

    /// Ends the sequence at the address `pc`.
    #[inline(always)]
    pub(crate) fn jump(&mut self, pc: u16)
        ensures { self.new ≡ progress_at_end self.old (goes_to self.old.work pc) }
    {
        self.work.pc = pc;
        self.phase = Phase::Over;
    }

    /// Begins the cycle that pushes the high byte of `pc`. Later cycles push its low byte and the
    /// flags with `set`.
    #[inline(always)]
    pub(crate) fn push_state(&mut self, pc: u16, set: u8)
        ensures { self.new ≡ progress_pushing self.old pc set }
    {
        self.low = self.work.p | set;
        self.index = (pc % 256) as u8;
        self.write_stack(Phase::InterruptPushHigh, 0, (pc / 256) as u8);
    }
}
