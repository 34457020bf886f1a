//! The second processor's bus: its memory and the Tube, and the counts of the Tube's lines that it
//! has taken.
ghost use Rattle.std.specs.Prelude.{◌≡◌, true};

use crate::memory::{Memory, ROM_START, TUBE, asked};
use crate::notes::Notes;
use beeb_bits::Clock;
use cpu_alu::{Cycle, Regs};
use cpu_whole::{LastAccess, Plain, branch_to, last_access, whole};
use op_table::Part;
use std::marker::Model;
use tube_chip::{Lines, Op};
use tube_machine::{AccessError, Done, Interrupts, TubeBus};

/// The memory and the Tube, with the counts of the Tube's lines that were taken.
#[derive(Drop)]
pub(crate) struct ParaBus {
    pub(crate) clock: Clock,
    pub(crate) memory: Memory,
    // The Tube's counts as last taken.
    pub(crate) resets: u32,
    pub(crate) nmis: u32,
    pub(crate) is_held: bool,
    // The tick at which it counts as closed.
    pub(crate) closed: u64,
}

impl Model for ParaBus {
    ghost use Rattle.para_mach.specs.State.{ParaBusState};

    ghost Value = { ParaBusState };

    ghost view = { λ b. record {
      clock = b.clock;
      ram = b.memory.ram;
      rom = b.memory.rom;
      rom_in = b.memory.rom_in;
      resets = b.resets;
      nmis = b.nmis;
      is_held = b.is_held;
      closed = b.closed;
    } };
}

impl<N: Notes> TubeBus<N> for ParaBus {
    ghost use Rattle.std.specs.Prelude.{refl};
    ghost use Rattle.para_mach.specs.State.{ParaBusState};
    ghost use Rattle.para_mach.specs.Step.{para_bus_model};
    ghost use Rattle.para_mach.specs.Lawful.{para_wired, para_plain, is_plain};
    ghost use Rattle.para_mach.specs.Whole.{plain_read, plain_write, rests, para_memory, para_rests};
    ghost use Rattle.para_mach.specs.Peek.{peek_of};
    ghost use Rattle.para_mach.specs.CodeNotes.{part_kept};

    ghost State = { ParaBusState };

    ghost state = { λ b. b };

    ghost bus_model = { para_bus_model };

    ghost wired = { para_wired };

    ghost plain = { is_plain };

    ghost stays_plain = { para_plain };

    ghost Kept = { ParaBusState };

    ghost before = { λ notes b. part_kept (N.before notes b.ram) b };

    ghost endless = { N.endless };

    ghost room = { N.room };

    ghost even = { λ is b t c. refl };

    ghost joined = { λ is b. refl };

    ghost reads = { plain_read };

    ghost writes = { plain_write };

    ghost memory = { para_memory };

    ghost rests = { rests };

    ghost stays_at_rest = { para_rests };

    ghost peek = { λ b at. peek_of b.ram b.rom b.rom_in at };

    #[inline(always)]
    fn cycle(&self) -> u64 {
        self.clock.para()
    }

    #[inline(always)]
    fn has_tube(&self) -> bool {
        true
    }

    #[inline(always)]
    fn closed(&self) -> u64 {
        self.closed
    }

    #[inline(always)]
    fn close(&mut self, t: u64) {
        self.closed = t;
    }

    #[inline(always)]
    fn break_tick(&self) -> u64 {
        u64::MAX
    }

    fn take_break(&mut self, _t: u64) {}

    #[inline(always)]
    fn is_plain(&self, lines: &Lines) -> bool {
        lines.resets == self.resets && lines.nmis == self.nmis
    }

    #[inline(always)]
    fn resets(&self, lines: &Lines) -> bool {
        lines.resets != self.resets
    }

    #[inline(always)]
    fn hold(&mut self) {
        self.is_held = true;
    }

    fn reset(&mut self, lines: &Lines) {
        self.memory.switch_in();
        self.resets = lines.resets;
        self.nmis = lines.nmis;
        self.is_held = false;
    }

    #[inline(always)]
    fn take(&mut self, lines: &Lines) -> Interrupts {
        let nmi = lines.nmis != self.nmis;
        self.nmis = lines.nmis;
        self.is_held = false;
        Interrupts {
            nmi,
            irq: lines.pirq,
        }
    }

    #[inline(always)]
    fn take_plain(&mut self, lines: &Lines) -> Interrupts {
        self.is_held = false;
        Interrupts {
            nmi: false,
            irq: lines.pirq,
        }
    }

    #[inline(always)]
    fn answered(&mut self, _cycle: Cycle) {
        self.memory.switch_out();
    }

    #[inline(always)]
    fn quick(&mut self, _t: u64, cycle: Cycle, notes: &mut N) -> Option<u8> {
        self.memory.exchange_low(cycle, notes)
    }

    #[inline(always)]
    fn rests_until(&self, lines: &Lines, masks: bool) -> u64 {
        if self.is_held || lines.pirq && !masks {
            0
        } else {
            u64::MAX
        }
    }

    #[inline(always)]
    fn peek(&self, at: u16) -> Option<u8> {
        self.memory.peek(at)
    }

    #[inline(always)]
    fn whole<L>(&mut self, part: Part, regs: &mut Regs, t: u64, notes: &mut N) -> u64 {
        whole::<N, ParaBus, L>(part, regs, self, t, notes)
    }

    #[inline(always)]
    fn last_access<L>(&self, part: Part, regs: &Regs) -> LastAccess {
        last_access::<N, ParaBus, L>(part, regs, self)
    }

    // While the boot ROM is in, an access to the Tube changes the bus: it switches the boot ROM
    // out.
    #[inline(always)]
    fn asked(&self, cycle: Cycle) -> Option<Op> {
        if self.memory.rom_in() {
            return None;
        }
        asked(cycle)
    }

    #[inline(always)]
    fn branch_to<L>(&self, part: Part, from: &Regs, to: &Regs) -> u64 {
        branch_to::<N, ParaBus, L>(part, from, to, self)
    }

    #[inline(always)]
    fn exchange(&mut self, t: u64, cycle: Cycle, notes: &mut N) -> Result<Done, AccessError> {
        match self.memory.exchange(cycle, notes) {
            Ok(byte) => {
                self.closed = t + 1;
                Ok(Done {
                    byte,
                    ticks: self.clock.para(),
                })
            }
            Err(unable) => Err(unable),
        }
    }
}

impl<N: Notes> Plain<N> for ParaBus {
    ghost use Rattle.std.specs.Prelude.{◌≤◌, ◌+◌, ◌*◌, max};
    ghost use Rattle.beeb_bits.specs.Clock.{para};
    ghost use Rattle.tube_machine.specs.Whole.{reach_of, comes_later};
    ghost use Rattle.para_mach.specs.State.{ParaBusState};
    ghost use Rattle.para_mach.specs.Step.{para_bus_model};
    ghost use Rattle.para_mach.specs.Whole.{plain_read, plain_write, para_memory};
    ghost use Rattle.para_mach.specs.CodeNotes.{part_kept};

    ghost State = { ParaBusState };

    ghost state = { λ b. b };

    ghost reach = { reach_of para_bus_model plain_read plain_write };

    ghost is_plain = { para_memory.plain };

    ghost may_come = { λ b t n. b.closed ≤ t + max 1 (para b.clock * n) };

    ghost later = { λ b t n k low high. comes_later b.closed (para b.clock) t n k low high };

    ghost Kept = { ParaBusState };

    ghost before = { λ notes b. part_kept (N.before notes b.ram) b };

    ghost room = { N.room };

    #[inline(always)]
    fn runs(&self, pc: u16) -> bool {
        pc < TUBE - 2
    }

    #[inline(always)]
    fn reads(&self, at: u16) -> bool {
        at < TUBE
    }

    #[inline(always)]
    fn writes(&self, at: u16, notes: &N) -> bool {
        at < ROM_START as u16 && notes.has_room()
    }

    #[inline(always)]
    fn byte(&self, at: u16) -> u8 {
        self.memory.byte(at)
    }

    #[inline(always)]
    fn put(&mut self, t: u64, cycle: u64, at: u16, byte: u8, notes: &mut N) {
        self.closed = t + self.clock.para() * cycle + 1;
        self.memory.put(at, byte, notes);
    }
}
