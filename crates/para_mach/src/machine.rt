//! The machine.
ghost use Rattle.std.specs.Prelude.{◌≡◌, ◌≤◌, ◌≢◌, ◌↔◌, ◌⊎◌, ◌<◌, ◌+◌, ◌-◌, ◌^◌, ℕ, IfOk, IfErr, IfSome, length, Err, None, MatchOption, IsSome, is_none, true, vec_len, vec_capacity};
ghost use Rattle.cpu65c02.specs.Sequences.{next_cycle, starting};
ghost use Rattle.tube_party.specs.Transitions.{PortRunToAnyAsk, shown_lines};
ghost use Rattle.tube_machine.specs.SkipWhile.{IsSkipped, Passes};
ghost use Rattle.para_mach.specs.State.{power_on, shown_regs};
ghost use Rattle.para_mach.specs.Step.{para_transitions, para_bus_model};
ghost use Rattle.para_mach.specs.Peek.{para_peek};
ghost use Rattle.para_mach.specs.CodeNotes.{LooksOn, IsNoted, IsNear, IsHeldAtLook, part_kept, put_back};
ghost use Rattle.para_mach.specs.Lawful.{para_lawful, para_permitted};

use crate::bus::ParaBus;
use crate::memory::{Memory, ROM_SIZE};
use crate::notes::{NoNotes, UndoLog};
use beeb_bits::{Clock, Crosses, Tick};
use cpu_alu::Regs;
use cpu65c02::Cpu;
use std::alloc::{AllocError, Global};
use std::marker::Model;
use thiserror::Error;
use tube_chip::{Answer, Lines};
use tube_machine::{
    RunExit, SkipWhile, advance_at, advance_seeing, answer, carry_on, look, skip_over, take_lines,
};
use tube_party::{Ask, NO_LINES, Party, Rewinds, TubePort};

/// The reason why no second processor can be made.
#[derive(Clone, Copy, Debug, PartialEq, Eq, Error)]
pub enum ParaError {
    /// The boot ROM has another length than 2,048 bytes.
    #[error("the boot ROM has {len} bytes")]
    BadTubeRom { len: u64 },
    #[error("no memory")]
    NoMemory,
}

/// The 6502 Second Processor: a 65C02 at 3 or 4 MHz, 65,536 bytes of RAM, a boot ROM of 2,048 bytes
/// over F800 to FFFF until the first access to the Tube, and the Tube at FEF8 to FEFF.
#[derive(Drop)]
pub struct ParaMachine {
    cpu: Cpu,
    bus: ParaBus,
    // The tick of the next step.
    due: u64,
}

/// With room for fewer notes than `FEWEST` no further stride begins.
const FEWEST: u64 = 1_024;

/// The state of a second processor at the start of its notes, and what it has written since.
#[derive(Drop)]
pub struct Past {
    cpu: Cpu,
    was_held: bool,
    due: u64,
    closed: u64,
    undo_log: UndoLog,
    ghost held: { was_held ≡ true → is_none (next_cycle cpu) ≡ true },
    ghost before: { closed ≤ due + 1 },
}

impl Model for ParaMachine {
    ghost use Rattle.std.specs.Prelude.{◌≤◌, ◌+◌};
    ghost use Rattle.tube_machine.specs.Step.{at_of};
    ghost use Rattle.para_mach.specs.State.{ParaState};
    ghost use Rattle.para_mach.specs.CodeNotes.{IsHeldAtLook};

    ghost Value = { ParaState };

    ghost view = { λ m. at_of m.cpu m.bus m.due };

    ghost invariant = { λ m. IsHeldAtLook (at_of m.cpu m.bus m.due) × (m.bus.closed ≤ m.due + 1) };
}

impl Crosses for ParaMachine {}

impl ParaMachine {
    /// Makes the machine at power-on and at this speed, before the first cycle of a reset sequence.
    ///
    /// # Errors
    /// `BadTubeRom` exactly if the boot ROM is not 2,048 bytes long; `NoMemory`.
    pub fn make(alloc: Global, clock: Clock, rom: Vec<u8>) -> Result<ParaMachine, ParaError>
        ensures made { IfOk result (λ machine. machine ≡ power_on clock rom.items) }
        ensures length { IfOk result (λ _. length rom.items ≡ ROM_SIZE) }
        ensures refused { (result ≡ Err (ParaError.BadTubeRom (length rom.items))) ↔ (length rom.items ≢ ROM_SIZE) }
        ensures cause { IfErr result (λ e. (e ≡ ParaError.NoMemory) ⊎ (e ≡ ParaError.BadTubeRom (length rom.items))) }
    {
        if rom.len() != ROM_SIZE {
            return Err(ParaError::BadTubeRom {
                len: rom.len() as u64,
            });
        }
        let Ok(memory) = Memory::new(alloc, rom) else {
            return Err(ParaError::NoMemory);
        };
        Ok(ParaMachine {
            cpu: Cpu::new(),
            bus: ParaBus {
                clock,
                memory,
                resets: 0,
                nmis: 0,
                is_held: false,
                closed: 0,
            },
            due: 0,
        })
    }

    /// Returns the registers at the start of the instruction, reset or interrupt that the next step
    /// belongs to. While the processor is held they are those after the one before.
    pub fn regs(&self) -> Regs
        ensures { result ≡ shown_regs self.now }
    {
        if self.bus.is_held {
            self.cpu.at_end()
        } else {
            self.cpu.at_start()
        }
    }

    /// Returns `true` if the Tube's reset line holds the processor.
    pub fn held(&self) -> bool
        ensures { result ≡ self.now.bus.is_held }
    {
        self.bus.is_held
    }

    /// Returns the 65,536 bytes of the RAM.
    pub fn ram(&self) -> &[u8]
        ensures { result.now ≡ self.now.bus.ram }
    {
        self.bus.memory.ram()
    }

    /// Returns `true` if the next step is the first cycle of an instruction: not of a reset or an
    /// interrupt, and not one while the processor is held.
    #[inline]
    pub fn starting(&self) -> bool
        ensures { result ≡ starting self.now.cpu }
    {
        self.cpu.starting()
    }

    /// Returns the byte that a read of address `at` would yield now: the boot ROM's from F800 to
    /// FFFF while it is switched in, and otherwise the RAM's. Returns `None` exactly from FEF8 to
    /// FEFF, where the Tube answers.
    pub fn peek(&self, at: u16) -> Option<u8>
        ensures value { result ≡ para_peek self.now at }
        ensures read { IfSome result (λ byte. (t : ℕ) → byte ≡ para_bus_model.answer self.now.bus t at) }
        ensures none { (result ≡ None) ↔ ((0xFEF8 ≤ at) × (at ≤ 0xFEFF)) }
    {
        self.bus.memory.peek(at)
    }

    /// Skips instructions whose starts `skip` names. Their looks see these lines, and come
    /// before `until` and `safe_until`. It may stop at any start. In the middle of an instruction
    /// it does nothing.
    #[inline(always)]
    pub fn skip_while(&mut self, until: Tick, lines: &Lines, safe_until: Tick, skip: SkipWhile)
        requires { until.0 ≤ 2 ^ 30 }
        ensures { (k : ℕ) × Passes para_transitions (λ s. IsSkipped skip s.due (shown_regs s).pc (para_peek s)) until.0
            (shown_lines lines.now safe_until.0) k self.old self.new }
    {
        skip_over::<NoNotes, Cpu, ParaBus>(
            &mut self.cpu,
            &mut self.bus,
            &mut self.due,
            &mut NoNotes,
            until,
            lines,
            safe_until,
            skip,
        );
    }

    // Starts notes at the machine's present state.
    #[inline(always)]
    fn mark(&self, past: &mut Past)
        ensures noted { IsNoted self.now past.new.cpu past.new.was_held past.new.due past.new.closed past.new.undo_log.stood.items }
        ensures none { vec_len past.new.undo_log.stood ≡ 0 }
    {
        past.cpu = self.cpu.copy();
        past.was_held = self.bus.is_held;
        past.due = self.due;
        past.closed = self.bus.closed;
        past.undo_log.clear();
    }

    // Returns a tick, not above `safe_until`, below which a run from here has room for its notes.
    #[inline(always)]
    fn near(&self, safe_until: Tick, undo_log: &UndoLog) -> Tick
        ensures { let room = vec_capacity undo_log.now.stood - vec_len undo_log.now.stood in
            IsNear self.now.bus.clock safe_until.0 self.now.due room result.0 }
    {
        let stride = self.bus.clock.para() * undo_log.room().saturating_sub(16);
        Tick(safe_until.0.min(self.due.saturating_add(stride)))
    }

    // Goes past the looks that find the reset line on, with the processor held. Returns the next
    // ask, which is a look too if there is one.
    #[inline(never)]
    fn hold(&mut self, until: Tick, lines: &Lines, safe_until: Tick) -> Ask
        requires room { until.0 ≤ 2 ^ 30 }
        requires looks { next_cycle self.old.cpu ≡ None }
        ensures goes { LooksOn until.0 (shown_lines lines.now safe_until.0) self.old result self.new }
        ensures kept { part_kept (self.new).bus.ram (self.new).bus ≡ part_kept (self.old).bus.ram (self.old).bus }
    {
        let bound = until.0.min(safe_until.0);
        if lines.prst && lines.resets != self.bus.resets {
            while self.due < bound {
                take_lines::<NoNotes, Cpu, ParaBus>(
                    &mut self.cpu,
                    &mut self.bus,
                    &mut self.due,
                    lines,
                );
            }
        }
        look::<NoNotes, Cpu, ParaBus>(&self.cpu, &mut self.bus, self.due, until)
    }

    // Runs the machine, with the accesses that the port answers, and notes its steps. It may stop
    // at any look.
    #[inline(never)]
    fn go_noting<K: TubePort>(
        &mut self,
        until: Tick,
        lines: &Lines,
        safe_until: Tick,
        undo_log: &mut UndoLog,
        port: &mut K,
    ) -> Ask
        requires ticks { until.0 ≤ 2 ^ 30 }
        requires room { 16 ≤ vec_capacity undo_log.old.stood - vec_len undo_log.old.stood }
        ensures goes { let shown = shown_lines lines.now safe_until.0 in
            PortRunToAnyAsk para_transitions K.answers until.0 shown self.old (K.state port.old) result self.new (K.state port.new) }
        ensures noted { let old = self.old.bus in
            let new = self.new.bus in
            part_kept (put_back undo_log.new.stood.items new.ram) new
            ≡ part_kept (put_back undo_log.old.stood.items old.ram) old }
    {
        let near = self.near(safe_until, undo_log);
        let left = carry_on::<UndoLog, Cpu, ParaBus, K>(
            &mut self.cpu,
            &mut self.bus,
            &mut self.due,
            undo_log,
            until,
            lines,
            near,
            port,
        );
        match left {
            RunExit::Asked(ask) => ask,
            RunExit::Look => self.hold(until, lines, safe_until),
            RunExit::Full => unreachable!(),
        }
    }
}

impl Party for ParaMachine {
    ghost use Rattle.std.specs.Prelude.{true};
    ghost use Rattle.para_mach.specs.State.{ParaState};

    ghost State = { ParaState };

    ghost state = { λ m. m };

    ghost transitions = { para_transitions };

    ghost plays = { λ side. true };

    ghost lawful = { para_lawful };

    ghost permitted = { para_permitted };

    #[inline]
    fn due(&self) -> Tick {
        Tick(self.due)
    }

    #[inline(always)]
    fn advance(&mut self, until: Tick) -> Ask {
        // No look is below tick 0, so none sees these lines.
        self.advance_seeing(until, &NO_LINES, Tick(0))
    }

    #[inline(always)]
    fn advance_seeing(&mut self, until: Tick, lines: &Lines, safe_until: Tick) -> Ask {
        advance_seeing::<NoNotes, Cpu, ParaBus>(
            &mut self.cpu,
            &mut self.bus,
            &mut self.due,
            &mut NoNotes,
            until,
            lines,
            safe_until,
        )
    }

    #[inline(always)]
    fn advance_at<K: TubePort>(
        &mut self,
        until: Tick,
        lines: &Lines,
        safe_until: Tick,
        port: &mut K,
    ) -> Ask {
        advance_at::<NoNotes, Cpu, ParaBus, K>(
            &mut self.cpu,
            &mut self.bus,
            &mut self.due,
            &mut NoNotes,
            until,
            lines,
            safe_until,
            port,
        )
    }

    #[inline(always)]
    fn answer(&mut self, given: Answer) {
        answer::<NoNotes, Cpu, ParaBus>(&mut self.cpu, &mut self.bus, &mut self.due, given)
    }
}

impl Rewinds for ParaMachine {
    ghost use Rattle.para_mach.specs.CodeNotes.{roll_back_leaves};

    type Past = Past;

    ghost before = { λ past. roll_back_leaves past.cpu past.was_held past.due past.closed past.undo_log.stood.items };

    fn past(alloc: Global) -> Result<Past, AllocError> {
        let undo_log = UndoLog::new(alloc)?;
        Ok(Past {
            cpu: Cpu::new(),
            was_held: false,
            due: 0,
            closed: 0,
            undo_log,
        })
    }

    #[inline(always)]
    fn advance_noting<K: TubePort>(
        &mut self,
        until: Tick,
        lines: &Lines,
        safe_until: Tick,
        past: &mut Past,
        port: &mut K,
    ) -> Option<Ask>
        requires { until.0 ≤ 2 ^ 30 }
        ensures some { IsSome result }
        ensures noted { let past = past.new in
            MatchOption result ((self.new ≡ self.old) × (K.state port.new ≡ K.state port.old)) (λ ask.
            PortRunToAnyAsk para_transitions K.answers until.0 (shown_lines lines.now safe_until.0) self.old (K.state port.old) ask self.new (K.state port.new)
            × (roll_back_leaves past.cpu past.was_held past.due past.closed past.undo_log.stood.items self.new ≡ self.old)) }
    {
        // A machine that is held is noted too.
        self.mark(past);
        Some(self.go_noting(until, lines, safe_until, &mut past.undo_log, port))
    }

    #[inline(always)]
    fn advance_on<K: TubePort>(
        &mut self,
        ask: Ask,
        until: Tick,
        lines: &Lines,
        safe_until: Tick,
        past: &mut Past,
        port: &mut K,
    ) -> Ask {
        if past.undo_log.room() < FEWEST {
            return ask;
        }
        self.go_noting(until, lines, safe_until, &mut past.undo_log, port)
    }

    #[inline(never)]
    fn rewind(&mut self, past: &mut Past) {
        self.bus.memory.take_back(&mut past.undo_log);
        self.cpu = past.cpu.copy();
        self.bus.is_held = past.was_held;
        self.due = past.due;
        self.bus.closed = past.closed;
    }
}
