//! The bus of a machine at the Tube, as a trait.
ghost use Rattle.std.specs.Prelude.{ℕ, Bool, ◌≡◌, ◌≤◌, ◌<◌, ◌+◌, ◌*◌, ◌^◌, true, false, Option, None, MatchOption, IfOk, Err};
ghost use Rattle.cpu_alu.specs.declared.Cycle.{Cycle};
ghost use Rattle.tube_chip.specs.declared.Lines.{Lines};
ghost use Rattle.tube_machine.specs.BusModel.{BusModel, IsWired, StaysPlain};
ghost use Rattle.tube_machine.specs.Exchange.{IsExchanged, IsQuick, IsAtTube, IsOneCycle};
ghost use Rattle.tube_machine.specs.Whole.{reach_of, IsMemory, StaysAtRest};
ghost use Rattle.cpu_whole.specs.Whole as whole;
ghost use Rattle.cpu_whole.specs.Outside as outside;

use beeb_bits::Tick;
use cpu_alu::{Cycle, Regs};
use cpu_whole::LastAccess;
use op_table::Part;
use tube_chip::{Lines, Op};

/// An access that is done: the byte that was read, or 0, and its number of ticks.
#[derive(Clone, Copy, Debug, PartialEq, Eq)]
pub struct Done {
    pub byte: u8,
    pub ticks: u64,
}

/// The reason why an access is not done.
#[derive(Clone, Copy, Debug, PartialEq, Eq)]
pub enum AccessError {
    /// It is the Tube's.
    Tube(Op),
    /// It is a write, and there is no room to note it.
    Full,
}

/// The interrupts that a look asks for.
#[derive(Clone, Copy, Debug, PartialEq, Eq)]
pub struct Interrupts {
    pub nmi: bool,
    pub irq: bool,
}

/// A bus with its devices, among them the Tube, and the counts of the Tube's lines that it has
/// taken. What is done to it may be noted in an `N`.
pub trait TubeBus<N>: Drop {
    /// The bus's state, as contracts see it.
    ghost State: { Type 0 };

    ghost state: { Self → State };

    /// The model of the bus: its answers, and its states after accesses and looks.
    ghost bus_model: { BusModel State };

    ghost wired: { IsWired bus_model };

    /// Looks with these lines need no reset, so the fast loop may do them.
    ghost plain: { State → Lines → Bool };

    ghost stays_plain: { StaysPlain bus_model plain };

    /// The part of the bus that a rollback restores, from the notes and the present bus.
    ghost Kept: { Type 0 };

    ghost before: { N → Self → Kept };

    /// There is always room for a note.
    ghost endless: { Bool };

    /// The number of further notes for which there is room, at least.
    ghost room: { N → ℕ };

    /// If the room for notes may run out, each access takes one cycle.
    ghost even: { endless ≡ false → (b : State) (t : ℕ) (c : Cycle) → bus_model.takes b t c ≡ bus_model.cycle b };

    /// If it may run out, there is a Tube.
    ghost joined: { endless ≡ false → (b : State) → bus_model.has_tube b ≡ true };

    /// Addresses of plain memory, for reads and for writes.
    ghost reads: { ℕ → Bool };

    ghost writes: { ℕ → Bool };

    ghost memory: { IsMemory bus_model reads writes };

    /// Looks below a tick that see these lines, with the flag I as given, ask for nothing and do
    /// not change the bus.
    ghost rests: { State → Lines → Bool → ℕ → Type 0 };

    ghost stays_at_rest: { StaysAtRest bus_model writes rests };

    /// The byte stored at an address, if one is.
    ghost peek: { State → ℕ → Option ℕ };

    /// Returns the ticks of a cycle.
    fn cycle(&self) -> u64
        ensures value { result ≡ bus_model.cycle (state self.now) }
        ensures some { 2 ≤ result }
        ensures bound { result ≤ 6 };

    /// Returns `true` if there is a Tube.
    fn has_tube(&self) -> bool
        ensures { result ≡ bus_model.has_tube (state self.now) };

    /// Does all device steps below `t`.
    fn close(&mut self, t: u64)
        requires low { bus_model.closed (state self.old) ≤ t }
        requires room { t < 2 ^ 48 }
        ensures closed { state self.new ≡ bus_model.close (state self.old) t }
        ensures kept { (notes : N) → before notes self.new ≡ before notes self.old };

    /// Returns the tick of the first break, or the largest number if none is left. Before that tick
    /// no break is pending, and from it on one is.
    fn break_tick(&self) -> u64
        ensures none { (t : ℕ) → t < result → bus_model.pending (state self.now) t ≡ false }
        ensures some { (t : ℕ) → result ≤ t → t < 2 ^ 63 → bus_model.pending (state self.now) t ≡ true };

    /// Returns `true` if looks that see these lines are plain.
    fn is_plain(&self, lines: &Lines) -> bool
        ensures { result ≡ plain (state self.now) lines.now };

    /// Returns the tick below which device steps are done.
    fn closed(&self) -> u64
        ensures { result ≡ bus_model.closed (state self.now) };

    /// Takes every break that is pending at tick `t`, if one is, after closing the devices at the
    /// tick after `t`.
    fn take_break(&mut self, t: u64)
        requires low { bus_model.closed (state self.old) ≤ t + 1 }
        requires room { t < 2 ^ 40 }
        ensures broken { bus_model.pending (state self.old) t ≡ true →
            state self.new ≡ bus_model.broken (bus_model.close (state self.old) (t + 1)) t }
        ensures kept { bus_model.has_tube (state self.old) ≡ false → (notes : N) → before notes self.new ≡ before notes self.old };

    /// Returns `true` if a look that sees these lines must take a reset.
    fn resets(&self, lines: &Lines) -> bool
        ensures { result ≡ bus_model.resets (state self.now) lines.now };

    /// Does a look that finds the processor held.
    fn hold(&mut self)
        ensures held { state self.new ≡ bus_model.held (state self.old) }
        ensures kept { (notes : N) → before notes self.new ≡ before notes self.old };

    /// Does a look at which a reset begins.
    fn reset(&mut self, lines: &Lines)
        ensures { state self.new ≡ bus_model.reset (state self.old) lines.now };

    /// Does any other look. Returns the interrupts that it asks for.
    fn take(&mut self, lines: &Lines) -> Interrupts
        requires { bus_model.resets (state self.old) lines.now ≡ false }
        ensures nmi { result.nmi ≡ bus_model.nmi (state self.old) lines.now }
        ensures irq { result.irq ≡ bus_model.irq (state self.old) lines.now }
        ensures taken { state self.new ≡ bus_model.taken (state self.old) lines.now };

    /// Does what `take` does, at a plain look.
    fn take_plain(&mut self, lines: &Lines) -> Interrupts
        requires { plain (state self.old) lines.now ≡ true }
        ensures nmi { result.nmi ≡ bus_model.nmi (state self.old) lines.now }
        ensures irq { result.irq ≡ bus_model.irq (state self.old) lines.now }
        ensures taken { state self.new ≡ bus_model.taken (state self.old) lines.now }
        ensures kept { (notes : N) → before notes self.new ≡ before notes self.old };

    /// Does an access that the Tube answered.
    fn answered(&mut self, cycle: Cycle)
        requires { IsAtTube bus_model (state self.old) cycle }
        ensures after { state self.new ≡ bus_model.after (state self.old) cycle }
        ensures fast { (t : ℕ) → bus_model.takes (state self.old) t cycle ≡ bus_model.cycle (state self.old) }
        ensures closed { bus_model.closed (state self.new) ≡ bus_model.closed (state self.old) };

    /// Does an access at tick `t` that takes one cycle and few tests, and returns its byte, or 0
    /// for a write. Returns `None`, unchanged, for any other access. It need not close the devices.
    fn quick(&mut self, t: u64, cycle: Cycle, notes: &mut N) -> Option<u8>
        requires closed { bus_model.closed (state self.old) ≤ t + 1 }
        requires room { t < 2 ^ 40 }
        ensures closed { bus_model.closed (state self.new) ≤ t + 1 }
        ensures done { IsQuick bus_model (state self.old) t cycle result (state self.new) }
        ensures noted { before notes.new self.new ≡ before notes.old self.old }
        ensures room { room notes.old ≤ room notes.new + 1 }
        ensures still { result ≡ None → notes.new ≡ notes.old };

    /// Returns a tick below which looks that see these lines, with the flag I as `masks`, ask for
    /// nothing and do not change the bus; 0 if none is known.
    fn rests_until(&self, lines: &Lines, masks: bool) -> u64
        requires { plain (state self.now) lines.now ≡ true }
        ensures { rests (state self.now) lines.now masks result };

    /// Returns the byte that a read of address `at` would yield now, or `None` if a device answers
    /// there.
    fn peek(&self, at: u16) -> Option<u8>
        ensures { result ≡ peek (state self.now) at };

    /// Does the instruction whose first cycle is at tick `t`, whole, if all its accesses are of
    /// plain memory, and returns the number of its cycles. Otherwise does nothing and returns 0.
    /// `L` names the calling loop and has no other use: each loop so gets its own inlined copy.
    fn whole<L>(&mut self, part: Part, regs: &mut Regs, t: u64, notes: &mut N) -> u64
        requires closed { bus_model.closed (state self.old) ≤ t + 1 }
        requires room { t < 2 ^ 40 }
        ensures closed { 0 < result → bus_model.closed (state self.new) ≤ t + bus_model.cycle (state self.old) * result }
        ensures done { let reach = reach_of bus_model reads writes in
            0 < result → whole.IsDone part reach t regs.old (state self.old) result regs.new (state self.new) }
        ensures still { result ≡ 0 → (regs.new ≡ regs.old) × (state self.new ≡ state self.old) }
        ensures noted { before notes.new self.new ≡ before notes.old self.old }
        ensures room { room notes.old ≤ room notes.new + result }
        ensures few { result ≤ 8 };

    /// Returns the last access of the instruction at the program counter, if all its others are
    /// reads of plain memory. Its `cycles` are 0 if nothing is known. `L` is as in `whole`.
    fn last_access<L>(&self, part: Part, regs: &Regs) -> LastAccess
        ensures outside { let reach = reach_of bus_model reads writes in
            (t : ℕ) → 0 < result.cycles → outside.IsOutside part reach t regs.now (state self.now) result }
        ensures few { result.cycles ≤ 5 };

    /// Returns what an access asks of the Tube, if it does not change the bus, or `None` if nothing
    /// is known.
    fn asked(&self, cycle: Cycle) -> Option<Op>
        ensures { MatchOption result (Unit {0}) (λ op. IsOneCycle bus_model (state self.now) cycle op) };

    /// Returns the number of cycles of the instruction at the program counter, if it is a branch
    /// over plain memory that leads from registers `from` to registers `to`, and otherwise 0. `L`
    /// is as in `whole`.
    fn branch_to<L>(&self, part: Part, from: &Regs, to: &Regs) -> u64
        ensures done { let reach = reach_of bus_model reads writes in
            (t : ℕ) → 0 < result → whole.IsDone part reach t from.now (state self.now) result to.now (state self.now) }
        ensures few { result ≤ 8 };

    /// Does any access at tick `t`. Returns as `Err` what it asks of the Tube, or that it cannot be
    /// noted.
    fn exchange(&mut self, t: u64, cycle: Cycle, notes: &mut N) -> Result<Done, AccessError>
        requires closed { bus_model.closed (state self.old) ≤ t + 1 }
        requires room { t < 2 ^ 40 }
        ensures closed { IfOk result (λ done. bus_model.closed (state self.new) ≡ t + 1) }
        ensures bound { IfOk result (λ done. done.ticks ≤ 18) }
        ensures done { IsExchanged bus_model (state self.old) t cycle result (state self.new) }
        ensures noted { before notes.new self.new ≡ before notes.old self.old }
        ensures room { room notes.old ≤ room notes.new + 1 }
        ensures full { result ≡ Err AccessError.Full → (endless ≡ false) × (room notes.old ≡ 0) };
}
