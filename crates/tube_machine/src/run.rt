//! Runs of steps: quick accesses, and plain looks that are guaranteed to see the given lines. They
//! work on the parts of the machine, with the tick of the next step beside them.
ghost use Rattle.std.specs.Prelude.{◌≡◌, ◌≤◌, ◌<◌, ◌+◌, ◌-◌, ◌*◌, ◌^◌, ℕ, List, [], length, None, IsSome, true, false};
ghost use Rattle.op_table.specs.declared.Part.TheVariants.{Cmos};
ghost use Rattle.cpu_core.specs.declared.Sequence.TheVariants.{Instruction};
ghost use Rattle.cpu_core.specs.Sequences.{next_cycle, starting, fresh};
ghost use Rattle.tube_party.specs.Transitions.{PortRun, shown_lines};
ghost use Rattle.tube_machine.specs.Step.{at_of, transitions_of, closed_to, after_look};
ghost use Rattle.tube_machine.specs.Exchange.{behind, owed_at, ready, spent, HasSpent, IsStop, Spends};
ghost use Rattle.tube_machine.specs.Whole.{IsOnward, IsServed, IsResting};

use crate::bus::TubeBus;
use crate::processor::Processor;
use beeb_bits::Tick;
use cpu_alu::{INTERRUPT, Regs, has_flag};
use cpu_whole::take_in;
use tube_chip::Lines;
use tube_party::TubePort;

/// Where such steps stop.
#[derive(Clone, Copy, Debug, PartialEq, Eq)]
pub(crate) enum LoopExit {
    /// At a look that is past the end of the run, is not below `safe_until` or is not plain; or at
    /// a break in place of it.
    Look,
    /// At an access that is not quick, or whose cycle could end at a break; or at that break.
    Access,
    /// At an access that is not below the end of the run.
    End,
}

/// Does a plain look at tick `t`.
#[inline(always)]
pub(crate) fn see<N, P: Processor, B: TubeBus<N>>(cpu: &mut P, bus: &mut B, t: u64, lines: &Lines)
    requires room { t < 2 ^ 40 }
    requires before { (B.bus_model).closed (B.state bus.old) ≤ t + 1 }
    requires plain { B.plain (B.state bus.old) lines.now ≡ true }
    requires over { next_cycle P.part (P.core cpu.old) ≡ None }
    ensures seen { let old = at_of (P.core cpu.old) (B.state bus.old) t in
        at_of (P.core cpu.new) (B.state bus.new) (t + 1)
        ≡ after_look P.part B.bus_model (closed_to B.bus_model old (t + 1)) lines.now }
    ensures kept { (notes : N) → B.before notes bus.new ≡ B.before notes bus.old }
    ensures fresh { (P.core cpu.new).seen ≡ [] }
{
    bus.close(t + 1);
    let interrupts = bus.take_plain(lines);
    cpu.take_lines(interrupts.nmi, interrupts.irq);
}

// Does the device steps that quick accesses left for later: those before the access of the last
// cycle, if there was one since tick `caught_up`. A cycle has `cycle` ticks.
fn catch_up<N, B: TubeBus<N>>(bus: &mut B, cycle: u64, caught_up: u64, due: u64)
    requires gone { caught_up < due → (0 < cycle) × (cycle ≤ due) × (due < 2 ^ 48) }
    requires low { let closed = (B.bus_model).closed (B.state bus.old) in closed ≤ owed_at cycle caught_up due closed }
    ensures closed { let old = B.state bus.old in
        B.state bus.new ≡ (B.bus_model).close old (owed_at cycle caught_up due ((B.bus_model).closed old)) }
    ensures kept { (notes : N) → B.before notes bus.new ≡ B.before notes bus.old }
{
    if caught_up < due {
        bus.close(due - (cycle - 1));
    }
}

/// Returns the tick below which each look is plain and sees these lines, or 0.
#[inline(always)]
pub(crate) fn bound_of<N, B: TubeBus<N>>(
    bus: &B,
    until: u64,
    safe_until: u64,
    next_break: u64,
    lines: &Lines,
) -> u64
    ensures until { result ≤ until }
    ensures safe_until { result ≤ safe_until }
    ensures free { result ≤ next_break }
    ensures plain { 0 < result → B.plain (B.state bus.now) lines.now ≡ true }
{
    if !bus.is_plain(lines) {
        return 0;
    }
    until.min(safe_until).min(next_break)
}

/// The most cycles of an instruction that is done whole.
pub(crate) const LONGEST: u64 = 8;

// Closes the devices after instructions from tick `from` to `due`, if there were any.
#[inline(always)]
fn close_behind<N, B: TubeBus<N>>(bus: &mut B, from: u64, due: u64)
    requires low { from < due → (B.bus_model).closed (B.state bus.old) ≤ due }
    requires room { due < 2 ^ 48 }
    ensures closed { B.state bus.new ≡ (B.bus_model).close (B.state bus.old) (behind from due) }
    ensures kept { (notes : N) → B.before notes bus.new ≡ B.before notes bus.old }
{
    if from < due {
        bus.close(due);
    }
}

// Does instructions one after another, each whole with the look after it, from a first cycle at
// tick `from` on. Each ends at tick `end` at the latest: up to there looks are plain, see these
// lines and ask for nothing, and no break is pending. Returns the tick of the next step, and the
// registers. Not inlined, so that the loop has its registers to itself.
#[inline(never)]
fn go_whole<N, P: Processor, B: TubeBus<N>>(
    cpu: &P,
    bus: &mut B,
    notes: &mut N,
    at: Regs,
    from: u64,
    end: u64,
    lines: &Lines,
) -> (u64, Regs)
    requires room { end ≤ 2 ^ 30 }
    requires from { from ≤ end }
    requires before { (B.bus_model).closed (B.state bus.old) ≤ from + 1 }
    requires plain { B.plain (B.state bus.old) lines.now ≡ true }
    requires free { (t : ℕ) → t < end → (B.bus_model).pending (B.state bus.old) t ≡ false }
    requires rests { IsResting B.rests (B.state bus.old) lines.now at.p end }
    ensures onward { let old = at_of (fresh Instruction at) (B.state bus.old) from in
        let new = at_of (fresh Instruction result.1) (B.state bus.new) result.0 in
        IsOnward P.part B.bus_model B.plain lines.now end old new }
    ensures rests { IsResting B.rests (B.state bus.new) lines.now (result.1).p end }
    ensures low { from ≤ result.0 }
    ensures high { result.0 ≤ end }
    ensures noted { B.before notes.new bus.new ≡ B.before notes.old bus.old }
    ensures spends { let cycle = (B.bus_model).cycle (B.state bus.old) in
        (safe_until : ℕ) → end ≤ safe_until → HasSpent (P.part ≡ Cmos) cycle safe_until (spent from (B.room notes.old) 0) (spent result.0 (B.room notes.new) 0) }
{
    let cycle = bus.cycle();
    let mut regs = Regs {
        pc: at.pc,
        a: at.a,
        x: at.x,
        y: at.y,
        s: at.s,
        p: at.p,
    };
    // An instruction that begins before this tick is guaranteed to end by `end`.
    let late = (end + 1).saturating_sub(LONGEST * cycle);
    let mut due = from;
    while due < late {
        let cycles = bus.whole::<LoopExit>(cpu.kind(), &mut regs, due, notes);
        if cycles == 0 {
            break;
        }
        due += cycle * cycles;
    }
    close_behind::<N, B>(bus, from, due);
    (due, regs)
}

// Returns the number of further periods between `from` and `end`, after the one that fits.
#[inline(always)]
fn times_more(from: u64, period: u64, end: u64) -> u64
    requires some { 0 < period }
    requires once { from + period ≤ end }
    ensures { from + period * (result + 1) ≤ end }
{
    (end - from) / period - 1
}

// Does the instruction whose first cycle is at tick `from`, whole with the look after it, if the
// port answers its last access. If a branch leads back to it with unchanged registers, repeats both
// as often as the port repeats its answer. Returns the tick of the next step: `from`, with nothing
// done, if the port does not answer.
#[inline(never)]
fn ask_whole<N, P: Processor, B: TubeBus<N>, D: TubePort>(
    cpu: &P,
    bus: &mut B,
    at: &mut Regs,
    from: u64,
    end: u64,
    lines: &Lines,
    port: &mut D,
) -> u64
    requires room { end ≤ 2 ^ 30 }
    requires fits { from + 8 * (B.bus_model).cycle (B.state bus.old) ≤ end }
    requires before { (B.bus_model).closed (B.state bus.old) ≤ from + 1 }
    requires plain { B.plain (B.state bus.old) lines.now ≡ true }
    requires free { (t : ℕ) → t < end → (B.bus_model).pending (B.state bus.old) t ≡ false }
    requires rests { IsResting B.rests (B.state bus.old) lines.now (at.old).p end }
    ensures served { let old = at_of (fresh Instruction at.old) (B.state bus.old) from in
        let new = at_of (fresh Instruction at.new) (B.state bus.new) result in
        IsServed P.part B.bus_model B.plain D.answers lines.now end old (D.state port.old) new (D.state port.new) }
    ensures rests { IsResting B.rests (B.state bus.new) lines.now (at.new).p end }
    ensures low { from ≤ result }
    ensures high { result ≤ end }
    ensures noted { (notes : N) → B.before notes bus.new ≡ B.before notes bus.old }
{
    let part = cpu.kind();
    let last = bus.last_access::<LoopExit>(part, at);
    if last.cycles == 0 {
        return from;
    }
    let Some(op) = bus.asked(last.access()) else {
        return from;
    };
    let cycle = bus.cycle();
    let tick = from + cycle * last.cycles;
    let Some(byte) = port.ask(Tick(tick), op) else {
        return from;
    };
    let before = *at;
    take_in(part, &last, at, byte);
    let mut due = tick + cycle;
    let back = bus.branch_to::<LoopExit>(part, at, &before);
    let period = due + cycle * back - from;
    if back > 0 && from + period <= end {
        let more = port.again(Tick(tick), op, byte, period, times_more(from, period, end));
        *at = before;
        due = from + period * (1 + more);
    }
    bus.close(due);
    due
}

// Does whole instructions from the first cycle of one on, and among them those whose last access is
// the Tube's and is answered by the port. Returns the tick of the next step.
#[inline(never)]
fn serve<N, P: Processor, B: TubeBus<N>, D: TubePort>(
    cpu: &mut P,
    bus: &mut B,
    notes: &mut N,
    from: u64,
    end: u64,
    lines: &Lines,
    port: &mut D,
) -> u64
    requires room { end ≤ 2 ^ 30 }
    requires from { from ≤ end }
    requires before { (B.bus_model).closed (B.state bus.old) ≤ from + 1 }
    requires plain { B.plain (B.state bus.old) lines.now ≡ true }
    requires free { (t : ℕ) → t < end → (B.bus_model).pending (B.state bus.old) t ≡ false }
    requires starts { starting (P.core cpu.old) ≡ true }
    requires rests { IsResting B.rests (B.state bus.old) lines.now (P.core cpu.old).regs.p end }
    ensures served { let old = at_of (P.core cpu.old) (B.state bus.old) from in
        let new = at_of (P.core cpu.new) (B.state bus.new) result in
        IsServed P.part B.bus_model B.plain D.answers lines.now end old (D.state port.old) new (D.state port.new) }
    ensures low { from ≤ result }
    ensures high { result ≤ end }
    ensures noted { B.before notes.new bus.new ≡ B.before notes.old bus.old }
    ensures spends { let cycle = (B.bus_model).cycle (B.state bus.old) in
        let old = spent from (B.room notes.old) (length (P.core cpu.old).seen) in
        let new = spent result (B.room notes.new) (length (P.core cpu.new).seen) in
        (safe_until : ℕ) → end ≤ safe_until → HasSpent (P.part ≡ Cmos) cycle safe_until old new }
{
    let cycle = bus.cycle();
    let (mut due, mut at) = go_whole::<N, P, B>(cpu, bus, notes, cpu.at_start(), from, end, lines);
    while due + LONGEST * cycle <= end && port.may_answer(Tick(due), Tick(due + LONGEST * cycle)) {
        let asked = ask_whole::<N, P, B, D>(cpu, bus, &mut at, due, end, lines, port);
        if asked == due {
            break;
        }
        (due, at) = go_whole::<N, P, B>(cpu, bus, notes, at, asked, end, lines);
    }
    cpu.set_out(&at);
    due
}

// Does what `serve` does, if the next cycle is the first of an instruction that is guaranteed to
// end by the bound; otherwise nothing.
#[inline(always)]
fn go_asking<N, P: Processor, B: TubeBus<N>, D: TubePort>(
    cpu: &mut P,
    bus: &mut B,
    notes: &mut N,
    from: u64,
    bound: u64,
    lines: &Lines,
    port: &mut D,
) -> u64
    requires room { bound ≤ 2 ^ 30 }
    requires from { from ≤ bound }
    requires before { (B.bus_model).closed (B.state bus.old) ≤ from + 1 }
    requires plain { B.plain (B.state bus.old) lines.now ≡ true }
    requires free { (t : ℕ) → t < bound → (B.bus_model).pending (B.state bus.old) t ≡ false }
    requires goes_on { IsSome (next_cycle P.part (P.core cpu.old)) }
    ensures served { let old = at_of (P.core cpu.old) (B.state bus.old) from in
        let new = at_of (P.core cpu.new) (B.state bus.new) result in
        IsServed P.part B.bus_model B.plain D.answers lines.now bound old (D.state port.old) new (D.state port.new) }
    ensures low { from ≤ result }
    ensures high { result ≤ bound }
    ensures noted { B.before notes.new bus.new ≡ B.before notes.old bus.old }
    ensures spends { let cycle = (B.bus_model).cycle (B.state bus.old) in
        let old = spent from (B.room notes.old) (length (P.core cpu.old).seen) in
        let new = spent result (B.room notes.new) (length (P.core cpu.new).seen) in
        (safe_until : ℕ) → bound ≤ safe_until → HasSpent (P.part ≡ Cmos) cycle safe_until old new }
{
    let first_end = from + LONGEST * bus.cycle();
    if !cpu.starting() || first_end > bound {
        return from;
    }
    let end = bound.min(bus.rests_until(lines, has_flag(cpu.at_start().p, INTERRUPT)));
    if first_end > end {
        return from;
    }
    serve::<N, P, B, D>(cpu, bus, notes, from, end, lines, port)
}

/// Runs from a step at tick `from`, and returns the tick of the step at which it stops. It stops
/// before a look at which a break is pending, and before an access whose cycle could end at one.
#[inline(always)]
pub(crate) fn go_quick<N, P: Processor, B: TubeBus<N>, D: TubePort>(
    cpu: &mut P,
    bus: &mut B,
    notes: &mut N,
    from: u64,
    until: u64,
    safe_until: u64,
    lines: &Lines,
    port: &mut D,
) -> (u64, LoopExit)
    requires room { until ≤ 2 ^ 30 }
    requires before { (B.bus_model).closed (B.state bus.old) ≤ from + 1 }
    ensures before { (B.bus_model).closed (B.state bus.new) ≤ result.0 + 1 }
    ensures port_run { let old = at_of (P.core cpu.old) (B.state bus.old) from in
        let new = at_of (P.core cpu.new) (B.state bus.new) result.0 in
        (j : ℕ) × PortRun (transitions_of P.part B.bus_model) D.answers until (shown_lines lines.now safe_until) j old (D.state port.old) new (D.state port.new) }
    ensures stops { let new = at_of (P.core cpu.new) (B.state bus.new) result.0 in
        IsStop P.part B.bus_model until result.1 new }
    ensures noted { B.before notes.new bus.new ≡ B.before notes.old bus.old }
    ensures spends { let cycle = (B.bus_model).cycle (B.state bus.old) in
        let old = spent (ready P.part (P.core cpu.old) from) (B.room notes.old) (length (P.core cpu.old).seen) in
        let new = spent result.0 (B.room notes.new) (length (P.core cpu.new).seen) in
        Spends P.part cycle safe_until old result.1 new }
{
    let cycle = bus.cycle();
    let next_break = bus.break_tick();
    let bound = bound_of::<N, B>(bus, until, safe_until, next_break, lines);
    let end = until.min(next_break.saturating_sub(cycle - 1));
    let mut due = from;
    if cpu.last() {
        if due >= bound {
            return (due, LoopExit::Look);
        }
        see::<N, P, B>(cpu, bus, due, lines);
        due = go_asking::<N, P, B, D>(cpu, bus, notes, due + 1, bound, lines, port);
    }
    // No access from tick `caught_up` on has left device steps for later.
    let mut caught_up = due;
    while due < end {
        match bus.quick(due, cpu.want(), notes) {
            Some(byte) => {
                cpu.give(byte);
                if cpu.last() {
                    due += cycle;
                    if due > bound {
                        bus.close(due - (cycle - 1));
                        return (due - 1, LoopExit::Look);
                    }
                    see::<N, P, B>(cpu, bus, due - 1, lines);
                    due = go_asking::<N, P, B, D>(cpu, bus, notes, due, bound, lines, port);
                    caught_up = due;
                } else {
                    due += cycle;
                }
            }
            None => {
                catch_up::<N, B>(bus, cycle, caught_up, due);
                return (due, LoopExit::Access);
            }
        }
    }
    catch_up::<N, B>(bus, cycle, caught_up, due);
    if due < until {
        (due, LoopExit::Access)
    } else {
        (due, LoopExit::End)
    }
}
