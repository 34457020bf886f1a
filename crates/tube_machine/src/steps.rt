//! The steps of a machine as a party, over its parts: the processor, the bus, and the tick of the
//! next step.
ghost use Rattle.std.specs.Prelude.{◌≡◌, ◌≤◌, ◌<◌, ◌+◌, ◌-◌, ◌*◌, ◌^◌, ◌&&◌, nat_lt, not, ℕ, length, IsSome, None, Some, Err, true, false};
ghost use Rattle.op_table.specs.declared.Part.TheVariants.{Cmos};
ghost use Rattle.cpu_core.specs.Sequences.{next_cycle, after_byte, halted};
ghost use Rattle.tube_chip.specs.declared.Answer.TheVariants.{Byte, Seen};
ghost use Rattle.tube_party.specs.Transitions.{LookRunToAsk, PortRunToAsk, IsAsk, IsAskedFor, close_leaves, shown_lines};
ghost use Rattle.tube_machine.specs.Step.{at_of, transitions_of, asks, closed_to, next_state, is_last_tick, is_break, after_break, after_cycle};
ghost use Rattle.tube_machine.specs.Exchange.{ready, IsDone, LeavesBus, IsRun, IsBudgetExhausted, IsAskedByte};

use crate::bus::{AccessError, TubeBus};
use crate::processor::Processor;
use crate::run::{LoopExit, go_quick};
use beeb_bits::Tick;
use tube_chip::{Answer, Lines, Op};
use tube_party::{Ask, NoPort, TubePort};

/// Where a run stops.
#[derive(Clone, Copy, Debug, PartialEq, Eq)]
pub enum RunExit {
    /// At an ask.
    Asked(Ask),
    /// At a look, below `safe_until` or not, or at a break in place of it.
    Look,
    /// At a write that cannot be noted.
    Full,
}

// Returns `true` if a break is pending at tick `t`.
#[inline(always)]
fn is_pending<N, B: TubeBus<N>>(bus: &B, t: u64) -> bool
    requires { t < 2 ^ 63 }
    ensures { result ≡ (B.bus_model).pending (B.state bus.now) t }
{
    bus.break_tick() <= t
}

// Returns `true` if tick `t` is the last of a cycle of `cycle` ticks.
#[inline(always)]
fn is_last_tick(cycle: u64, t: u64) -> bool
    requires { 0 < cycle }
    ensures { result ≡ is_last_tick cycle t }
{
    t % cycle == cycle - 1
}

// Returns `true` if the next step is a break step.
#[inline(always)]
fn is_break<N, P: Processor, B: TubeBus<N>>(cpu: &P, bus: &B, due: u64) -> bool
    requires { due < 2 ^ 63 }
    ensures { result ≡ is_break P.part B.bus_model (at_of (P.core cpu.now) (B.state bus.now) due) }
{
    is_pending::<N, B>(bus, due) && (cpu.last() || cpu.halted() && is_last_tick(bus.cycle(), due))
}

// Closes the bus at tick `until`, which is not above the next step's, unless it is closed further
// already.
#[inline(always)]
fn shut<N, P: Processor, B: TubeBus<N>>(cpu: &P, bus: &mut B, due: u64, until: Tick)
    requires room { until.0 < 2 ^ 40 }
    requires low { until.0 ≤ due }
    requires before { (B.bus_model).closed (B.state bus.old) ≤ due + 1 }
    ensures before { (B.bus_model).closed (B.state bus.new) ≤ due + 1 }
    ensures shut { at_of (P.core cpu.now) (B.state bus.new) due
        ≡ close_leaves (transitions_of P.part B.bus_model) (at_of (P.core cpu.now) (B.state bus.old) due) until.0 }
    ensures kept { (notes : N) → B.before notes bus.new ≡ B.before notes bus.old }
{
    if bus.closed() < until.0 {
        bus.close(until.0);
    }
}

/// Returns the look of the next step or the break in place of it, or `Nothing` if its tick is not
/// below `until`.
#[inline(always)]
pub fn look<N, P: Processor, B: TubeBus<N>>(cpu: &P, bus: &mut B, due: u64, until: Tick) -> Ask
    requires room { until.0 < 2 ^ 40 }
    requires over { next_cycle P.part (P.core cpu.now) ≡ None }
    requires asks { due < until.0 → IsSome (asks P.part B.bus_model (at_of (P.core cpu.now) (B.state bus.old) due)) }
    requires before { (B.bus_model).closed (B.state bus.old) ≤ due + 1 }
    ensures before { (B.bus_model).closed (B.state bus.new) ≤ due + 1 }
    ensures asks { let old = at_of (P.core cpu.now) (B.state bus.old) due in
        let new = at_of (P.core cpu.now) (B.state bus.new) due in
        IsAsk (transitions_of P.part B.bus_model) until.0 old result new }
    ensures kept { (notes : N) → B.before notes bus.new ≡ B.before notes bus.old }
{
    if due < until.0 {
        if is_break::<N, P, B>(cpu, bus, due) {
            return Ask::Access(Tick(due), Op::Reset);
        }
        return Ask::Look(Tick(due));
    }
    shut::<N, P, B>(cpu, bus, due, until);
    Ask::Nothing
}

// Ends the cycle of an access, of `ticks` ticks, with the byte that was read. A processor that was
// halted before it has a break step at the last of the ticks, if a break is pending there. Returns
// the tick of the next step.
#[inline(always)]
fn end_cycle<N, P: Processor, B: TubeBus<N>>(
    cpu: &mut P,
    bus: &B,
    due: u64,
    byte: u8,
    ticks: u64,
) -> u64
    requires room { due < 2 ^ 40 }
    requires some { 1 < ticks }
    requires few { ticks < 2 ^ 8 }
    requires goes_on { IsSome (next_cycle P.part (P.core cpu.old)) }
    ensures cycled { let old = at_of (P.core cpu.old) (B.state bus.now) due in
        let breaks = (B.bus_model).pending old.bus (due + (ticks - 1)) && halted P.part old.cpu in
        at_of (P.core cpu.new) (B.state bus.now) result
        ≡ after_cycle P.part B.bus_model old breaks (after_byte P.part old.cpu byte) ticks }
    ensures later { due < result }
{
    let last_tick = due + (ticks - 1);
    let breaks = is_pending::<N, B>(bus, last_tick) && cpu.halted();
    cpu.give(byte);
    if breaks || cpu.last() {
        last_tick
    } else {
        last_tick + 1
    }
}

// Does the break step, after the Tube's reset if there is a Tube.
#[inline(never)]
fn take_break<N, P: Processor, B: TubeBus<N>>(cpu: &mut P, bus: &mut B, due: &mut u64)
    requires room { due.old < 2 ^ 40 }
    requires before { (B.bus_model).closed (B.state bus.old) ≤ due.old + 1 }
    requires breaks { is_break P.part B.bus_model (at_of (P.core cpu.old) (B.state bus.old) due.old) ≡ true }
    ensures before { (B.bus_model).closed (B.state bus.new) ≤ due.new + 1 }
    ensures broken { let old = at_of (P.core cpu.old) (B.state bus.old) due.old in
        at_of (P.core cpu.new) (B.state bus.new) due.new
        ≡ after_break P.part B.bus_model (closed_to B.bus_model old (due.old + 1)) }
    ensures kept { (B.bus_model).has_tube (B.state bus.old) ≡ false → (notes : N) → B.before notes bus.new ≡ B.before notes bus.old }
{
    bus.take_break(*due);
    cpu.begin_reset();
    *due += 1;
}

// Returns `true` if the next step is a break step below `until` that asks nothing, since there is
// no Tube.
#[inline(always)]
fn breaks_alone<N, P: Processor, B: TubeBus<N>>(cpu: &P, bus: &B, due: u64, until: Tick) -> bool
    requires { until.0 ≤ 2 ^ 30 }
    ensures { let s = at_of (P.core cpu.now) (B.state bus.now) due in
        result ≡ (nat_lt due until.0 && is_break P.part B.bus_model s && not ((B.bus_model).has_tube s.bus)) }
{
    due < until.0 && is_break::<N, P, B>(cpu, bus, due) && !bus.has_tube()
}

// Takes the Tube's answer to an access that does not change the bus.
#[inline(never)]
fn pass_byte<N, P: Processor, B: TubeBus<N>>(cpu: &mut P, bus: &mut B, due: &mut u64, byte: u8)
    requires room { due.old < 2 ^ 32 }
    requires before { (B.bus_model).closed (B.state bus.old) ≤ due.old + 1 }
    requires access { is_break P.part B.bus_model (at_of (P.core cpu.old) (B.state bus.old) due.old) ≡ false }
    requires skip { LeavesBus P.part B.bus_model (at_of (P.core cpu.old) (B.state bus.old) due.old) }
    ensures before { (B.bus_model).closed (B.state bus.new) ≤ due.new + 1 }
    ensures taken { let old = at_of (P.core cpu.old) (B.state bus.old) due.old in
        at_of (P.core cpu.new) (B.state bus.new) due.new
        ≡ next_state P.part B.bus_model old (Some (Byte byte)) }
    ensures kept { (notes : N) → B.before notes bus.new ≡ B.before notes bus.old }
{
    bus.close(*due + 1);
    let cycle = bus.cycle();
    *due = end_cycle::<N, P, B>(cpu, bus, *due, byte, cycle);
}

// Does the access of the next step, or its break, if it asks nothing or the port answers it;
// otherwise returns what it asks. Kept out of the loop, whose frame has no room for it.
#[inline(never)]
fn access<N, P: Processor, B: TubeBus<N>, D: TubePort>(
    cpu: &mut P,
    bus: &mut B,
    due: &mut u64,
    notes: &mut N,
    port: &mut D,
) -> Result<(), AccessError>
    requires room { due.old < 2 ^ 32 }
    requires goes_on { IsSome (next_cycle P.part (P.core cpu.old)) }
    requires before { (B.bus_model).closed (B.state bus.old) ≤ due.old + 1 }
    ensures before { (B.bus_model).closed (B.state bus.new) ≤ due.new + 1 }
    ensures done { let old = at_of (P.core cpu.old) (B.state bus.old) due.old in
        let new = at_of (P.core cpu.new) (B.state bus.new) due.new in
        IsDone P.part B.bus_model D.answers old (D.state port.old) result new (D.state port.new) }
    ensures noted { B.before notes.new bus.new ≡ B.before notes.old bus.old }
    ensures room { B.room notes.old ≤ B.room notes.new + 1 }
    ensures full { result ≡ Err AccessError.Full → (B.endless ≡ false) × (B.room notes.old ≡ 0) }
{
    if is_break::<N, P, B>(cpu, bus, *due) {
        if bus.has_tube() {
            return Err(AccessError::Tube(Op::Reset));
        }
        take_break::<N, P, B>(cpu, bus, due);
        return Ok(());
    }
    if port.answers_single_accesses() {
        if let Some(op) = bus.asked(cpu.want()) {
            let Some(byte) = port.ask(Tick(*due), op) else {
                return Err(AccessError::Tube(op));
            };
            pass_byte::<N, P, B>(cpu, bus, due, byte);
            return Ok(());
        }
    }
    let done = bus.exchange(*due, cpu.want(), notes)?;
    *due = end_cycle::<N, P, B>(cpu, bus, *due, done.byte, done.ticks);
    Ok(())
}

/// Does steps in a row, with the accesses that the port answers, and returns where they stop.
#[inline(always)]
pub fn carry_on<N, P: Processor, B: TubeBus<N>, D: TubePort>(
    cpu: &mut P,
    bus: &mut B,
    due: &mut u64,
    notes: &mut N,
    until: Tick,
    lines: &Lines,
    safe_until: Tick,
    port: &mut D,
) -> RunExit
    requires room { until.0 ≤ 2 ^ 30 }
    requires before { (B.bus_model).closed (B.state bus.old) ≤ due.old + 1 }
    ensures before { (B.bus_model).closed (B.state bus.new) ≤ due.new + 1 }
    ensures ran { let old = at_of (P.core cpu.old) (B.state bus.old) due.old in
        let new = at_of (P.core cpu.new) (B.state bus.new) due.new in
        IsRun P.part B.bus_model D.answers until.0 lines.now safe_until.0 old (D.state port.old) result new (D.state port.new) }
    ensures noted { B.before notes.new bus.new ≡ B.before notes.old bus.old }
    ensures full { let from = ready P.part (P.core cpu.old) due.old in
        let cramped = IsBudgetExhausted ((B.bus_model).cycle (B.state bus.old)) safe_until.0 from (B.room notes.old) in
        result ≡ RunExit.Full → (B.endless ≡ false) × (P.part ≡ Cmos → cramped) }
{
    loop {
        let (at, stop) = go_quick::<N, P, B, D>(
            cpu,
            bus,
            notes,
            *due,
            until.0,
            safe_until.0,
            lines,
            port,
        );
        *due = at;
        match stop {
            LoopExit::Look => return RunExit::Look,
            LoopExit::Access => match access::<N, P, B, D>(cpu, bus, due, notes, port) {
                Ok(()) => (),
                Err(AccessError::Tube(op)) => return RunExit::Asked(Ask::Access(Tick(*due), op)),
                Err(AccessError::Full) => return RunExit::Full,
            },
            LoopExit::End => {
                shut::<N, P, B>(cpu, bus, *due, until);
                return RunExit::Asked(Ask::Nothing);
            }
        }
    }
}

// Takes the Tube's answer to an access.
#[inline(never)]
fn take_byte<N, P: Processor, B: TubeBus<N>>(cpu: &mut P, bus: &mut B, due: &mut u64, byte: u8)
    requires room { due.old < 2 ^ 32 }
    requires before { (B.bus_model).closed (B.state bus.old) ≤ due.old + 1 }
    requires access { is_break P.part B.bus_model (at_of (P.core cpu.old) (B.state bus.old) due.old) ≡ false }
    requires asked { IsAskedByte P.part B.bus_model (at_of (P.core cpu.old) (B.state bus.old) due.old) }
    ensures before { (B.bus_model).closed (B.state bus.new) ≤ due.new + 1 }
    ensures taken { let old = at_of (P.core cpu.old) (B.state bus.old) due.old in
        at_of (P.core cpu.new) (B.state bus.new) due.new
        ≡ next_state P.part B.bus_model old (Some (Byte byte)) }
{
    bus.close(*due + 1);
    bus.answered(cpu.want());
    let cycle = bus.cycle();
    *due = end_cycle::<N, P, B>(cpu, bus, *due, byte, cycle);
}

/// Takes the Tube's lines at a look.
#[inline(always)]
pub fn take_lines<N, P: Processor, B: TubeBus<N>>(
    cpu: &mut P,
    bus: &mut B,
    due: &mut u64,
    lines: &Lines,
)
    requires room { due.old < 2 ^ 40 }
    requires before { (B.bus_model).closed (B.state bus.old) ≤ due.old + 1 }
    requires look { is_break P.part B.bus_model (at_of (P.core cpu.old) (B.state bus.old) due.old) ≡ false }
    requires over { next_cycle P.part (P.core cpu.old) ≡ None }
    ensures before { (B.bus_model).closed (B.state bus.new) ≤ due.new + 1 }
    ensures taken { let old = at_of (P.core cpu.old) (B.state bus.old) due.old in
        at_of (P.core cpu.new) (B.state bus.new) due.new
        ≡ next_state P.part B.bus_model old (Some (Seen lines.now)) }
{
    bus.close(*due + 1);
    if !bus.resets(lines) {
        let interrupts = bus.take(lines);
        cpu.take_lines(interrupts.nmi, interrupts.irq);
        *due += 1;
        return;
    }
    if lines.prst {
        let cycle = bus.cycle();
        bus.hold();
        *due += cycle;
        return;
    }
    bus.reset(lines);
    cpu.begin_reset();
    *due += 1;
}

/// Does the steps below `until` that ask nothing, and the looks below `safe_until`, which see
/// `lines`, up to the first step that asks for more.
#[inline(always)]
pub fn advance_seeing<N, P: Processor, B: TubeBus<N>>(
    cpu: &mut P,
    bus: &mut B,
    due: &mut u64,
    notes: &mut N,
    until: Tick,
    lines: &Lines,
    safe_until: Tick,
) -> Ask
    requires room { until.0 ≤ 2 ^ 30 }
    requires before { (B.bus_model).closed (B.state bus.old) ≤ due.old + 1 }
    requires endless { B.endless ≡ true }
    ensures before { (B.bus_model).closed (B.state bus.new) ≤ due.new + 1 }
    ensures sees { let old = at_of (P.core cpu.old) (B.state bus.old) due.old in
        let new = at_of (P.core cpu.new) (B.state bus.new) due.new in
        LookRunToAsk (transitions_of P.part B.bus_model) until.0 (shown_lines lines.now safe_until.0) old result new }
{
    advance_at::<N, P, B, NoPort>(cpu, bus, due, notes, until, lines, safe_until, &mut NoPort)
}

/// Does what `advance_seeing` does, and the accesses that the port answers.
#[inline(always)]
pub fn advance_at<N, P: Processor, B: TubeBus<N>, D: TubePort>(
    cpu: &mut P,
    bus: &mut B,
    due: &mut u64,
    notes: &mut N,
    until: Tick,
    lines: &Lines,
    safe_until: Tick,
    port: &mut D,
) -> Ask
    requires room { until.0 ≤ 2 ^ 30 }
    requires before { (B.bus_model).closed (B.state bus.old) ≤ due.old + 1 }
    requires endless { B.endless ≡ true }
    ensures before { (B.bus_model).closed (B.state bus.new) ≤ due.new + 1 }
    ensures port_run_to_ask { let old = at_of (P.core cpu.old) (B.state bus.old) due.old in
        let new = at_of (P.core cpu.new) (B.state bus.new) due.new in
        PortRunToAsk (transitions_of P.part B.bus_model) D.answers until.0 (shown_lines lines.now safe_until.0) old (D.state port.old) result new (D.state port.new) }
{
    loop {
        match carry_on::<N, P, B, D>(cpu, bus, due, notes, until, lines, safe_until, port) {
            RunExit::Asked(ask) => return ask,
            RunExit::Look => {
                if breaks_alone::<N, P, B>(cpu, bus, *due, until) {
                    take_break::<N, P, B>(cpu, bus, due);
                } else if *due >= until.0.min(safe_until.0) || is_break::<N, P, B>(cpu, bus, *due) {
                    return look::<N, P, B>(cpu, bus, *due, until);
                } else {
                    take_lines::<N, P, B>(cpu, bus, due, lines);
                }
            }
            RunExit::Full => unreachable!(),
        }
    }
}

/// Does the step that asks.
#[inline(always)]
pub fn answer<N, P: Processor, B: TubeBus<N>>(
    cpu: &mut P,
    bus: &mut B,
    due: &mut u64,
    answer: Answer,
)
    requires room { due.old < 2 ^ 32 }
    requires before { (B.bus_model).closed (B.state bus.old) ≤ due.old + 1 }
    requires asked { let old = at_of (P.core cpu.old) (B.state bus.old) due.old in
        IsAskedFor (transitions_of P.part B.bus_model) 1073741824 old answer }
    ensures before { (B.bus_model).closed (B.state bus.new) ≤ due.new + 1 }
    ensures taken { let old = at_of (P.core cpu.old) (B.state bus.old) due.old in
        at_of (P.core cpu.new) (B.state bus.new) due.new
        ≡ next_state P.part B.bus_model old (Some answer) }
{
    match answer {
        Answer::Byte(byte) => {
            if is_break::<N, P, B>(cpu, bus, *due) {
                take_break::<N, P, B>(cpu, bus, due);
            } else {
                take_byte::<N, P, B>(cpu, bus, due, byte);
            }
        }
        Answer::Seen(lines) => take_lines::<N, P, B>(cpu, bus, due, &lines),
    }
}
