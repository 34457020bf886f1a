//! Skips instructions whose starts are not looked for. Each is done whole.
ghost use Rattle.std.specs.Prelude.{◌≡◌, ◌≢◌, ◌≤◌, ◌<◌, ◌+◌, ◌*◌, ◌^◌, ℕ, true, false};
ghost use Rattle.cpu_alu.specs.Flags.{has_flag};
ghost use Rattle.cpu_alu.specs.declared.flags.TheConstants.{INTERRUPT};
ghost use Rattle.cpu_core.specs.Sequences.{starting};
ghost use Rattle.cpu_whole.specs.Whole as whole;
ghost use Rattle.tube_party.specs.Transitions.{shown_lines};
ghost use Rattle.tube_machine.specs.SkipWhile.{IsSkipped, Passes, skipped_at};
ghost use Rattle.tube_machine.specs.Step.{at_of, transitions_of};
ghost use Rattle.tube_machine.specs.Whole.{reach_of};

use crate::bus::TubeBus;
use crate::processor::Processor;
use crate::run::{LONGEST, bound_of};
use beeb_bits::Tick;
use cpu_alu::{INTERRUPT, Regs, has_flag};
use op_table::Part;
use tube_chip::Lines;

/// The starts of instructions that are skipped.
#[derive(Clone, Copy, Debug, PartialEq, Eq)]
pub enum SkipWhile {
    /// Those below this tick.
    Before(u64),
    /// Those whose program counter is not this address.
    Elsewhere(u16),
    /// Those at which this address holds this byte, or for `None` no byte of memory.
    Same(u16, Option<u8>),
}

#[inline(always)]
fn is_same(one: Option<u8>, other: Option<u8>) -> bool
    ensures same { result ≡ true → one ≡ other }
    ensures other { result ≡ false → one ≢ other }
{
    match (one, other) {
        (None, None) => true,
        (Some(a), Some(b)) => a == b,
        _ => false,
    }
}

// Returns `true` if a start at tick `t` with program counter `pc` is skipped.
#[inline(always)]
fn is_skipped<N, B: TubeBus<N>>(skip: SkipWhile, t: u64, pc: u16, bus: &B) -> bool
    ensures over { result ≡ true → IsSkipped skip t pc (B.peek (B.state bus.now)) }
    ensures stays { result ≡ false → IsSkipped skip t pc (B.peek (B.state bus.now)) → ⊥ }
{
    match skip {
        SkipWhile::Before(end) => t < end,
        SkipWhile::Elsewhere(at) => pc != at,
        SkipWhile::Same(at, byte) => is_same(bus.peek(at), byte),
    }
}

// Does the instruction that starts at tick `t`, whole, and returns the number of its cycles.
// Returns 0, with nothing done, if its start is not skipped or if it needs single cycles.
#[inline(always)]
fn run_if_skipped<N, B: TubeBus<N>>(
    bus: &mut B,
    part: Part,
    regs: &mut Regs,
    t: u64,
    notes: &mut N,
    skip: SkipWhile,
) -> u64
    requires closed { (B.bus_model).closed (B.state bus.old) ≤ t + 1 }
    requires room { t < 2 ^ 40 }
    ensures over { 0 < result → IsSkipped skip t (regs.old).pc (B.peek (B.state bus.old)) }
    ensures closed { 0 < result → (B.bus_model).closed (B.state bus.new) ≤ t + (B.bus_model).cycle (B.state bus.old) * result }
    ensures done { let reach = reach_of B.bus_model B.reads B.writes in
        0 < result → whole.IsDone part reach t regs.old (B.state bus.old) result regs.new (B.state bus.new) }
    ensures still { result ≡ 0 → (regs.new ≡ regs.old) × (B.state bus.new ≡ B.state bus.old) }
    ensures noted { B.before notes.new bus.new ≡ B.before notes.old bus.old }
    ensures few { result ≤ 8 }
{
    if is_skipped::<N, B>(skip, t, regs.pc, bus) {
        bus.whole::<SkipWhile>(part, regs, t, notes)
    } else {
        0
    }
}

// Does whole instructions with skipped starts one after another, from a start at tick `from` on.
// Returns the tick of the next step. Before `bound` no break is pending, and looks are plain and
// see these lines. Before `quiet` they ask for nothing.
#[inline(never)]
fn pass_whole<N, P: Processor, B: TubeBus<N>>(
    cpu: &mut P,
    bus: &mut B,
    notes: &mut N,
    from: u64,
    bound: u64,
    quiet: u64,
    lines: &Lines,
    skip: SkipWhile,
) -> u64
    requires room { bound ≤ 2 ^ 30 }
    requires from { from ≤ bound }
    requires before { (B.bus_model).closed (B.state bus.old) ≤ from + 1 }
    requires plain { B.plain (B.state bus.old) lines.now ≡ true }
    requires free { (t : ℕ) → t < bound → (B.bus_model).pending (B.state bus.old) t ≡ false }
    requires starts { starting (P.core cpu.old) ≡ true }
    requires rests { B.rests (B.state bus.old) lines.now (has_flag (P.core cpu.old).regs.p INTERRUPT) quiet }
    ensures before { (B.bus_model).closed (B.state bus.new) ≤ result + 1 }
    ensures passes { let old = at_of (P.core cpu.old) (B.state bus.old) from in
        let new = at_of (P.core cpu.new) (B.state bus.new) result in
        (until safe_until : ℕ) → bound ≤ until → bound ≤ safe_until →
        (k : ℕ) × Passes (transitions_of P.part B.bus_model) (skipped_at B.peek skip) until (shown_lines lines.now safe_until) k old new }
    ensures noted { B.before notes.new bus.new ≡ B.before notes.old bus.old }
{
    let cycle = bus.cycle();
    let first = cpu.at_start();
    let mut regs = Regs {
        pc: first.pc,
        a: first.a,
        x: first.x,
        y: first.y,
        s: first.s,
        p: first.p,
    };
    let end = bound.min(quiet);
    let mut due = from;
    while due + LONGEST * cycle <= end {
        let cycles = run_if_skipped::<N, B>(bus, cpu.kind(), &mut regs, due, notes, skip);
        if cycles == 0 {
            break;
        }
        due += cycle * cycles;
        bus.close(due);
    }
    cpu.set_out(&regs);
    due
}

/// Skips instructions whose starts `skip` names. Each is done whole, with the look after it,
/// which sees these lines, comes before `until` and `safe_until`, and asks for nothing. Stops at
/// any other start, and at one whose instruction needs single cycles or may end too late. Does
/// nothing in the middle of an instruction.
#[inline(always)]
pub fn skip_over<N, P: Processor, B: TubeBus<N>>(
    cpu: &mut P,
    bus: &mut B,
    due: &mut u64,
    notes: &mut N,
    until: Tick,
    lines: &Lines,
    safe_until: Tick,
    skip: SkipWhile,
)
    requires room { until.0 ≤ 2 ^ 30 }
    requires before { (B.bus_model).closed (B.state bus.old) ≤ due.old + 1 }
    ensures before { (B.bus_model).closed (B.state bus.new) ≤ due.new + 1 }
    ensures passes { let old = at_of (P.core cpu.old) (B.state bus.old) due.old in
        let new = at_of (P.core cpu.new) (B.state bus.new) due.new in
        (k : ℕ) × Passes (transitions_of P.part B.bus_model) (skipped_at B.peek skip) until.0 (shown_lines lines.now safe_until.0) k old new }
    ensures noted { B.before notes.new bus.new ≡ B.before notes.old bus.old }
{
    let bound = bound_of::<N, B>(bus, until.0, safe_until.0, bus.break_tick(), lines);
    if *due >= bound || !cpu.starting() {
        return;
    }
    let first = cpu.at_start();
    let first_end = *due + LONGEST * bus.cycle();
    if first_end > bound || !is_skipped::<N, B>(skip, *due, first.pc, bus) {
        return;
    }
    let quiet = bus.rests_until(lines, has_flag(first.p, INTERRUPT));
    if first_end <= quiet {
        *due = pass_whole::<N, P, B>(cpu, bus, notes, *due, bound, quiet, lines, skip);
    }
}
