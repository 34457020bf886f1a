//! A trace as one side's machine reads it.
ghost use Rattle.std.specs.Prelude.{◌≡◌, ◌≤◌, ◌<◌, ◌+◌, ℕ, length, drop, All, MatchResult, ◌&&◌, nat_lt, true, false};
ghost use Rattle.beeb_bits.specs.declared.Side.{Side};
ghost use Rattle.beeb_bits.specs.Order.{before};
ghost use Rattle.tube_chip.specs.Events.{is_side};
ghost use Rattle.tube_chip.specs.Act.{MayDo, chip_after};
ghost use Rattle.tube_chip.specs.State.{State, lines_of};
ghost use Rattle.tube_trace.specs.Entries.{IsEntry};
ghost use Rattle.tube_party.specs.Replay.{chip_before, next_line, same_op, is_that};
ghost use Rattle.tube_party.specs.CodePassing.{IsStatusRead};
ghost use Rattle.tube_party.specs.CodeCursor.{own_left, IsOwnAt, IsTaken, Takes, Misses};

use crate::party::MOST;
use crate::port::TubePort;
use crate::replaying::Doing;
use beeb_bits::{Side, Tick, before};
use std::marker::Model;
use tube_chip::{Chip, Lines, Op};
use tube_trace::Entry;

fn same_op(a: Op, b: Op) -> bool
    ensures { result ≡ same_op a b }
{
    match (a, b) {
        (Op::Read(r), Op::Read(q)) => r == q,
        (Op::Write(r, v), Op::Write(q, w)) => r == q && v == w,
        (Op::Reset, Op::Reset) => true,
        _ => false,
    }
}

fn is_that(entry: Entry, tick: Tick, op: Op) -> bool
    ensures { result ≡ is_that entry tick.0 op }
{
    entry.tick == tick && same_op(entry.op, op)
}

fn is_own(entry: Entry, side: Side, until: Tick) -> bool
    ensures { result ≡ is_side side entry.side && nat_lt (entry.tick).0 until.0 }
{
    entry.side == side && entry.tick < until
}

/// Returns the index of the side's next entry below `until`, from index `from` on, or the length of
/// the trace if there is none.
pub(crate) fn next_own(trace: &[Entry], side: Side, until: Tick, from: usize) -> usize
    requires { from ≤ length trace.now }
    ensures within { result ≤ length trace.now }
    ensures left { own_left trace.now side until.0 from ≡ own_left trace.now side until.0 result }
    ensures own { IsOwnAt trace.now side until.0 result }
{
    let mut at = from;
    while at < trace.len() && !is_own(trace[at], side, until) {
        at += 1;
    }
    at
}

/// Returns the byte of the side's next entry, at index `at`, if the entry is access `op` at `tick`,
/// or as `Err` the line where they differ.
pub(crate) fn take(trace: &[Entry], at: usize, tick: Tick, op: Op) -> Result<u8, u64>
    requires within { at ≤ length trace.now }
    ensures { (side : Side) (n : ℕ) → IsOwnAt trace.now side n at → MatchResult result
        (λ byte. (at < length trace.now)
        × Takes (own_left trace.now side n at) (own_left trace.now side n (at + 1)) tick.0 op byte)
        (λ line. Misses (own_left trace.now side n at) (length trace.now) tick.0 op line) }
{
    if at >= trace.len() {
        return Err(trace.len() as u64 + 1);
    }
    let entry = trace[at];
    if is_that(entry, tick, op) {
        Ok(entry.answer)
    } else {
        Err(at as u64 + 1)
    }
}

// Returns the place of the side's next entry, if there is one, at which the machine does nothing
// more.
fn next_line(trace: &[Entry], at: usize) -> Option<(u64, Option<Doing>)>
    requires { at ≤ length trace.now }
    ensures { (side : Side) (n : ℕ) → IsOwnAt trace.now side n at →
        result ≡ next_line (own_left trace.now side n at) }
{
    if at < trace.len() {
        Some((at as u64 + 1, None))
    } else {
        None
    }
}

/// A side's entries below a tick that are left of a trace. As a port it answers an access that is
/// the next of the entries.
#[derive(Drop)]
pub(crate) struct TracePort<'a> {
    trace: &'a [Entry],
    side: Side,
    until: Tick,
    at: usize,
}

impl<'a> Model for TracePort<'a> {
    ghost use Rattle.std.specs.Prelude.{◌≤◌, length};
    ghost use Rattle.tube_party.specs.CodePassing.{IsStatusRead};
    ghost use Rattle.tube_party.specs.CodeCursor.{Owned, IsOwnAt, own_left};

    ghost Value = { Owned };

    ghost view = { λ o. record { left = own_left o.trace.now o.side o.until.0 o.at; lines = length o.trace.now } };

    ghost invariant = { λ o. (o.at ≤ length o.trace.now) × IsOwnAt o.trace.now o.side o.until.0 o.at };
}

impl<'a> TracePort<'a> {
    /// Makes a port of all of a side's entries below `until`.
    pub(crate) fn new(trace: &'a [Entry], side: Side, until: Tick) -> TracePort<'a>
        ensures left { result.left ≡ own_left trace.now side until.0 0 }
        ensures lines { result.lines ≡ length trace.now }
    {
        let at = next_own(trace, side, until, 0);
        TracePort {
            trace,
            side,
            until,
            at,
        }
    }

    /// Takes the next of the entries, and returns its byte, if it is access `op` at `tick`.
    /// Otherwise returns as `Err` the line where they differ.
    #[inline(always)]
    pub(crate) fn take(&mut self, tick: Tick, op: Op) -> Result<u8, u64>
        ensures { MatchResult result (λ byte. IsTaken self.old tick.0 op byte self.new)
            (λ line. (self.new ≡ self.old) × Misses (self.old).left (self.old).lines tick.0 op line) }
    {
        let byte = take(self.trace, self.at, tick, op)?;
        self.at = next_own(self.trace, self.side, self.until, self.at + 1);
        Ok(byte)
    }

    /// Returns the place of the next of the entries, if the machine does nothing more.
    pub(crate) fn next_line(&self) -> Option<(u64, Option<Doing>)>
        ensures { result ≡ next_line (self.now).left }
    {
        next_line(self.trace, self.at)
    }
}

impl<'a> TubePort for TracePort<'a> {
    ghost use Rattle.tube_party.specs.CodePassing.{IsStatusRead};
    ghost use Rattle.tube_party.specs.CodeCursor.{Owned, IsTaken};

    ghost State = { Owned };

    ghost state = { λ o. o };

    ghost answers = { IsTaken };

    #[inline(always)]
    fn may_answer(&self, from: Tick, to: Tick) -> bool {
        self.at < self.trace.len()
            && from <= self.trace[self.at].tick
            && self.trace[self.at].tick < to
    }

    #[inline(always)]
    fn ask(&mut self, tick: Tick, op: Op) -> Option<u8> {
        match self.take(tick, op) {
            Ok(byte) => Some(byte),
            Err(_) => None,
        }
    }
}

// Does the entries from index `seen` on that come before a look of the side at `tick`. Returns the
// index of the first that does not.
#[inline(never)]
fn catch_up(chip: &mut Chip, trace: &[Entry], seen: usize, side: Side, tick: Tick) -> usize
    requires within { seen ≤ length trace.now }
    requires entries { All IsEntry trace.now }
    ensures within { result ≤ length trace.now }
    ensures chip { chip.new ≡ chip_before side tick.0 chip.old (drop seen trace.now) }
    ensures later { (t : ℕ) → tick.0 ≤ t →
        chip_before side t chip.old (drop seen trace.now) ≡ chip_before side t chip.new (drop result trace.now) }
{
    let mut at = seen;
    while at < trace.len() && before(trace[at].tick, trace[at].side, tick, side) {
        let entry = trace[at];
        let _ = chip.apply(entry.side, entry.op);
        at += 1;
    }
    at
}

// Returns the first tick, at least `least`, at which a look of the side comes after the entry.
#[inline(always)]
fn first_look(entry: Entry, side: Side, least: u64) -> u64
    ensures least { least ≤ result }
    ensures below { (t : ℕ) → least ≤ t → t < result → before (entry.tick).0 entry.side t side ≡ false }
    ensures from { (t : ℕ) → result ≤ t → t < MOST → before (entry.tick).0 entry.side t side ≡ true }
{
    let first = if before(entry.tick, entry.side, entry.tick, side) {
        entry.tick.0
    } else {
        entry.tick.0.saturating_add(1)
    };
    if first < least { least } else { first }
}

/// Returns `true` only if the operation reads a status register, and so does not change the chip.
#[inline(always)]
pub(crate) fn is_status(op: Op) -> bool
    ensures reads { result ≡ true → IsStatusRead op }
    ensures may { result ≡ true → (side : Side) → MayDo side op }
    ensures stays { result ≡ true → (c : State) (side : Side) → chip_after c side op ≡ c }
{
    match op {
        Op::Read(number) => number < 8 && number % 2 == 0,
        _ => false,
    }
}

// Does an entry. Returns `true` only if it does not change the lines.
#[inline(always)]
fn leaves_lines(chip: &mut Chip, lines: &Lines, entry: Entry) -> bool
    requires entry { IsEntry entry }
    requires kept { lines.now ≡ lines_of chip.old }
    ensures chip { chip.new ≡ chip_after chip.old entry.side entry.op }
    ensures kept { result ≡ true → lines.now ≡ lines_of chip.new }
{
    if is_status(entry.op) {
        return true;
    }
    let _ = chip.apply(entry.side, entry.op);
    chip.lines() == *lines
}

// Does entries from index `from` on, up to and including the first that changes the lines. Returns
// the index after that entry, and a tick: looks of the side below the tick see `lines`, and looks
// from the tick on in a run come after all entries that are done.
#[inline(never)]
fn go_past(
    chip: &mut Chip,
    lines: &Lines,
    trace: &[Entry],
    from: usize,
    side: Side,
) -> (usize, Tick)
    requires within { from ≤ length trace.now }
    requires entries { All IsEntry trace.now }
    requires kept { lines.now ≡ lines_of chip.old }
    ensures within { result.0 ≤ length trace.now }
    ensures most { (result.1).0 ≤ MOST }
    ensures early { (t : ℕ) → t < (result.1).0 → lines_of (chip_before side t chip.old (drop from trace.now)) ≡ lines.now }
    ensures late { (t : ℕ) → (result.1).0 ≤ t → t < MOST →
        chip_before side t chip.old (drop from trace.now) ≡ chip_before side t chip.new (drop result.0 trace.now) }
{
    let mut at = from;
    let mut safe_until = 0;
    while at < trace.len() {
        let entry = trace[at];
        safe_until = first_look(entry, side, safe_until);
        at += 1;
        if !leaves_lines(chip, lines, entry) {
            return (at, Tick(safe_until.min(MOST)));
        }
    }
    (at, Tick(MOST))
}

/// Sets `lines` to those at a look of the side at `tick`. Does the entries from index `seen` on
/// that come before the look, and then others, up to and including the first that changes the
/// lines. Returns the index after that entry, and a tick: looks below the tick see `lines`, and
/// looks from the tick on come after all entries that are done.
#[inline(always)]
pub(crate) fn lines_at(
    chip: &mut Chip,
    lines: &mut Lines,
    trace: &[Entry],
    seen: usize,
    side: Side,
    tick: Tick,
) -> (usize, Tick)
    requires within { seen ≤ length trace.now }
    requires entries { All IsEntry trace.now }
    ensures within { result.0 ≤ length trace.now }
    ensures most { (result.1).0 ≤ MOST }
    ensures lines { lines.new ≡ lines_of (chip_before side tick.0 chip.old (drop seen trace.now)) }
    ensures early { (t : ℕ) → tick.0 ≤ t → t < (result.1).0 → lines_of (chip_before side t chip.old (drop seen trace.now)) ≡ lines.new }
    ensures late { (t : ℕ) → tick.0 ≤ t → (result.1).0 ≤ t → t < MOST →
        chip_before side t chip.old (drop seen trace.now) ≡ chip_before side t chip.new (drop result.0 trace.now) }
{
    let at = catch_up(chip, trace, seen, side, tick);
    *lines = chip.lines();
    go_past(chip, lines, trace, at, side)
}
