//! A party against its side of a trace.
ghost use Rattle.std.specs.Prelude.{◌≡◌, ◌≤◌, All, IsTrue};
ghost use Rattle.tube_trace.specs.Entries.{IsEntry};
ghost use Rattle.tube_party.specs.Replay.{replay_of};

use crate::cursor::{TracePort, lines_at};
use crate::party::{Ask, MOST, Party};
use beeb_bits::{Side, Tick};
use tube_chip::{Answer, Chip, Op};
use tube_trace::Entry;

/// What a machine does at a place of a trace: an access of its side.
#[derive(Clone, Copy, Debug, PartialEq, Eq)]
pub struct Doing {
    pub tick: Tick,
    pub side: Side,
    pub op: Op,
}

/// Runs a party up to tick `n` against the entries of its side. Each access is answered by the next
/// entry, each look by the lines of the chip after the entries of the trace before it. The second
/// part of the result is `None` if the party's accesses below `n` are exactly the side's entries
/// below `n`. Otherwise it is the first place where they differ: the line of the side's entry
/// there, counted from 1, or one past the trace if the side has none; and what the party does
/// there, if it does something. The party stops before that step, or, if it does nothing more, as
/// it is at `n`.
#[tactic(auto, unfolding(crate::specs::Replay::replay_of))]
// Kept out of its caller, so that the loop has the registers to itself.
#[inline(never)]
pub fn replay<M: Party>(
    mut machine: M,
    side: Side,
    trace: &[Entry],
    n: Tick,
) -> (M, Option<(u64, Option<Doing>)>)
    requires ticks { n.0 ≤ MOST }
    requires plays { IsTrue (M.plays side) }
    requires entries { All IsEntry trace.now }
    ensures machine { M.state result.0 ≡ (replay_of M.transitions side trace.now n.0 (M.state machine)).machine }
    ensures place { result.1 ≡ (replay_of M.transitions side trace.now n.0 (M.state machine)).place }
{
    let mut chip = Chip::new();
    let mut lines = chip.lines();
    let (mut seen, mut safe_until) = lines_at(&mut chip, &mut lines, trace, 0, side, Tick(0));
    let mut own = TracePort::new(trace, side, n);
    'steps: loop {
        match machine.advance_at(n, &lines, safe_until, &mut own) {
            Ask::Nothing => return (machine, own.next_line()),
            Ask::Access(tick, op) => match own.take(tick, op) {
                Ok(byte) => machine.answer(Answer::Byte(byte)),
                Err(line) => return (machine, Some((line, Some(Doing { tick, side, op })))),
            },
            Ask::Look(tick) => {
                (seen, safe_until) = lines_at(&mut chip, &mut lines, trace, seen, side, tick);
                machine.answer(Answer::Seen(lines));
            }
        }
    }
}
