//! Runs a party as long as it only observes what it is shown: the lines, and its status registers.
ghost use Rattle.std.specs.Prelude.{◌≡◌, ◌≤◌};
ghost use Rattle.session.specs.CodeObserved.{HasObserved, IsOver};

use crate::half::Half;
use crate::port::StatusPort;
use beeb_bits::{Side, Tick};
use std::sync::Wait;
use tube_cell::Readings;
use tube_chip::{Answer, Lines};
use tube_party::{Ask, MOST, Party};

// Runs the machine with `lines` and the port's registers, as long as they stay. Returns the next
// ask.
fn observe_at<M: Party, R: Wait>(
    rt: &R,
    machine: &mut M,
    port: &mut StatusPort,
    n: Tick,
    lines: &Lines,
) -> Ask
    requires ticks { n.0 ≤ MOST }
    requires few { port.old.log.count ≤ M.transitions.due (M.state machine.old) }
    ensures observed { let r : Readings = record { lines = lines.now; status = port.old.status } in
        HasObserved M.transitions port.old.side n.0 r port.old.below.0 (M.state machine.old) port.old.log result (M.state machine.new) port.new.log }
    ensures over { let r : Readings = record { lines = lines.now; status = port.old.status } in
        IsOver r port.old.below.0 result }
{
    for _ in rt.forever() {
        let ask = machine.advance_at(n, lines, port.below, port);
        let Ask::Access(tick, op) = ask else {
            return ask;
        };
        let Some(byte) = port.read(tick, op) else {
            return ask;
        };
        machine.answer(Answer::Byte(byte));
    }
    unreachable!()
}

/// Runs the machine as long as it only observes, below tick `end`, what `readings` show. Returns
/// the next ask.
pub(crate) fn observe<M: Party, R: Wait>(
    rt: &R,
    half: &mut Half<M>,
    side: Side,
    n: Tick,
    readings: &Readings,
    end: Tick,
) -> Ask
    requires ticks { n.0 ≤ MOST }
    requires few { half.old.log.count ≤ M.transitions.due (M.state half.old.machine) }
    ensures observed { HasObserved M.transitions side n.0 readings.now end.0
        (M.state half.old.machine) half.old.log result (M.state half.new.machine) half.new.log }
    ensures over { IsOver readings.now end.0 result }
    ensures pass { half.new.pass ≡ half.old.pass }
{
    let mut port = StatusPort::take(&mut half.log, side, readings, end);
    let ask = observe_at(rt, &mut half.machine, &mut port, n, &readings.lines);
    half.log = port.log;
    ask
}
