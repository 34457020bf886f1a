//! One side, and the work of the host's thread.
ghost use Rattle.std.specs.Prelude.{◌≡◌, ◌≤◌, ◌<◌, ◌^◌, [], IsTrue};
ghost use Rattle.tube_cell.specs.Passes.{own_horizon};
ghost use Rattle.tube_party.specs.Turn.{IsPending};
ghost use Rattle.tube_side.specs.CodeSteps.{IsPaid, IsNearlyPaid};
ghost use Rattle.session.specs.CodeSideAndLog.{side_and_log};
ghost use Rattle.session.specs.CodeTurn.{Turned};
ghost use Rattle.session.specs.Work.{MayWork, HasWorked};

use crate::lookahead::advance_to_ask;
use beeb_bits::Tick;
use std::sync::Wait;
use tube_cell::{Pass, TubeCell};
use tube_chip::Answer;
use tube_party::{Ask, Log, MOST, Party};
use tube_side::{SpinThenPark, finish, wait_until_admitted};
use tube_trace::Entry;

/// One side at work: the machine, its pass to the cell, and the log of its accesses.
#[derive(Drop)]
pub struct Half<M> {
    pub machine: M,
    pub pass: Pass,
    pub log: Log,
}

/// Runs the machine for the ticks below `n`, with each of its steps that asks done at the shared
/// cell. Its log has room for the accesses that are stored. A step that the other side's bound
/// admits is done without an exchange; it is published when a later step is not admitted.
pub fn drive<M: Party, R: Wait>(rt: &R, cell: &TubeCell, half: &mut Half<M>, n: Tick)
    requires may { MayWork M.transitions M.plays cell.now n.0 (side_and_log M.state half.old) }
    ensures worked { HasWorked M.transitions n.0 half.old.log.keep (side_and_log M.state half.old).at (side_and_log M.state half.new) }
    ensures paid { IsNearlyPaid half.old.pass half.new.pass }
{
    let mut pause = SpinThenPark::new();
    let mut ask = advance_to_ask(rt, cell, half, n);
    while ask != Ask::Nothing {
        step_when_admitted(rt, cell, half, n, ask, false, &mut pause);
        ask = advance_to_ask(rt, cell, half, n);
    }
    finish(rt, cell, &mut half.pass, n);
}

/// Returns the tick of the step that asks next. A party that asks is quiet up to that step.
pub(crate) fn next_tick<M: Party>(machine: &M, n: Tick, ask: Ask) -> Tick
    requires { IsPending M.transitions n.0 (M.state machine.now) ask }
    ensures { result.0 ≡ M.transitions.due (M.state machine.now) }
{
    Tick(machine.quiet().0.min(n.0))
}

/// Does the step that asks, after the other side admits it. `is_published`: the pass has nothing
/// unpublished.
pub(crate) fn step_when_admitted<M: Party, R: Wait>(
    rt: &R,
    cell: &TubeCell,
    half: &mut Half<M>,
    n: Tick,
    ask: Ask,
    is_published: bool,
    pause: &mut SpinThenPark,
)
    requires ticks { n.0 ≤ MOST }
    requires cell { half.old.pass.cell ≡ cell.now }
    requires none_speculative { half.old.pass.speculative ≡ [] }
    requires published { IsTrue is_published → half.old.pass.ahead ≡ [] }
    requires plays { IsTrue (M.plays half.old.pass.side) }
    requires pending { IsPending M.transitions n.0 (M.state half.old.machine) ask }
    requires later { own_horizon half.old.pass ≤ M.transitions.due (M.state half.old.machine) }
    requires count { half.old.log.count < 2 ^ 63 }
    ensures turned { Turned M.transitions (side_and_log M.state half.old) (side_and_log M.state half.new) }
    ensures paid { IsPaid half.old.pass half.new.pass }
{
    let t = next_tick(&half.machine, n, ask);
    wait_until_admitted(rt, cell, &mut half.pass, t, is_published, pause);
    match ask {
        Ask::Nothing => unreachable!(),
        Ask::Access(tick, op) => {
            let answer = cell.act(rt, &mut half.pass, tick, op);
            half.machine.answer(Answer::Byte(answer));
            let side = half.pass.side();
            half.log.note(Entry {
                tick,
                side,
                op,
                answer,
            });
        }
        Ask::Look(tick) => {
            let lines = cell.see(rt, &mut half.pass, tick);
            half.machine.answer(Answer::Seen(lines));
        }
    }
}
