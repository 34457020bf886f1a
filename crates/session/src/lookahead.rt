//! Lookahead: a side runs on its own up to the other side's bound.
ghost use Rattle.std.specs.Prelude.{◌≡◌, ◌≤◌, ◌+◌, ℕ, []};
ghost use Rattle.tube_cell.specs.Views.{AllBelow, tie_offset, shown_to};
ghost use Rattle.tube_cell.specs.Passes.{own_horizon, here, bound_here, after_add};
ghost use Rattle.session.specs.CodeSight.{readings_seen, observed_events};
ghost use Rattle.session.specs.CodeSideAndLog.{side_and_log};
ghost use Rattle.session.specs.CodeLookahead.{GoneOn};

use crate::half::Half;
use crate::observe::observe;
use beeb_bits::{Side, Tick};
use std::marker::Brand;
use std::sync::Wait;
use tube_cell::{GhostEvents, Pass, Readings, TubeCell};
use tube_party::{Ask, MOST, Party};

// Adds the machine's next observations below `end`, up to its first other ask, to the pass's
// unpublished events.
fn see_next<D: GhostEvents, M: Party, R: Wait>(
    rt: &R,
    cell: &TubeCell,
    pass: &mut Pass,
    _machine: &M,
    _readings: &Readings,
    end: Tick,
)
    requires cell { pass.old.cell ≡ cell.now }
    requires none_speculative { pass.old.speculative ≡ [] }
    requires later { own_horizon pass.old ≤ M.transitions.due (M.state _machine.now) }
    requires readings { _readings.now ≡ shown_to pass.old.side (here pass.old) }
    requires observed { D.events ≡ observed_events M.transitions pass.old.side (readings_seen _readings.now) end.0 end.0 (M.state _machine.now) }
    requires admitted { end.0 + tie_offset pass.old.side ≤ bound_here pass.old + 1 }
    ensures added { pass.new ≡ after_add pass.old D.events }
    ensures horizon { (t : ℕ) → own_horizon pass.old ≤ t → AllBelow t D.events → own_horizon pass.new ≤ t }
{
    cell.see_all::<D, R>(rt, pass, end);
}

/// Does the machine's steps that ask nothing, and the looks and the reads of status registers that
/// the other side's bound admits. Returns what the first step asks that asks for more.
pub(crate) fn advance_to_ask<M: Party, R: Wait>(
    rt: &R,
    cell: &TubeCell,
    half: &mut Half<M>,
    n: Tick,
) -> Ask
    requires ticks { n.0 ≤ MOST }
    requires cell { half.old.pass.cell ≡ cell.now }
    requires none_speculative { half.old.pass.speculative ≡ [] }
    requires later { own_horizon half.old.pass ≤ M.transitions.due (M.state half.old.machine) }
    requires open_ { own_horizon half.old.pass ≤ n.0 }
    requires few { half.old.log.count ≤ M.transitions.due (M.state half.old.machine) }
    ensures { GoneOn M.transitions n.0 (side_and_log M.state half.old) result (side_and_log M.state half.new) }
{
    let side = half.pass.side();
    let safe_until = safe_until_of(side, cell.bound(&half.pass));
    let end = Tick(n.0.min(safe_until.0));
    let readings = cell.readings(&half.pass);
    see_next::<Brand, M, R>(rt, cell, &mut half.pass, &half.machine, &readings, end);
    observe(rt, half, side, n, &readings, end)
}

// Returns the tick up to which the other side's bound admits looks, itself excluded.
fn safe_until_of(side: Side, bound: Tick) -> Tick
    ensures { result.0 + tie_offset side ≤ bound.0 + 1 }
{
    match side {
        Side::Host => Tick(bound.0.saturating_add(1)),
        Side::Para => bound,
    }
}
