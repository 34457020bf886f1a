//! Waits of a side at the shared cell, until the other side admits its step.
ghost use Rattle.std.specs.Prelude.{◌≡◌, ◌≤◌, ◌+◌, [], IsTrue, IsFalse};
ghost use Rattle.tube_cell.specs.Views.{Admits};
ghost use Rattle.tube_cell.specs.Passes.{own_horizon, bound_here};
ghost use Rattle.tube_side.specs.CodeSteps.{HasWaited, IsPaid, IsNearlyPaid};

use crate::pause::SpinThenPark;
use beeb_bits::Tick;
use std::sync::Wait;
use tube_cell::{Pass, TubeCell};

/// Waits until the other side admits a step at tick `t`. If it does not yet, first publishes all
/// events with `t` as horizon, unless they are published and the speculative horizon is at `t` or
/// later.
pub fn wait_until_admitted<R: Wait>(
    rt: &R,
    cell: &TubeCell,
    pass: &mut Pass,
    t: Tick,
    is_published: bool,
    pause: &mut SpinThenPark,
)
    requires cell { pass.old.cell ≡ cell.now }
    requires none_speculative { pass.old.speculative ≡ [] }
    requires published { IsTrue is_published → pass.old.ahead ≡ [] }
    requires later { own_horizon pass.old ≤ t.0 }
    ensures waited { HasWaited pass.old pass.new }
    ensures later { own_horizon pass.new ≤ t.0 }
    ensures admitted { Admits pass.new.side (bound_here pass.new) t.0 }
    ensures paid { IsPaid pass.old pass.new }
{
    if cell.admits(pass, t) {
        return;
    }
    cell.learn(rt, pass);
    if is_published && t <= cell.spec_horizon(pass) {
        if cell.admits(pass, t) {
            return;
        }
    } else if tell(rt, cell, pass, t) {
        return;
    }
    wait(rt, cell, pass, t, pause);
}

/// Publishes all events, with the end `n` of the run as horizon: no step below it is left.
pub fn finish<R: Wait>(rt: &R, cell: &TubeCell, pass: &mut Pass, n: Tick)
    requires cell { pass.old.cell ≡ cell.now }
    requires none_speculative { pass.old.speculative ≡ [] }
    requires later { own_horizon pass.old ≤ n.0 }
    ensures waited { HasWaited pass.old pass.new }
    ensures published { pass.new.ahead ≡ [] }
    ensures horizon { own_horizon pass.new ≡ n.0 }
    ensures paid { IsNearlyPaid pass.old pass.new }
{
    for _ in rt.forever() {
        if cell.publish(rt, pass, n) {
            return;
        }
    }
    unreachable!()
}

// Publishes all events, with the tick `t` of the step that waits as horizon. Returns `true`, with
// nothing published, if the other side admits the step by then.
fn tell<R: Wait>(rt: &R, cell: &TubeCell, pass: &mut Pass, t: Tick) -> bool
    requires cell { pass.old.cell ≡ cell.now }
    requires none_speculative { pass.old.speculative ≡ [] }
    requires later { own_horizon pass.old ≤ t.0 }
    ensures waited { HasWaited pass.old pass.new }
    ensures later { own_horizon pass.new ≤ t.0 }
    ensures admitted { IsTrue result → Admits pass.new.side (bound_here pass.new) t.0 }
    ensures paid { IsTrue result → IsPaid pass.old pass.new }
    ensures told { IsFalse result → pass.new.ahead ≡ [] }
    ensures far { IsFalse result → ¬ Admits pass.new.side (bound_here pass.new) t.0 }
    ensures nearly_paid { IsFalse result → IsNearlyPaid pass.old pass.new }
{
    for _ in rt.forever() {
        if cell.admits(pass, t) {
            return true;
        }
        if cell.publish(rt, pass, t) {
            return false;
        }
    }
    unreachable!()
}

// Waits until the other side admits the step.
fn wait<R: Wait>(rt: &R, cell: &TubeCell, pass: &mut Pass, t: Tick, pause: &mut SpinThenPark)
    requires cell { pass.old.cell ≡ cell.now }
    requires published { pass.old.ahead ≡ [] }
    requires none_speculative { pass.old.speculative ≡ [] }
    requires later { own_horizon pass.old ≤ t.0 }
    requires far { ¬ Admits pass.old.side (bound_here pass.old) t.0 }
    ensures waited { HasWaited pass.old pass.new }
    ensures later { own_horizon pass.new ≤ t.0 }
    ensures admitted { Admits pass.new.side (bound_here pass.new) t.0 }
    ensures rose { pass.new.commits + pass.old.higher + 1 ≤ pass.old.commits + pass.new.higher }
{
    for _ in rt.forever() {
        pause.rest(rt, cell, pass.side(), t);
        cell.learn(rt, pass);
        if cell.admits(pass, t) {
            pause.end(cell, pass.side());
            return;
        }
    }
    unreachable!()
}
