//! Publishes the parasite's speculation, and waits until the host has reached its end.
ghost use Rattle.std.specs.Prelude.{◌≡◌, ◌≢◌, ◌≤◌, ◌⊎◌, [], IsTrue, IsFalse};
ghost use Rattle.beeb_bits.specs.declared.Side.TheVariants.{Para};
ghost use Rattle.tube_cell.specs.Views.{readings_of};
ghost use Rattle.tube_cell.specs.Passes.{PassState, own_horizon, here, after_publish, after_speculate, Learns};
ghost use Rattle.tube_side.specs.CodeSpeculation.{IsSpeculation};
ghost use Rattle.tube_side.specs.CodeSpecHorizon.{from_on, HasSpeculated, HasPassed};
ghost use Rattle.tube_side.specs.CodeSteps.{HasWaited, IsPaid, IsPaidSpeculatively, HasOnlyLearnt};

use crate::mark::{GhostSpeculation, Mark};
use crate::pause::SpinThenPark;
use beeb_bits::Tick;
use std::marker::Brand;
use std::sync::Wait;
use tube_cell::{GhostEvents, Pass, TubeCell};

// Publishes the pass's events with the tick `mark` as horizon, and speculatively the observations
// from the mark on, below tick `t`.
fn publish_observed<D: GhostEvents, W: GhostSpeculation, R: Wait>(
    rt: &R,
    cell: &TubeCell,
    pass: &mut Pass,
    mark: Tick,
    t: Tick,
) -> bool
    requires cell { pass.old.cell ≡ cell.now }
    requires side { pass.old.side ≡ Para }
    requires none_speculative { pass.old.speculative ≡ [] }
    requires is_speculation { IsSpeculation W.speculation }
    requires speculation { (W.speculation.tick ≡ mark.0) × (W.speculation.readings ≡ readings_of (here pass.old)) }
    requires later { own_horizon pass.old ≤ mark.0 }
    requires order { mark.0 ≤ t.0 }
    requires observed { D.events ≡ W.speculation.until t.0 }
    ensures speculated { IsTrue result → pass.new ≡ after_speculate (after_publish pass.old mark.0) D.events t.0 }
    ensures learns { IsFalse result → Learns pass.old pass.new }
{
    cell.publish_and_speculate::<D, R>(rt, pass, mark, t)
}

// Publishes all events and the first stride past the mark, by one exchange. Returns `false` only if
// the words differed from those that the pass knew.
fn publish_on<W: GhostSpeculation, R: Wait>(
    rt: &R,
    cell: &TubeCell,
    pass: &mut Pass,
    mark: Tick,
    t: Tick,
) -> bool
    requires cell { pass.old.cell ≡ cell.now }
    requires side { pass.old.side ≡ Para }
    requires none_speculative { pass.old.speculative ≡ [] }
    requires is_speculation { IsSpeculation W.speculation }
    requires speculation { (W.speculation.tick ≡ mark.0) × (W.speculation.readings ≡ readings_of (here pass.old)) }
    requires later { own_horizon pass.old ≤ mark.0 }
    requires order { mark.0 ≤ t.0 }
    ensures speculative { IsTrue result → HasSpeculated W.speculation t.0 pass.old pass.new }
    ensures paid { (p : PassState) → IsTrue result → HasOnlyLearnt t.0 p pass.old → IsPaidSpeculatively p pass.new }
    ensures learns { IsFalse result → Learns pass.old pass.new }
{
    publish_observed::<Brand, W, R>(rt, cell, pass, mark, t)
}

/// Publishes the first stride past the mark, up to tick `t`, while the chip shows what was observed
/// in the stride. Returns `false`, with nothing published, if the chip no longer shows it, or if
/// the machine got no further than the mark and so must wait for the host.
pub fn speculate_first<W: GhostSpeculation, R: Wait>(
    rt: &R,
    cell: &TubeCell,
    pass: &mut Pass,
    mark: &Mark,
    t: Tick,
) -> bool
    requires cell { pass.old.cell ≡ cell.now }
    requires side { pass.old.side ≡ Para }
    requires none_speculative { pass.old.speculative ≡ [] }
    requires is_speculation { IsSpeculation W.speculation }
    requires speculation { (W.speculation.tick ≡ mark.now.tick.0) × (W.speculation.readings ≡ mark.now.readings) }
    requires later { own_horizon pass.old ≤ mark.now.tick.0 }
    requires far { pass.old.known.host ≤ mark.now.tick.0 }
    ensures speculative { IsTrue result → HasSpeculated W.speculation t.0 pass.old pass.new }
    ensures paid { IsTrue result → IsPaidSpeculatively pass.old pass.new }
    ensures free { IsFalse result → IsPaid pass.old pass.new }
    ensures waited { IsFalse result → HasWaited pass.old pass.new }
    ensures unpublished { IsFalse result → pass.new.ahead ≡ pass.old.ahead }
    ensures later { IsFalse result → own_horizon pass.new ≤ mark.now.tick.0 }
    ensures refused { IsFalse result → (t.0 ≤ mark.now.tick.0) ⊎ (readings_of (here pass.new) ≢ mark.now.readings) }
{
    if t <= mark.tick {
        return false;
    }
    for _ in rt.forever() {
        if cell.readings(pass) != mark.readings {
            return false;
        }
        if publish_on::<W, R>(rt, cell, pass, mark.tick, t) {
            return true;
        }
    }
    unreachable!()
}

// Puts the observations from the speculative horizon on, below tick `t`, onto the list
// speculatively.
fn speculate_observed<D: GhostEvents, W: GhostSpeculation, R: Wait>(
    rt: &R,
    cell: &TubeCell,
    pass: &mut Pass,
    t: Tick,
) -> bool
    requires cell { pass.old.cell ≡ cell.now }
    requires side { pass.old.side ≡ Para }
    requires is_speculation { IsSpeculation W.speculation }
    requires shown { W.speculation.readings ≡ readings_of pass.old.known.chip }
    requires told { (p : PassState) × HasSpeculated W.speculation t.0 p pass.old }
    requires observed { D.events ≡ from_on pass.old.known.spec_horizon (W.speculation.until t.0) }
    ensures speculated { IsTrue result → pass.new ≡ after_speculate pass.old D.events t.0 }
    ensures learns { IsFalse result → Learns pass.old pass.new }
{
    cell.speculate::<D, R>(rt, pass, t)
}

// Publishes the strides that are not published yet, up to tick `t`, by one exchange. Returns
// `false` only if the words differed from those that the pass knew.
fn speculate_on<W: GhostSpeculation, R: Wait>(
    rt: &R,
    cell: &TubeCell,
    pass: &mut Pass,
    t: Tick,
) -> bool
    requires cell { pass.old.cell ≡ cell.now }
    requires side { pass.old.side ≡ Para }
    requires is_speculation { IsSpeculation W.speculation }
    requires shown { W.speculation.readings ≡ readings_of pass.old.known.chip }
    requires told { (p : PassState) × HasSpeculated W.speculation t.0 p pass.old }
    ensures told { (p : PassState) → HasSpeculated W.speculation t.0 p pass.old → HasSpeculated W.speculation t.0 p pass.new }
    ensures paid { (p : PassState) → IsPaidSpeculatively p pass.old → IsPaidSpeculatively p pass.new }
    ensures seat { (pass.new.cell ≡ pass.old.cell) × (pass.new.side ≡ pass.old.side) }
    ensures spec_horizon { IsTrue result → pass.new.known.spec_horizon ≡ t.0 }
{
    speculate_observed::<Brand, W, R>(rt, cell, pass, t)
}

/// Publishes the strides that are not published yet, up to tick `t`, while the chip shows what was
/// observed in the strides. Returns `false` if the chip no longer shows it.
pub fn speculate_more<W: GhostSpeculation, R: Wait>(
    rt: &R,
    cell: &TubeCell,
    pass: &mut Pass,
    mark: &Mark,
    t: Tick,
) -> bool
    requires cell { pass.old.cell ≡ cell.now }
    requires side { pass.old.side ≡ Para }
    requires is_speculation { IsSpeculation W.speculation }
    requires shown { W.speculation.readings ≡ mark.now.readings }
    requires told { (p : PassState) × HasSpeculated W.speculation t.0 p pass.old }
    ensures told { (p : PassState) → HasSpeculated W.speculation t.0 p pass.old → HasSpeculated W.speculation t.0 p pass.new }
    ensures paid { (p : PassState) → IsPaidSpeculatively p pass.old → IsPaidSpeculatively p pass.new }
    ensures seat { (pass.new.cell ≡ pass.old.cell) × (pass.new.side ≡ pass.old.side) }
    ensures spec_horizon { IsTrue result → pass.new.known.spec_horizon ≡ t.0 }
    ensures refused { IsFalse result → readings_of (here pass.new) ≢ mark.now.readings }
{
    for _ in rt.forever() {
        if mark.readings != cell.readings(pass) {
            return false;
        }
        if speculate_on::<W, R>(rt, cell, pass, t) {
            return true;
        }
    }
    unreachable!()
}

/// Waits until the host has reached the speculative horizon. What lies below that horizon is then
/// confirmed.
pub fn wait_for_host<W: GhostSpeculation, R: Wait>(
    rt: &R,
    cell: &TubeCell,
    pass: &mut Pass,
    _t: Tick,
    pause: &mut SpinThenPark,
)
    requires cell { pass.old.cell ≡ cell.now }
    requires side { pass.old.side ≡ Para }
    requires is_speculation { IsSpeculation W.speculation }
    ensures passed { (p : PassState) → HasSpeculated W.speculation _t.0 p pass.old → HasPassed W.speculation _t.0 p pass.new }
    ensures paid { (p : PassState) → IsPaidSpeculatively p pass.old → IsPaid p pass.new }
{
    for _ in rt.forever() {
        cell.learn(rt, pass);
        let spec_horizon = cell.spec_horizon(pass);
        if spec_horizon.0 <= cell.other(pass).0 {
            pause.end(cell, pass.side());
            return;
        }
        // A step at the tick before the speculative horizon is admitted exactly if the host has
        // reached that horizon.
        pause.rest(
            rt,
            cell,
            pass.side(),
            Tick(spec_horizon.0.saturating_sub(1)),
        );
    }
    unreachable!()
}
