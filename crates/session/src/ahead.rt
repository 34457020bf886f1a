//! The work of the parasite's thread, which speculates ahead of the host.
ghost use Rattle.std.specs.Prelude.{◌≡◌, ◌≤◌, ◌<◌, ◌^◌, [], true, IsTrue, IfSome, IfNone, length};
ghost use Rattle.beeb_bits.specs.declared.Side.TheVariants.{Para};
ghost use Rattle.tube_cell.specs.Passes.{own_horizon};
ghost use Rattle.tube_party.specs.Turn.{IsPending};
ghost use Rattle.tube_side.specs.CodeSteps.{IsPaid, IsNearlyPaid};
ghost use Rattle.session.specs.CodeSideAndLog.{side_and_log};
ghost use Rattle.session.specs.CodeLookahead.{MovedOn, HasStayed};
ghost use Rattle.tube_side.specs.CodeSpeculation.{IsSpeculation};
ghost use Rattle.session.specs.CodeSpecRun.{speculation_of, spec_start};
ghost use Rattle.session.specs.Work.{MayWork, HasWorked};

use crate::half::{Half, next_tick, step_when_admitted};
use crate::lookahead::advance_to_ask;
use crate::speculation::{Checkpoint, reached, roll_back, set_out, strides_on};
use crate::stride::{Stride, Strides};
use beeb_bits::Tick;
use std::marker::Brand;
use std::sync::Wait;
use tube_cell::TubeCell;
use tube_chip::Op;
use tube_party::{Ask, MOST, Rewinds};
use tube_side::{GhostSpeculation, Mark, SpinThenPark, finish, speculate_first, wait_for_host};

/// Runs the parasite's machine for the ticks below `n`, with each of its steps that asks done at
/// the shared cell. Below the host's horizon it works as `drive` does. Past that horizon it
/// speculates, in strides, that the host changes nothing that it observes, and is rolled back if
/// the host does.
pub fn drive_ahead<M: Rewinds, R: Wait>(
    rt: &R,
    cell: &TubeCell,
    half: &mut Half<M>,
    past: &mut M::Past,
    n: Tick,
    strides: Strides,
)
    requires may { MayWork M.Party.transitions M.Party.plays cell.now n.0 (side_and_log M.Party.state half.old) }
    requires side { half.old.pass.side ≡ Para }
    ensures worked { let state = M.Party.state in
        HasWorked M.Party.transitions n.0 half.old.log.keep (side_and_log state half.old).at (side_and_log state half.new) }
    ensures paid { IsNearlyPaid half.old.pass half.new.pass }
{
    let mut pause = SpinThenPark::new();
    let mut stride = Stride::new(strides);
    let mut is_published = false;
    let mut ask = advance_to_ask(rt, cell, half, n);
    for _ in rt.forever() {
        if ask == Ask::Nothing {
            finish(rt, cell, &mut half.pass, n);
            return;
        }
        match go_past(rt, cell, half, past, n, ask, &mut stride, &mut pause) {
            Some(next) => {
                is_published = true;
                ask = next;
            }
            None => {
                step_when_admitted(rt, cell, half, n, ask, is_published, &mut pause);
                is_published = false;
                ask = advance_to_ask(rt, cell, half, n);
            }
        }
    }
    unreachable!()
}

// Speculates past the host's horizon. Returns `None`, with no step done, if the host's horizon
// admits the step, if the step is an access that must wait for the host, if the machine cannot note
// its steps or gets no further, or if the host changed what was observed.
fn go_past<M: Rewinds, R: Wait>(
    rt: &R,
    cell: &TubeCell,
    half: &mut Half<M>,
    past: &mut M::Past,
    n: Tick,
    ask: Ask,
    stride: &mut Stride,
    pause: &mut SpinThenPark,
) -> Option<Ask>
    requires ticks { n.0 ≤ MOST }
    requires cell { half.old.pass.cell ≡ cell.now }
    requires side { half.old.pass.side ≡ Para }
    requires none_speculative { half.old.pass.speculative ≡ [] }
    requires few { half.old.log.count ≤ M.Party.transitions.due (M.Party.state half.old.machine) }
    requires pending { IsPending M.Party.transitions n.0 (M.Party.state half.old.machine) ask }
    requires later { own_horizon half.old.pass ≤ M.Party.transitions.due (M.Party.state half.old.machine) }
    ensures none { let state = M.Party.state in
        IfNone result (HasStayed (side_and_log state half.old) (side_and_log state half.new)) }
    ensures later { IfNone result (own_horizon half.new.pass ≤ M.Party.transitions.due (M.Party.state half.old.machine)) }
    ensures some { let state = M.Party.state in
        IfSome result (λ next. MovedOn M.Party.transitions n.0 (side_and_log state half.old) next (side_and_log state half.new)) }
    ensures published { IfSome result (λ _. half.new.pass.ahead ≡ []) }
    ensures paid { IsPaid half.old.pass half.new.pass }
{
    if !is_observed(ask) {
        return None;
    }
    let tick = next_tick(&half.machine, n, ask);
    if cell.admits(&half.pass, tick) {
        return None;
    }
    let readings = cell.readings(&half.pass);
    let from = Checkpoint {
        mark: Mark { tick, readings },
        log: half.log.mark(),
    };
    go_ahead::<Brand, M, R>(rt, cell, half, past, n, &from, stride, pause)
}

// Returns `true` for a look and for a read of a status register.
fn is_observed(ask: Ask) -> bool {
    match ask {
        Ask::Nothing => false,
        Ask::Look(_) => true,
        Ask::Access(_, op) => match op {
            Op::Read(number) => number % 2 == 0,
            Op::Write(..) | Op::Reset => false,
        },
    }
}

// Speculates from the checkpoint, stride by stride, while the chip shows what it showed there. Then
// waits for the host, and rolls the machine back if the host changed what was observed. Returns
// `None`, with nothing done, if the machine cannot note its steps or gets no further, or if the
// host changed what was observed before anything was published.
fn go_ahead<W: GhostSpeculation, M: Rewinds, R: Wait>(
    rt: &R,
    cell: &TubeCell,
    half: &mut Half<M>,
    past: &mut M::Past,
    n: Tick,
    from: &Checkpoint,
    stride: &mut Stride,
    pause: &mut SpinThenPark,
) -> Option<Ask>
    requires ticks { n.0 ≤ MOST }
    requires cell { half.old.pass.cell ≡ cell.now }
    requires side { half.old.pass.side ≡ Para }
    requires none_speculative { half.old.pass.speculative ≡ [] }
    requires mark { from.now.mark.tick.0 ≡ M.Party.transitions.due (M.Party.state half.old.machine) }
    requires kept { (from.now.log.len ≡ length half.old.log.list.items) × (from.now.log.count ≡ half.old.log.count) }
    requires few { half.old.log.count ≤ from.now.mark.tick.0 }
    requires speculation { W.speculation ≡ speculation_of M.Party.transitions n.0 (spec_start (M.Party.state half.old.machine) from.now) }
    requires is_speculation { IsSpeculation W.speculation }
    requires later { own_horizon half.old.pass ≤ from.now.mark.tick.0 }
    requires open_ { from.now.mark.tick.0 ≤ n.0 }
    requires far { half.old.pass.known.host ≤ from.now.mark.tick.0 }
    ensures none { let state = M.Party.state in
        IfNone result (HasStayed (side_and_log state half.old) (side_and_log state half.new)) }
    ensures later { IfNone result (own_horizon half.new.pass ≤ from.now.mark.tick.0) }
    ensures some { let state = M.Party.state in
        let old = side_and_log state half.old in
        IfSome result (λ next. MovedOn M.Party.transitions n.0 old next (side_and_log state half.new)) }
    ensures published { IfSome result (λ _. half.new.pass.ahead ≡ []) }
    ensures paid { IsPaid half.old.pass half.new.pass }
{
    let end = stride.set_out(from.mark.tick);
    let first = set_out(half, past, n, from, end)?;
    let t = reached(n, first);
    if !speculate_first::<W, R>(rt, cell, &mut half.pass, &from.mark, t) {
        half.machine.rewind(past);
        half.log.cut(from.log);
        return None;
    }
    stride.is_made();
    let ask = strides_on::<W, M, R>(rt, cell, half, past, n, from, first, stride);
    let t = reached(n, ask);
    wait_for_host::<W, R>(rt, cell, &mut half.pass, t, pause);
    let spec_horizon = cell.spec_horizon(&half.pass);
    if spec_horizon < t {
        stride.is_cut(spec_horizon.0.saturating_sub(from.mark.tick.0));
    } else {
        stride.stands();
    }
    Some(roll_back(rt, half, past, n, from, t, spec_horizon, ask))
}
