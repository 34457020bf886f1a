//! The parasite's machine ahead of the host: it runs in strides from one checkpoint, and is rolled
//! back if the host changes what it observed.
ghost use Rattle.std.specs.Prelude.{◌≡◌, ◌≤◌, ℕ, take, length, IfSome, IfNone};
ghost use Rattle.beeb_bits.specs.declared.Side.TheVariants.{Para};
ghost use Rattle.tube_cell.specs.Passes.{PassState};
ghost use Rattle.tube_side.specs.CodeSteps.{IsPaidSpeculatively};
ghost use Rattle.tube_side.specs.CodeSpecHorizon.{HasSpeculated};
ghost use Rattle.tube_side.specs.CodeSpeculation.{IsSpeculation};
ghost use Rattle.session.specs.CodeSideAndLog.{side_and_log};
ghost use Rattle.session.specs.CodeSpecRun.{IsReached, IsSettled, spec_run, IsInSpecRun, IsStillThere, HasGoneFurther};

use crate::half::Half;
use crate::observe::observe;
use crate::port::StatusPort;
use crate::stride::Stride;
use beeb_bits::{Side, Tick};
use std::sync::Wait;
use tube_cell::TubeCell;
use tube_party::{Ask, LogMark, MOST, Rewinds};
use tube_side::{GhostSpeculation, Mark, speculate_more};

/// A checkpoint: the start of a speculation, and the end of the log there.
#[derive(Drop)]
pub(crate) struct Checkpoint {
    pub(crate) mark: Mark,
    pub(crate) log: LogMark,
}

/// Returns the tick that a party has reached whose next ask below `n` is `ask`.
pub(crate) fn reached(n: Tick, ask: Ask) -> Tick
    ensures { IsReached n.0 ask result.0 }
{
    match ask {
        Ask::Nothing => n,
        Ask::Access(tick, _) | Ask::Look(tick) => tick,
    }
}

/// Runs the first stride, up to tick `end`, while the mark shows what the machine asks for. Returns
/// the next ask. Returns `None`, with machine and log unchanged, if the machine cannot note its
/// steps.
pub(crate) fn set_out<M: Rewinds>(
    half: &mut Half<M>,
    past: &mut M::Past,
    n: Tick,
    from: &Checkpoint,
    end: Tick,
) -> Option<Ask>
    requires ticks { n.0 ≤ MOST }
    requires few { from.now.log.count ≤ M.Party.transitions.due (M.Party.state half.old.machine) }
    requires kept { (length half.old.log.list.items ≡ from.now.log.len) × (half.old.log.count ≡ from.now.log.count) }
    ensures none { IfNone result ((M.Party.state half.new.machine ≡ M.Party.state half.old.machine) × (half.new.log ≡ half.old.log)) }
    ensures some { let here = spec_run M.Party.state M.before past.new half.new from.now in
        IfSome result (λ ask. IsInSpecRun M.Party.transitions n.0 ask here × (here.from.state ≡ M.Party.state half.old.machine)
        × IsStillThere from.now.log half.old.log half.new.log) }
    ensures pass { half.new.pass ≡ half.old.pass }
{
    let mut port = StatusPort::take(&mut half.log, Side::Para, &from.mark.readings, end);
    let lines = &from.mark.readings.lines;
    let ask = half.machine.advance_noting(n, lines, end, past, &mut port);
    half.log = port.log;
    ask
}

/// Runs one stride from `ask` on, up to tick `end`, while the mark shows what the machine asks for.
/// Returns the next ask.
fn stride_to<M: Rewinds>(
    half: &mut Half<M>,
    past: &mut M::Past,
    n: Tick,
    from: &Checkpoint,
    end: Tick,
    ask: Ask,
) -> Ask
    requires ticks { n.0 ≤ MOST }
    requires speculation { IsInSpecRun M.Party.transitions n.0 ask (spec_run M.Party.state M.before past.old half.old from.now) }
    ensures further { let at = spec_run M.Party.state M.before in
        HasGoneFurther M.Party.transitions n.0 ask (at past.old half.old from.now) result (at past.new half.new from.now) }
    ensures pass { half.new.pass ≡ half.old.pass }
{
    if ask == Ask::Nothing {
        return ask;
    }
    let mut port = StatusPort::take(&mut half.log, Side::Para, &from.mark.readings, end);
    let lines = &from.mark.readings.lines;
    let next = half.machine.advance_on(ask, n, lines, end, past, &mut port);
    half.log = port.log;
    next
}

/// Runs strides from the mark and publishes each, until the span is used up, the machine gets no
/// further, or the chip no longer shows what was observed. Returns the next ask.
pub(crate) fn strides_on<W: GhostSpeculation, M: Rewinds, R: Wait>(
    rt: &R,
    cell: &TubeCell,
    half: &mut Half<M>,
    past: &mut M::Past,
    n: Tick,
    from: &Checkpoint,
    ask: Ask,
    stride: &mut Stride,
) -> Ask
    requires ticks { n.0 ≤ MOST }
    requires cell { half.old.pass.cell ≡ cell.now }
    requires side { half.old.pass.side ≡ Para }
    requires is_speculation { IsSpeculation W.speculation × (W.speculation.readings ≡ from.now.mark.readings) }
    requires speculation { IsInSpecRun M.Party.transitions n.0 ask (spec_run M.Party.state M.before past.old half.old from.now) }
    requires told { (p : PassState) × (t : ℕ) × IsReached n.0 ask t × HasSpeculated W.speculation t p half.old.pass }
    ensures further { let at = spec_run M.Party.state M.before in
        HasGoneFurther M.Party.transitions n.0 ask (at past.old half.old from.now) result (at past.new half.new from.now) }
    ensures told { (p : PassState) (t u : ℕ) → IsReached n.0 ask t → IsReached n.0 result u →
        HasSpeculated W.speculation t p half.old.pass → HasSpeculated W.speculation u p half.new.pass }
    ensures paid { (p : PassState) → IsPaidSpeculatively p half.old.pass → IsPaidSpeculatively p half.new.pass }
    ensures seat { (half.new.pass.cell ≡ half.old.pass.cell) × (half.new.pass.side ≡ half.old.pass.side) }
{
    let mut ask = ask;
    for _ in rt.forever() {
        let so_far = reached(n, ask);
        if stride.limit(from.mark.tick) <= so_far {
            return ask;
        }
        let next = stride_to(half, past, n, from, stride.end(so_far), ask);
        let t = reached(n, next);
        ask = next;
        if t <= so_far {
            return ask;
        }
        stride.is_made();
        if !speculate_more::<W, R>(rt, cell, &mut half.pass, &from.mark, t) {
            return ask;
        }
    }
    unreachable!()
}

/// Settles a speculation that reached tick `t` and is confirmed below `spec_horizon`. If both are
/// equal, the machine stays. Otherwise it is rolled back to its mark, and runs up to `spec_horizon`
/// again. Returns the next ask.
pub(crate) fn roll_back<M: Rewinds, R: Wait>(
    rt: &R,
    half: &mut Half<M>,
    past: &mut M::Past,
    n: Tick,
    from: &Checkpoint,
    t: Tick,
    spec_horizon: Tick,
    ask: Ask,
) -> Ask
    requires ticks { n.0 ≤ MOST }
    requires order { (spec_horizon.0 ≤ t.0) × (t.0 ≤ n.0) }
    requires reached { IsReached n.0 ask t.0 }
    requires speculation { IsInSpecRun M.Party.transitions n.0 ask (spec_run M.Party.state M.before past.old half.old from.now) }
    ensures settled { let set_out = (spec_run M.Party.state M.before past.old half.old from.now).from in
        IsSettled M.Party.transitions n.0 set_out spec_horizon.0 result (side_and_log M.Party.state half.new) }
    ensures log { IsStillThere from.now.log half.old.log half.new.log }
    ensures pass { half.new.pass ≡ half.old.pass }
{
    if spec_horizon.0 == t.0 {
        return ask;
    }
    half.machine.rewind(past);
    half.log.cut(from.log);
    observe(rt, half, Side::Para, n, &from.mark.readings, spec_horizon)
}
