//! Both machines, in two threads.
ghost use Rattle.std.specs.Prelude.{◌≡◌, ◌≤◌, ℕ, true, [], Err, IfOk, IfSome, IsErr};
ghost use Rattle.std.specs.Arc.{arc_value};
ghost use Rattle.beeb_bits.specs.declared.Side.TheVariants.{Host, Para};
ghost use Rattle.beeb_files.specs.Counts.{Rose};
ghost use Rattle.beeb_files.specs.Crew.{Grows};
ghost use Rattle.tube_cell.specs.Passes.{PassState};
ghost use Rattle.tube_party.specs.Logs.{IsFresh};
ghost use Rattle.tube_party.specs.OneThread.{IsPlayed, played_of, TakeSides, AreClosedWithin};
ghost use Rattle.tube_party.specs.Reference.{reference};
ghost use Rattle.session.specs.CodeSideAndLog.{place, side_and_log};
ghost use Rattle.session.specs.Work.{HasWorked};
ghost use Rattle.session.specs.declared.pair.PairError.TheVariants.{NoThread, NoMemory};

use crate::half::Half;
use crate::side_job::{AheadJob, SideJob};
use crate::stride::{Strides, USUAL};
use beeb_bits::Tick;
use beeb_files::Crew;
use std::alloc::Global;
use std::sync::{Arc, Wait};
use std::thread::Threads;
use tube_cell::{Pass, TubeCell, Whole};
use tube_party::{Done, Log, MOST, Party, Rewinds, legal_merge_is_reference};

/// The reason why two parties were not run.
#[derive(Drop)]
pub enum PairError<H, P> {
    /// The crew started no thread. Both parties are dropped.
    NoThread,
    /// Out of memory. No step was done, and both parties are returned as they were.
    NoMemory { host: H, para: P },
}

type Shared = Arc<TubeCell, Global>;

// All memory of a run: the cell, held by each side and by the caller; room for the stored accesses
// of each side; and room for the undo notes of the parasite's machine.
#[derive(Drop)]
struct Supplies<P: Rewinds> {
    cell: Shared,
    host_cell: Shared,
    para_cell: Shared,
    whole: Whole,
    host_log: Log,
    para_log: Log,
    past: P::Past,
}

fn take_supplies<P: Rewinds>(alloc: Global, keep: u32) -> Option<Supplies<P>>
    ensures cells { IfSome result (λ s.
        (arc_value s.host_cell ≡ arc_value s.cell) × (arc_value s.para_cell ≡ arc_value s.cell)) }
    ensures whole { IfSome result (λ s. s.whole ≡ arc_value s.cell) }
    ensures logs { IfSome result (λ s. IsFresh keep s.host_log × IsFresh keep s.para_log) }
{
    let (cell, whole) = TubeCell::make(alloc).ok()?;
    let cell = Arc::new(alloc, cell).ok()?;
    let host_cell = Arc::try_clone(&cell).ok()?;
    let para_cell = Arc::try_clone(&cell).ok()?;
    let host_log = Log::new(alloc, keep).ok()?;
    let para_log = Log::new(alloc, keep).ok()?;
    let past = P::past(alloc).ok()?;
    Some(Supplies {
        cell,
        host_cell,
        para_cell,
        whole,
        host_log,
        para_log,
        past,
    })
}

/// Runs two parties at one chip for the ticks below `n`, each in its own thread. The result is that
/// of the reference run, as that of `solo` is, however the threads are scheduled. The first `keep`
/// accesses of each side are stored. All memory is taken before the threads start. The call may
/// wait for a thread; what it promises holds if it returns.
///
/// # Errors
/// `NoThread`, only if the crew counted a fault; `NoMemory`, before any step.
pub fn run_pair<C: Crew, H: Party + Send, P: Rewinds + Send, R: Threads + Wait + Sync>(
    rt: &R,
    alloc: Global,
    crew: &mut C,
    host: H,
    para: P,
    n: Tick,
    keep: u32,
) -> Result<Done<H, P>, PairError<H, P>>
where
    P::Past: Send,
    requires ticks { n.0 ≤ MOST }
    requires sides { TakeSides H.plays P.Party.plays }
    requires closed { AreClosedWithin H.transitions P.Party.transitions (H.state host) (P.Party.state para) n.0 }
    ensures played { let w = reference H.transitions P.Party.transitions (H.state host) (P.Party.state para) n.0 in
        IfOk result (λ d. IsPlayed w keep (played_of H.state P.Party.state d)) }
    ensures worked { IfOk result (λ _. Rose (C.counts crew.old).pairs (C.counts crew.new).pairs) }
    ensures no_thread { result ≡ Err NoThread → Rose (C.counts crew.old).faults (C.counts crew.new).faults }
    ensures no_memory { (h : H) (p : P) →
        result ≡ Err (NoMemory h p) → (h ≡ host) × (p ≡ para) × (crew.new ≡ crew.old) }
    ensures refusing { C.refuses crew.old ≡ true → IsErr result }
    ensures grows { Grows (C.counts crew.old) (C.counts crew.new) }
{
    run_pair_by(rt, alloc, crew, host, para, n, keep, USUAL)
}

/// Does what `run_pair` does, with strides of the lengths `strides`. No promise depends on them:
/// tests use short strides to reach cases that long ones rarely reach.
///
/// # Errors
/// As of `run_pair`.
pub fn run_pair_by<C: Crew, H: Party + Send, P: Rewinds + Send, R: Threads + Wait + Sync>(
    rt: &R,
    alloc: Global,
    crew: &mut C,
    host: H,
    para: P,
    n: Tick,
    keep: u32,
    strides: Strides,
) -> Result<Done<H, P>, PairError<H, P>>
where
    P::Past: Send,
    requires ticks { n.0 ≤ MOST }
    requires sides { TakeSides H.plays P.Party.plays }
    requires closed { AreClosedWithin H.transitions P.Party.transitions (H.state host) (P.Party.state para) n.0 }
    ensures played { let w = reference H.transitions P.Party.transitions (H.state host) (P.Party.state para) n.0 in
        IfOk result (λ d. IsPlayed w keep (played_of H.state P.Party.state d)) }
    ensures worked { IfOk result (λ _. Rose (C.counts crew.old).pairs (C.counts crew.new).pairs) }
    ensures no_thread { result ≡ Err NoThread → Rose (C.counts crew.old).faults (C.counts crew.new).faults }
    ensures no_memory { (h : H) (p : P) →
        result ≡ Err (NoMemory h p) → (h ≡ host) × (p ≡ para) × (crew.new ≡ crew.old) }
    ensures refusing { C.refuses crew.old ≡ true → IsErr result }
    ensures grows { Grows (C.counts crew.old) (C.counts crew.new) }
{
    let Some(
        Supplies {
            cell,
            host_cell,
            para_cell,
            whole,
            host_log,
            para_log,
            past,
        },
    ) = take_supplies::<P>(alloc, keep)
    else {
        return Err(PairError::NoMemory { host, para });
    };
    let (host_pass, para_pass) = cell.split(rt, whole);
    let host_job = job(host, host_pass, host_log, host_cell, n);
    let para_side = job(para, para_pass, para_log, para_cell, n);
    let para_job = AheadJob {
        side: para_side,
        past,
        strides,
    };
    match crew.pair(rt, host_job, para_job) {
        Some((host, para)) => Ok(joined(rt, &cell, host, para)),
        None => Err(PairError::NoThread),
    }
}

// The work of one side.
fn job<M>(machine: M, pass: Pass, log: Log, cell: Shared, n: Tick) -> SideJob<M>
    ensures machine { result.half.machine ≡ machine }
    ensures pass { result.half.pass ≡ pass }
    ensures log { result.half.log ≡ log }
    ensures cell { result.cell ≡ cell }
    ensures end { result.n ≡ n }
{
    SideJob {
        half: Half { machine, pass, log },
        cell,
        n,
    }
}

// Joins both sides at their end. The merge of their lists is legal, so the result is that of the
// reference run.
fn joined<H: Party, P: Party, R: Wait>(
    rt: &R,
    cell: &TubeCell,
    host: Half<H>,
    para: Half<P>,
) -> Done<H, P>
    requires cell { (host.pass.cell ≡ cell.now) × (para.pass.cell ≡ cell.now) }
    requires sides { (host.pass.side ≡ Host) × (para.pass.side ≡ Para) }
    requires published { (host.pass.ahead ≡ []) × (para.pass.ahead ≡ []) }
    requires none_speculative { para.pass.speculative ≡ [] }
    ensures { (s : H.State) (t : P.State) (n : ℕ) (keep : ℕ) (p q : PassState) →
        (p.side ≡ Host) × (p.events ≡ []) → (q.side ≡ Para) × (q.events ≡ []) →
        HasWorked H.transitions n keep (place s p) (side_and_log H.state host) →
        HasWorked P.transitions n keep (place t q) (side_and_log P.state para) →
        IsPlayed (reference H.transitions P.transitions s t n) keep (played_of H.state P.state result) }
{
    legal_merge_is_reference::<H, P>();
    let chip = cell.join(rt, host.pass, para.pass);
    Done {
        host: host.machine,
        para: para.machine,
        chip,
        host_list: host.log.list,
        para_list: para.log.list,
        host_count: host.log.count,
        para_count: para.log.count,
    }
}
