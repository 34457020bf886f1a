//! The outcome of both machines at the end of their run, for `solo`, `run` and `resume`.
ghost use Rattle.std.specs.Prelude.{◌≡◌, ◌≤◌, ℕ, List, IfOk, IfSome, length, option_map, take};
ghost use Rattle.tube_chip.specs.Events.{Event};
ghost use Rattle.tube_trace.specs.Entries.{accesses};
ghost use Rattle.tube_trace.specs.Text.{text_of};
ghost use Rattle.tube_party.specs.Reference.{reference};
ghost use Rattle.host_mach.specs.Step.{host_transitions};
ghost use Rattle.para_mach.specs.Step.{para_transitions};
ghost use Rattle.save_state.specs.Saved.{session};
ghost use Rattle.save_state.specs.File.{IsSession};
ghost use Rattle.cmd_outcome.specs.View.{items, kept_seen, names_seen, verdict_of};
ghost use Rattle.cmd_ended.specs.Kept.{kept_verdict, saved_file};
ghost use Rattle.cmd_ended.specs.Code.{AreFiles, AreFirst, AreKept, IsRun};
ghost use Rattle.host_mach.specs.State.{HostState};
ghost use Rattle.para_mach.specs.State.{ParaState};

use crate::saving::session_file;
use beeb_bits::{Clock, Tick};
use bus_plug::BusDevice;
use cmd_outcome::{Kept, Left, Names, Outcome, machine_outcome};
use host_mach::HostMachine;
use para_mach::ParaMachine;
use save_state::Saved;
use std::alloc::{AllocError, Global};
use tube_chip::rising_list_is_merge;
use tube_party::{Done, MOST, reference_is_trace};
use tube_trace::{Entry, merge, write_both};

// Merges the first accesses of each side into the first of both.
fn merged(
    alloc: Global,
    keep: u32,
    host: &[Entry],
    para: &[Entry],
) -> Result<Vec<Entry>, AllocError>
    requires { (n : ℕ) × (list : List Event) × AreFirst n list keep host.now para.now }
    ensures { IfOk result (λ v. (n : ℕ) (list : List Event) → AreFirst n list keep host.now para.now → v.items ≡ take keep (accesses list)) }
{
    rising_list_is_merge();
    Ok(merge(alloc, host, para, keep)?)
}

// Makes the trace of the first accesses of both sides from the first of each.
fn trace_of(
    alloc: Global,
    clock: Clock,
    keep: u32,
    host: &[Entry],
    para: &[Entry],
) -> Result<Vec<u8>, AllocError>
    ensures { IfOk result (λ v. (n : ℕ) (list : List Event) → AreFirst n list keep host.now para.now → v.items ≡ text_of clock (take keep (accesses list))) }
{
    rising_list_is_merge();
    Ok(write_both(alloc, clock, host, para, keep)?)
}

// Makes the session file of a run of `tube` accesses from the first accesses of each side, if it is
// saved.
fn saved_in(
    alloc: Global,
    begun: Option<Saved>,
    n: Tick,
    keep: u32,
    tube: u64,
    host: &[Entry],
    para: &[Entry],
) -> Result<Option<Vec<u8>>, AllocError>
    requires begun { IfSome begun (λ b. IsSession (session b)) }
    requires ticks { n.0 ≤ MOST }
    requires keep { keep ≤ 4194304 }
    requires first { (list : List Event) × AreFirst n.0 list keep host.now para.now }
    ensures { let start = option_map session begun in
        IfOk result (λ f. (list : List Event) → AreFirst n.0 list keep host.now para.now → tube ≡ length (accesses list) →
        option_map items f ≡ saved_file start n.0 keep list) }
{
    let Some(begun) = begun else {
        return Ok(None);
    };
    let kept = merged(alloc, keep, host, para)?;
    let file = session_file(alloc, begun, n, tube <= u64::from(keep), kept)?;
    Ok(Some(file))
}

// Two parties at the end of their run, the number of their accesses, the accesses kept, and the
// session file, if it is saved.
struct Parts<H, P> {
    host: H,
    para: P,
    tube: u64,
    kept: Kept,
    saved: Option<Vec<u8>>,
}

// Makes the results of a run of `n` ticks of two parties. The function is generic over the parties,
// so that its proof does not unfold the machines.
fn ended<H: Drop, P: Drop>(
    alloc: Global,
    clock: Clock,
    begun: Option<Saved>,
    done: Done<H, P>,
    n: Tick,
    keep: u32,
) -> Result<Parts<H, P>, AllocError>
    requires ticks { n.0 ≤ MOST }
    requires keep { keep ≤ 4194304 }
    requires begun { IfSome begun (λ b. IsSession (session b)) }
    requires kept { (list : List Event) × AreKept n.0 list keep done }
    ensures parties { IfOk result (λ e. (e.host ≡ done.host) × (e.para ≡ done.para)) }
    ensures files { let start = option_map session begun in
        IfOk result (λ e. (list : List Event) → AreKept n.0 list keep done → AreFiles clock start n.0 keep list e.tube (kept_seen e.kept) (option_map items e.saved)) }
{
    let Done {
        host,
        para,
        host_list,
        para_list,
        host_count,
        para_count,
        ..
    } = done;
    let tube = host_count + para_count;
    let trace = trace_of(alloc, clock, keep, &host_list, &para_list)?;
    let saved = saved_in(alloc, begun, n, keep, tube, &host_list, &para_list)?;
    let count = tube.min(u64::from(keep));
    Ok(Parts {
        host,
        para,
        tube,
        kept: Kept { count, trace },
        saved,
    })
}

/// Makes the outcome of both machines at the end of their run. The first `keep` accesses are kept.
/// `begun` is the beginning of the run, if its session is saved.
pub fn kept_outcome<'a, D: BusDevice>(
    alloc: Global,
    clock: Clock,
    begun: Option<Saved>,
    done: Done<HostMachine<D>, ParaMachine>,
    ticks: u64,
    keep: u32,
    names: Names<'a>,
) -> Result<Outcome<'a, D>, AllocError>
    requires ticks { ticks ≤ MOST }
    requires keep { keep ≤ 4194304 }
    requires begun { IfSome begun (λ b. IsSession (session b)) }
    requires run { (s : HostState) × (t : ParaState) × IsRun D.plug s t ticks keep done }
    ensures { let verdict = kept_verdict clock (option_map session begun) ticks keep (names_seen names.entry) in
        IfOk result (λ outcome. (s : HostState) (t : ParaState) → IsRun D.plug s t ticks keep done →
        verdict_of D.plug outcome ≡ verdict (reference host_transitions para_transitions s t ticks)) }
{
    reference_is_trace::<HostMachine<D>, ParaMachine>();
    let parts = ended(alloc, clock, begun, done, Tick(ticks), keep)?;
    let Parts {
        host,
        para,
        tube,
        kept,
        saved,
    } = parts;
    let left = Left {
        names,
        clock,
        ticks: Tick(ticks),
        tube,
        host: Some(host.settled()),
        para: Some(para),
        kept: Some(kept),
        saved,
        counts: None,
        bytes: Vec::new(alloc),
    };
    machine_outcome(alloc, left)
}
