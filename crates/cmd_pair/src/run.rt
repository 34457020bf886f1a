//! `run TICKS OUT --os NAME --tube NAME` and options: both machines, each in a thread of its own.
ghost use Rattle.std.specs.Prelude.{◌≡◌, ◌<◌, ◌≤◌, All, IfOk, IfSome, Ok, length, map, true};
ghost use Rattle.beeb_files.specs.Crew.{Grows};
ghost use Rattle.tube_party.specs.Reference.{reference};
ghost use Rattle.tube_party.specs.OneThread.{IsPlayed, played_of, TakeSides, AreClosedWithin};
ghost use Rattle.cmd_stages.specs.Promise.{IsCrewAfter};
ghost use Rattle.cmd_stages.specs.Stages.{Works};
ghost use Rattle.cmd_machines.specs.View.{seen_inputs, seen_setup};
ghost use Rattle.cmd_outcome.specs.View.{names_seen, verdict_of};
ghost use Rattle.cmd_pair.specs.Solo.{solo_after};
ghost use Rattle.cmd_pair.specs.Code.{nothing};

use beeb_bits::Tick;
use beeb_files::Crew;
use bus_plug::BusDevice;
use cmd_ended::kept_outcome;
use cmd_machines::{Inputs, Setup, started};
use cmd_outcome::{Names, Outcome};
use cmd_stages::Stop;
use cmd_status::Cause;
use session::{PairError, run_pair};
use std::alloc::Global;
use std::sync::Wait;
use std::thread::Threads;
use tube_party::{Done, MOST, Party, Rewinds};

// Runs two parties in two threads of the crew. Returns the cause if they were not run. The function
// is generic over the parties, so that its proof does not unfold the machines.
fn run_parties<E: Drop, C: Crew, H: Party + Send, P: Rewinds + Send, R: Threads + Wait + Sync>(
    rt: &R,
    alloc: Global,
    crew: &mut C,
    host: H,
    para: P,
    n: Tick,
    keep: u32,
) -> Result<Done<H, P>, Stop<E>>
where
    P::Past: Send,
    requires ticks { n.0 ≤ MOST }
    requires sides { TakeSides H.plays P.Party.plays }
    requires closed { AreClosedWithin H.transitions P.Party.transitions (H.state host) (P.Party.state para) n.0 }
    ensures played { let w = reference H.transitions P.Party.transitions (H.state host) (P.Party.state para) n.0 in
        IfOk result (λ d. IsPlayed w keep (played_of H.state P.Party.state d)) }
    // The result is a run of any content, or no thread could be started, or memory ran out.
    ensures works { Works nothing true (C.counts crew.old) (C.counts crew.new) result (Ok tt) }
    ensures grows { Grows (C.counts crew.old) (C.counts crew.new) }
{
    match run_pair(rt, alloc, crew, host, para, n, keep) {
        Ok(done) => Ok(done),
        Err(PairError::NoThread) => Err(Stop::NoThread),
        Err(PairError::NoMemory { .. }) => Err(Stop::NoMemory),
    }
}

/// Makes the outcome of running both machines in two threads. The first `keep` accesses are kept.
#[tactic(auto, unfolding(crate::specs::Solo::solo_after))]
pub fn run_outcome<'a, D: BusDevice + Send, C: Crew, R: Threads + Wait + Sync>(
    rt: &R,
    alloc: Global,
    crew: &mut C,
    setup: Setup<D>,
    ticks: u64,
    keep: u32,
    names: Names<'a>,
    inputs: Inputs,
) -> Result<Outcome<'a, D>, Stop<Cause>>
    requires ticks { ticks ≤ MOST }
    requires keep { keep ≤ 4194304 }
    requires slots { All (λ slot. slot.0 < 16) inputs.roms.items }
    requires keys { IfSome inputs.keys (λ keys. length keys.items ≤ 1048576) }
    ensures works { let names = names_seen names.entry in
        let after = solo_after (seen_setup D.plug setup) ticks keep names (seen_inputs inputs) in
        Works (verdict_of D.plug) true (C.counts crew.old) (C.counts crew.new) result after }
    ensures crew { IsCrewAfter true (C.counts crew.old) (C.counts crew.new) }
{
    let clock = setup.clock;
    let (begun, host, para) = started(alloc, names.save, setup, inputs)?;
    let done = run_parties(rt, alloc, crew, host, para, Tick(ticks), keep)?;
    let outcome = kept_outcome(alloc, clock, begun, done, ticks, keep, names)?;
    Ok(outcome)
}
