//! `resume STATE TICKS OUT` and options.
ghost use Rattle.std.specs.Prelude.{◌≡◌, ◌≤◌, IfOk, IfSome, map, option_map};
ghost use Rattle.save_state.specs.Saved.{session};
ghost use Rattle.save_state.specs.File.{IsSession};
ghost use Rattle.cmd_stages.specs.View.{Gives};
ghost use Rattle.cmd_machines.specs.View.{seen_inputs};
ghost use Rattle.cmd_outcome.specs.View.{names_seen, verdict_of};
ghost use Rattle.cmd_session.specs.Session.{session_after};
ghost use Rattle.cmd_session.specs.Comes.{Went, Comes};

use crate::going::{Back, bring_back};
use crate::state::state_of;
use beeb_bits::{Clock, Tick};
use bus_plug::BusDevice;
use cmd_ended::kept_outcome;
use cmd_machines::{Inputs, inputs_in, setup_in, started};
use cmd_outcome::{Names, Outcome, wrong_outcome};
use cmd_replayed::differs_outcome;
use cmd_stages::Refusal;
use cmd_status::Cause;
use host_mach::HostMachine;
use para_mach::ParaMachine;
use save_state::Saved;
use std::alloc::{AllocError, Global};
use tube_party::MOST;

// Makes the outcome after both machines were brought back.
fn ended<'a, D: BusDevice>(
    alloc: Global,
    clock: Clock,
    begun: Option<Saved>,
    there: Back<HostMachine<D>, ParaMachine>,
    ticks: u64,
    keep: u32,
    names: Names<'a>,
) -> Result<Outcome<'a, D>, AllocError>
    requires ticks { ticks ≤ MOST }
    requires keep { keep ≤ 4194304 }
    requires begun { IfSome begun (λ b. IsSession (session b)) }
    requires went { Went D.plug ticks keep there }
    ensures { let names = names_seen names.entry in
        let comes = Comes D.plug clock (option_map session begun) ticks keep names there in
        IfOk result (λ outcome. comes (verdict_of D.plug outcome)) }
{
    match there {
        Back::On(done) => kept_outcome(alloc, clock, begun, done, ticks, keep, names),
        Back::Wrong { line, byte } => wrong_outcome(alloc, line, byte),
        Back::Differs { line, doing } => differs_outcome(alloc, line, doing),
    }
}

/// Makes the outcome of the session that was read. The first `keep` accesses are kept. The first
/// devices of `plugs` are plugged, in the number that the session gives.
#[tactic(auto, unfolding(crate::specs::Session::session_after))]
pub fn session_outcome<'a, D: BusDevice>(
    alloc: Global,
    ticks: u64,
    keep: u32,
    names: Names<'a>,
    plugs: Vec<D>,
    inputs: Inputs,
) -> Result<Outcome<'a, D>, Refusal<Cause>>
    requires ticks { ticks ≤ MOST }
    requires keep { keep ≤ 4194304 }
    ensures { let after = session_after (map D.plug plugs.items) ticks keep (names_seen names.entry) (seen_inputs inputs) in
        Gives (verdict_of D.plug) result after }
{
    let saved = state_of(alloc, &inputs.state)?;
    let setup = setup_in(&saved, plugs);
    let Saved {
        clock,
        ticks: moment,
        parts,
        entries,
        ..
    } = saved;
    let parts = inputs_in(alloc, parts)?;
    let (begun, host, para) = started(alloc, names.save, setup, parts)?;
    let there = bring_back(alloc, host, para, &entries, moment, Tick(ticks), keep)?;
    Ok(ended(alloc, clock, begun, there, ticks, keep, names)?)
}
