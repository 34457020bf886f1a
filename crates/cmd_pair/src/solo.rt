//! `solo TICKS OUT --os NAME --tube NAME` and options: both machines on one thread.
ghost use Rattle.std.specs.Prelude.{◌<◌, ◌≤◌, All, IfSome, length, map};
ghost use Rattle.cmd_stages.specs.View.{Gives};
ghost use Rattle.cmd_pair.specs.Solo.{solo_after};
ghost use Rattle.cmd_machines.specs.View.{seen_inputs, seen_setup};
ghost use Rattle.cmd_outcome.specs.View.{names_seen, verdict_of};

use crate::alone::run_alone;
use beeb_bits::Tick;
use bus_plug::BusDevice;
use cmd_ended::kept_outcome;
use cmd_machines::{Inputs, Setup, started};
use cmd_outcome::{Names, Outcome};
use cmd_stages::Refusal;
use cmd_status::Cause;
use std::alloc::Global;
use tube_party::MOST;

/// Makes the outcome of running both machines on one thread. The first `keep` accesses are kept.
#[tactic(auto, unfolding(crate::specs::Solo::solo_after))]
pub fn solo_outcome<'a, D: BusDevice>(
    alloc: Global,
    setup: Setup<D>,
    ticks: u64,
    keep: u32,
    names: Names<'a>,
    inputs: Inputs,
) -> Result<Outcome<'a, D>, Refusal<Cause>>
    requires ticks { ticks ≤ MOST }
    requires keep { keep ≤ 4194304 }
    requires slots { All (λ slot. slot.0 < 16) inputs.roms.items }
    requires keys { IfSome inputs.keys (λ keys. length keys.items ≤ 1048576) }
    ensures { let names = names_seen names.entry in
        let after = solo_after (seen_setup D.plug setup) ticks keep names (seen_inputs inputs) in
        Gives (verdict_of D.plug) result after }
{
    let clock = setup.clock;
    let (begun, host, para) = started(alloc, names.save, setup, inputs)?;
    let done = run_alone(alloc, host, para, Tick(ticks), keep)?;
    let outcome = kept_outcome(alloc, clock, begun, done, ticks, keep, names)?;
    Ok(outcome)
}
