//! `replay SIDE TRACE TICKS OUT` and options.
ghost use Rattle.std.specs.Prelude.{◌≡◌, ◌<◌, ◌≤◌, ℕ, All, IfOk, IsTrue};
ghost use Rattle.tube_trace.specs.Entries.{IsEntry};
ghost use Rattle.cmd_stages.specs.View.{Gives};
ghost use Rattle.cmd_machines.specs.View.{seen_inputs, seen_setup};
ghost use Rattle.cmd_outcome.specs.Left as lefts;
ghost use Rattle.cmd_outcome.specs.View.{names_seen, verdict_of};
ghost use Rattle.cmd_replay.specs.Replay.{left_of, replayed, replay_after};

use crate::counting::side_count;
use crate::parts::Parts;
use beeb_bits::{Clock, Side, Tick};
use bus_plug::BusDevice;
use cmd_machines::{Inputs, Setup};
use cmd_outcome::{Left, Names, Outcome, machine_outcome, wrong_outcome};
use cmd_replayed::{differs_outcome, host_made, para_made};
use cmd_stages::Refusal;
use cmd_status::Cause;
use std::alloc::{AllocError, Global};
use tube_party::{MOST, replay};
use tube_trace::{Entry, first_wrong};

// Makes the outcome of a machine and the entries that were read with it. The function is generic
// over the machine, so that its proof does not unfold one.
fn replayed<'a, D: BusDevice, M: Parts<D>>(
    alloc: Global,
    machine: M,
    side: Side,
    clock: Clock,
    ticks: u64,
    names: Names<'a>,
    entries: &[Entry],
) -> Result<Outcome<'a, D>, AllocError>
    requires ticks { ticks ≤ MOST }
    requires plays { IsTrue (M.plays side) }
    requires entries { All IsEntry entries.now }
    ensures { (left : ℕ → M.State → lefts.Left) →
        ((tube : ℕ) (m : M) → left_of clock ticks tube (names_seen names.entry) (M.shown m) ≡ left tube (M.state m)) →
        IfOk result (λ outcome. verdict_of D.plug outcome ≡ replayed M.transitions side ticks left (entries.now, M.state machine)) }
{
    if let Some((at, byte)) = first_wrong(entries) {
        return wrong_outcome(alloc, at as u64 + 1, byte);
    }
    let n = Tick(ticks);
    match replay(machine, side, entries, n) {
        (machine, None) => {
            let (host, para) = machine.parts();
            let left = Left {
                names,
                clock,
                ticks: n,
                tube: side_count(side, entries, n),
                host,
                para,
                kept: None,
                saved: None,
                counts: None,
                bytes: Vec::new(alloc),
            };
            machine_outcome(alloc, left)
        }
        (_, Some((line, doing))) => differs_outcome(alloc, line, doing),
    }
}

/// Makes the outcome of replaying a side's machine with the given setup and inputs.
#[tactic(auto, unfolding(crate::specs::Replay::replay_after))]
pub fn replay_outcome<'a, D: BusDevice>(
    alloc: Global,
    setup: Setup<D>,
    side: Side,
    ticks: u64,
    names: Names<'a>,
    inputs: Inputs,
) -> Result<Outcome<'a, D>, Refusal<Cause>>
    requires ticks { ticks ≤ MOST }
    requires slots { All (λ slot. slot.0 < 16) inputs.roms.items }
    ensures { let after = replay_after (seen_setup D.plug setup) side ticks (names_seen names.entry) (seen_inputs inputs) in
        Gives (verdict_of D.plug) result after }
{
    let clock = setup.clock;
    match side {
        Side::Host => {
            let (entries, machine) = host_made(alloc, setup, inputs)?;
            Ok(replayed(alloc, machine, side, clock, ticks, names, &entries)?)
        }
        Side::Para => {
            let (entries, machine) = para_made(alloc, clock, inputs)?;
            Ok(replayed(alloc, machine, side, clock, ticks, names, &entries)?)
        }
    }
}
