//! The machines that are replayed against a trace, with its entries.
ghost use Rattle.std.specs.Prelude.{◌≡◌, ◌<◌, All, map, IfOk};
ghost use Rattle.tube_trace.specs.Entries.{IsEntry};
ghost use Rattle.host_mach.specs.View.{host_seen};
ghost use Rattle.cmd_stages.specs.View.{Gives};
ghost use Rattle.cmd_machines.specs.Roms.{roms_of};
ghost use Rattle.cmd_machines.specs.View.{seen_inputs, seen_setup};
ghost use Rattle.cmd_replayed.specs.Made.{entries_at, host_of, para_of};

use beeb_bits::Clock;
use bus_plug::BusDevice;
use cmd_machines::{Inputs, Setup, discs_of, machine_of, roms_of, script_of};
use cmd_outcome::entries_of;
use cmd_stages::Refusal;
use cmd_status::Cause;
use host_mach::HostMachine;
use para_mach::ParaMachine;
use std::alloc::Global;
use tube_trace::Entry;

// Returns the entries of a trace, which must be empty if there is no Tube.
#[tactic(auto, unfolding(crate::specs::Made::entries_at))]
fn entries_at(
    alloc: Global,
    tube: bool,
    clock: Clock,
    trace: &[u8],
) -> Result<Vec<Entry>, Refusal<Cause>>
    ensures told { Gives (λ v. v.items) result (entries_at tube clock trace.now) }
    ensures entries { IfOk result (λ v. All IsEntry v.items) }
{
    if tube {
        return entries_of(alloc, clock, trace);
    }
    if trace.is_empty() {
        Ok(Vec::new(alloc))
    } else {
        Err(Refusal::Cause(Cause::BadTrace { line: 1, kind: 5 }))
    }
}

/// Makes the entries of the trace that was read, and the host at power-on to replay against them.
#[tactic(auto, unfolding(crate::specs::Made::host_of))]
pub fn host_made<D: BusDevice>(
    alloc: Global,
    setup: Setup<D>,
    inputs: Inputs,
) -> Result<(Vec<Entry>, HostMachine<D>), Refusal<Cause>>
    requires { All (λ slot. slot.0 < 16) inputs.roms.items }
    ensures told { let made = host_of (seen_setup D.plug setup) (seen_inputs inputs) in
        Gives (λ m. (m.0.items, host_seen D.plug m.1)) result made }
    ensures entries { IfOk result (λ m. All IsEntry m.0.items) }
{
    let Setup {
        clock,
        kinds,
        plugs,
        tube,
        ..
    } = setup;
    let Inputs {
        trace,
        os,
        roms,
        font,
        disc0,
        disc1,
        keys,
        ..
    } = inputs;
    let roms = roms_of(os, roms, font)?;
    let (d0, d1) = discs_of(alloc, kinds, disc0, disc1)?;
    let entries = entries_at(alloc, tube, clock, &trace)?;
    let script = script_of(alloc, keys)?;
    let machine = HostMachine::make(alloc, clock, roms, d0, d1, script, plugs)?;
    Ok((entries, machine.with_tube(tube)))
}

/// Makes the entries of the trace that was read, and the second processor at power-on to replay
/// against them.
#[tactic(auto, unfolding(crate::specs::Made::para_of))]
pub fn para_made(
    alloc: Global,
    clock: Clock,
    inputs: Inputs,
) -> Result<(Vec<Entry>, ParaMachine), Refusal<Cause>>
    ensures told { Gives (λ m. (m.0.items, m.1)) result (para_of clock (seen_inputs inputs)) }
    ensures entries { IfOk result (λ m. All IsEntry m.0.items) }
{
    let Inputs { trace, tube, .. } = inputs;
    let machine = machine_of(alloc, clock, tube)?;
    let entries = entries_of(alloc, clock, &trace)?;
    Ok((entries, machine))
}
