//! Both machines at power-on, and the beginning of their run.
ghost use Rattle.std.specs.Prelude.{◌≡◌, ◌<◌, ◌≤◌, All, IfOk, IfSome, length, option_copied, option_map};
ghost use Rattle.host_mach.specs.Step.{host_transitions};
ghost use Rattle.host_mach.specs.View.{host_seen};
ghost use Rattle.para_mach.specs.Step.{para_transitions};
ghost use Rattle.cmd_stages.specs.View.{Gives};
ghost use Rattle.save_state.specs.Saved.{session};
ghost use Rattle.save_state.specs.File.{IsSession};
ghost use Rattle.cmd_machines.specs.Machines.{machines_of};
ghost use Rattle.cmd_machines.specs.Sessions.{begun_if};
ghost use Rattle.cmd_machines.specs.View.{seen_inputs, seen_setup};

use crate::inputs::Inputs;
use crate::law::begun_is_session;
use crate::machines::machines_of;
use crate::sessions::begun_if;
use crate::setup::Setup;
use bus_plug::BusDevice;
use cmd_stages::Refusal;
use cmd_status::Cause;
use host_mach::HostMachine;
use para_mach::ParaMachine;
use save_state::Saved;
use std::alloc::Global;

/// Makes both machines at power-on with the given setup, and the beginning of their run, if its
/// session is saved under a name.
pub fn started<D: BusDevice>(
    alloc: Global,
    save: Option<&str>,
    setup: Setup<D>,
    inputs: Inputs,
) -> Result<(Option<Saved>, HostMachine<D>, ParaMachine), Refusal<Cause>>
    requires slots { All (λ slot. slot.0 < 16) inputs.roms.items }
    requires keys { IfSome inputs.keys (λ keys. length keys.items ≤ 1048576) }
    ensures machines { let made = machines_of (seen_setup D.plug setup) (seen_inputs inputs) in
        Gives (λ m. (host_seen D.plug m.1, m.2)) result made }
    ensures begun { let there = begun_if (option_copied save.entry) (seen_setup D.plug setup) (seen_inputs inputs) in
        IfOk result (λ m. option_map session m.0 ≡ there) }
    ensures keeps { IfOk result (λ m. IfSome m.0 (λ b. IsSession (session b))) }
    ensures host_starts { IfOk result (λ m. host_transitions.closed (host_seen D.plug m.1) ≡ 0) }
    ensures para_starts { IfOk result (λ m. para_transitions.closed m.2 ≡ 0) }
{
    begun_is_session();
    let begun = begun_if(alloc, save, &setup, &inputs)?;
    let (host, para) = machines_of(alloc, setup, inputs)?;
    Ok((begun, host, para))
}
