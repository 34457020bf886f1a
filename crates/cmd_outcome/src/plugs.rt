//! The bytes that the plugged devices spill.
ghost use Rattle.std.specs.Prelude.{◌≡◌, ◌++◌, IfOk};
ghost use Rattle.bus_plug.specs.Plug.{plug_spills};
ghost use Rattle.host_mach.specs.View.{host_stepped};
ghost use Rattle.cmd_outcome.specs.Files.{plug_bytes};
ghost use Rattle.cmd_outcome.specs.Outputs.{plugs};

use crate::output::Output;
use bus_plug::BusDevice;
use host_mach::HostMachine;
use std::alloc::{AllocError, Global};

// Returns the bytes that a device spills.
fn spilled<D: BusDevice>(alloc: Global, plug: &D) -> Result<Vec<u8>, AllocError>
    ensures { IfOk result (λ v. v.items ≡ plug_spills (D.plug plug.now)) }
{
    let mut bytes = Vec::new(alloc);
    plug.spill(&mut bytes)?;
    Ok(bytes)
}

/// Returns the bytes that the plugged device of this number spills. Returns no bytes if there is
/// none.
pub(crate) fn plug_bytes<D: BusDevice>(
    alloc: Global,
    host: &HostMachine<D>,
    number: usize,
) -> Result<Vec<u8>, AllocError>
    ensures { IfOk result (λ v. v.items ≡ plug_bytes number (host_stepped D.plug host.now)) }
{
    match host.plugs().get(number) {
        Some(plug) => spilled(alloc, plug),
        None => Ok(Vec::new(alloc)),
    }
}

/// Appends `count` plugged devices, numbered from 0.
pub(crate) fn push_plugs(outputs: &mut Vec<Output>, count: usize) -> Result<(), AllocError>
    ensures { IfOk result (λ _. outputs.new.items ≡ outputs.old.items ++ plugs count) }
{
    for number in 0..count {
        outputs.push(Output::Plug(number))?;
    }
    Ok(())
}
