//! The outputs of the machines.
ghost use Rattle.std.specs.Prelude.{◌≡◌, ◌++◌, IfOk, option_map, is_some, List};
ghost use Rattle.host_mach.specs.View.{host_stepped};
ghost use Rattle.host_mach.specs.State.{HostState};
ghost use Rattle.cmd_outcome.specs.Outputs.{if_there, of_host, discs, shots, spills, machine_outputs};
ghost use Rattle.cmd_outcome.specs.View.{left_seen};

use crate::discs::push_discs;
use crate::frames::push_frames;
use crate::left::Left;
use crate::output::Output;
use crate::plugs::push_plugs;
use beeb_bits::Side;
use bus_plug::BusDevice;
use host_mach::HostMachine;
use std::alloc::{AllocError, Global};

// Appends an output, if its source is present.
fn push_if<T>(outputs: &mut Vec<Output>, output: Output, part: &Option<T>) -> Result<(), AllocError>
    ensures { IfOk result (λ _. outputs.new.items ≡ outputs.old.items ++ if_there output part.now) }
{
    match part {
        Some(_) => Ok(outputs.push(output)?),
        None => Ok(()),
    }
}

// Appends the discs and the frames of the host, if it is present.
fn push_media<D: BusDevice>(
    outputs: &mut Vec<Output>,
    host: &Option<HostMachine<D>>,
) -> Result<(), AllocError>
    ensures { let there = option_map (host_stepped D.plug) host.now in
        IfOk result (λ _. outputs.new.items ≡ outputs.old.items ++ (of_host discs there ++ of_host shots there)) }
{
    match host {
        Some(machine) => {
            push_discs(outputs, machine)?;
            push_frames(outputs, machine.frames().len())
        }
        None => Ok(()),
    }
}

// Appends the plugged devices of the host, if it is present.
fn push_spills<D: BusDevice>(
    outputs: &mut Vec<Output>,
    host: &Option<HostMachine<D>>,
) -> Result<(), AllocError>
    ensures { let there = option_map (host_stepped D.plug) host.now in
        IfOk result (λ _. outputs.new.items ≡ outputs.old.items ++ of_host spills there) }
{
    match host {
        Some(machine) => push_plugs(outputs, machine.plugs().len()),
        None => Ok(()),
    }
}

/// Returns the outputs of the machines that are present, in the order in which they are written.
#[tactic(auto, unfolding(crate::specs::Outputs::machine_outputs))]
pub(crate) fn machine_outputs<D: BusDevice>(
    alloc: Global,
    left: &Left<'_, D>,
) -> Result<Vec<Output>, AllocError>
    ensures { IfOk result (λ v. v.items ≡ machine_outputs (left_seen D.plug left.now)) }
{
    let mut outputs = Vec::new(alloc);
    outputs.push(Output::Report)?;
    push_if(&mut outputs, Output::Memory(Side::Host), &left.host)?;
    push_if(&mut outputs, Output::Memory(Side::Para), &left.para)?;
    push_media(&mut outputs, &left.host)?;
    push_if(&mut outputs, Output::Trace, &left.kept)?;
    push_spills(&mut outputs, &left.host)?;
    push_if(&mut outputs, Output::Sound, &left.names.wav)?;
    push_if(&mut outputs, Output::Session, &left.names.save)?;
    Ok(outputs)
}
