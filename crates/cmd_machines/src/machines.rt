//! Both machines at power-on, made from what a command read.
ghost use Rattle.std.specs.Prelude.{◌≡◌, ◌<◌, All, Ok, Err, List, ℕ, map, IfOk, MatchResult};
ghost use Rattle.host_mach.specs.Step.{host_transitions};
ghost use Rattle.host_mach.specs.View.{host_seen};
ghost use Rattle.para_mach.specs.State.{power_on};
ghost use Rattle.para_mach.specs.Step.{para_transitions};
ghost use Rattle.cmd_stages.specs.View.{Gives};
ghost use Rattle.cmd_machines.specs.Machines.{rom_of, os_of, machines_of};
ghost use Rattle.cmd_machines.specs.View.{seen_inputs, seen_setup};

use crate::discs::discs_of;
use crate::inputs::Inputs;
use crate::roms::roms_of;
use crate::script::script_of;
use crate::setup::Setup;
use beeb_bits::Clock;
use bus_plug::BusDevice;
use cmd_stages::Refusal;
use cmd_status::{Cause, Which};
use host_mach::HostMachine;
use para_mach::{ParaError, ParaMachine};
use std::alloc::Global;

/// The size of the operating system's image in bytes.
const OS_SIZE: usize = 16_384;

/// Makes the second processor at power-on, with the given clock and boot ROM.
#[tactic(auto, unfolding(crate::specs::Machines::rom_of))]
pub fn machine_of(alloc: Global, clock: Clock, rom: Vec<u8>) -> Result<ParaMachine, Refusal<Cause>>
    ensures { let made = rom_of rom.items in
        MatchResult result (λ machine. (machine ≡ power_on clock rom.items) × (made ≡ Ok rom.items))
        (λ refusal. Gives (λ (rom : List ℕ). rom) (Err refusal) made) }
{
    match ParaMachine::make(alloc, clock, rom) {
        Ok(machine) => Ok(machine),
        Err(ParaError::BadTubeRom { len }) => Err(Refusal::Cause(Cause::BadImage {
            which: Which::Tube,
            len,
        })),
        Err(ParaError::NoMemory) => Err(Refusal::NoMemory),
    }
}

// Tests the length of the operating system's image.
#[tactic(auto, unfolding(crate::specs::Machines::os_of))]
fn test_os(os: &[u8]) -> Result<(), Refusal<Cause>>
    ensures { Gives (λ _. os.now) result (os_of os.now) }
{
    if os.len() == OS_SIZE {
        Ok(())
    } else {
        Err(Refusal::Cause(Cause::BadImage {
            which: Which::Os,
            len: os.len() as u64,
        }))
    }
}

/// Makes both machines at power-on with the given setup.
#[tactic(auto, unfolding(crate::specs::Machines::machines_of))]
pub fn machines_of<D: BusDevice>(
    alloc: Global,
    setup: Setup<D>,
    inputs: Inputs,
) -> Result<(HostMachine<D>, ParaMachine), Refusal<Cause>>
    requires { All (λ slot. slot.0 < 16) inputs.roms.items }
    ensures machines { let made = machines_of (seen_setup D.plug setup) (seen_inputs inputs) in
        Gives (λ m. (host_seen D.plug m.0, m.1)) result made }
    ensures host_starts { IfOk result (λ m. host_transitions.closed (host_seen D.plug m.0) ≡ 0) }
    ensures para_starts { IfOk result (λ m. para_transitions.closed m.1 ≡ 0) }
{
    let Setup {
        clock,
        kinds,
        plugs,
        ..
    } = setup;
    test_os(&inputs.os)?;
    let para = machine_of(alloc, clock, inputs.tube)?;
    let roms = roms_of(inputs.os, inputs.roms, inputs.font)?;
    let (d0, d1) = discs_of(alloc, kinds, inputs.disc0, inputs.disc1)?;
    let script = script_of(alloc, inputs.keys)?;
    let host = HostMachine::make(alloc, clock, roms, d0, d1, script, plugs)?;
    Ok((host, para))
}
