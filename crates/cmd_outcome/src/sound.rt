//! The sound of the host.
ghost use Rattle.std.specs.Prelude.{◌≡◌, ◌≤◌, ◌^◌, IfOk};
ghost use Rattle.beeb_bits.specs.Clock.{micro};
ghost use Rattle.sn76489.specs.Samples.{NeverFallFrom};
ghost use Rattle.host_mach.specs.View.{host_stepped};
ghost use Rattle.cmd_outcome.specs.Sound.{microseconds_below, sound_file, sound_bytes};

use beeb_bits::{Clock, Tick};
use bus_plug::BusDevice;
use host_mach::HostMachine;
use sn76489::{SoundWrite, render, wav};
use std::alloc::{AllocError, Global};
use tube_party::MOST;

// Returns the number of microseconds that begin below tick `n`.
fn microseconds_below(clock: Clock, n: Tick) -> u64
    requires { n.0 ≤ MOST }
    ensures value { result ≡ microseconds_below (micro clock) n.0 }
    ensures most { result ≤ 2 ^ 28 }
{
    n.0.div_ceil(clock.micro())
}

// Makes the sound file of the writes after a run of `ticks`.
#[tactic(auto, unfolding(crate::specs::Sound::sound_file))]
fn sound_file(
    alloc: Global,
    clock: Clock,
    ticks: Tick,
    writes: &[SoundWrite],
) -> Result<Vec<u8>, AllocError>
    requires ticks { ticks.0 ≤ MOST }
    requires order { NeverFallFrom 0 writes.now }
    ensures { IfOk result (λ v. v.items ≡ sound_file clock ticks.0 writes.now) }
{
    let samples = render(alloc, writes, microseconds_below(clock, ticks))?;
    let bytes = wav(alloc, &samples)?;
    Ok(bytes)
}

/// Makes the sound file of a host after a run of `ticks`.
pub(crate) fn sound_bytes<D: BusDevice>(
    alloc: Global,
    clock: Clock,
    ticks: Tick,
    host: &HostMachine<D>,
) -> Result<Vec<u8>, AllocError>
    requires { ticks.0 ≤ MOST }
    ensures { IfOk result (λ v. v.items ≡ sound_bytes clock ticks.0 (host_stepped D.plug host.now)) }
{
    sound_file(alloc, clock, ticks, host.sound())
}
