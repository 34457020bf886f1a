//! The final state of a command, from which the files of its outputs are made.
ghost use Rattle.std.specs.Prelude.{◌≤◌};

use crate::names::Names;
use beeb_bits::{Clock, Tick};
use bus_plug::BusDevice;
use host_mach::HostMachine;
use para_mach::ParaMachine;

/// The accesses kept.
#[derive(Drop)]
pub struct Kept {
    /// The number of accesses kept.
    pub count: u64,
    /// The trace of the accesses kept.
    pub trace: Vec<u8>,
}

/// The final state of a command.
#[derive(Drop)]
pub struct Left<'a, D> {
    pub names: Names<'a>,
    pub clock: Clock,
    pub ticks: Tick,
    /// The number of Tube accesses of the machines that are present.
    pub tube: u64,
    /// The host at its end, with its devices at the step that they have reached.
    pub host: Option<HostMachine<D>>,
    /// The second processor at its end.
    pub para: Option<ParaMachine>,
    pub kept: Option<Kept>,
    /// The session file of the run, if it is saved.
    pub saved: Option<Vec<u8>>,
    /// The counts of instruction starts, if they are written.
    pub counts: Option<Vec<u8>>,
    /// The bytes of an output without a machine.
    pub bytes: Vec<u8>,
    ghost most: { ticks.0 ≤ 1073741824 },
}
