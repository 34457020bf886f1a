//! The machines that are replayed.
ghost use Rattle.std.specs.Prelude.{◌≡◌, Option, Some, None, option_map};
ghost use Rattle.host_mach.specs.State.{HostState};
ghost use Rattle.host_mach.specs.View.{host_seen, host_stepped};
ghost use Rattle.para_mach.specs.State.{ParaState};

use bus_plug::BusDevice;
use host_mach::HostMachine;
use para_mach::ParaMachine;
use tube_party::Party;

/// A machine that is replayed: the host or the second processor.
pub(crate) trait Parts<D: BusDevice>: Party {
    /// The machine in contracts, as the host or as the second processor.
    ghost shown: { Self → Option HostState × Option ParaState };

    /// Returns the machine in its final state. The host's devices have done all steps up to the
    /// closed tick of its bus.
    fn parts(self) -> (Option<HostMachine<D>>, Option<ParaMachine>)
        ensures { (option_map (host_stepped D.plug) result.0, result.1) ≡ shown self };
}

impl<D: BusDevice> Parts<D> for HostMachine<D> {
    ghost shown = { λ m. (Some (host_seen D.plug m), None) };

    fn parts(self) -> (Option<HostMachine<D>>, Option<ParaMachine>) {
        (Some(self.settled()), None)
    }
}

impl<D: BusDevice> Parts<D> for ParaMachine {
    ghost shown = { λ m. (None, Some m) };

    fn parts(self) -> (Option<HostMachine<D>>, Option<ParaMachine>) {
        (None, Some(self))
    }
}
