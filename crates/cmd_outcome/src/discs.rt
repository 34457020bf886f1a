//! The discs in drive 0 and drive 1.
ghost use Rattle.std.specs.Prelude.{◌≡◌, ◌++◌, IfOk};
ghost use Rattle.host_mach.specs.View.{host_stepped};
ghost use Rattle.cmd_outcome.specs.Files.{disc_bytes};
ghost use Rattle.cmd_outcome.specs.Outputs.{discs};

use crate::output::Output;
use bus_plug::BusDevice;
use host_mach::HostMachine;
use std::alloc::{AllocError, Global};

/// Returns the bytes of the disc in a drive. Returns no bytes if there is no disc.
pub(crate) fn disc_bytes<D: BusDevice>(host: &HostMachine<D>, drive: u8) -> &[u8]
    ensures { result.now ≡ disc_bytes drive (host_stepped D.plug host.now) }
{
    match host.disc(drive) {
        Some(disc) => disc.bytes(),
        None => &[],
    }
}

/// Appends the discs that are present.
pub(crate) fn push_discs<D: BusDevice>(
    outputs: &mut Vec<Output>,
    host: &HostMachine<D>,
) -> Result<(), AllocError>
    ensures { IfOk result (λ _. outputs.new.items ≡ outputs.old.items ++ discs (host_stepped D.plug host.now)) }
{
    match (host.disc(0), host.disc(1)) {
        (None, None) => Ok(()),
        (Some(_), None) => Ok(outputs.push(Output::Disc(0))?),
        (None, Some(_)) => Ok(outputs.push(Output::Disc(1))?),
        (Some(_), Some(_)) => {
            outputs.push(Output::Disc(0))?;
            Ok(outputs.push(Output::Disc(1))?)
        }
    }
}
