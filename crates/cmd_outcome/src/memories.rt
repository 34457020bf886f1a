//! The memories of the machines, their lines in a report, and the report.
ghost use Rattle.std.specs.Prelude.{◌≡◌, IfOk, option_map};
ghost use Rattle.host_mach.specs.View.{host_stepped};
ghost use Rattle.cmd_outcome.specs.Files.{host_line, para_line, frame_count, kept_count, ram_of, report_text};
ghost use Rattle.cmd_outcome.specs.View.{kept_seen, left_seen};

use crate::left::{Kept, Left};
use beeb_bits::Side;
use bus_plug::BusDevice;
use host_mach::HostMachine;
use para_mach::ParaMachine;
use report::{Line, text};
use std::alloc::{AllocError, Global};

// Returns the host's line in a report.
fn host_line<D: BusDevice>(there: &Option<HostMachine<D>>) -> Option<Line>
    ensures { result ≡ option_map host_line (option_map (host_stepped D.plug) there.now) }
{
    match there {
        Some(host) => Some(Line {
            regs: host.regs(),
            stopped: host.halted(),
        }),
        None => None,
    }
}

// Returns the second processor's line in a report.
fn para_line(para: &Option<ParaMachine>) -> Option<Line>
    ensures { result ≡ option_map para_line para.now }
{
    match para {
        Some(machine) => Some(Line {
            regs: machine.regs(),
            stopped: machine.held(),
        }),
        None => None,
    }
}

// Returns the number of frames that the host has.
fn frame_count<D: BusDevice>(host: &Option<HostMachine<D>>) -> Option<u64>
    ensures { result ≡ option_map frame_count (option_map (host_stepped D.plug) host.now) }
{
    match host {
        Some(machine) => Some(machine.frames().len() as u64),
        None => None,
    }
}

// Returns the number of accesses kept.
fn kept_count(kept: &Option<Kept>) -> Option<u64>
    ensures { result ≡ option_map kept_count (option_map kept_seen kept.now) }
{
    match kept {
        Some(kept) => Some(kept.count),
        None => None,
    }
}

/// Returns the text of the report.
#[tactic(auto, unfolding(crate::specs::Files::report_text))]
pub(crate) fn report_text<D: BusDevice>(
    alloc: Global,
    left: &Left<'_, D>,
) -> Result<Vec<u8>, AllocError>
    ensures { IfOk result (λ v. v.items ≡ report_text (left_seen D.plug left.now)) }
{
    let host = host_line(&left.host);
    let para = para_line(&left.para);
    let kept = kept_count(&left.kept);
    let frames = frame_count(&left.host);
    let bytes = text(alloc, left.ticks, host, para, left.tube, kept, frames)?;
    Ok(bytes)
}

/// Returns the memory of a machine. Returns no bytes if it is absent.
pub(crate) fn ram_of<'l, D: BusDevice>(left: &'l Left<'_, D>, side: Side) -> &'l [u8]
    ensures { result.now ≡ ram_of side (left_seen D.plug left.now) }
{
    match side {
        Side::Host => match &left.host {
            Some(machine) => machine.ram(),
            None => &[],
        },
        Side::Para => match &left.para {
            Some(machine) => machine.ram(),
            None => &[],
        },
    }
}
