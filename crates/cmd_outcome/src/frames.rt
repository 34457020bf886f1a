//! The frames taken by shots.
ghost use Rattle.std.specs.Prelude.{◌≡◌, ◌++◌, IfOk, string_bytes};
ghost use Rattle.frame_out.specs.Pixmap.{pixmap};
ghost use Rattle.host_mach.specs.View.{host_stepped};
ghost use Rattle.cmd_outcome.specs.Files.{three_digits, frame_name, frame_bytes};
ghost use Rattle.cmd_outcome.specs.Outputs.{frames};

use crate::output::Output;
use bus_plug::BusDevice;
use frame_out::ppm;
use host_mach::HostMachine;
use raster::Frame;
use std::alloc::{AllocError, Global};

// Returns a number below 1000 in three digits.
fn three_digits(alloc: Global, number: usize) -> Result<String, AllocError>
    ensures { IfOk result (λ text. string_bytes text ≡ three_digits number) }
{
    let (hundreds, tens, ones) = (number / 100, number / 10 % 10, number % 10);
    format!(in alloc; "{hundreds}{tens}{ones}")
}

/// Returns the name of the frame of this number: `OUT.000.ppm` and so on.
pub(crate) fn frame_name(alloc: Global, out: &str, number: usize) -> Result<String, AllocError>
    ensures { IfOk result (λ name. string_bytes name ≡ frame_name out.now number) }
{
    let digits = three_digits(alloc, number)?;
    format!(in alloc; "{out}.{digits}.ppm")
}

// Returns the pixmap of a frame.
fn picture(alloc: Global, frame: &Frame) -> Result<Vec<u8>, AllocError>
    ensures { IfOk result (λ v. v.items ≡ pixmap frame.now) }
{
    let bytes = ppm(alloc, frame)?;
    Ok(bytes)
}

/// Returns the pixmap of the frame of this number. Returns no bytes if there is none.
pub(crate) fn frame_bytes<D: BusDevice>(
    alloc: Global,
    host: &HostMachine<D>,
    number: usize,
) -> Result<Vec<u8>, AllocError>
    ensures { IfOk result (λ v. v.items ≡ frame_bytes number (host_stepped D.plug host.now)) }
{
    match host.frames().get(number) {
        Some(frame) => picture(alloc, frame),
        None => Ok(Vec::new(alloc)),
    }
}

/// Appends `count` frames, numbered from 0.
pub(crate) fn push_frames(outputs: &mut Vec<Output>, count: usize) -> Result<(), AllocError>
    ensures { IfOk result (λ _. outputs.new.items ≡ outputs.old.items ++ frames count) }
{
    for number in 0..count {
        outputs.push(Output::Frame(number))?;
    }
    Ok(())
}
