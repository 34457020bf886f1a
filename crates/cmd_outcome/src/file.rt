//! The file of each output.
ghost use Rattle.std.specs.Prelude.{◌≡◌, ◌++◌, [], IfOk, option_map, string_bytes, unwrap_or};
ghost use Rattle.host_mach.specs.View.{host_stepped};
ghost use Rattle.cmd_stages.specs.View.{seen_file};
ghost use Rattle.cmd_outcome.specs.Files.{bytes_in, disc_bytes, frame_bytes, plug_bytes, trace_text, file_of};
ghost use Rattle.cmd_outcome.specs.Sound.{sound_bytes};
ghost use Rattle.cmd_outcome.specs.View.{items, kept_seen, left_seen};

use crate::discs::disc_bytes;
use crate::frames::{frame_bytes, frame_name};
use crate::left::{Kept, Left};
use crate::memories::{ram_of, report_text};
use crate::output::Output;
use crate::plugs::plug_bytes;
use crate::sound::sound_bytes;
use beeb_bits::Side;
use bus_plug::BusDevice;
use cmd_stages::Leaves;
use host_mach::HostMachine;
use std::alloc::{AllocError, Global};
use std::borrow::CowSlice;

// Returns the bytes of the disc in a drive of the host.
fn disc_in<D: BusDevice>(host: &Option<HostMachine<D>>, drive: u8) -> &[u8]
    ensures { result.now ≡ bytes_in (disc_bytes drive) (option_map (host_stepped D.plug) host.now) }
{
    match host {
        Some(machine) => disc_bytes(machine, drive),
        None => &[],
    }
}

// Returns the pixmap of a frame of the host.
fn frame_in<D: BusDevice>(
    alloc: Global,
    host: &Option<HostMachine<D>>,
    number: usize,
) -> Result<Vec<u8>, AllocError>
    ensures { IfOk result (λ v. v.items ≡ bytes_in (frame_bytes number) (option_map (host_stepped D.plug) host.now)) }
{
    match host {
        Some(machine) => frame_bytes(alloc, machine, number),
        None => Ok(Vec::new(alloc)),
    }
}

// Returns the bytes that a plugged device of the host spills.
fn plug_in<D: BusDevice>(
    alloc: Global,
    host: &Option<HostMachine<D>>,
    number: usize,
) -> Result<Vec<u8>, AllocError>
    ensures { IfOk result (λ v. v.items ≡ bytes_in (plug_bytes number) (option_map (host_stepped D.plug) host.now)) }
{
    match host {
        Some(machine) => plug_bytes(alloc, machine, number),
        None => Ok(Vec::new(alloc)),
    }
}

// Returns the trace of the accesses kept.
fn trace_in(kept: &Option<Kept>) -> &[u8]
    ensures { result.now ≡ bytes_in trace_text (option_map kept_seen kept.now) }
{
    match kept {
        Some(kept) => &kept.trace,
        None => &[],
    }
}

// Returns bytes that may be absent: the session file of a run, or the counts of instruction starts.
fn bytes_there(there: &Option<Vec<u8>>) -> &[u8]
    ensures { result.now ≡ unwrap_or (option_map items there.now) [] }
{
    match there {
        Some(bytes) => bytes,
        None => &[],
    }
}

// Returns the sound of the host.
fn sound_in<D: BusDevice>(alloc: Global, left: &Left<'_, D>) -> Result<Vec<u8>, AllocError>
    ensures { let there = option_map (host_stepped D.plug) left.now.host in
        IfOk result (λ v. v.items ≡ bytes_in (sound_bytes left.now.clock left.now.ticks.0) there) }
{
    match &left.host {
        Some(machine) => sound_bytes(alloc, left.clock, left.ticks, machine),
        None => Ok(Vec::new(alloc)),
    }
}

impl<'a, D: BusDevice> Leaves for Left<'a, D> {
    type Output = Output;

    ghost file_of = { λ l. file_of (left_seen D.plug l) };

    fn file(&self, alloc: Global, output: Output) -> Result<(String, CowSlice<'_, u8>), AllocError>
        ensures { IfOk result (λ f. seen_file f ≡ file_of (left_seen D.plug self.now) output) }
    {
        let out = self.names.out;
        match output {
            Output::Report => Ok((
                format!(in alloc; "{out}.report")?,
                CowSlice::Owned(report_text(alloc, self)?),
            )),
            Output::Memory(Side::Host) => Ok((
                format!(in alloc; "{out}.host")?,
                CowSlice::Borrowed(ram_of(self, Side::Host)),
            )),
            Output::Memory(Side::Para) => Ok((
                format!(in alloc; "{out}.para")?,
                CowSlice::Borrowed(ram_of(self, Side::Para)),
            )),
            Output::Disc(drive) => Ok((
                format!(in alloc; "{out}.d{drive}")?,
                CowSlice::Borrowed(disc_in(&self.host, drive)),
            )),
            Output::Frame(number) => Ok((
                frame_name(alloc, out, number)?,
                CowSlice::Owned(frame_in(alloc, &self.host, number)?),
            )),
            Output::Trace => Ok((
                format!(in alloc; "{out}.trace")?,
                CowSlice::Borrowed(trace_in(&self.kept)),
            )),
            Output::Plug(number) => Ok((
                format!(in alloc; "{out}.plug{number}")?,
                CowSlice::Owned(plug_in(alloc, &self.host, number)?),
            )),
            Output::Sound => Ok((
                String::from_str(alloc, self.names.wav.unwrap_or(""))?,
                CowSlice::Owned(sound_in(alloc, self)?),
            )),
            Output::Session => Ok((
                String::from_str(alloc, self.names.save.unwrap_or(""))?,
                CowSlice::Borrowed(bytes_there(&self.saved)),
            )),
            Output::Listing => Ok((
                format!(in alloc; "{out}.list")?,
                CowSlice::Borrowed(&self.bytes),
            )),
            Output::Counts => Ok((
                format!(in alloc; "{out}.counts")?,
                CowSlice::Borrowed(bytes_there(&self.counts)),
            )),
            Output::Bytes => Ok((
                String::from_str(alloc, out)?,
                CowSlice::Borrowed(&self.bytes),
            )),
        }
    }
}
