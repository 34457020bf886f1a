//! The outcome of a command.
ghost use Rattle.std.specs.Prelude.{◌≡◌, IfOk, Ok, [], option_map};
ghost use Rattle.cmd_status.specs.declared.status.Ending.TheVariants.{Done};
ghost use Rattle.cmd_outcome.specs.View.{items, left_seen, names_seen, verdict_of};
ghost use Rattle.cmd_outcome.specs.Names.{one_name};
ghost use Rattle.cmd_outcome.specs.Verdicts.{said_verdict, file_verdict, listing_verdict, machine_verdict};

use crate::left::Left;
use crate::names::Names;
use crate::output::Output;
use crate::outputs::machine_outputs;
use beeb_bits::{Clock, Tick};
use bus_plug::BusDevice;
use cmd_status::Ending;
use std::alloc::{AllocError, Global};

/// The outcome of a command: its ending, its outputs, its text, and its final state.
pub type Outcome<'a, D> = cmd_stages::Outcome<Ending, Output, Left<'a, D>>;

// Makes the final state of a command without a machine: bytes under a name, and the counts, if they
// are written.
fn bytes_left<'a, D: BusDevice>(
    out: &'a str,
    bytes: Vec<u8>,
    counts: Option<Vec<u8>>,
) -> Left<'a, D>
    ensures name { names_seen result.names ≡ one_name out.now }
    ensures bytes { result.bytes.items ≡ bytes.items }
    ensures counts { result.counts ≡ counts }
{
    Left {
        names: Names {
            out,
            wav: None,
            save: None,
        },
        clock: Clock::Three,
        ticks: Tick(0),
        tube: 0,
        host: None,
        para: None,
        kept: None,
        saved: None,
        counts,
        bytes,
    }
}

/// Makes the outcome of a text and no files.
pub fn said_outcome<'a, D: BusDevice>(
    alloc: Global,
    ending: Ending,
    said: Vec<u8>,
) -> Outcome<'a, D>
    ensures { verdict_of D.plug result ≡ said_verdict ending said.items }
{
    cmd_stages::Outcome {
        ending,
        outputs: Vec::new(alloc),
        said,
        left: bytes_left("", Vec::new(alloc), None),
    }
}

/// Makes the outcome of a listing: its file with `bytes`, that of the counts, if they are written,
/// and a text.
pub fn listing_outcome<'a, D: BusDevice>(
    alloc: Global,
    out: &'a str,
    bytes: Vec<u8>,
    counts: Option<Vec<u8>>,
    said: Vec<u8>,
) -> Result<Outcome<'a, D>, AllocError>
    ensures { let counts = option_map items counts in
        IfOk result (λ outcome. verdict_of D.plug outcome ≡ listing_verdict out.now bytes.items counts said.items) }
{
    let mut outputs = Vec::new(alloc);
    outputs.push(Output::Listing)?;
    match counts {
        None => Ok(cmd_stages::Outcome {
            ending: Ending::Done,
            outputs,
            said,
            left: bytes_left(out, bytes, None),
        }),
        Some(counts) => {
            outputs.push(Output::Counts)?;
            Ok(cmd_stages::Outcome {
                ending: Ending::Done,
                outputs,
                said,
                left: bytes_left(out, bytes, Some(counts)),
            })
        }
    }
}

/// Makes the outcome of one file with the given name and bytes.
pub fn file_outcome<'a, D: BusDevice>(
    alloc: Global,
    out: &'a str,
    bytes: Vec<u8>,
) -> Result<Outcome<'a, D>, AllocError>
    ensures { IfOk result (λ outcome. verdict_of D.plug outcome ≡ file_verdict out.now bytes.items) }
{
    let mut outputs = Vec::new(alloc);
    outputs.push(Output::Bytes)?;
    Ok(cmd_stages::Outcome {
        ending: Ending::Done,
        outputs,
        said: Vec::new(alloc),
        left: bytes_left(out, bytes, None),
    })
}

// Makes the outcome of outputs and a final state, if there was memory for the list of outputs. The
// function is generic over the final state, so that its proof does not unfold the machines.
fn with_outputs<L: Drop>(
    alloc: Global,
    outputs: Result<Vec<Output>, AllocError>,
    left: L,
) -> Result<cmd_stages::Outcome<Ending, Output, L>, AllocError>
    ensures outputs { IfOk result (λ o. outputs ≡ Ok o.outputs) }
    ensures left { IfOk result (λ o. o.left ≡ left) }
    ensures done { IfOk result (λ o. (o.ending ≡ Done) × (o.said.items ≡ [])) }
{
    match outputs {
        Ok(outputs) => Ok(cmd_stages::Outcome {
            ending: Ending::Done,
            outputs,
            said: Vec::new(alloc),
            left,
        }),
        Err(error) => Err(error),
    }
}

/// Makes the outcome of the machines' final states.
#[tactic(auto, unfolding(crate::specs::Verdicts::machine_verdict))]
pub fn machine_outcome<'a, D: BusDevice>(
    alloc: Global,
    left: Left<'a, D>,
) -> Result<Outcome<'a, D>, AllocError>
    ensures { IfOk result (λ outcome. verdict_of D.plug outcome ≡ machine_verdict (left_seen D.plug left.entry)) }
{
    let outputs = machine_outputs(alloc, &left);
    with_outputs(alloc, outputs, left)
}
