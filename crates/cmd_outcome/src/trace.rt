//! The trace that a command reads, and the outcome of a line whose answer is not the chip's.
ghost use Rattle.std.specs.Prelude.{◌≡◌, All, IfOk};
ghost use Rattle.tube_trace.specs.Entries.{IsEntry};
ghost use Rattle.cmd_stages.specs.View.{Gives};
ghost use Rattle.cmd_outcome.specs.Trace.{refusal_of, trace_of, if_same, entries_of, wrong_verdict, wrong_text};
ghost use Rattle.cmd_outcome.specs.View.{verdict_of};

use crate::product::{Outcome, said_outcome};
use beeb_bits::Clock;
use bus_plug::BusDevice;
use cmd_stages::Refusal;
use cmd_status::{Cause, Ending};
use digits::two_digits;
use std::alloc::{AllocError, Global};
use tube_trace::{Entry, Trace, TraceError, read};

#[tactic(auto, unfolding(crate::specs::Trace::wrong_text))]
fn wrong_text(alloc: Global, line: u64, byte: u8) -> Result<Vec<u8>, AllocError>
    ensures { IfOk result (λ v. v.items ≡ wrong_text line byte) }
{
    let front = format!(in alloc; "wrong {line} ")?;
    let mut text = front.as_bytes().to_vec(alloc)?;
    text.extend_from_slice(&two_digits(byte))?;
    text.push(b'\n')?;
    Ok(text)
}

// Returns the refusal for an error in a trace.
fn refusal_of(error: TraceError) -> Refusal<Cause>
    ensures { result ≡ refusal_of error }
{
    match error {
        TraceError::BadLine { line } => Refusal::Cause(Cause::BadTrace { line, kind: 1 }),
        TraceError::BadOrder { line } => Refusal::Cause(Cause::BadTrace { line, kind: 2 }),
        TraceError::NoMemory => Refusal::NoMemory,
    }
}

/// Returns the trace of the bytes, with its clock.
#[tactic(auto, unfolding(crate::specs::Trace::trace_of))]
pub fn trace_of(alloc: Global, bytes: &[u8]) -> Result<Trace, Refusal<Cause>>
    ensures told { Gives (λ t. (t.clock, t.entries.items)) result (trace_of bytes.now) }
    ensures entries { IfOk result (λ t. All IsEntry t.entries.items) }
{
    let trace = read(alloc, bytes).map_err(refusal_of)?;
    Ok(trace)
}

// Returns the entries of a trace if it has the given clock.
fn if_same(clock: Clock, trace: Trace) -> Result<Vec<Entry>, Refusal<Cause>>
    ensures told { Gives (λ v. v.items) result (if_same clock (trace.clock, trace.entries.items)) }
    ensures entries { IfOk result (λ v. v.items ≡ trace.entries.items) }
{
    if trace.clock == clock {
        Ok(trace.entries)
    } else {
        Err(Refusal::Cause(Cause::BadTrace { line: 1, kind: 4 }))
    }
}

/// Returns the entries of the bytes of a trace, which must have the given clock.
#[tactic(auto, unfolding(crate::specs::Trace::entries_of))]
pub fn entries_of(alloc: Global, clock: Clock, bytes: &[u8]) -> Result<Vec<Entry>, Refusal<Cause>>
    ensures told { Gives (λ v. v.items) result (entries_of clock bytes.now) }
    ensures entries { IfOk result (λ v. All IsEntry v.items) }
{
    let trace = trace_of(alloc, bytes)?;
    if_same(clock, trace)
}

/// Makes the outcome of a line for which the chip gives `byte` as the answer.
pub fn wrong_outcome<'a, D: BusDevice>(
    alloc: Global,
    line: u64,
    byte: u8,
) -> Result<Outcome<'a, D>, AllocError>
    ensures { IfOk result (λ outcome. verdict_of D.plug outcome ≡ wrong_verdict line byte) }
{
    let text = wrong_text(alloc, line, byte)?;
    Ok(said_outcome(alloc, Ending::Wrong { line, byte }, text))
}
