//! Reading a trace.
ghost use Rattle.std.specs.Prelude.{◌≡◌, ◌⊎◌, Ok, Err, IfOk, MatchResult, All};
ghost use Rattle.tube_chip.specs.Events.{Rises};
ghost use Rattle.tube_trace.specs.declared.TraceError.TheVariants.{NoMemory};
ghost use Rattle.tube_trace.specs.Trace.{follows, lines_read, trace};
ghost use Rattle.tube_trace.specs.Entries.{IsEntry, events_of};
ghost use Rattle.tube_trace.specs.Text.{HasLine};

use crate::beginning::split_clock;
use crate::law::text_reads_back;
use crate::line::{LENGTH, entry_of};
use crate::{Entry, Trace, TraceError};
use beeb_bits::before;
use std::alloc::Global;

fn follows(last: Option<Entry>, entry: Entry) -> bool
    ensures { result ≡ follows last entry }
{
    match last {
        None => true,
        Some(last) => before(last.tick, last.side, entry.tick, entry.side),
    }
}

// Returns the entries of a text of lines.
#[tactic(auto, unfolding(crate::specs::Trace::lines_read))]
fn read_lines(alloc: Global, bytes: &[u8]) -> Result<Vec<Entry>, TraceError>
    ensures value { MatchResult result (λ v. lines_read bytes.now ≡ Ok v.items)
        (λ e. (e ≡ NoMemory) ⊎ (lines_read bytes.now ≡ Err e)) }
    ensures entries { IfOk result (λ v. All IsEntry v.items) }
{
    let Ok(mut entries) = Vec::with_capacity(alloc, bytes.len() / LENGTH) else {
        return Err(TraceError::NoMemory);
    };
    let mut last = None;
    let mut rest = bytes;
    while !rest.is_empty() {
        let line = entries.len() as u64 + 1;
        let (first, others) = rest.split_at(rest.len().min(LENGTH));
        let Some(entry) = entry_of(first) else {
            return Err(TraceError::BadLine { line });
        };
        if !follows(last, entry) {
            return Err(TraceError::BadOrder { line });
        }
        if entries.push(entry).is_err() {
            return Err(TraceError::NoMemory);
        }
        last = Some(entry);
        rest = others;
    }
    Ok(entries)
}

/// Returns the clock and the entries of a trace's text. A text that begins with `T2` and a line
/// feed is of clock Four, and its lines are those after this beginning. Every other text is of
/// clock Three, and all its lines count. Each line is the tick in ten upper-case hexadecimal
/// digits, `H` or `P`, `R`, `W` or `X`, the number from 0 to 7 and a byte in two digits, separated
/// by spaces and ended by a line feed. Lines rise by tick, with the host's first at equal ticks. A
/// write's byte is the one written, and its answer is 00. `X` is a reset, by `H` alone, with number
/// 0, byte 00 and answer 00.
///
/// # Errors
/// The first line that is outside this form, or not after the one before it. A last line without
/// its line feed is outside it. Lines count from 1; those of clock Four count after the beginning.
#[tactic(auto, unfolding(crate::specs::Trace::trace))]
pub fn read(alloc: Global, bytes: &[u8]) -> Result<Trace, TraceError>
    ensures value { MatchResult result (λ t. trace bytes.now ≡ Ok (t.clock, t.entries.items))
        (λ e. (e ≡ NoMemory) ⊎ (trace bytes.now ≡ Err e)) }
    ensures entries { IfOk result (λ t. All IsEntry t.entries.items) }
    // What is read can be written again.
    ensures lines { IfOk result (λ t. All HasLine t.entries.items) }
    ensures rises { IfOk result (λ t. Rises (events_of t.entries.items)) }
{
    text_reads_back();
    let (clock, lines) = split_clock(bytes);
    let entries = read_lines(alloc, lines)?;
    Ok(Trace { clock, entries })
}
