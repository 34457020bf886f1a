//! Writing a trace.
ghost use Rattle.std.specs.Prelude.{◌≡◌, Ok, All, IfOk};
ghost use Rattle.tube_chip.specs.Events.{Rises};
ghost use Rattle.tube_trace.specs.Entries.{events_of};
ghost use Rattle.tube_trace.specs.Laws.{IsOfByte};
ghost use Rattle.tube_trace.specs.Merge.{of_both};
ghost use Rattle.tube_trace.specs.Text.{HasLine, text_of};
ghost use Rattle.tube_trace.specs.Trace.{trace};

use crate::Entry;
use crate::beginning::beginning;
use crate::law::text_reads_back;
use crate::line::{LENGTH, push_line};
use crate::merging::split_first;
use beeb_bits::{Clock, NoMemory};
use std::alloc::{AllocError, Global};

fn text_of(
    alloc: Global,
    clock: Clock,
    mut host: &[Entry],
    mut para: &[Entry],
    keep: usize,
) -> Result<Vec<u8>, AllocError>
    ensures text { IfOk result (λ v. v.items ≡ text_of clock (of_both keep host.entry.now para.entry.now)) }
    ensures bytes { IfOk result (λ _. All IsOfByte (of_both keep host.entry.now para.entry.now)) }
{
    let beginning = beginning(clock);
    let lines = host.len().saturating_add(para.len()).min(keep);
    let room = lines.saturating_mul(LENGTH).saturating_add(beginning.len());
    let mut text = Vec::with_capacity(alloc, room)?;
    text.extend_from_slice(beginning)?;
    for _ in 0..keep {
        let Some((first, host_rest, para_rest)) = split_first(host, para) else {
            break;
        };
        push_line(&mut text, first)?;
        host = host_rest;
        para = para_rest;
    }
    Ok(text)
}

/// Returns the text of a trace: the beginning of its clock and a line for each entry, in the form
/// that `read` takes.
///
/// # Errors
/// Out of memory.
pub fn write(alloc: Global, clock: Clock, entries: &[Entry]) -> Result<Vec<u8>, NoMemory>
    requires rises { Rises (events_of entries.now) }
    requires lines { All HasLine entries.now }
    ensures text { IfOk result (λ v. v.items ≡ text_of clock entries.now) }
    // In words: `read` returns this clock and these entries.
    ensures back { IfOk result (λ v. trace v.items ≡ Ok (clock, entries.now)) }
{
    text_reads_back();
    Ok(text_of(alloc, clock, entries, &[], entries.len())?)
}

/// Returns the text of a trace of the first `keep` entries of both lists in one, by tick, and at
/// equal ticks the host's first. It is what `write` makes of the result of `merge`, without that
/// list.
///
/// # Errors
/// Out of memory.
pub fn write_both(
    alloc: Global,
    clock: Clock,
    host: &[Entry],
    para: &[Entry],
    keep: u32,
) -> Result<Vec<u8>, NoMemory>
    ensures text { IfOk result (λ v. v.items ≡ text_of clock (of_both keep host.now para.now)) }
    // In words: if these entries rise and have lines, `read` returns this clock and these entries.
    ensures back { let entries = of_both keep host.now para.now in
        IfOk result (λ v. Rises (events_of entries) → All HasLine entries → trace v.items ≡ Ok (clock, entries)) }
{
    text_reads_back();
    Ok(text_of(alloc, clock, host, para, keep as usize)?)
}
