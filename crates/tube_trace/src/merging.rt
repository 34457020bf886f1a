//! The entries of both sides in one list.
ghost use Rattle.std.specs.Prelude.{◌≡◌, All, IfOk, option_map, take};
ghost use Rattle.beeb_bits.specs.declared.Side.TheVariants.{Host, Para};
ghost use Rattle.tube_chip.specs.Events.{Rises, merge};
ghost use Rattle.tube_trace.specs.Entries.{events_of};
ghost use Rattle.tube_trace.specs.Merge.{IsOfSide, next_of};
ghost use Rattle.tube_trace.specs.Text.{HasLine};

use crate::Entry;
use beeb_bits::NoMemory;
use std::alloc::{AllocError, Global};

// Returns the entry that comes first, and what is left of both lists.
#[inline(always)]
pub(crate) fn split_first<'a, 'b>(
    host: &'a [Entry],
    para: &'b [Entry],
) -> Option<(Entry, &'a [Entry], &'b [Entry])>
    ensures { option_map (λ r. (r.0, r.1.now, r.2.now)) result ≡ next_of host.now para.now }
{
    match (host, para) {
        ([], []) => None,
        ([a, rest @ ..], []) => Some((*a, rest, para)),
        ([], [b, rest @ ..]) => Some((*b, host, rest)),
        ([a, host_rest @ ..], [b, para_rest @ ..]) => {
            if b.tick < a.tick {
                Some((*b, host, para_rest))
            } else {
                Some((*a, host_rest, para))
            }
        }
    }
}

fn merged(
    alloc: Global,
    mut host: &[Entry],
    mut para: &[Entry],
    keep: u32,
) -> Result<Vec<Entry>, AllocError>
    ensures merged { IfOk result (λ v. events_of v.items ≡ take keep (merge (events_of host.entry.now) (events_of para.entry.now))) }
    ensures lines { IfOk result (λ v. All HasLine host.entry.now → All HasLine para.entry.now → All HasLine v.items) }
{
    let room = host.len().saturating_add(para.len()).min(keep as usize);
    let mut entries = Vec::with_capacity(alloc, room)?;
    for _ in 0..keep {
        let Some((first, host_rest, para_rest)) = split_first(host, para) else {
            break;
        };
        entries.push(first)?;
        host = host_rest;
        para = para_rest;
    }
    Ok(entries)
}

/// Returns the first `keep` entries of both lists in one, by tick, and at equal ticks the host's
/// first.
///
/// # Errors
/// Out of memory.
pub fn merge(
    alloc: Global,
    host: &[Entry],
    para: &[Entry],
    keep: u32,
) -> Result<Vec<Entry>, NoMemory>
    requires host { IsOfSide Host host.now }
    requires para { IsOfSide Para para.now }
    ensures merged { IfOk result (λ v. events_of v.items ≡ take keep (merge (events_of host.now) (events_of para.now))) }
    ensures rises { IfOk result (λ v. Rises (events_of v.items)) }
    ensures lines { IfOk result (λ v. All HasLine host.now → All HasLine para.now → All HasLine v.items) }
{
    Ok(merged(alloc, host, para, keep)?)
}
