//! The session file of a run that is saved.
ghost use Rattle.std.specs.Prelude.{◌≡◌, ◌≤◌, ℕ, IfOk, length, take};
ghost use Rattle.tube_chip.specs.Events.{Rises};
ghost use Rattle.tube_trace.specs.Entries.{events_of};
ghost use Rattle.tube_party.specs.Reference.{IsTraceBelow};
ghost use Rattle.save_state.specs.Saved.{session};
ghost use Rattle.save_state.specs.File.{IsSession, file_of};
ghost use Rattle.tube_party.specs.GoingOn.{entries_below};
ghost use Rattle.save_state.specs.Resume.{last_tick};
ghost use Rattle.cmd_ended.specs.Save.{saved_tick, saved_of};

use beeb_bits::Tick;
use save_state::{Saved, encode};
use std::alloc::{AllocError, Global};
use tube_party::MOST;
use tube_trace::Entry;

// Returns the number of entries below a tick. Each entry is before the next, so they are the first
// ones.
#[tactic(auto, using(crate::proofs::SaveLemmas::count_here))]
fn count_below(entries: &[Entry], tick: Tick) -> usize
    requires { Rises (events_of entries.now) }
    ensures below { entries_below tick.0 entries.now ≡ take result entries.now }
    ensures bound { result ≤ length entries.now }
{
    for (place, entry) in entries.iter().enumerate() {
        if tick.0 <= entry.tick.0 {
            return place;
        }
    }
    entries.len()
}

/// Returns the entries below a tick. Each entry is before the next. The result is a trace if the
/// entries are one.
pub fn entries_below(entries: &[Entry], tick: Tick) -> &[Entry]
    requires { Rises (events_of entries.now) }
    ensures below { result.now ≡ entries_below tick.0 entries.now }
    ensures trace { (n : ℕ) → IsTraceBelow n entries.now → IsTraceBelow tick.0 result.now }
{
    &entries[..count_below(entries, tick)]
}

// Returns the tick of the last entry, 0 without entries.
fn last_tick(entries: &[Entry]) -> Tick
    ensures { result.0 ≡ last_tick entries.now }
{
    match entries.last() {
        Some(entry) => entry.tick,
        None => Tick(0),
    }
}

// Returns the moment of the session.
fn saved_tick(n: Tick, all: bool, kept: &[Entry]) -> Tick
    ensures { result.0 ≡ saved_tick n.0 all kept.now }
{
    if all { n } else { last_tick(kept) }
}

/// Makes the session file of a run of `n` ticks with the beginning `begun`, a session of no ticks.
/// `kept` has all its accesses, or the first ones.
#[tactic(auto, unfolding(crate::specs::Save::saved_of))]
pub(crate) fn session_file(
    alloc: Global,
    begun: Saved,
    n: Tick,
    all: bool,
    kept: Vec<Entry>,
) -> Result<Vec<u8>, AllocError>
    requires begun { IsSession (session begun) }
    requires ticks { n.0 ≤ MOST }
    requires few { length kept.items ≤ 4194304 }
    requires trace { IsTraceBelow n.0 kept.items }
    ensures { IfOk result (λ v. v.items ≡ file_of (saved_of (session begun) n.0 all kept.items)) }
{
    let ticks = saved_tick(n, all, &kept);
    let count = count_below(&kept, ticks);
    let mut entries = kept;
    entries.truncate(count);
    let saved = Saved {
        ticks,
        entries,
        ..begun
    };
    let file = encode(alloc, &saved)?;
    Ok(file)
}
