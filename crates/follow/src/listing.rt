//! The listing of a replay.
ghost use Rattle.std.specs.Prelude.{◌≡◌, ◌≤◌, ◌↔◌, ℕ, None, Some, Err, IfOk, IfErr, Option, All, IsTrue};
ghost use Rattle.tube_trace.specs.Entries.{IsEntry};
ghost use Rattle.tube_party.specs.declared.replaying.Doing.{Doing};
ghost use Rattle.tube_party.specs.Replay.{replay_of};
ghost use Rattle.follow.specs.Listing.{replay_listing};
ghost use Rattle.follow.specs.View.{listing_seen};

use crate::choice::Choice;
use crate::notes::Notes;
use crate::seen::Seen;
use crate::watcher::Watcher;
use beeb_bits::{Side, Tick};
use op_table::Part;
use std::alloc::Global;
use thiserror::Error;
use tube_party::{Doing, MOST, replay};
use tube_trace::Entry;

/// A listing: a line for each of the first 1,048,576 chosen starts, the number of these lines, the
/// number of chosen starts and, if `--counts` is given, the counts of each address.
#[derive(Drop)]
pub struct Listing {
    pub text: Vec<u8>,
    pub listed: u64,
    pub chosen: u64,
    pub counts: Option<Vec<u8>>,
}

/// The reason why there is no listing.
#[derive(Clone, Copy, Debug, PartialEq, Eq, Error)]
pub enum FollowError {
    /// The machine and its side of the trace differ at line `line` of the trace, or one line past
    /// its end if the side has no further entry. `doing` is the access of the machine there, if it
    /// does one.
    #[error("the machine differs from line {line} of the trace")]
    Differs { line: u64, doing: Option<Doing> },
    #[error("no memory")]
    NoMemory,
}

/// Lists the instructions that `machine` starts below tick `n` in its replay against the entries of
/// its side of `trace`. The machine is dropped.
///
/// # Errors
/// `Differs` exactly if the replay ends at that place; otherwise `NoMemory` if memory for the text
/// runs out.
pub fn list<M: Seen>(
    alloc: Global,
    machine: M,
    part: Part,
    side: Side,
    trace: &[Entry],
    n: Tick,
    choice: Choice,
) -> Result<Listing, FollowError>
    requires ticks { n.0 ≤ MOST }
    requires plays { IsTrue (M.plays side) }
    requires entries { All IsEntry trace.now }
    ensures differs { let place = (replay_of M.transitions side trace.now n.0 (M.state machine)).place in
        (line : ℕ) (doing : Option Doing) → (result ≡ Err (FollowError.Differs line doing)) ↔ (place ≡ Some (line, doing)) }
    ensures follows { IfOk result (λ _. (replay_of M.transitions side trace.now n.0 (M.state machine)).place ≡ None) }
    ensures listing { let there = replay_listing M.steps M.sights part side trace.now n.0 choice (M.inside machine) in
        IfOk result (λ listing. listing_seen listing ≡ there) }
{
    let watcher = Watcher {
        machine,
        notes: Notes::new(alloc, part, choice),
    };
    let (watcher, place) = replay(watcher, side, trace, n);
    match place {
        Some((line, doing)) => Err(FollowError::Differs { line, doing }),
        None => match watcher.notes.finish(n) {
            Some(listing) => Ok(listing),
            None => Err(FollowError::NoMemory),
        },
    }
}
