//! Two parties that are brought back to a moment and continue.
ghost use Rattle.std.specs.Prelude.{◌≡◌, ◌≤◌, IfOk, min};
ghost use Rattle.tube_party.specs.OneThread.{TakeSides, AreClosedWithin};
ghost use Rattle.cmd_session.specs.Back.{AreAccesses, Goes};

use beeb_bits::Tick;
use cmd_ended::entries_below;
use save_state::{ResumeError, resume};
use std::alloc::{AllocError, Global};
use tube_party::{Doing, Done, MOST, Party, Rewinds};
use tube_trace::{Entry, first_wrong};

/// The continuation of two parties after the accesses of a session.
#[derive(Drop)]
pub(crate) enum Back<H, P> {
    /// Both continued from the moment to the end of the run.
    On(Done<H, P>),
    /// The access, counted from 1, whose answer is not the chip's, and the byte that the chip
    /// gives.
    Wrong { line: u64, byte: u8 },
    /// The access, counted from 1, at which a party differs, and the party's access there, if it
    /// makes one.
    Differs { line: u64, doing: Option<Doing> },
}

// Returns the earlier of two ticks.
fn earlier(a: Tick, b: Tick) -> Tick
    ensures { result.0 ≡ min a.0 b.0 }
{
    if a.0 <= b.0 { a } else { b }
}

/// Brings two parties back to a moment by the accesses of a session. Both continue from there if
/// the chip gives all the answers and each party makes its own accesses below the end of the run.
/// The function is generic over the parties, so that its proof does not unfold the machines.
pub(crate) fn bring_back<H: Party, P: Rewinds>(
    alloc: Global,
    host: H,
    para: P,
    entries: &[Entry],
    moment: Tick,
    n: Tick,
    keep: u32,
) -> Result<Back<H, P>, AllocError>
    requires ticks { n.0 ≤ MOST }
    requires entries { AreAccesses moment.0 entries.now }
    requires sides { TakeSides H.plays P.plays }
    requires closed { AreClosedWithin H.transitions P.transitions (H.state host) (P.state para) 0 }
    ensures { let s = H.state host in let t = P.state para in
        IfOk result (λ b. Goes H.state P.state H.transitions P.transitions s t entries.now moment.0 n.0 keep b) }
{
    if let Some((place, byte)) = first_wrong(entries) {
        return Ok(Back::Wrong {
            line: place as u64 + 1,
            byte,
        });
    }
    let at = earlier(moment, n);
    let before = entries_below(entries, at);
    match resume(alloc, host, para, before, at, n, keep) {
        Ok(done) => Ok(Back::On(done)),
        Err(ResumeError::Differs { line, doing }) => Ok(Back::Differs { line, doing }),
        Err(ResumeError::NoMemory { .. }) => Err(AllocError),
    }
}
