//! A run of two parties on one thread.
ghost use Rattle.std.specs.Prelude.{◌≤◌, IfOk};
ghost use Rattle.tube_party.specs.Reference.{reference};
ghost use Rattle.tube_party.specs.OneThread.{IsPlayed, played_of, TakeSides, AreClosedWithin};

use beeb_bits::Tick;
use std::alloc::{AllocError, Global};
use tube_party::{Done, MOST, Party, Rewinds, solo};

/// Runs two parties on one thread. The function is generic over the parties, so that its proof does
/// not unfold the machines.
pub(crate) fn run_alone<H: Party, P: Rewinds>(
    alloc: Global,
    host: H,
    para: P,
    n: Tick,
    keep: u32,
) -> Result<Done<H, P>, AllocError>
    requires ticks { n.0 ≤ MOST }
    requires sides { TakeSides H.plays P.plays }
    requires closed { AreClosedWithin H.transitions P.transitions (H.state host) (P.state para) n.0 }
    ensures { let w = reference H.transitions P.transitions (H.state host) (P.state para) n.0 in
        IfOk result (λ d. IsPlayed w keep (played_of H.state P.state d)) }
{
    match solo(alloc, host, para, n, keep) {
        Ok(done) => Ok(done),
        Err(_) => Err(AllocError),
    }
}
