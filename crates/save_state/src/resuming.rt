//! A run that continues from a session.
ghost use Rattle.std.specs.Prelude.{◌≡◌, ◌≤◌, ℕ, IfOk, Err, None, Some, Option};
ghost use Rattle.tube_party.specs.declared.replaying.Doing.{Doing};
ghost use Rattle.tube_party.specs.OneThread.{IsPlayed, played_of, TakeSides, AreClosedWithin};
ghost use Rattle.tube_party.specs.Reference.{reference, IsTraceBelow};
ghost use Rattle.save_state.specs.declared.resuming.ResumeError.TheVariants.{Differs, NoMemory};
ghost use Rattle.save_state.specs.Resume.{first_difference};

use beeb_bits::{Side, Tick};
use std::alloc::Global;
use tube_party::{
    Doing, Done, MOST, Party, Rewinds, Room, brought_back_is_reference, go_on_from, replay,
};
use tube_trace::Entry;

/// The reason why a run did not continue.
#[derive(Drop)]
pub enum ResumeError<H, P> {
    /// A party and the accesses of the session differ: the line, where accesses count from 1, and
    /// what the party does there, if it does something. Both parties are dropped.
    Differs { line: u64, doing: Option<Doing> },
    /// Out of memory. No step was done, and both parties are returned as they were.
    NoMemory { host: H, para: P },
}

/// Brings two parties back to tick `at`, each by its own replay against the accesses below it, and
/// continues with both at one chip up to tick `n`. The result is that of `solo` for these parties,
/// with the accesses below `at` among those of each side. All memory is taken before the first
/// step.
///
/// # Errors
/// `Differs`, if a party and the accesses of its side differ, the host's difference before the
/// parasite's; `NoMemory`, before any step.
pub fn resume<H: Party, P: Rewinds>(
    alloc: Global,
    host: H,
    para: P,
    entries: &[Entry],
    at: Tick,
    n: Tick,
    keep: u32,
) -> Result<Done<H, P>, ResumeError<H, P>>
    requires ticks { (at.0 ≤ n.0) × (n.0 ≤ MOST) }
    requires sides { TakeSides H.plays P.Party.plays }
    requires entries { IsTraceBelow at.0 entries.now }
    requires closed { AreClosedWithin H.transitions P.Party.transitions (H.state host) (P.Party.state para) at.0 }
    ensures played { let w = reference H.transitions P.Party.transitions (H.state host) (P.Party.state para) n.0 in
        IfOk result (λ d. IsPlayed w keep (played_of H.state P.Party.state d)) }
    ensures agree { let s = H.state host in let t = P.Party.state para in
        IfOk result (λ _. first_difference H.transitions P.Party.transitions entries.now at.0 s t ≡ None) }
    ensures differs { let s = H.state host in let t = P.Party.state para in
        (line : ℕ) (doing : Option Doing) → result ≡ Err (Differs line doing) →
        first_difference H.transitions P.Party.transitions entries.now at.0 s t ≡ Some (line, doing) }
    ensures back { (h : H) (p : P) → result ≡ Err (NoMemory h p) → (h ≡ host) × (p ≡ para) }
{
    let Ok(room) = Room::new(alloc, keep) else {
        return Err(ResumeError::NoMemory { host, para });
    };
    let (host, host_place) = replay(host, Side::Host, entries, at);
    if let Some((line, doing)) = host_place {
        return Err(ResumeError::Differs { line, doing });
    }
    let (para, para_place) = replay(para, Side::Para, entries, at);
    if let Some((line, doing)) = para_place {
        return Err(ResumeError::Differs { line, doing });
    }
    brought_back_is_reference::<H, P>();
    Ok(go_on_from(host, para, entries, n, room))
}
