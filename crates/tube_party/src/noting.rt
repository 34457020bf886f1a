//! The memory of a run on one thread, and the accesses that were made before it.
ghost use Rattle.std.specs.Prelude.{◌≡◌, ◌≤◌, ◌<◌, ◌^◌, All, IfOk, length};
ghost use Rattle.beeb_bits.specs.declared.Side.TheVariants.{Host, Para};
ghost use Rattle.tube_chip.specs.Events.{after};
ghost use Rattle.tube_trace.specs.Entries.{IsEntry, events_of};
ghost use Rattle.tube_party.specs.CodeAtWork.{own_of};
ghost use Rattle.tube_party.specs.Logs.{IsFresh, HasNoted};
ghost use Rattle.tube_party.specs.OneThread.{IsKept};

use crate::log::Log;
use crate::rewinds::Rewinds;
use beeb_bits::Side;
use std::alloc::{AllocError, Global};
use tube_chip::Chip;
use tube_trace::Entry;

/// All memory of a run of two parties on one thread: room for the first `keep` accesses of each
/// side, and for the undo notes of the parasite's party.
#[derive(Drop)]
pub struct Room<P: Rewinds> {
    pub keep: u32,
    pub(crate) host_log: Log,
    pub(crate) para_log: Log,
    pub(crate) past: P::Past,
    ghost host: { IsFresh keep host_log },
    ghost para: { IsFresh keep para_log },
}

impl<P: Rewinds> Room<P> {
    /// Takes the memory.
    ///
    /// # Errors
    /// Out of memory.
    pub fn new(alloc: Global, keep: u32) -> Result<Room<P>, AllocError>
        ensures { IfOk result (λ room. room.keep ≡ keep) }
    {
        let host_log = Log::new(alloc, keep)?;
        let para_log = Log::new(alloc, keep)?;
        let past = P::past(alloc)?;
        Ok(Room {
            keep,
            host_log,
            para_log,
            past,
        })
    }
}

/// Notes one more access, in the log of its side.
#[inline(always)]
pub(crate) fn note_own(host_log: &mut Log, para_log: &mut Log, entry: Entry)
    requires host_count { host_log.old.count < 2 ^ 63 }
    requires para_count { para_log.old.count < 2 ^ 63 }
    ensures host { HasNoted (own_of Host entry) host_log.old host_log.new }
    ensures para { HasNoted (own_of Para entry) para_log.old para_log.new }
{
    match entry.side {
        Side::Host => host_log.note(entry),
        Side::Para => para_log.note(entry),
    }
}

/// Returns the chip after the accesses of a list, from power-on. Notes each in the log of its side.
pub(crate) fn note_all(host_log: &mut Log, para_log: &mut Log, entries: &[Entry]) -> Chip
    requires entries { All IsEntry entries.now }
    requires host_none { IsFresh host_log.old.keep host_log.old }
    requires para_none { IsFresh para_log.old.keep para_log.old }
    ensures chip { result ≡ after (events_of entries.now) }
    ensures host { let log = host_log.new in
        IsKept Host (events_of entries.now) host_log.old.keep log.list.items log.count }
    ensures para { let log = para_log.new in
        IsKept Para (events_of entries.now) para_log.old.keep log.list.items log.count }
    ensures keep { (host_log.new.keep ≡ host_log.old.keep) × (para_log.new.keep ≡ para_log.old.keep) }
    ensures few { (host_log.new.count ≤ length entries.now) × (para_log.new.count ≤ length entries.now) }
{
    let mut chip = Chip::new();
    for entry in entries {
        let _ = chip.apply(entry.side, entry.op);
        note_own(host_log, para_log, *entry);
    }
    chip
}
