//! Notes of the writes to the RAM, which can then be rolled back.
ghost use Rattle.std.specs.Prelude.{ℕ, List, [], Bool, ◌≡◌, ◌<◌, ◌≤◌, ◌+◌, ◌-◌, min, length, slice_index, slice_set, vec_len, vec_capacity, true, false, IfOk};
ghost use Rattle.para_mach.specs.CodeNotes.{put_back};

use std::alloc::{AllocError, Global};

/// Receives each write to the RAM before it is done.
pub(crate) trait Notes {
    /// The RAM before the writes, from the notes and the RAM after them.
    ghost before: { Self → List ℕ → List ℕ };

    /// There is always room.
    ghost endless: { Bool };

    /// The number of further writes for which there is room, at least.
    ghost room: { Self → ℕ };

    /// Returns `true` only if there is room for two writes.
    fn has_room(&self) -> bool
        ensures { result ≡ true → 2 ≤ room self.now };

    /// Notes the byte at an address. Returns `false`, with nothing noted, if there is no room.
    fn note(&mut self, at: u16, byte: u8) -> bool
        ensures noted { result ≡ true → (ram : List ℕ) (x : ℕ) → slice_index ram at ≡ byte →
            before self.new (slice_set ram at x) ≡ before self.old ram }
        ensures room { room self.old ≤ room self.new + 1 }
        ensures full { result ≡ false → (self.new ≡ self.old) × (endless ≡ false) × (room self.old ≡ 0) };
}

/// Notes nothing.
#[derive(Drop)]
pub(crate) struct NoNotes;

impl Notes for NoNotes {
    ghost before = { λ notes ram. [] };

    ghost endless = { true };

    ghost room = { λ notes. 2 };

    #[inline(always)]
    fn has_room(&self) -> bool {
        true
    }

    #[inline(always)]
    fn note(&mut self, _at: u16, _byte: u8) -> bool {
        true
    }
}

/// The former byte of an address.
#[derive(Clone, Copy, Drop)]
pub(crate) struct Stood {
    pub(crate) at: u16,
    pub(crate) byte: u8,
}

/// The number of writes that can be noted.
const ROOM: usize = 65_536;

/// The former bytes of the addresses that were written, the oldest first.
#[derive(Drop)]
pub(crate) struct UndoLog {
    pub(crate) stood: Vec<Stood>,
    ghost roomy: { 65536 ≤ vec_capacity stood },
}

impl UndoLog {
    /// Makes room for notes.
    pub(crate) fn new(alloc: Global) -> Result<UndoLog, AllocError> {
        let stood = Vec::with_capacity(alloc, ROOM)?;
        Ok(UndoLog { stood })
    }

    /// Drops all notes.
    #[inline(always)]
    pub(crate) fn clear(&mut self)
        ensures items { self.new.stood.items ≡ [] }
        ensures len { vec_len self.new.stood ≡ 0 }
    {
        self.stood.clear();
    }

    /// Returns the number of further writes for which there is room, at most `ROOM`.
    #[inline(always)]
    pub(crate) fn room(&self) -> u64
        ensures { result ≡ min (vec_capacity self.now.stood - vec_len self.now.stood) 65536 }
    {
        self.stood
            .capacity()
            .saturating_sub(self.stood.len())
            .min(ROOM) as u64
    }
}

impl Notes for UndoLog {
    ghost before = { λ notes. put_back notes.stood.items };

    ghost endless = { false };

    ghost room = { λ notes. vec_capacity notes.stood - vec_len notes.stood };

    #[inline(always)]
    fn has_room(&self) -> bool {
        self.stood.len() < self.stood.capacity().saturating_sub(1)
    }

    #[inline(always)]
    fn note(&mut self, at: u16, byte: u8) -> bool {
        if self.stood.len() >= self.stood.capacity() {
            return false;
        }
        self.stood.push_reserved(Stood { at, byte });
        true
    }
}
