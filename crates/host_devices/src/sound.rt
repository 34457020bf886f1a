//! The writes to the sound chip.
ghost use Rattle.std.specs.Prelude.{◌≡◌, ◌≤◌, [], length, IfOk};
ghost use Rattle.host_devices.specs.Sound.{with_write};

use beeb_bits::NoMemory;
use sn76489::SoundWrite;
use std::alloc::Global;
use std::marker::Model;

/// The largest number of stored writes.
const ROOM: usize = 1_048_576;

/// The stored writes, and memory for those to come.
#[derive(Drop)]
pub struct SoundLog {
    writes: Vec<SoundWrite>,
}

impl Model for SoundLog {
    ghost use Rattle.std.specs.Prelude.{List, length, ◌≤◌, vec_capacity};
    ghost use Rattle.sn76489.specs.declared.SoundWrite.{SoundWrite};

    ghost Value = { List SoundWrite };

    ghost view = { λ s. s.writes.items };

    ghost invariant = { λ s. (length s.writes.items ≤ 1048576) × (1048576 ≤ vec_capacity s.writes) };
}

impl SoundLog {
    /// Makes an empty list, with memory for all writes.
    pub fn make(alloc: Global) -> Result<SoundLog, NoMemory>
        ensures { IfOk result (λ s. s ≡ []) }
    {
        let writes = Vec::with_capacity(alloc, ROOM)?;
        Ok(SoundLog { writes })
    }

    /// Stores a write, if there is room. It takes no memory.
    pub fn tell(&mut self, write: SoundWrite)
        ensures { self.new ≡ with_write write self.old }
    {
        if self.writes.len() < ROOM {
            self.writes.push_reserved(write);
        }
    }

    /// Returns the writes, in their order.
    pub fn writes(&self) -> &[SoundWrite]
        ensures value { result.now ≡ self.now }
        ensures few { length result.now ≤ 1048576 }
    {
        let writes = &self.writes;
        writes
    }
}
