//! The stored accesses of a side.
ghost use Rattle.std.specs.Prelude.{◌≡◌, ◌≤◌, ◌<◌, ◌^◌, ◌∷◌, [], IfOk, length, take, vec_capacity};

use std::alloc::{AllocError, Global};
use std::mem;
use tube_trace::Entry;

/// The first `keep` accesses of a side, with room for them all, and the number of all accesses.
#[derive(Drop)]
pub struct Log {
    pub list: Vec<Entry>,
    pub keep: u32,
    pub count: u64,
    ghost room: { keep ≤ vec_capacity list },
}

/// The length and the count of a log at some moment.
#[derive(Clone, Copy)]
pub struct LogMark {
    pub len: usize,
    pub count: u64,
}

impl Log {
    ghost use Rattle.tube_party.specs.Logs.{IsFresh, HasNoted};

    /// Makes an empty log with room for `keep` accesses.
    pub fn new(alloc: Global, keep: u32) -> Result<Log, AllocError>
        ensures { IfOk result (λ log. IsFresh keep log) }
    {
        let list = Vec::with_capacity(alloc, keep as usize)?;
        Ok(Log {
            list,
            keep,
            count: 0,
        })
    }

    /// Counts one more access, and stores it while fewer than `keep` are stored. Takes no memory.
    pub fn note(&mut self, entry: Entry)
        requires { self.old.count < 2 ^ 63 }
        ensures { HasNoted (entry ∷ []) self.old self.new }
    {
        if self.list.len() < self.keep as usize {
            self.list.push_reserved(entry);
        }
        self.count += 1;
    }

    /// Moves the log out, and leaves an empty one.
    pub fn take(&mut self) -> Log
        ensures { result ≡ self.old }
    {
        let empty = Log {
            list: Vec::new(*self.list.allocator()),
            keep: 0,
            count: 0,
        };
        mem::replace(self, empty)
    }

    /// Returns the present length and count.
    pub fn mark(&self) -> LogMark
        ensures len { result.len ≡ length self.now.list.items }
        ensures count { result.count ≡ self.now.count }
    {
        LogMark {
            len: self.list.len(),
            count: self.count,
        }
    }

    /// Removes what was noted after `mark`.
    pub fn cut(&mut self, mark: LogMark)
        ensures list { self.new.list.items ≡ take mark.len self.old.list.items }
        ensures count { self.new.count ≡ mark.count }
        ensures keep { self.new.keep ≡ self.old.keep }
    {
        self.list.truncate(mark.len);
        self.count = mark.count;
    }
}
