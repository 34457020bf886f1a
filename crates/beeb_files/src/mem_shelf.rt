//! A shelf in memory.
ghost use Rattle.std.specs.Prelude.{◌≡◌, ◌↔◌, ◌==◌, IsTrue, IsErrOf, IfOk, IfErr};
ghost use Rattle.std.specs.List.{list_any};
ghost use Rattle.std.specs.Option.{option_copied};
ghost use Rattle.beeb_files.specs.Counts.{NoneFell};
ghost use Rattle.beeb_files.specs.Files.{bytes_of};
ghost use Rattle.beeb_files.specs.Shelf.{IsFound, IsGetCause, SaysTooLong};
ghost use Rattle.beeb_files.specs.Memory.{NamesDiffer, files_of, mem_shelf_state, get_fails, fails_at, after_get};

use crate::shelf::{Shelf, ShelfError};
use std::alloc::Global;
use std::marker::Model;

/// Files in memory. Contracts see the files, the numbers of the calls that must fail, the count of
/// calls and the count of failed calls. Both counts stop at 2^64 - 1.
#[derive(Drop)]
pub struct MemShelf {
    files: Vec<(String, Vec<u8>)>,
    fail: Vec<u32>,
    calls: u64,
    faults: u64,
}

impl Model for MemShelf {
    ghost use Rattle.beeb_files.specs.Memory.{MemShelfState, mem_shelf_code, files_of};

    ghost Value = { MemShelfState };

    ghost coded = { mem_shelf_code };

    ghost view = { λ s. record {
      files = files_of s.files.items;
      failing = s.fail.items;
      calls = s.calls;
      faults = s.faults;
    } };
}

impl MemShelf {
    /// Makes a shelf that holds `files`. The calls with the numbers in `fail` fail; the first call
    /// has the number 0.
    pub fn make(files: Vec<(String, Vec<u8>)>, fail: Vec<u32>) -> MemShelf
        requires { NamesDiffer files.items }
        ensures { result ≡ record {
          files = files_of files.items;
          failing = fail.items;
          calls = 0;
          faults = 0;
        } }
    {
        MemShelf {
            files,
            fail,
            calls: 0,
            faults: 0,
        }
    }
}

// Returns true if the call of this number must fail: it is listed, or the count of faults is at its
// last value.
pub(crate) fn is_to_fail(fail: &[u32], call: u64, faults: u64) -> bool
    ensures { result ≡ fails_at fail.now call faults }
{
    faults == u64::MAX || is_listed(fail, call)
}

fn is_listed(fail: &[u32], call: u64) -> bool
    ensures { result ≡ list_any (λ n. n == call) fail.now }
{
    fail.iter().any(|n| u64::from(*n) == call)
}

// Returns the bytes of the first entry of this name.
fn find<'a>(files: &'a [(String, Vec<u8>)], name: &str) -> Option<&'a [u8]>
    ensures { option_copied result ≡ bytes_of (files_of files.now) name.now }
{
    for (held, bytes) in files {
        if name == held.as_str() {
            return Some(bytes.as_slice());
        }
    }
    None
}

impl Shelf for MemShelf {
    ghost shelf = { mem_shelf_state };

    /// Returns `Failed` if the call's number is listed, the name is not held, or the count of
    /// faults is at its last value.
    fn get(&mut self, alloc: Global, name: &str, cap: u64) -> Result<Vec<u8>, ShelfError>
        ensures files { (mem_shelf_state self.new).files ≡ (mem_shelf_state self.old).files }
        ensures counts { NoneFell (mem_shelf_state self.old).faults (mem_shelf_state self.new).faults }
        ensures found { IfOk result (λ v.
            IsFound (mem_shelf_state self.old) (mem_shelf_state self.new) name.now cap v.items) }
        ensures cause { IfErr result (λ e.
            IsGetCause (mem_shelf_state self.old) (mem_shelf_state self.new) name.now cap e) }
        ensures too_long { SaysTooLong (mem_shelf_state self.old) (mem_shelf_state self.new)
            name.now cap result }
        // The condition of `Failed`, and the whole state afterwards.
        ensures failed { IsErrOf result ShelfError.Failed ↔ IsTrue (get_fails self.old name.now) }
        ensures state { self.new ≡ after_get name.now self.old }
    {
        let call = self.calls;
        self.calls = call.saturating_add(1);
        if is_to_fail(&self.fail, call, self.faults) {
            self.faults = self.faults.saturating_add(1);
            return Err(ShelfError::Failed);
        }
        let Some(bytes) = find(&self.files, name) else {
            self.faults = self.faults.saturating_add(1);
            return Err(ShelfError::Failed);
        };
        if bytes.len() as u64 > cap {
            return Err(ShelfError::TooLong { cap });
        }
        match bytes.to_vec(alloc) {
            Ok(copy) => Ok(copy),
            Err(_) => Err(ShelfError::NoMemory),
        }
    }
}
