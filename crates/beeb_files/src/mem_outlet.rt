//! An outlet in memory.
ghost use Rattle.std.specs.Prelude.{◌≡◌, ◌≤◌, [], IsTrue, IsErrOf, ◌↔◌, OnOk, OnErr};
ghost use Rattle.std.specs.FinMap as files;
ghost use Rattle.std.specs.Option.{option_copied};
ghost use Rattle.beeb_files.specs.Counts.{Rose};
ghost use Rattle.beeb_files.specs.Files.{bytes_of, put, say, IsPartPut, IsPartSaid};
ghost use Rattle.beeb_files.specs.Outlet.{NoCountFell};
ghost use Rattle.beeb_files.specs.Memory.{files_of, mem_outlet_state, write_fails, after_write, with_file, with_said};

use crate::mem_shelf::is_to_fail;
use crate::outlet::{Outlet, PutError};
use std::alloc::{AllocError, Global};
use std::collections::VecDeque;
use std::marker::Model;

/// Files and bytes said, in memory. Contracts see them, the numbers of the calls that must fail,
/// the count of calls and the count of failed calls. `put` and `say` share both counts, which stop
/// at 2^64 - 1.
#[derive(Drop)]
pub struct MemOutlet {
    alloc: Global,
    // The files that were put, the newest first.
    files: VecDeque<(String, Vec<u8>)>,
    said: Vec<u8>,
    fail: Vec<u32>,
    calls: u64,
    faults: u64,
}

impl Model for MemOutlet {
    ghost use Rattle.beeb_files.specs.Memory.{MemOutletState, mem_outlet_code, files_of};

    ghost Value = { MemOutletState };

    ghost coded = { mem_outlet_code };

    ghost view = { λ o. record {
      files = files_of o.files.items;
      said = o.said.items;
      failing = o.fail.items;
      calls = o.calls;
      faults = o.faults;
    } };
}

impl MemOutlet {
    /// Makes an outlet that holds nothing and has said nothing. The calls with the numbers in
    /// `fail` fail; the first call has the number 0.
    pub fn make(alloc: Global, fail: Vec<u32>) -> MemOutlet
        ensures { result ≡ record {
          files = files.empty;
          said = [];
          failing = fail.items;
          calls = 0;
          faults = 0;
        } }
    {
        MemOutlet {
            alloc,
            files: VecDeque::new(alloc),
            said: Vec::new(alloc),
            fail,
            calls: 0,
            faults: 0,
        }
    }

    /// Returns all bytes said.
    pub fn said(&self) -> &[u8]
        ensures { result.now ≡ self.now.said }
    {
        &self.said
    }

    /// Returns the bytes of the file of this name, if it was put.
    pub fn file(&self, name: &str) -> Option<&[u8]>
        ensures { option_copied result ≡ bytes_of self.now.files name.now }
    {
        for (held, bytes) in &self.files {
            if name == held.as_str() {
                return Some(bytes.as_slice());
            }
        }
        None
    }

    // Counts a call. Returns true if it must fail.
    fn refuses(&mut self) -> bool
        ensures fails { result ≡ write_fails self.old }
        ensures grows { self.old.faults ≤ self.new.faults }
        ensures state { self.new ≡ after_write self.old }
    {
        let fails = is_to_fail(&self.fail, self.calls, self.faults);
        self.calls = self.calls.saturating_add(1);
        if fails {
            self.faults = self.faults.saturating_add(1);
        }
        fails
    }
}

// Adds an entry at the front.
fn add(
    alloc: Global,
    log: &mut VecDeque<(String, Vec<u8>)>,
    name: &str,
    bytes: &[u8],
) -> Result<(), AllocError>
    ensures ok { OnOk result
        (files_of log.new.items ≡ files.insert (files_of log.old.items) name.now bytes.now) }
    ensures err { OnErr result (log.new.items ≡ log.old.items) }
{
    let entry = (String::from_str(alloc, name)?, bytes.to_vec(alloc)?);
    log.push_front(entry)?;
    Ok(())
}

impl Outlet for MemOutlet {
    ghost outlet = { mem_outlet_state };

    /// Returns `Failed` if the call's number is listed or the count of faults is at its last value.
    fn put(&mut self, name: &str, bytes: &[u8]) -> Result<(), PutError>
        ensures ok { OnOk result
            ((mem_outlet_state self.new).files ≡ put name.now bytes.now (mem_outlet_state self.old).files) }
        ensures part { OnErr result
            (IsPartPut name.now bytes.now (mem_outlet_state self.old).files (mem_outlet_state self.new).files) }
        ensures said { (mem_outlet_state self.new).said ≡ (mem_outlet_state self.old).said }
        ensures counts { NoCountFell (mem_outlet_state self.old) (mem_outlet_state self.new) }
        ensures cause { IsErrOf result PutError.Failed →
            Rose ((mem_outlet_state self.old).faults name.now) ((mem_outlet_state self.new).faults name.now) }
        // The condition of `Failed`, and the whole state afterwards.
        ensures failed { IsErrOf result PutError.Failed ↔ IsTrue (write_fails self.old) }
        ensures state_ok { OnOk result (self.new ≡ with_file name.now bytes.now (after_write self.old)) }
        ensures state_err { OnErr result (self.new ≡ after_write self.old) }
    {
        if self.refuses() {
            return Err(PutError::Failed);
        }
        match add(self.alloc, &mut self.files, name, bytes) {
            Ok(()) => Ok(()),
            Err(_) => Err(PutError::NoMemory),
        }
    }

    /// Returns `Failed` if the call's number is listed or the count of faults is at its last value.
    fn say(&mut self, bytes: &[u8]) -> Result<(), PutError>
        ensures ok { OnOk result
            ((mem_outlet_state self.new).said ≡ say bytes.now (mem_outlet_state self.old).said) }
        ensures part { OnErr result
            (IsPartSaid bytes.now (mem_outlet_state self.old).said (mem_outlet_state self.new).said) }
        ensures files { (mem_outlet_state self.new).files ≡ (mem_outlet_state self.old).files }
        ensures counts { NoCountFell (mem_outlet_state self.old) (mem_outlet_state self.new) }
        ensures cause { IsErrOf result PutError.Failed →
            Rose (mem_outlet_state self.old).say_faults (mem_outlet_state self.new).say_faults }
        // The condition of `Failed`, and the whole state afterwards.
        ensures failed { IsErrOf result PutError.Failed ↔ IsTrue (write_fails self.old) }
        ensures state_ok { OnOk result (self.new ≡ with_said bytes.now (after_write self.old)) }
        ensures state_err { OnErr result (self.new ≡ after_write self.old) }
    {
        if self.refuses() {
            return Err(PutError::Failed);
        }
        match self.said.extend_from_slice(bytes) {
            Ok(()) => Ok(()),
            Err(_) => Err(PutError::NoMemory),
        }
    }
}
