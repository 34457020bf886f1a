//! The working folder as a shelf and an outlet, and standard output.
ghost use Rattle.std.specs.Prelude.{◌≡◌, ◌≢◌, ◌≤◌, ◌↔◌, IsOk, IfOk, IfErr, Err, IsErrOf, OnOk, OnErr, IsOkUnless};
ghost use Rattle.beeb_files.specs.Counts.{NoneFell, Rose, one_more};
ghost use Rattle.beeb_files.specs.Shelf.{IsFound, IsGetCause, SaysTooLong};
ghost use Rattle.beeb_files.specs.Files.{put, say, IsPartPut, IsPartSaid};
ghost use Rattle.beeb_files.specs.Outlet.{NoCountFell};
ghost use Rattle.beeb_files.specs.Folder.{dir_shelf_state, dir_outlet_state};

use crate::outlet::{Outlet, PutError};
use crate::replacing;
use crate::shelf::{Shelf, ShelfError};
use std::alloc::Global;
use std::fs::OpenFile;
use std::io::{ErrorKind, Read, Write};
use std::marker::Model;
use std::rt::Files;
use std::{fs, io};

/// The files of the working folder. Contracts see the count of faults alone, which stops at
/// 2^64 - 1.
#[derive(Drop)]
pub struct DirShelf<'a, R: Files> {
    rt: &'a R,
    faults: u64,
}

impl<'a, R: Files> Model for DirShelf<'a, R> {
    ghost use Rattle.std.specs.Prelude.{ℕ};

    ghost Value = { ℕ };

    ghost view = { λ s. s.faults };
}

impl<'a, R: Files> DirShelf<'a, R> {
    /// Makes a shelf that has counted no fault.
    pub fn make(rt: &'a R) -> DirShelf<'a, R>
        ensures { result ≡ 0 }
    {
        DirShelf { rt, faults: 0 }
    }
}

// Reads a file up to its end, but at most `cap` + 1 bytes. Room for all of them is taken before the
// first read, so that the bytes are never moved. One further byte is for the read that finds the
// end. A wrong length from the system costs only room or time.
fn read_up_to<R: Files>(rt: &R, alloc: Global, name: &str, cap: u64) -> io::Result<Vec<u8>> {
    let file = fs::open(rt, name)?;
    let expected = file.metadata()?.len().min(cap);
    let mut bytes = Vec::new(alloc);
    bytes.reserve_exact(expected.saturating_add(2) as usize)?;
    file.take(cap.saturating_add(1)).read_to_end(&mut bytes)?;
    Ok(bytes)
}

impl<'a, R: Files> Shelf for DirShelf<'a, R> {
    ghost shelf = { dir_shelf_state };

    /// Returns `Failed`, and counts a fault, if the file does not exist or the system refuses to
    /// read it.
    fn get(&mut self, alloc: Global, name: &str, cap: u64) -> Result<Vec<u8>, ShelfError>
        ensures files { (dir_shelf_state self.new).files ≡ (dir_shelf_state self.old).files }
        ensures counts { NoneFell (dir_shelf_state self.old).faults (dir_shelf_state self.new).faults }
        ensures found { IfOk result (λ v.
            IsFound (dir_shelf_state self.old) (dir_shelf_state self.new) name.now cap v.items) }
        ensures cause { IfErr result (λ e.
            IsGetCause (dir_shelf_state self.old) (dir_shelf_state self.new) name.now cap e) }
        ensures too_long { SaysTooLong (dir_shelf_state self.old) (dir_shelf_state self.new)
            name.now cap result }
        // A fault is counted if and only if the result is `Failed`.
        ensures counted { IsErrOf result ShelfError.Failed → self.new ≡ one_more self.old }
        ensures not_counted { result ≢ Err ShelfError.Failed → self.new ≡ self.old }
    {
        match read_up_to(self.rt, alloc, name, cap) {
            Ok(bytes) => {
                if bytes.len() as u64 > cap {
                    Err(ShelfError::TooLong { cap })
                } else {
                    Ok(bytes)
                }
            }
            Err(error) => {
                if error.kind() == ErrorKind::OutOfMemory {
                    Err(ShelfError::NoMemory)
                } else {
                    self.faults = self.faults.saturating_add(1);
                    Err(ShelfError::Failed)
                }
            }
        }
    }
}

/// The files of the working folder, and standard output for texts. Contracts see only the count of
/// faults, which stops at 2^64 - 1.
#[derive(Drop)]
pub struct DirOutlet<'a, R: Files + Print> {
    rt: &'a R,
    faults: u64,
}

impl<'a, R: Files + Print> Model for DirOutlet<'a, R> {
    ghost use Rattle.std.specs.Prelude.{ℕ};

    ghost Value = { ℕ };

    ghost view = { λ o. o.faults };
}

impl<'a, R: Files + Print> DirOutlet<'a, R> {
    /// Makes an outlet that has counted no fault.
    pub fn make(rt: &'a R) -> DirOutlet<'a, R>
        ensures { result ≡ 0 }
    {
        DirOutlet { rt, faults: 0 }
    }

    // Returns the result of an attempt, and counts a failure.
    fn answer(&mut self, done: io::Result<()>) -> Result<(), PutError>
        ensures same { IsOk result ↔ IsOk done }
        ensures ok { OnOk result (self.new ≡ self.old) }
        ensures err { OnErr result (self.new ≡ one_more self.old) }
        ensures grows { self.old ≤ self.new }
        ensures rose { OnErr result (Rose self.old self.new) }
        ensures refusal { IsOkUnless result PutError.Failed }
    {
        match done {
            Ok(()) => Ok(()),
            Err(_) => {
                self.faults = self.faults.saturating_add(1);
                Err(PutError::Failed)
            }
        }
    }
}

impl<'a, R: Files + Print> Outlet for DirOutlet<'a, R> {
    ghost outlet = { dir_outlet_state };

    /// Returns `Failed`, and counts a fault, if the system refuses to write the whole file. An
    /// existing plain file is replaced by the whole new one, or stays.
    fn put(&mut self, name: &str, bytes: &[u8]) -> Result<(), PutError>
        ensures ok { OnOk result
            ((dir_outlet_state self.new).files ≡ put name.now bytes.now (dir_outlet_state self.old).files) }
        ensures part { OnErr result
            (IsPartPut name.now bytes.now (dir_outlet_state self.old).files (dir_outlet_state self.new).files) }
        ensures said { (dir_outlet_state self.new).said ≡ (dir_outlet_state self.old).said }
        ensures counts { NoCountFell (dir_outlet_state self.old) (dir_outlet_state self.new) }
        ensures cause { IsErrOf result PutError.Failed →
            Rose ((dir_outlet_state self.old).faults name.now) ((dir_outlet_state self.new).faults name.now) }
        // A fault is counted if and only if the result is `Failed`.
        ensures not_counted { OnOk result (self.new ≡ self.old) }
        ensures counted { OnErr result (self.new ≡ one_more self.old) }
        ensures refusal { IsOkUnless result PutError.Failed }
    {
        let done = replacing::write(self.rt, name, bytes);
        self.answer(done)
    }

    /// Returns `Failed`, and counts a fault, if standard output does not take all bytes. The bytes
    /// have left the program when the call returns.
    fn say(&mut self, bytes: &[u8]) -> Result<(), PutError>
        ensures ok { OnOk result
            ((dir_outlet_state self.new).said ≡ say bytes.now (dir_outlet_state self.old).said) }
        ensures part { OnErr result
            (IsPartSaid bytes.now (dir_outlet_state self.old).said (dir_outlet_state self.new).said) }
        ensures files { (dir_outlet_state self.new).files ≡ (dir_outlet_state self.old).files }
        ensures counts { NoCountFell (dir_outlet_state self.old) (dir_outlet_state self.new) }
        ensures cause { IsErrOf result PutError.Failed →
            Rose (dir_outlet_state self.old).say_faults (dir_outlet_state self.new).say_faults }
        // A fault is counted if and only if the result is `Failed`.
        ensures not_counted { OnOk result (self.new ≡ self.old) }
        ensures counted { OnErr result (self.new ≡ one_more self.old) }
        ensures refusal { IsOkUnless result PutError.Failed }
    {
        let done = io::writer(self.rt).write_all(bytes);
        self.answer(done)
    }
}
