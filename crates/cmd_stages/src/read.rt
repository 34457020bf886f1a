//! Reading the files of a command, in order.
ghost use Rattle.std.specs.Prelude.{◌≡◌, map};
ghost use Rattle.beeb_files.specs.Counts.{NoneFell};
ghost use Rattle.cmd_stages.specs.View.{seen_want};
ghost use Rattle.cmd_stages.specs.Stages.{ReadsOne, ReadsAll};

use crate::name::Name;
use crate::stop::Stop;
use beeb_files::{Shelf, ShelfError};
use std::alloc::Global;

// Reads the bytes of one file.
fn read_one<C: Drop, S: Shelf>(
    alloc: Global,
    shelf: &mut S,
    name: &str,
    cap: u64,
) -> Result<Vec<u8>, Stop<C>>
    ensures files { (S.shelf shelf.new).files ≡ (S.shelf shelf.old).files }
    ensures counts { NoneFell (S.shelf shelf.old).faults (S.shelf shelf.new).faults }
    ensures read { ReadsOne name.now cap (S.shelf shelf.old) (S.shelf shelf.new) result }
{
    match shelf.get(alloc, name, cap) {
        Ok(bytes) => Ok(bytes),
        Err(ShelfError::Failed) => Err(Stop::ReadFault(Name::of(alloc, name)?)),
        Err(ShelfError::TooLong { .. }) => Err(Stop::TooLong(Name::of(alloc, name)?)),
        Err(ShelfError::NoMemory) => Err(Stop::NoMemory),
    }
}

/// Reads the bytes of each file in `wants`, in order. Returns the cause of the first one that is
/// refused.
pub fn read_all<K: Copy, C: Drop, S: Shelf>(
    alloc: Global,
    shelf: &mut S,
    wants: &[(K, &str, u64)],
) -> Result<Vec<(K, Vec<u8>)>, Stop<C>>
    ensures files { (S.shelf shelf.new).files ≡ (S.shelf shelf.old).files }
    ensures counts { NoneFell (S.shelf shelf.old).faults (S.shelf shelf.new).faults }
    ensures read { ReadsAll (map seen_want wants.now) (S.shelf shelf.old) (S.shelf shelf.new) result }
{
    let mut inputs = Vec::new(alloc);
    for (slot, name, cap) in wants {
        let bytes = read_one(alloc, shelf, name, *cap)?;
        inputs.push((*slot, bytes))?;
    }
    Ok(inputs)
}
