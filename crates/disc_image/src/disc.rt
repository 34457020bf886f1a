//! The disc.
ghost use Rattle.std.specs.Prelude.{◌≡◌, ◌≤◌, ◌<◌, ◌+◌, ◌↔◌, ◌⊎◌, IfOk, IfErr, IfSome, MatchOption, Err, None, Some, false, true, length};
ghost use Rattle.disc_image.specs.Image.{sides, largest, has_sector, place, sector_of, with_zeros_to, byte_put};

use crate::{DiscError, Kind};
use std::alloc::{AllocError, Global};
use std::marker::Model;
use std::vec::Vec;

/// The tracks of a side.
const TRACKS: u8 = 80;

/// The sectors of a track.
const SECTORS: u8 = 10;

/// The bytes of a sector.
const SECTOR_SIZE: usize = 256;

/// The bytes of a side.
const SIDE_SIZE: usize = 204_800;

/// A disc: an image that can be read and written.
#[derive(Drop)]
pub struct Disc {
    kind: Kind,
    // The largest image of its kind, with 00 from the end of the disc's image on.
    whole: Vec<u8>,
    len: usize,
}

impl Model for Disc {
    ghost use Rattle.std.specs.Prelude.{take};
    ghost use Rattle.disc_image.specs.Image.{Image};
    ghost use Rattle.disc_image.specs.CodeDisc.{IsWhole};

    ghost Value = { Image };

    ghost view = { λ d. record { kind = d.kind; bytes = take d.len d.whole.items } };

    ghost invariant = { λ d. IsWhole d.kind d.len d.whole.items };
}

fn sides(kind: Kind) -> usize
    ensures value { result ≡ sides kind }
    ensures bound { result ≤ 2 }
{
    match kind {
        Kind::Ssd => 1,
        Kind::Dsd => 2,
    }
}

/// Returns the length of the largest image of a kind.
fn largest(kind: Kind) -> usize
    ensures { result ≡ largest kind }
{
    sides(kind) * SIDE_SIZE
}

/// Returns the place in the image where a sector begins. Returns `None` if the kind does not have
/// the sector.
fn start_of(kind: Kind, side: u8, track: u8, sector: u8) -> Option<usize>
    ensures has { MatchOption result (has_sector kind side track sector ≡ false) (λ _. has_sector kind side track sector ≡ true) }
    ensures value { IfSome result (λ start. start ≡ place kind side track sector 0) }
    ensures room { IfSome result (λ start. start + SECTOR_SIZE ≤ largest kind) }
{
    let sides = sides(kind);
    let side = usize::from(side);
    if side < sides && track < TRACKS && sector < SECTORS {
        let tracks_before = sides * usize::from(track) + side;
        let sectors_before = usize::from(SECTORS) * tracks_before + usize::from(sector);
        Some(SECTOR_SIZE * sectors_before)
    } else {
        None
    }
}

/// Returns the bytes of an image, followed by `more` bytes 00.
fn fill(alloc: Global, mut bytes: Vec<u8>, more: usize) -> Result<Vec<u8>, AllocError>
    ensures { IfOk result (λ whole. whole.items ≡ with_zeros_to bytes.items (length bytes.items + more)) }
{
    let zeros = vec![in alloc; 0; more]?;
    bytes.extend_from_slice(&zeros)?;
    Ok(bytes)
}

impl Disc {
    /// Makes the disc of an image, which may have any length up to the largest of its kind.
    ///
    /// # Errors
    /// `BadDisc` exactly if the image is longer than that. `NoMemory` if out of memory.
    pub fn make(alloc: Global, kind: Kind, bytes: Vec<u8>) -> Result<Disc, DiscError>
        ensures made { IfOk result (λ disc. disc ≡ record { kind = kind; bytes = bytes.items }) }
        ensures length { IfOk result (λ _. length bytes.items ≤ largest kind) }
        ensures refused { (result ≡ Err (DiscError.BadDisc (length bytes.items))) ↔ (largest kind < length bytes.items) }
        ensures cause { IfErr result (λ e. (e ≡ DiscError.NoMemory) ⊎ (e ≡ DiscError.BadDisc (length bytes.items))) }
    {
        let len = bytes.len();
        let largest = largest(kind);
        if largest < len {
            return Err(DiscError::BadDisc { len: len as u64 });
        }
        let Ok(whole) = fill(alloc, bytes, largest - len) else {
            return Err(DiscError::NoMemory);
        };
        Ok(Disc { kind, whole, len })
    }

    /// Returns the 256 bytes of a sector, which are 00 past the image's end. Returns `None` if the
    /// kind has no such sector.
    pub fn sector(&self, side: u8, track: u8, sector: u8) -> Option<&[u8]>
        ensures value { MatchOption result (sector_of self.now side track sector ≡ None) (λ bytes. sector_of self.now side track sector ≡ Some bytes.now) }
        ensures length { IfSome result (λ bytes. length bytes.now ≡ SECTOR_SIZE) }
    {
        let start = start_of(self.kind, side, track, sector)?;
        Some(&self.whole[start..start + SECTOR_SIZE])
    }

    /// Writes byte `at` of a sector. Returns `false`, with the disc unchanged, if the kind has no
    /// such sector. A write to a sector past the image's end extends the image to the end of that
    /// sector.
    #[tactic(auto, using(crate::proofs::Shown::put_is))]
    pub fn put_byte(&mut self, side: u8, track: u8, sector: u8, at: u8, v: u8) -> bool
        ensures has { result ≡ has_sector self.old.kind side track sector }
        ensures disc { self.new ≡ byte_put side track sector at v self.old }
    {
        let Some(start) = start_of(self.kind, side, track, sector) else {
            return false;
        };
        self.whole[start + usize::from(at)] = v;
        self.len = self.len.max(start + SECTOR_SIZE);
        true
    }

    /// Returns the image: as long as the one given, or up to the end of the last sector written if
    /// that is further.
    pub fn bytes(&self) -> &[u8]
        ensures { result.now ≡ self.now.bytes }
    {
        &self.whole[..self.len]
    }
}
