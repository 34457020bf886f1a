//! The parts of a session: images, the font, discs and the key script.
ghost use Rattle.std.specs.Prelude.{◌≡◌, ◌++◌, IfOk, length, OnOk, option_map};
ghost use Rattle.save_state.specs.Fields.{field, Gives};
ghost use Rattle.save_state.specs.Parts.{fits, may_lack, length_of, length_in, body_at, part_at, kind_in, image_at, disc_at, first_kinds, each_at, parts_at};

use crate::fields::{byte_at, field, number_at, outside};
use crate::{Blob, StateError};
use std::alloc::Global;

/// The kind of a part.
#[derive(Clone, Copy)]
pub enum Kind {
    Os,
    Tube,
    Rom,
    Font,
    Disc,
    Keys,
}

/// The number of parts of a session.
const COUNT: usize = 22;

/// The parts before the discs.
const FIRST: [Kind; 19] = [
    Kind::Os,
    Kind::Tube,
    Kind::Rom,
    Kind::Rom,
    Kind::Rom,
    Kind::Rom,
    Kind::Rom,
    Kind::Rom,
    Kind::Rom,
    Kind::Rom,
    Kind::Rom,
    Kind::Rom,
    Kind::Rom,
    Kind::Rom,
    Kind::Rom,
    Kind::Rom,
    Kind::Rom,
    Kind::Rom,
    Kind::Font,
];

/// The length of a part that is absent.
pub(crate) const ABSENT: u32 = 0xffff_ffff;

/// The most bytes of a disc with one side.
const SSD_SIZE: usize = 204_800;

fn fits(kind: Kind, len: u32) -> bool
    ensures { result ≡ fits kind len }
{
    match kind {
        Kind::Os => len == 16_384,
        Kind::Tube => len == 2_048,
        Kind::Rom => len == 8_192 || len == 16_384,
        Kind::Font => len == 960,
        Kind::Disc => len <= 409_600,
        Kind::Keys => len <= 1_048_576,
    }
}

fn may_lack(kind: Kind) -> bool
    ensures { result ≡ may_lack kind }
{
    match kind {
        Kind::Os | Kind::Tube => false,
        Kind::Rom | Kind::Font | Kind::Disc | Kind::Keys => true,
    }
}

fn length_of(kind: Kind, len: u32) -> Option<Option<usize>>
    ensures { result ≡ length_of kind len }
{
    if fits(kind, len) {
        Some(Some(len as usize))
    } else {
        None
    }
}

// Reads the length field of a part. Returns the length, or `None` for a part that is absent, and
// the offset after the field.
fn length_at(kind: Kind, bytes: &[u8], at: usize) -> Result<(Option<usize>, usize), StateError>
    ensures { Gives (λ x. x) result (field 4 (length_in kind) bytes.now at) }
{
    let (len, next) = number_at(bytes, at)?;
    if len == ABSENT {
        if may_lack(kind) {
            return Ok((None, next));
        }
        return Err(outside(at));
    }
    match length_of(kind, len) {
        Some(len) => Ok((len, next)),
        None => Err(outside(at)),
    }
}

fn body_at(
    alloc: Global,
    len: Option<usize>,
    bytes: &[u8],
    at: usize,
) -> Result<(Option<Blob>, usize), StateError>
    ensures { Gives (λ x. x) result (body_at len bytes.now at) }
{
    let Some(len) = len else {
        return Ok((None, at));
    };
    let body = field(bytes, at, len)?;
    let body = Vec::from_slice(alloc, body)?;
    Ok((Some(Blob::new(body)), at + len))
}

// Reads a part that is no disc. Returns the part, and the offset after it.
#[tactic(auto, unfolding(crate::specs::Parts::part_at))]
fn part_at(
    alloc: Global,
    kind: Kind,
    bytes: &[u8],
    at: usize,
) -> Result<(Option<Blob>, usize), StateError>
    ensures { Gives (λ x. x) result (part_at kind bytes.now at) }
{
    let (len, at) = length_at(kind, bytes, at)?;
    body_at(alloc, len, bytes, at)
}

// Reads the kind field of a disc of length `len`. Returns `true` if the disc has two sides, and the
// offset after the field.
fn kind_at(len: usize, bytes: &[u8], at: usize) -> Result<(bool, usize), StateError>
    ensures { Gives (λ x. x) result (field 1 (kind_in len) bytes.now at) }
{
    let (kind, next) = byte_at(bytes, at)?;
    if kind == 0 && len <= SSD_SIZE {
        return Ok((false, next));
    }
    if kind == 1 {
        return Ok((true, next));
    }
    Err(outside(at))
}

fn image_at(
    alloc: Global,
    len: Option<usize>,
    bytes: &[u8],
    at: usize,
) -> Result<((Option<Blob>, bool), usize), StateError>
    ensures { Gives (λ x. x) result (image_at len bytes.now at) }
{
    let Some(len) = len else {
        return Ok(((None, false), at));
    };
    let (dsd, at) = kind_at(len, bytes, at)?;
    let body = field(bytes, at, len)?;
    let body = Vec::from_slice(alloc, body)?;
    Ok(((Some(Blob::new(body)), dsd), at + len))
}

// Reads a disc. Returns the disc, `true` if it has two sides, and the offset after it.
#[tactic(auto, unfolding(crate::specs::Parts::disc_at))]
fn disc_at(
    alloc: Global,
    bytes: &[u8],
    at: usize,
) -> Result<((Option<Blob>, bool), usize), StateError>
    ensures { Gives (λ x. x) result (disc_at bytes.now at) }
{
    let (len, at) = length_at(Kind::Disc, bytes, at)?;
    image_at(alloc, len, bytes, at)
}

// Reads a part of each kind, with room for all parts. Returns the parts, and the offset after them.
fn each_at(
    alloc: Global,
    kinds: &[Kind],
    bytes: &[u8],
    at: usize,
) -> Result<(Vec<Option<Blob>>, usize), StateError>
    ensures { Gives (λ x. (x.0.items, x.1)) result (each_at kinds.now bytes.now at) }
{
    let mut parts = Vec::with_capacity(alloc, COUNT)?;
    let mut next = at;
    for kind in kinds {
        let (part, behind) = part_at(alloc, *kind, bytes, next)?;
        parts.push(part)?;
        next = behind;
    }
    Ok((parts, next))
}

/// Reads all parts. Returns the parts, for each disc `true` if it has two sides, and the offset
/// after the parts.
#[tactic(auto, unfolding(crate::specs::Parts::parts_at))]
pub(crate) fn parts_at(
    alloc: Global,
    bytes: &[u8],
    at: usize,
) -> Result<(Vec<Option<Blob>>, [bool; 2], usize), StateError>
    ensures { Gives (λ x. (record { parts = x.0.items; dsd = x.1 }, x.2)) result (parts_at bytes.now at) }
{
    let (mut parts, at) = each_at(alloc, &FIRST, bytes, at)?;
    let ((disc0, dsd0), at) = disc_at(alloc, bytes, at)?;
    let ((disc1, dsd1), at) = disc_at(alloc, bytes, at)?;
    let (keys, at) = part_at(alloc, Kind::Keys, bytes, at)?;
    parts.push(disc0)?;
    parts.push(disc1)?;
    parts.push(keys)?;
    Ok((parts, [dsd0, dsd1], at))
}
