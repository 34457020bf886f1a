//! The images of the host's ROMs, and of its teletext font.
#![tactic(auto)]

ghost use Rattle.std.specs.Prelude.{ℕ, ◌≡◌, ◌<◌, ◌≤◌, ◌⊎◌, length, None, Some, All, MatchResult, MatchOption, IfOk, IfSome, slice_index};
ghost use Rattle.std.specs.Option.{ForSome};
ghost use Rattle.rom_set.specs.Roms.{roms_seen, font_seen, rom_byte, font_shape, refusal, first_refused, bad_font, in_slot};
ghost use Rattle.rom_set.specs.Places.{IsPlaced};

use std::marker::Model;
use thiserror::Error;

/// The bytes of the operating system's ROM, and of a slot.
const ROM_SIZE: usize = 16_384;

/// The bytes of a ROM of half that size.
const HALF_SIZE: usize = 8_192;

/// The number of slots.
const SLOTS: usize = 16;

/// The bytes of the font: ten rows for each code from 20 to 7F.
const FONT_SIZE: usize = 960;

/// The rows of a character's shape.
const FONT_ROWS: usize = 10;

/// The code of the font's first shape.
const FIRST_CODE: u8 = 0x20;

/// The reason for which a set of images is refused.
#[derive(Clone, Copy, Debug, PartialEq, Eq, Error)]
pub enum RomError {
    /// The operating system's ROM is not 16,384 bytes long.
    #[error("the operating system has {len} bytes")]
    BadOs { len: u64 },
    /// A slot's ROM is not 8,192 or 16,384 bytes long.
    #[error("the ROM of slot {slot} has {len} bytes")]
    BadSlot { slot: u8, len: u64 },
    /// The font is not 960 bytes long.
    #[error("the font has {len} bytes")]
    BadFont { len: u64 },
}

/// The operating system's ROM, those of the sixteen slots (Acorn, BBC Microcomputer Advanced User
/// Guide, paged ROMs), and the font of the teletext characters, if there is one.
#[derive(Drop)]
pub struct RomSet {
    os: Vec<u8>,
    slots: Vec<(u8, Vec<u8>)>,
    // The place in the list of each slot's ROM.
    places: [Option<usize>; SLOTS],
    font: Option<Vec<u8>>,
}

impl Model for RomSet {
    ghost use Rattle.std.specs.Prelude.{◌≡◌, None};
    ghost use Rattle.rom_set.specs.Roms.{Roms, roms_seen, font_seen, refusal};
    ghost use Rattle.rom_set.specs.Places.{IsPlaced};

    ghost Value = { Roms };

    ghost view = { λ r. record { os = r.os.items; slots = roms_seen r.slots.items; font = font_seen r.font } };

    ghost invariant = { λ r. (refusal r.os.items (roms_seen r.slots.items) (font_seen r.font) ≡ None) × IsPlaced r.slots.items r.places };
}

/// Tests the lengths of the slots' ROMs. Returns the first that is not 8,192 or 16,384 bytes long
/// as an error.
fn test_slots(slots: &[(u8, Vec<u8>)]) -> Result<(), RomError>
    ensures { MatchResult result (λ _. first_refused (roms_seen slots.now) ≡ None) (λ e. first_refused (roms_seen slots.now) ≡ Some e) }
{
    for (slot, bytes) in slots {
        let len = bytes.len();
        if len != HALF_SIZE && len != ROM_SIZE {
            return Err(RomError::BadSlot {
                slot: *slot,
                len: len as u64,
            });
        }
    }
    Ok(())
}

/// Returns the place in the list of each slot's ROM. It goes backwards, so that the first of two
/// ROMs for one slot remains.
fn places(slots: &[(u8, Vec<u8>)]) -> [Option<usize>; SLOTS]
    requires { All (λ slot. slot.0 < 16) slots.now }
    ensures { IsPlaced slots.now result }
{
    let mut places = [None; SLOTS];
    let mut place = slots.len();
    while place > 0 {
        place -= 1;
        places[slots[place].0 as usize] = Some(place);
    }
    places
}

/// Returns a byte of a slot with the ROM `bytes`.
#[inline(always)]
fn byte_of(bytes: &[u8], at: u16) -> u8
    requires length { (length bytes.now ≡ HALF_SIZE) ⊎ (length bytes.now ≡ ROM_SIZE) }
    requires at { at < 16384 }
    ensures { result ≡ slice_index (in_slot bytes.now) at }
{
    let at = at as usize;
    if at < bytes.len() {
        bytes[at]
    } else {
        bytes[at - HALF_SIZE]
    }
}

/// Tests that a font has ten bytes for each of its codes.
fn test_font(font: &Option<Vec<u8>>) -> Result<(), RomError>
    ensures { MatchResult result (λ _. bad_font (font_seen font.now) ≡ None) (λ e. bad_font (font_seen font.now) ≡ Some e) }
{
    match font {
        Some(bytes) if bytes.len() != FONT_SIZE => Err(RomError::BadFont {
            len: bytes.len() as u64,
        }),
        _ => Ok(()),
    }
}

impl RomSet {
    /// Makes the set of an operating system's ROM, the ROMs of some slots, each with its slot's
    /// number below 16, and perhaps a font. A ROM of 8,192 bytes is twice in its slot. If two are
    /// for one slot, the first is in it. A font has ten bytes for each code from 20 on.
    ///
    /// # Errors
    /// `BadOs` exactly if the operating system is not 16,384 bytes long. Otherwise `BadSlot`
    /// exactly at the first ROM that is not 8,192 or 16,384 bytes long. Otherwise `BadFont` exactly
    /// if the font is not 960 bytes long.
    pub fn read(
        os: Vec<u8>,
        slots: Vec<(u8, Vec<u8>)>,
        font: Option<Vec<u8>>,
    ) -> Result<RomSet, RomError>
        requires { All (λ slot. slot.0 < 16) slots.items }
        ensures set { IfOk result (λ roms. roms ≡ record { os = os.items; slots = roms_seen slots.items; font = font_seen font }) }
        ensures refused { let refused = refusal os.items (roms_seen slots.items) (font_seen font) in
            MatchResult result (λ _. refused ≡ None) (λ e. refused ≡ Some e) }
    {
        if os.len() != ROM_SIZE {
            return Err(RomError::BadOs {
                len: os.len() as u64,
            });
        }
        test_slots(&slots)?;
        test_font(&font)?;
        let places = places(&slots);
        Ok(RomSet {
            os,
            slots,
            places,
            font,
        })
    }

    /// Returns the ROM of a slot below 16, of 8,192 or 16,384 bytes. Returns `None` if the slot is
    /// empty.
    pub fn rom(&self, slot: u8) -> Option<&[u8]>
        requires { slot < 16 }
        ensures bytes { MatchOption result ((at : ℕ) → rom_byte self.now.slots slot at ≡ 0xFF)
            (λ rom. (at : ℕ) → rom_byte self.now.slots slot at ≡ slice_index (in_slot rom.now) at) }
        ensures length { IfSome result (λ rom. (length rom.now ≡ HALF_SIZE) ⊎ (length rom.now ≡ ROM_SIZE)) }
    {
        match self.places[slot as usize] {
            Some(place) => Some(&self.slots[place].1),
            None => None,
        }
    }

    /// Returns byte `at`, below 16,384, of a slot below 16, or FF if the slot is empty.
    #[inline(always)]
    pub fn byte(&self, slot: u8, at: u16) -> u8
        requires slot { slot < 16 }
        requires at { at < 16384 }
        ensures { result ≡ rom_byte self.now.slots slot at }
    {
        match self.places[slot as usize] {
            Some(place) => byte_of(&self.slots[place].1, at),
            None => 0xff,
        }
    }

    /// Returns byte `at`, below 16,384, of the operating system.
    #[inline(always)]
    pub fn os(&self, at: u16) -> u8
        requires { at < 16384 }
        ensures { result ≡ slice_index self.now.os at }
    {
        self.os[at as usize]
    }

    /// Returns a row of six dots of the shape of a code from 20 to 7F. Rows count from the top, from 0
    /// on, and bit 5 is the leftmost dot. Without a font all shapes are blank.
    #[inline(always)]
    pub fn shape(&self, code: u8, row: u8) -> u8
        requires code { (0x20 ≤ code) × (code ≤ 0x7F) }
        requires row { row < 10 }
        ensures { result ≡ font_shape self.now.font code row }
    {
        match &self.font {
            Some(font) => font[usize::from(code - FIRST_CODE) * FONT_ROWS + usize::from(row)],
            None => 0,
        }
    }
}
