//! The letters of a font, made once.
ghost use Rattle.std.specs.Prelude.{◌≡◌, ◌≤◌, ◌<◌, IfOk, length, slice_index};
ghost use Rattle.saa5050.specs.Shapes.{letter_dot};
ghost use Rattle.saa5050.specs.CodeDots.{IsLine};
ghost use Rattle.saa5050.specs.CodeLetters.{AreLetters};

use crate::dots::rounded_line;
use beeb_bits::NoMemory;
use rom_set::RomSet;
use std::alloc::Global;
use std::marker::Model;

/// The code of the first letter.
const FIRST: u8 = 0x20;

/// The lines of a letter.
const LINES: usize = 20;

/// The lines of all letters.
const SIZE: usize = 1_920;

/// A set of ROM images, with the lines of its font's letters as half dots, made once.
#[derive(Drop)]
pub struct GlyphTable {
    roms: RomSet,
    // The lines of each letter, from the top: twelve half dots each, the leftmost in bit 11.
    lines: Vec<u16>,
}

impl Model for GlyphTable {
    ghost use Rattle.rom_set.specs.Roms.{Roms};
    ghost use Rattle.saa5050.specs.CodeLetters.{AreLetters};

    ghost Value = { Roms };

    ghost view = { λ l. l.roms };

    ghost invariant = { λ l. AreLetters l.roms.font l.lines.items };
}

// Makes the lines of all letters.
fn all_lines(alloc: Global, roms: &RomSet) -> Result<Vec<u16>, NoMemory>
    ensures { IfOk result (λ lines. AreLetters roms.now.font lines.items) }
{
    let mut lines = vec![in alloc; 0; SIZE]?;
    for i in 0..SIZE {
        lines[i] = rounded_line(roms, (i / LINES) as u8 + FIRST, (i % LINES) as u8);
    }
    Ok(lines)
}

// Returns one of the lines.
#[inline(always)]
fn line_at(lines: &[u16], place: usize) -> u16
    requires { place < length lines.now }
    ensures { result ≡ slice_index lines.now place }
{
    lines[place]
}

impl GlyphTable {
    /// Makes the letters of the font of `roms`.
    ///
    /// # Errors
    /// Out of memory.
    pub fn make(alloc: Global, roms: RomSet) -> Result<GlyphTable, NoMemory>
        ensures { IfOk result (λ glyphs. glyphs ≡ roms) }
    {
        let lines = all_lines(alloc, &roms)?;
        Ok(GlyphTable { roms, lines })
    }

    /// Returns the images.
    #[inline(always)]
    pub fn roms(&self) -> &RomSet
        ensures { result.now ≡ self.now }
    {
        &self.roms
    }

    /// Returns a line of a letter.
    #[inline(always)]
    pub(crate) fn line(&self, code: u8, line: u8) -> u16
        requires code { (0x20 ≤ code) × (code ≤ 0x7F) }
        requires line { line < 20 }
        ensures { IsLine result (letter_dot self.now.font code line) }
    {
        line_at(&self.lines, (code - FIRST) as usize * LINES + line as usize)
    }
}
