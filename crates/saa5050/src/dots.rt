//! The half dots of a cell on a line, and its pixels.
ghost use Rattle.std.specs.Prelude.{◌≡◌, ◌≤◌, ◌<◌, ◌-◌, if◌then◌else◌};
ghost use Rattle.saa5050.specs.Row.{cell_dot, line_pixels};
ghost use Rattle.saa5050.specs.Shapes.{letter_row, near_row, rounded_dot, letter_dot, part_bit, gap_lines, is_among, sixel_dot};
ghost use Rattle.saa5050.specs.CodeDots.{IsLine, doubled_dot, columns};
ghost use Rattle.beeb_bits.specs.Bits.{bit};

use crate::glyphs::GlyphTable;
use crate::style::{Shape, Style};
use beeb_bits::bit;
use rom_set::RomSet;

/// The rows of dots of a letter.
const ROWS: u8 = 10;

/// Six dots, each of them twice: a row of a letter in half dots.
static DOUBLED: [u16; 64] = [
    0x000, 0x003, 0x00c, 0x00f, 0x030, 0x033, 0x03c, 0x03f, 0x0c0, 0x0c3, 0x0cc, 0x0cf, 0x0f0,
    0x0f3, 0x0fc, 0x0ff, 0x300, 0x303, 0x30c, 0x30f, 0x330, 0x333, 0x33c, 0x33f, 0x3c0, 0x3c3,
    0x3cc, 0x3cf, 0x3f0, 0x3f3, 0x3fc, 0x3ff, 0xc00, 0xc03, 0xc0c, 0xc0f, 0xc30, 0xc33, 0xc3c,
    0xc3f, 0xcc0, 0xcc3, 0xccc, 0xccf, 0xcf0, 0xcf3, 0xcfc, 0xcff, 0xf00, 0xf03, 0xf0c, 0xf0f,
    0xf30, 0xf33, 0xf3c, 0xf3f, 0xfc0, 0xfc3, 0xfcc, 0xfcf, 0xff0, 0xff3, 0xffc, 0xfff,
];

// Returns a row of a letter's dots. Rows outside 0 to 9 are blank.
fn letter_row(font: &RomSet, code: u8, row: u8) -> u8
    requires code { (0x20 ≤ code) × (code ≤ 0x7F) }
    ensures { result ≡ letter_row font.now.font code row }
{
    if row < ROWS { font.shape(code, row) } else { 0 }
}

// Returns the row of a letter's dots that rounds a line.
fn near_row(font: &RomSet, code: u8, line: u8) -> u8
    requires code { (0x20 ≤ code) × (code ≤ 0x7F) }
    ensures { result ≡ near_row font.now.font code line }
{
    let row = line / 2;
    if line % 2 == 1 {
        letter_row(font, code, row + 1)
    } else if row > 0 {
        letter_row(font, code, row - 1)
    } else {
        0
    }
}

// Returns the dots of a row, each of them twice.
fn doubled(row: u8) -> u16
    ensures line { IsLine result (doubled_dot row) }
    ensures bound { result < 4096 }
{
    DOUBLED[(row % 64) as usize]
}

// Returns a row of dots, rounded by the row near it. A shift by one half dot reaches the dot beside
// it or its own dot. Its own dot changes nothing, so all twelve half dots are done at once.
fn rounded(row: u8, near: u8) -> u16
    ensures { IsLine result (rounded_dot row near) }
{
    let dots = doubled(row);
    let near = doubled(near);
    dots | (dots * 2 & (near ^ (near & near * 2))) | (dots / 2 & (near ^ (near & near / 2)))
}

// Returns the two columns of a sixel, with or without gaps.
#[inline(always)]
fn columns(left: bool, right: bool, separated: bool) -> u16
    ensures { IsLine result (columns left right separated) }
{
    match (left, right, separated) {
        (false, false, _) => 0,
        (true, false, false) => 0xfc0,
        (false, true, false) => 0x03f,
        (true, true, false) => 0xfff,
        (true, false, true) => 0x3c0,
        (false, true, true) => 0x00f,
        (true, true, true) => 0x3cf,
    }
}

// Returns the bits of a code for the left and the right part of a line.
fn parts(line: u8) -> (u8, u8)
    ensures left { result.0 ≡ part_bit line 0 }
    ensures right { result.1 ≡ part_bit line 6 }
    ensures bits { (result.0 < 8) × (result.1 < 8) }
{
    if line < 6 {
        (0, 1)
    } else if line < 14 {
        (2, 3)
    } else {
        (4, 6)
    }
}

// Reports if a line is between two parts, or the end of the last.
fn is_gap(line: u8) -> bool
    ensures { result ≡ is_among line gap_lines }
{
    matches!(line, 4 | 5 | 12 | 13 | 18 | 19)
}

// Returns a line of a sixel.
#[inline(always)]
fn sixel(code: u8, separated: bool, line: u8) -> u16
    ensures { IsLine result (sixel_dot code separated line) }
{
    let (left, right) = parts(line);
    if separated && is_gap(line) {
        0
    } else {
        columns(bit(code, left), bit(code, right), separated)
    }
}

/// Returns a line of a letter, from the rows of the font.
pub(crate) fn rounded_line(font: &RomSet, code: u8, line: u8) -> u16
    requires code { (0x20 ≤ code) × (code ≤ 0x7F) }
    ensures { IsLine result (letter_dot font.now.font code line) }
{
    rounded(letter_row(font, code, line / 2), near_row(font, code, line))
}

/// Returns the half dots of the cell of a code on a line of the row, with the cell's style: the
/// leftmost is bit 11. Most cells are letters of normal height that are shown.
#[inline(always)]
pub(crate) fn half_dots(
    style: &Style,
    font: &GlyphTable,
    code: u8,
    ra: u8,
    bottom: bool,
    fields: u32,
) -> u16
    requires { code < 0x80 }
    ensures { IsLine result (cell_dot font.now.font code ra bottom fields style.now) }
{
    if style.is_special(code, ra, bottom) {
        special_dots(style, font, code, ra, bottom, fields)
    } else {
        font.line(code, ra)
    }
}

// Returns the half dots of any cell.
#[inline(always)]
fn special_dots(
    style: &Style,
    font: &GlyphTable,
    code: u8,
    ra: u8,
    bottom: bool,
    fields: u32,
) -> u16
    requires { code < 0x80 }
    ensures { IsLine result (cell_dot font.now.font code ra bottom fields style.now) }
{
    if style.is_blank(ra, bottom, fields) {
        return 0;
    }
    let line = style.line(ra, bottom);
    match style.shape(code) {
        Shape::Blank => 0,
        Shape::Letter(code) => font.line(code, line),
        Shape::Graphic(block) => sixel(block.code, block.separated, line),
    }
}

// Returns the colour of a half dot.
#[inline(always)]
fn colour(dots: u16, place: u8, foreground: u8, background: u8) -> u8
    requires { place < 12 }
    ensures { result ≡ (if bit dots place then foreground else background) }
{
    if dots >> place & 1 == 1 {
        foreground
    } else {
        background
    }
}

/// Returns the pixels of a line of a cell, the leftmost first. Three half dots become four pixels,
/// and the first two of these show the first half dot.
#[inline(always)]
pub(crate) fn pixels(dots: u16, foreground: u8, background: u8) -> [u8; 16]
    ensures { result ≡ line_pixels (λ x. bit dots (11 - x)) foreground background }
{
    let at = |place| colour(dots, place, foreground, background);
    [
        at(11),
        at(11),
        at(10),
        at(9),
        at(8),
        at(8),
        at(7),
        at(6),
        at(5),
        at(5),
        at(4),
        at(3),
        at(2),
        at(2),
        at(1),
        at(0),
    ]
}
