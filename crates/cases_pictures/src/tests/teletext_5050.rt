//! Rows of codes, and the colours of their cells.
use rom_set::RomSet;
use saa5050::{GlyphTable, RowState, row_is_fold};
use std::alloc::Global;
use std::test::Fail;
use std::vec::Vec;

// A line is a code and the rows of its shape. 41 is full, 42 has its upper rows and 43 its lower
// ones; 44 has two dots of a diagonal to the left, and 45 one to the right; 46 one dot above
// another; 47 has its corners. The other codes are blank. Bits 6 and 7 of a row have no meaning.
const SHAPES: &str = "\
41 3F 3F 3F 3F 3F 3F 3F 3F 3F 3F
42 3F 3F 3F 3F 3F C0 C0 C0 C0 C0
43 00 00 00 00 00 FF FF FF FF FF
44 04 08 00 00 00 00 00 00 00 00
45 08 04 00 00 00 00 00 00 00 00
46 0C 04 00 00 00 00 00 00 00 00
47 21 00 00 00 00 00 00 00 00 21
";

fn number(digits: &str) -> u8 {
    u8::from_str_radix(digits, 16).unwrap_or(0)
}

fn put_shape(bytes: &mut Vec<u8>, line: &str) {
    let (code, rows) = line.split_once(' ').unwrap_or((line, ""));
    let start = usize::from(number(code).saturating_sub(0x20)) * 10;
    for (row, digits) in rows.split(' ').enumerate() {
        if let Some(at) = bytes.get_mut(start.saturating_add(row)) {
            *at = number(digits);
        }
    }
}

fn font(alloc: Global) -> Result<GlyphTable, Fail> {
    let mut bytes = vec![in alloc; 0; 960]?;
    for line in SHAPES.lines() {
        put_shape(&mut bytes, line);
    }
    glyphs(alloc, Some(bytes))
}

fn glyphs(alloc: Global, font: Option<Vec<u8>>) -> Result<GlyphTable, Fail> {
    let os = vec![in alloc; 0; 16_384]?;
    let roms = RomSet::read(os, Vec::new(alloc), font)?;
    Ok(GlyphTable::make(alloc, roms)?)
}

// A line of a row: the scan line, true for a bottom row, and the number of fields.
#[derive(Clone, Copy)]
struct Line {
    ra: u8,
    bottom: bool,
    fields: u32,
}

// Returns the colours of eight cells, or 9 for a cell of more than one colour.
fn colours(font: &GlyphTable, codes: [u8; 8], line: Line) -> [u8; 8] {
    let mut row = RowState::start();
    let mut colours = [9; 8];
    for (colour, code) in colours.iter_mut().zip(codes) {
        let mut cell = [0; 16];
        row.put(
            font,
            code % 0x80,
            line.ra,
            line.bottom,
            line.fields,
            &mut cell,
        );
        let first = cell[0];
        if cell.iter().all(|pixel| *pixel == first) {
            *colour = first;
        }
    }
    colours
}

// Returns the pixels of the last of three cells that are not black, the leftmost as the highest
// bit.
fn lit(font: &GlyphTable, codes: [u8; 3], ra: u8, bottom: bool) -> u16 {
    let mut row = RowState::start();
    let mut cell = [0; 16];
    for code in codes {
        row.put(font, code % 0x80, ra, bottom, 0, &mut cell);
    }
    let mut lit = 0u16;
    for pixel in cell {
        lit = lit % 0x8000 * 2 + u16::from(pixel != 0);
    }
    lit
}

// Returns true if the cells of these codes have these colours, as digits, in one line of a row.
fn are_cells(font: &GlyphTable, codes: &[u8], ra: u8, cells: &str) -> bool {
    let mut row = RowState::start();
    for (code, digits) in codes.iter().zip(cells.split(' ')) {
        let mut cell = [9; 16];
        row.put(font, *code % 0x80, ra, false, 0, &mut cell);
        let want = digits.as_bytes();
        if !cell
            .iter()
            .map(|colour| colour.wrapping_add(b'0'))
            .eq(want.iter().copied())
        {
            return false;
        }
    }
    true
}

// Three cells of control codes, three of red graphics, and one of the new background.
const DOTS: &str =
    "0000000000000000 0000000000000000 0000000000000000 0001111100011111 0001111100011111 0001111100011111 2222222222222222";

const GAP: &str =
    "0000000000000000 0000000000000000 0000000000000000 0000000000000000 0000000000000000 0000000000000000 2222222222222222";

#[test]
fn held_and_separated_graphics_of_double_height(rt: HostRuntime) -> Result<(), Fail> {
    let font = glyphs(rt.alloc(), None)?;
    let codes = [0x0d, 0x11, 0x1a, 0x7f, 0x1e, 0x12, 0x1d];
    assert!(rt; are_cells(&font, &codes, 0, DOTS));
    assert!(rt; are_cells(&font, &codes, 8, GAP));
    Ok(())
}

// A line is the scan line, the kind of the row, the number of fields, the codes, and the colours of
// their cells.
const CELLS: &str = "\
# GlyphTable in a colour, after the code.
0 top 16 41 01 41 02 41 03 41 04 70102030
0 top 16 04 41 05 41 06 41 07 41 04050607
# Graphics in a colour, after the code. The codes from 40 to 5F are glyphs still.
0 top 16 7F 11 7F 12 7F 13 41 14 00102030
0 top 16 14 23 15 3F 16 63 17 7F 04050607
# Hold at once and release after; the code of a colour shows what is held, and glyphs make it blank.
0 top 16 11 1E 7F 12 1F 1F 7F 1E 00112022
0 top 16 11 7F 1E 02 00 11 1E 7F 01110001
# A letter is not held: what was held before it is.
12 top 16 11 23 41 1E 2C 1E 20 1E 00101100
# Flash after and steady at once, by the number of fields.
0 top 15 17 1E 7F 08 7F 09 7F 41 00770777
0 top 16 17 1E 7F 08 7F 09 7F 41 00777777
0 top 79 08 41 01 41 11 7F 09 7F 00000001
0 top 63 08 41 01 41 11 7F 09 7F 07010101
# Conceal at once, up to the cell after a colour; steady does not end it.
0 top 16 17 1E 7F 18 7F 09 13 7F 00700003
0 top 16 41 18 41 02 41 18 1D 41 70002022
# Separated and contiguous; what is held keeps its own gaps.
0 top 16 11 1E 7F 1A 7F 19 7F 1A 00119911
# New background and black background, at once.
0 top 16 01 1D 20 04 41 1C 20 41 01114004
# Double height after and normal height at once: the upper half, and the lower half in a bottom row.
12 top 16 42 0D 42 0C 42 0D 43 41 00700007
0 top 16 42 43 0D 42 43 0C 42 43 70070070
0 bottom 16 42 43 0D 42 43 0C 42 43 00007000
# A change of the height makes what is held blank: after double height, at normal height.
0 top 16 11 1E 7F 0D 1E 7F 0C 0C 00110100
0 top 16 11 1E 7F 0C 0D 7F 0D 1E 00111111
# Other codes do nothing.
0 top 16 11 1E 7F 00 0A 0B 0E 7F 00111111
0 top 16 11 1E 7F 0F 10 1B 7F 41 00111111
";

// Returns true if cells have the colours of their line.
fn are_coloured(font: &GlyphTable, line: &str) -> Option<bool> {
    let mut words = line.split(' ');
    let line = Line {
        ra: words.next()?.parse().ok()?,
        bottom: words.next()? == "bottom",
        fields: words.next()?.parse().ok()?,
    };
    let mut codes = [0; 8];
    for code in codes.iter_mut() {
        *code = number(words.next()?);
    }
    let want = words.next()?.as_bytes();
    let found = colours(font, codes, line);
    Some(
        found
            .iter()
            .map(|colour| colour.wrapping_add(b'0'))
            .eq(want.iter().copied()),
    )
}

#[test]
fn each_control_code_has_its_effect(rt: HostRuntime) -> Result<(), Fail> {
    let font = font(rt.alloc())?;
    for line in CELLS.lines() {
        if !line.starts_with('#') {
            assert!(rt; are_coloured(&font, line) == Some(true), "{line}");
        }
    }
    Ok(())
}

// A line is the codes, of which the last is drawn, the scan line, the kind of the row, and the
// pixels that are lit. The half dots 0 to 11 are the pixels 0 1, 2, 3, 4 5, 6, 7, 8 9, 10, 11, 12
// 13, 14 and 15.
const DRAWN: &str = "\
# Dot 3 above dot 2: half dot 5 joins the dot above, and half dot 6 that below.
20 20 44 0 top 0000000011100000
20 20 44 1 top 0000000111100000
20 20 44 2 top 0000001111000000
20 20 44 3 top 0000001100000000
20 20 44 4 top 0000000000000000
# Dot 2 above dot 3.
20 20 45 0 top 0000001100000000
20 20 45 1 top 0000001111000000
20 20 45 2 top 0000000111100000
20 20 45 3 top 0000000011100000
# Dots 2 and 3 above dot 3 are no diagonal.
20 20 46 1 top 0000001111100000
20 20 46 2 top 0000000011100000
# The first and the last dot, on the first line and the last.
20 20 47 0 top 1110000000000011
20 20 47 19 top 1110000000000011
20 20 47 20 top 0000000000000000
20 20 41 31 top 0000000000000000
# Of double height each line is there twice.
20 0D 44 1 top 0000000011100000
20 0D 44 2 top 0000000111100000
20 0D 44 5 top 0000001111000000
20 0D 47 19 top 0000000000000000
20 0D 47 18 bottom 1110000000000011
20 0D 47 0 bottom 0000000000000000
# The six parts of a block.
20 11 21 0 top 1111111100000000
20 11 21 5 top 1111111100000000
20 11 21 6 top 0000000000000000
20 11 22 5 top 0000000011111111
20 11 24 5 top 0000000000000000
20 11 24 6 top 1111111100000000
20 11 24 13 top 1111111100000000
20 11 28 13 top 0000000011111111
20 11 28 14 top 0000000000000000
20 11 30 13 top 0000000000000000
20 11 30 14 top 1111111100000000
20 11 30 19 top 1111111100000000
20 11 60 19 top 0000000011111111
0D 11 30 8 bottom 1111111100000000
# The same with gaps.
11 1A 7F 3 top 0001111100011111
11 1A 7F 4 top 0000000000000000
11 1A 7F 5 top 0000000000000000
11 1A 7F 6 top 0001111100011111
11 1A 7F 12 top 0000000000000000
11 1A 7F 13 top 0000000000000000
11 1A 7F 17 top 0001111100011111
11 1A 7F 18 top 0000000000000000
11 1A 7F 19 top 0000000000000000
11 1A 22 0 top 0000000000011111
";

// Returns true if a shape is drawn as its line says.
fn is_drawn(font: &GlyphTable, line: &str) -> Option<bool> {
    let mut words = line.split(' ');
    let codes = [
        number(words.next()?),
        number(words.next()?),
        number(words.next()?),
    ];
    let ra = words.next()?.parse().ok()?;
    let is_bottom = words.next()? == "bottom";
    let want = u16::from_str_radix(words.next()?, 2).ok()?;
    Some(lit(font, codes, ra, is_bottom) == want)
}

#[test]
fn shapes_are_drawn_by_half_dots(rt: HostRuntime) -> Result<(), Fail> {
    let font = font(rt.alloc())?;
    for line in DRAWN.lines() {
        if !line.starts_with('#') {
            assert!(rt; is_drawn(&font, line) == Some(true), "{line}");
        }
    }
    let blank = glyphs(rt.alloc(), None)?;
    assert_eq!(rt; lit(&blank, [0x20, 0x20, 0x41], 0, false), 0);
    Ok(())
}

#[test]
fn a_row_tells_whether_it_had_double_height(rt: HostRuntime) -> Result<(), Fail> {
    row_is_fold();
    let font = glyphs(rt.alloc(), None)?;
    let mut row = RowState::start();
    assert!(rt; !row.had_double());
    for (code, want) in [(0x0c, false), (0x4d, false), (0x0d, true), (0x0c, true)] {
        row.put(&font, code, 0, false, 0, &mut [0; 16]);
        assert_eq!(rt; row.had_double(), want, "{code}");
    }
    assert!(rt; !RowState::start().had_double());
    Ok(())
}
