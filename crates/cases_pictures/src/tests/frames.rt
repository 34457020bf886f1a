//! Finished frames, with the BBC Micro's registers of the 6845.
ghost use Rattle.raster.specs.Beam.{IsScreenSize};

use raster::{Frame, Raster, reads_go_on, stores_below_are_unseen};
use rom_set::RomSet;
use saa5050::GlyphTable;
use std::alloc::Global;
use std::process::Abort;
use std::test::Fail;

/// The screen of 40 characters of 16 dots. Its first character is in the frame's first line and
/// column.
const GRAPHICS: [u8; 16] = [
    0x3f, 0x28, 0x31, 0x24, 0x26, 0, 0x20, 0x22, 0, 7, 0, 0, 0x0b, 0, 0, 0,
];

/// The teletext screen. Its first character is in the frame's third line, and its rows have every
/// other raster.
const TELETEXT: [u8; 16] = [
    0x3f, 0x28, 0x33, 0x24, 0x1e, 2, 0x19, 0x1b, 0x93, 0x12, 0x72, 0x13, 0x28, 0, 0, 0,
];

/// The screen of 80 characters of 8 dots, with the cursor in its second row.
const EIGHTY: [u8; 16] = [
    0x7f, 0x50, 0x62, 0x28, 0x26, 0, 0x20, 0x22, 1, 7, 2, 8, 6, 0, 6, 0x75,
];

/// The changes for rows of ten lines, the last two black.
const SPACED: [(usize, u8); 5] = [(4, 0x1e), (5, 2), (6, 0x19), (7, 0x1b), (9, 9)];

/// The microseconds of three frames, or a little more.
const FRAMES: u64 = 60_000;

/// Returns the registers, some of them changed.
fn changed(registers: &[u8; 16], changes: &[(usize, u8)]) -> [u8; 16] {
    let mut changed = *registers;
    for (n, v) in changes {
        if *n < 16 {
            changed[*n] = *v;
        }
    }
    changed
}

fn screen_size(kilobytes: u8) -> u16
    ensures { IsScreenSize result }
{
    match kilobytes {
        16 => 16_384,
        8 => 8_192,
        20 => 20_480,
        _ => 10_240,
    }
}

/// A raster with the RAM and the font that it needs.
#[derive(Drop)]
struct Scene {
    raster: Raster,
    ram: Vec<u8>,
    glyphs: GlyphTable,
}

fn glyphs(alloc: Global) -> Result<GlyphTable, Fail> {
    let os = vec![in alloc; 0; 16_384]?;
    let roms = RomSet::read(os, Vec::new(alloc), None)?;
    Ok(GlyphTable::make(alloc, roms)?)
}

fn program(raster: &mut Raster, registers: &[u8; 16], control: u8) {
    for n in 0..16u8 {
        raster.crtc().select(n);
        raster.crtc().set(registers[n as usize]);
    }
    raster.ula().control(control);
}

impl Scene {
    /// Makes a raster with these registers of the 6845 and this control byte, over a RAM of zeros.
    fn make(alloc: Global, registers: &[u8; 16], control: u8) -> Result<Scene, Fail> {
        let glyphs = glyphs(alloc)?;
        let ram = vec![in alloc; 0; 32_768]?;
        let mut raster = Raster::make(alloc)?;
        program(&mut raster, registers, control);
        Ok(Scene {
            raster,
            ram,
            glyphs,
        })
    }

    fn poke(&mut self, at: usize, bytes: &[u8]) {
        for (i, byte) in bytes.iter().enumerate() {
            let place = at.wrapping_add(i);
            if place < self.ram.len() {
                self.ram[place] = *byte;
            }
        }
    }

    /// Sets entries 0 to 7 of the palette to one colour, and the others to another.
    fn two_colours(&mut self, low: u8, high: u8) {
        for entry in 0..16u8 {
            let colour = if entry < 8 { low } else { high };
            self.raster.ula().palette(16 * entry + (colour % 8 ^ 7));
        }
    }

    fn control(&mut self, v: u8) {
        self.raster.ula().control(v);
    }

    /// Does `n` microseconds with a screen of `kilobytes` kilobytes.
    fn advance(&mut self, kilobytes: u8, n: u64) {
        if self.ram.len() == 32_768 {
            self.raster
                .advance(&self.ram, screen_size(kilobytes), &self.glyphs, n);
        }
    }

    fn char_clock(&mut self, kilobytes: u8) {
        if self.ram.len() == 32_768 {
            self.raster
                .char_clock(&self.ram, screen_size(kilobytes), &self.glyphs);
        }
    }

    /// Returns true if the finished frame has these colours, as digits, `step` dots from one to the
    /// next.
    fn shows_each(&self, at: usize, step: usize, want: &[u8]) -> bool {
        let colours = &self.raster.frame().colours;
        let mut place = at;
        for digit in want {
            if colours.get(place) != Some(&digit.wrapping_sub(b'0')) {
                return false;
            }
            place = place.wrapping_add(step);
        }
        true
    }

    /// Returns true if it has them side by side.
    fn shows(&self, at: usize, want: &[u8]) -> bool {
        self.shows_each(at, 1, want)
    }

    /// Returns the number of dots of the finished frame that have a colour.
    fn count(&self, colour: u8) -> u32 {
        count(self.raster.frame(), colour)
    }
}

fn count(frame: &Frame, colour: u8) -> u32 {
    let mut dots: u32 = 0;
    for dot in &frame.colours {
        dots = dots.wrapping_add(u32::from(*dot == colour));
    }
    dots
}

#[test]
fn a_byte_of_a_bit_mapped_screen_is_in_its_place(rt: HostRuntime) -> Result<(), Fail> {
    let mut scene = Scene::make(rt.alloc(), &GRAPHICS, 0x08)?;
    scene.poke(0x5800, &[0xa5]);
    scene.two_colours(0, 7);
    assert!(rt; scene.count(0) == 163_840);
    // The frame is drawn, but not yet finished.
    scene.advance(16, 30_000);
    assert!(rt; scene.count(0) == 163_840);
    scene.advance(16, FRAMES - 30_000);
    assert!(rt; scene.shows(0, b"7700770000770077"));
    assert!(rt; scene.count(7) == 8);
    assert!(rt; scene.count(0) == 163_832);
    Ok(())
}

/// Returns true if a screen of `kilobytes` kilobytes that begins at this address shows the byte at
/// `at` first.
fn shows_first(alloc: Global, high: u8, low: u8, kilobytes: u8, at: usize) -> Result<bool, Fail> {
    let registers = changed(&GRAPHICS, &[(12, high), (13, low)]);
    let mut scene = Scene::make(alloc, &registers, 0x08)?;
    scene.poke(at, &[0xa5]);
    scene.two_colours(0, 7);
    scene.advance(kilobytes, FRAMES);
    Ok(scene.shows(0, b"7700770000770077"))
}

#[test]
fn addresses_wrap_by_the_size_of_the_screen(rt: HostRuntime) -> Result<(), Fail> {
    // The start address in R12 and R13, the kilobytes of the screen, and the address of its first
    // byte.
    let rows = [
        (0x0f, 0xff, 16, 0x7ff8),
        (0x10, 0x00, 16, 0x4000),
        (0x10, 0x00, 8, 0x6000),
        (0x10, 0x00, 20, 0x3000),
        (0x10, 0x00, 10, 0x5800),
        (0x1f, 0xff, 16, 0x3ff8),
        (0x1f, 0xff, 8, 0x5ff8),
        (0x1f, 0xff, 20, 0x2ff8),
        (0x1f, 0xff, 10, 0x57f8),
        // With bit 13 it is a teletext page.
        (0x20, 0x00, 16, 0x3c00),
        (0x28, 0x01, 16, 0x7c01),
        (0x37, 0xff, 16, 0x3fff),
    ];
    for (high, low, kilobytes, at) in rows {
        assert!(rt; shows_first(rt.alloc(), high, low, kilobytes, at)?, "{at}");
    }
    Ok(())
}

/// Draws a white screen with this control byte, R1, R2, R6 and R7.
fn white(
    alloc: Global,
    control: u8,
    [shown, sync, height, sync_row]: [u8; 4],
) -> Result<Scene, Fail> {
    let registers = changed(
        &GRAPHICS,
        &[(1, shown), (2, sync), (6, height), (7, sync_row)],
    );
    let mut scene = Scene::make(alloc, &registers, control)?;
    scene.two_colours(7, 7);
    scene.advance(16, FRAMES);
    Ok(scene)
}

/// Returns true if `dots` dots of such a screen are white, the first of them at `first`.
fn is_white(
    alloc: Global,
    control: u8,
    registers: [u8; 4],
    dots: u32,
    first: usize,
) -> Result<bool, Fail> {
    let scene = white(alloc, control, registers)?;
    let begins = dots == 0 || scene.shows(first, b"7777777");
    let no_earlier = first == 0 || scene.shows(first - 1, b"07");
    Ok(scene.count(7) == dots && begins && no_earlier)
}

#[test]
fn dots_beyond_the_frame_are_not_drawn(rt: HostRuntime) -> Result<(), Fail> {
    // The control byte; R1 and R2, which set the shown part of a line and its beginning; R6 and R7,
    // which set those of a frame; the number of white dots, and the first of them.
    let rows = [
        (0x00, [40, 49, 32, 34], 640 * 256, 0),
        (0x00, [1, 49, 32, 34], 16 * 256, 0),
        (0x00, [2, 50, 32, 34], 16 * 256, 0),
        (0x00, [1, 50, 32, 34], 0, 0),
        (0x00, [1, 48, 32, 34], 16 * 256, 16),
        (0x00, [42, 49, 32, 34], 640 * 256, 0),
        (0x00, [1, 49, 32, 35], 16 * 248, 0),
        (0x00, [1, 49, 32, 33], 16 * 248, 640 * 8),
        (0x00, [1, 49, 1, 35], 0, 0),
        (0x00, [0, 49, 32, 34], 0, 0),
        // At 2 MHz characters are 8 dots wide.
        (0x10, [30, 34, 32, 34], 240 * 256, 0),
        (0x10, [2, 35, 32, 34], 8 * 256, 0),
        // In teletext mode the frame's left edge differs. Without a code it shows black.
        (0x02, [40, 49, 32, 34], 0, 0),
    ];
    for (control, registers, dots, first) in rows {
        assert!(rt;
            is_white(rt.alloc(), control, registers, dots, first)?,
            "{control}: {dots} from {first}"
        );
    }
    Ok(())
}

/// Draws lines with one character of 8 dots between sync and the first shown character.
fn draw_with_a_narrow_one(scene: &mut Scene) {
    for n in 0..60_000u32 {
        scene.control(if n % 64 == 60 { 0x10 } else { 0 });
        scene.char_clock(16);
    }
}

#[test]
fn half_a_character_is_drawn_at_either_edge(rt: HostRuntime) -> Result<(), Fail> {
    let registers = changed(&GRAPHICS, &[(1, 41)]);
    let mut scene = Scene::make(rt.alloc(), &registers, 0)?;
    // The byte 55 is a red pixel and a green one, each 8 dots wide.
    scene.poke(0x5800, &[0x55; 4_096]);
    scene.two_colours(1, 2);
    draw_with_a_narrow_one(&mut scene);
    for at in [0, 624, 640] {
        assert!(rt; scene.shows(at, b"2222222211111111"), "{at}");
    }
    Ok(())
}

/// Draws a black screen of rows of 16 rasters, with this control byte and the cursor on the second
/// character.
fn black_with_cursor(alloc: Global, control: u8) -> Result<Scene, Fail> {
    let registers = changed(
        &GRAPHICS,
        &[
            (4, 19),
            (6, 16),
            (7, 17),
            (9, 15),
            (10, 8),
            (11, 8),
            (14, 0x0b),
            (15, 0x01),
        ],
    );
    let mut scene = Scene::make(alloc, &registers, control)?;
    scene.advance(16, FRAMES);
    Ok(scene)
}

#[test]
fn the_cursor_marks_as_the_control_byte_says(rt: HostRuntime) -> Result<(), Fail> {
    // The control byte's cursor bits, and the first five characters of raster 8: the screen is
    // black, and the cursor is on the second character.
    let rows: [(u8, &[u8; 5]); 6] = [
        (0x00, b"00000"),
        (0x80, b"07000"),
        (0x40, b"00700"),
        (0x20, b"00077"),
        (0xe0, b"07777"),
        // In teletext mode each of the bits marks only the cursor's character. The first shown
        // character is in the third column there.
        (0x22, b"00070"),
    ];
    for (control, want) in rows {
        let scene = black_with_cursor(rt.alloc(), control)?;
        // Raster 8 of the row is 56 lines after the beginning of sync, so line 16 of the frame.
        assert!(rt; scene.shows_each(640 * 16 + 8, 16, want), "{control}");
    }
    Ok(())
}

#[test]
fn a_teletext_row_below_double_height_is_a_bottom_row(rt: HostRuntime) -> Result<(), Fail> {
    let mut scene = Scene::make(rt.alloc(), &TELETEXT, 0x4b)?;
    // Three rows of double height: red separated graphics, held, and a green background.
    for row in 0..3usize {
        scene.poke(
            0x7c00 + 40 * row,
            &[0x0d, 0x11, 0x1a, 0x7f, 0x1e, 0x12, 0x9d],
        );
    }
    scene.advance(16, FRAMES);
    let dots: &[u8; 112] =
        b"0000000000000000000000000000000000000000000000000001111100011111000111110001111100011111000111112222222222222222";
    let gap: &[u8; 112] =
        b"0000000000000000000000000000000000000000000000000000000000000000000000000000000000000000000000002222222222222222";
    // Lines of the frame. The first row begins in line 2, and its lines are rasters 0, 2, 4 and so
    // on. Lines 4 and 5 of the shape are a gap at rasters 8 and 10. Lines 12 and 13 are another,
    // which a bottom row shows at rasters 4 and 6.
    let rows = [
        (2, dots),
        (4, dots),
        (6, gap),
        (7, gap),
        (8, dots),
        (12, dots),
        (14, gap),
        (15, gap),
        (16, dots),
        (22, dots),
        (24, dots),
        (26, gap),
    ];
    for (line, want) in rows {
        assert!(rt; scene.shows(640 * line, want), "line {line}");
    }
    Ok(())
}

/// Returns true if both have the same vertical sync at each microsecond. One does a microsecond at
/// a time, and the other its one or two character clocks.
fn agree(one: &mut Scene, other: &mut Scene, clocks: u8) -> bool {
    for _ in 0..20_000u32 {
        if one.raster.vsync() != other.raster.vsync() {
            return false;
        }
        one.advance(16, 1);
        for _ in 0..clocks {
            other.char_clock(16);
        }
    }
    true
}

fn one_by_one(scene: &mut Scene, n: u32) {
    for _ in 0..n {
        scene.advance(16, 1);
    }
}

/// Returns true if both agree after one has done 1,000 microseconds at once.
fn agree_after(alloc: Global, control: u8, clocks: u8) -> Result<bool, Fail> {
    let mut one = Scene::make(alloc, &GRAPHICS, control)?;
    let mut other = Scene::make(alloc, &GRAPHICS, control)?;
    one.advance(16, 1_000);
    one_by_one(&mut other, 1_000);
    Ok(agree(&mut one, &mut other, clocks))
}

#[test]
fn microseconds_at_once_are_microseconds_one_by_one(rt: HostRuntime) -> Result<(), Fail> {
    for (control, clocks) in [(0x00, 1), (0x10, 2)] {
        assert!(rt; agree_after(rt.alloc(), control, clocks)?, "{control}");
    }
    Ok(())
}

/// Makes a screen of all bytes in all colours.
fn colourful(
    alloc: Global,
    registers: &[u8; 16],
    changes: &[(usize, u8)],
    control: u8,
) -> Result<Scene, Fail> {
    let mut scene = Scene::make(alloc, &changed(registers, changes), control)?;
    for at in 0..scene.ram.len() {
        scene.ram[at] = (at % 251) as u8;
    }
    for entry in 0..16u8 {
        scene.raster.ula().palette(16 * entry ^ entry ^ 5);
    }
    Ok(scene)
}

/// Does `n` microseconds: one, then two at once, and so on, so that each stretch of characters is
/// cut.
fn more_and_more(scene: &mut Scene, kilobytes: u8, n: u64) {
    let mut left = n;
    for k in 1..1_000u64 {
        let some = if k < left { k } else { left };
        scene.advance(kilobytes, some);
        left -= some;
    }
}

/// Does `n` microseconds, a character clock at a time.
fn step_by_step(scene: &mut Scene, kilobytes: u8, control: u8, n: u64) {
    for _ in 0..n {
        scene.char_clock(kilobytes);
        if control & 0x10 != 0 {
            scene.char_clock(kilobytes);
        }
    }
}

/// Returns true if two frames of this screen have more than one colour, and are the same clock by
/// clock and by more and more microseconds at once.
fn is_same(
    alloc: Global,
    (registers, changes, control, kilobytes): (&[u8; 16], &[(usize, u8)], u8, u8),
) -> Result<bool, Fail> {
    let mut one = colourful(alloc, registers, changes, control)?;
    let mut other = colourful(alloc, registers, changes, control)?;
    step_by_step(&mut one, kilobytes, control, 45_000);
    more_and_more(&mut other, kilobytes, 45_000);
    let same = one.raster.frame().colours[..] == other.raster.frame().colours[..];
    let coloured = one.count(0) < 163_840 && one.count(7) < 163_840;
    Ok(same && coloured && one.raster.vsync() == other.raster.vsync())
}

#[test]
fn stretches_of_characters_are_drawn_as_each_by_itself(rt: HostRuntime) -> Result<(), Fail> {
    let rows: [(&[u8; 16], &[(usize, u8)], u8, u8); 20] = [
        // Modes 0 to 7, with the cursor.
        (&EIGHTY, &[], 0x9c, 20),
        (&EIGHTY, &[], 0xd8, 20),
        (&EIGHTY, &[], 0xf4, 20),
        (&EIGHTY, &SPACED, 0x9c, 16),
        (&GRAPHICS, &[(14, 0x0b), (15, 0x2a)], 0x88, 10),
        (&GRAPHICS, &[(14, 0x0b), (15, 0x2a)], 0xc4, 10),
        (&GRAPHICS, &SPACED, 0x88, 8),
        (&TELETEXT, &[(14, 0x28), (15, 0x29)], 0x4b, 16),
        // Without it, and with one of four characters.
        (&EIGHTY, &[(10, 0x20)], 0x9c, 20),
        (&TELETEXT, &[(10, 0x20)], 0x4b, 16),
        (&EIGHTY, &[], 0xfc, 20),
        // Half of each cell, at the clock of 2 MHz.
        (&TELETEXT, &[], 0x5b, 16),
        // Over the frame's right and left edge, and its upper one.
        (&EIGHTY, &[(2, 0x52)], 0x9c, 20),
        (&EIGHTY, &[(2, 0x7b)], 0x9c, 20),
        (&GRAPHICS, &[(2, 0x29)], 0x88, 10),
        (&TELETEXT, &[(2, 0x3c), (7, 0x1e)], 0x4b, 16),
        // Up to the end of the RAM and from another address on; from bit-mapped addresses to those
        // of teletext, and back.
        (&EIGHTY, &[(12, 0x0f), (13, 0xd7)], 0x9c, 20),
        (&GRAPHICS, &[(12, 0x1f), (13, 0xd7)], 0x88, 10),
        (&TELETEXT, &[(12, 0x3f), (13, 0xd7)], 0x4b, 8),
        // Lines that are shown whole.
        (&GRAPHICS, &[(1, 0xff)], 0x88, 10),
    ];
    for row in rows {
        let (_, _, control, kilobytes) = row;
        assert!(rt; is_same(rt.alloc(), row)?, "{control} {kilobytes}");
    }
    Ok(())
}

#[test]
fn vertical_sync_stays_as_long_as_it_is_calm(rt: HostRuntime) -> Result<(), Fail> {
    // The control byte, and the microseconds before sync begins, while it is on, and before it
    // begins again.
    for (control, before, on, off) in [(0x00, 17_408, 127, 19_839), (0x10, 8_704, 63, 9_919)] {
        let mut scene = Scene::make(rt.alloc(), &GRAPHICS, control)?;
        assert_eq!(rt; scene.raster.calm(), before);
        scene.advance(16, before);
        assert!(rt;
            !scene.raster.vsync() && scene.raster.calm() == 0,
            "{control}"
        );
        scene.advance(16, 1);
        assert!(rt;
            scene.raster.vsync() && scene.raster.calm() == on,
            "{control}"
        );
        scene.advance(16, on + 1);
        assert!(rt;
            !scene.raster.vsync() && scene.raster.calm() == off,
            "{control}"
        );
    }
    Ok(())
}

#[test]
fn a_raster_at_rest_does_many_microseconds_at_once(rt: HostRuntime) -> Result<(), Fail> {
    let mut scene = Scene {
        raster: Raster::make(rt.alloc())?,
        ram: vec![in rt.alloc(); 0; 32_768]?,
        glyphs: glyphs(rt.alloc())?,
    };
    scene.poke(0x5800, &[0xa5]);
    scene.advance(16, 2_000);
    scene.advance(16, 1_000_000_000_000);
    assert!(rt; scene.raster.vsync());
    assert_eq!(rt; scene.raster.calm(), u64::MAX);
    // Then the picture of a program comes in its place.
    program(&mut scene.raster, &GRAPHICS, 0x08);
    scene.two_colours(0, 7);
    scene.advance(16, FRAMES);
    assert!(rt; scene.shows(0, b"7700770000770077") && scene.count(7) == 8);
    Ok(())
}

#[test]
fn nothing_below_the_lowest_byte_is_read(rt: HostRuntime) -> Result<(), Fail> {
    reads_go_on();
    stores_below_are_unseen();
    // R12 and R13, the characters of each of 32 rows, the screen's kilobytes, and the lowest byte's
    // address.
    let rows: [(u8, u8, u8, u8, u16); 8] = [
        (0x0b, 0x00, 40, 10, 0x5800),
        // Scrolled by a row, so that the last row wraps.
        (0x0b, 0x28, 40, 10, 0x5800),
        (0x06, 0x00, 80, 20, 0x3000),
        (0x0f, 0x00, 8, 8, 0x7800),
        // Teletext in either kilobyte.
        (0x28, 0x00, 40, 16, 0x7c00),
        (0x20, 0x00, 40, 16, 0x3c00),
        (0x00, 0x00, 40, 16, 0x0000),
        // From bit-mapped addresses to those of teletext.
        (0x1f, 0x00, 40, 10, 0x0000),
    ];
    for (high, low, columns, kilobytes, want) in rows {
        let registers = changed(&GRAPHICS, &[(1, columns), (12, high), (13, low)]);
        let mut scene = Scene::make(rt.alloc(), &registers, 0x08)?;
        scene.advance(kilobytes, FRAMES);
        assert_eq!(rt;
            scene.raster.lowest(screen_size(kilobytes)),
            want,
            "{high} {low}"
        );
    }
    Ok(())
}

#[test]
fn a_frame_can_be_copied(rt: HostRuntime) -> Result<(), Fail> {
    let mut copy = Frame::black(rt.alloc())?;
    let scene = white(rt.alloc(), 0, [40, 49, 32, 34])?;
    copy.copy_from(scene.raster.frame());
    assert!(rt; count(&copy, 7) == 163_840);
    Ok(())
}
