//! The chips of the picture, and the beam that draws their frames.
ghost use Rattle.std.specs.Prelude.{◌≡◌, ◌<◌, ◌≤◌, ◌+◌, ◌-◌, ◌*◌, ◌%◌, min, ℕ, List, false, true, length, map, take, IfOk, if◌then◌else◌};
ghost use Rattle.beeb_bits.specs.Bits.{bit};
ghost use Rattle.video_ula.specs.Pixels.{dots_of, under_cursor, side_by_side};
ghost use Rattle.crtc6845.specs.Clock.{starts_line, ends_line, beam_of};
ghost use Rattle.crtc6845.specs.Spans.{inside_clocks, beam_in_span};
ghost use Rattle.crtc6845.specs.CodeSteps.{is_quiet};
ghost use Rattle.crtc6845.specs.Laws.{clocks};
ghost use Rattle.crtc6845.specs.Rests.{frames_in, clocks_past_frame};
ghost use Rattle.saa5050.specs.Shapes.{Font};
ghost use Rattle.raster.specs.Beam.{IsScreenSize, place_past};
ghost use Rattle.raster.specs.Frame.{black, dots_set};
ghost use Rattle.raster.specs.State.{power_on, first_cursor};
ghost use Rattle.raster.specs.CodeQuiet.{IsQuiet};
ghost use Rattle.raster.specs.CodeSteps.{cell_drawn_on, char_clocks, drawn_ahead, ArePlain, AreBehind, bytes_put, place_in_span, code_in, texts, cells};
ghost use Rattle.raster.specs.Clock.{begin_leaves, byte_dots, draw_byte_leaves, cell_dots, draw_cell_leaves, draw_leaves, show_leaves, pass_leaves, char_clock_leaves, microseconds};

use crate::beam::{Cursor, byte_address, bytes_from};
use crate::canvas::{Canvas, inside, outside};
use crate::frame::Frame;
use crate::place::Place;
use crate::text::Text;
use beeb_bits::{NoMemory, bit};
use crtc6845::{Beam, Crtc, Span, clocks_at_rest_are_alike};
use saa5050::GlyphTable;
use std::alloc::Global;
use std::marker::Model;
use std::mem::swap;
use video_ula::Ula;

/// The frame's left edge, in dots from the beginning of horizontal sync: without teletext, and with
/// it.
const LEFT: u16 = 240;

const TEXT_LEFT: u16 = 208;

/// The chips, the beam and the frames of a raster.
#[derive(Drop)]
pub(crate) struct Screen {
    pub(crate) crtc: Crtc,
    pub(crate) ula: Ula,
    pub(crate) place: Place,
    cursor: Cursor,
    text: Text,
    working: Canvas,
    finished: Canvas,
}

impl Model for Screen {
    ghost use Rattle.raster.specs.State.{State};

    ghost Value = { State };

    ghost view = { λ s. record {
      crtc = s.crtc;
      ula = s.ula;
      place = s.place;
      cursor = s.cursor;
      text = s.text;
      working = s.working;
      finished = s.finished;
    } };
}

// Returns the dots of a byte on a raster. If a character has only eight, the others do not count.
#[inline(always)]
fn dots_on(ula: &Ula, byte: u8, ra: u8, marked: bool) -> [u8; 16]
    ensures { take (dots_of ula.now.control) result ≡ byte_dots ula.now byte ra marked }
{
    let mut dots = [if marked { 7 } else { 0 }; 16];
    if !bit(ra, 3) {
        let _count = ula.pixels(byte, marked, &mut dots);
    }
    dots
}

// Inverts the colours of a cell if the cursor marks it.
#[inline(always)]
fn mark(dots: &mut [u8; 16], marked: bool)
    ensures { dots.new ≡ map (under_cursor marked) dots.old }
{
    let ink = if marked { 7 } else { 0 };
    for i in 0..16 {
        dots[i] ^= ink;
    }
}

// Reports if a span follows a character, in the same block of 1,024 addresses, without the cursor
// and the beginning of horizontal sync.
#[inline(always)]
fn follows(span: &Span, first: &Beam) -> bool
    ensures shown { result ≡ true → span.now.shown ≡ true }
    ensures cursor { result ≡ true → span.now.cursor ≡ false }
    ensures sync { result ≡ true → 0 < span.now.to_sync }
    ensures ra { result ≡ true → span.now.ra ≡ first.now.ra }
    ensures ma { result ≡ true → span.now.ma ≡ first.now.ma + 1 }
    ensures page { result ≡ true → 0 < span.now.ma % 1024 }
{
    span.shown
        && !span.cursor
        && span.to_sync != 0
        && span.ra == first.ra
        && span.ma % 1024 != 0
        && span.ma - 1 == first.ma
}

// Draws teletext cells side by side. All are in the frame, and the cursor marks none.
#[inline(never)]
fn draw_cells(
    text: &mut Text,
    canvas: &mut Canvas,
    place: &Place,
    font: &GlyphTable,
    span: Span,
    bytes: &[u8],
    step: usize,
    n: u16,
)
    requires along { (208 ≤ place.now.x) × (place.now.x + n * 16 ≤ 848) }
    requires down { (40 ≤ place.now.y) × (place.now.y < 296) }
    requires bytes { (k : ℕ) → k < n → k * step < length bytes.now }
    ensures text { text.new ≡ texts (code_in bytes.now step) n text.old }
    ensures drawn { let row = cells font.now.font (code_in bytes.now step) span.ra span.fields text.old in
        canvas.new ≡ dots_set 208 place.now.x place.now.y (side_by_side row n) canvas.old }
{
    let x = place.x();
    for i in 0..n {
        let code = bytes[usize::from(i) * step] % 128;
        let mut dots = [0; 16];
        text.put(font, code, span.ra, span.fields, &mut dots);
        canvas.put(TEXT_LEFT, x + 16 * i, place.y, &dots);
    }
}

impl Screen {
    /// Makes both chips at power-on, with two black frames.
    ///
    /// # Errors
    /// Out of memory. No other call takes memory.
    pub(crate) fn make(alloc: Global) -> Result<Screen, NoMemory>
        ensures { IfOk result (λ s. s ≡ power_on) }
    {
        let working = Canvas::make(alloc)?;
        let finished = Canvas::make(alloc)?;
        Ok(Screen {
            crtc: Crtc::new(),
            ula: Ula::new(),
            place: Place::first(),
            cursor: Cursor::first(),
            text: Text::first(),
            working,
            finished,
        })
    }

    /// Returns the last finished frame.
    pub(crate) fn frame(&self) -> &Frame
        ensures { result.now ≡ self.now.finished }
    {
        &self.finished.frame
    }

    /// Does `n` microseconds of a quiet screen.
    pub(crate) fn rest(&mut self, n: u64)
        requires { IsQuiet self.old }
        ensures state { (ram : List ℕ) (size : ℕ) (font : Font) → self.new ≡ microseconds ram size font n self.old }
        ensures quiet { IsQuiet self.new }
    {
        clocks_at_rest_are_alike();
        let frames = self.fall(n);
        if frames == 0 {
            return;
        }
        self.finish();
        if frames == 1 {
            return;
        }
        self.finish();
    }

    // Does `n` clocks of the 6845 and the beam's line, and returns the number of finished frames.
    fn fall(&mut self, n: u64) -> u64
        requires { is_quiet self.old.crtc ≡ true }
        ensures state { self.new ≡ record self.old {
          crtc = clocks n self.old.crtc;
          place = record self.old.place { y = min (clocks_past_frame n self.old.place.y self.old.crtc) 1023 };
        } }
        ensures frames { result ≡ frames_in n self.old.crtc }
        ensures bound { self.old.place.y ≤ 1023 }
    {
        let done = self.crtc.rest(n);
        self.place.rest(n, done);
        done.frames
    }

    // Reports if the 6845 was quiet, the beam is at `x` again, and a microsecond has one character
    // clock. The cursor must have been on none of the last three characters.
    #[inline(always)]
    fn is_settled(&self, rests: bool, x: u16) -> bool
        ensures rests { result ≡ true → rests ≡ true }
        ensures back { result ≡ true → self.now.place.x ≡ x }
        ensures far { result ≡ true → self.now.cursor ≡ first_cursor }
        ensures clock { result ≡ true → bit self.now.ula.control 4 ≡ false }
    {
        rests && self.place.x() == x && self.cursor.is_clear() && !bit(self.ula.mode(), 4)
    }

    /// Does one character clock. Reports if the screen is then known to be quiet.
    #[inline(never)]
    pub(crate) fn clock(&mut self, ram: &[u8], size: u16, font: &GlyphTable) -> bool
        requires ram { length ram.now ≡ 32768 }
        requires size { IsScreenSize size }
        ensures state { self.new ≡ char_clock_leaves ram.now size font.now.font self.old }
        ensures quiet { result ≡ true → IsQuiet self.new }
    {
        clocks_at_rest_are_alike();
        let rests = self.crtc.is_quiet();
        let before = self.place.x();
        let beam = self.crtc.clock();
        self.begin(&beam);
        self.show(ram, size, font, &beam);
        self.pass(&beam);
        self.is_settled(rests, before)
    }

    /// Does at least one and at most `most` character clocks, from the first of a line that has
    /// more than one. Returns their number.
    #[inline(always)]
    pub(crate) fn stretch_from_start(
        &mut self,
        ram: &[u8],
        size: u16,
        font: &GlyphTable,
        most: u64,
    ) -> u64
        requires ram { length ram.now ≡ 32768 }
        requires size { IsScreenSize size }
        requires start { starts_line self.old.crtc ≡ true }
        requires end { ends_line self.old.crtc ≡ false }
        requires some { 0 < most }
        ensures some { 0 < result }
        ensures most { result ≤ most }
        ensures state { self.new ≡ char_clocks ram.now size font.now.font result self.old }
    {
        let first = self.crtc.clock();
        self.begin(&first);
        let n = self.draw_from_first(ram, size, &first, most);
        if n == 0 {
            self.show(ram, size, font, &first);
            self.pass(&first);
            return 1;
        }
        self.pass_row(n);
        u64::from(n)
    }

    // Moves the beam past the first `n` characters of a line. The 6845 has done the first of them.
    #[inline(always)]
    fn pass_row(&mut self, n: u16)
        requires some { 0 < n }
        requires start { starts_line self.old.crtc ≡ false }
        requires inside { n - 1 ≤ inside_clocks self.old.crtc }
        ensures { self.new ≡ record self.old {
          crtc = clocks (n - 1) self.old.crtc;
          place = place_past (n * dots_of self.old.ula.control) self.old.place;
        } }
    {
        self.place.pass_many(bit(self.ula.mode(), 4), n);
        self.crtc.pass(n - 1);
    }

    // Draws the character of `first` and some after it, at most `most` in all, and returns their
    // number. Returns 0, with nothing drawn, if the character must be drawn by itself.
    #[inline(always)]
    fn draw_from_first(&mut self, ram: &[u8], size: u16, first: &Beam, most: u64) -> u16
        requires ram { length ram.now ≡ 32768 }
        requires size { IsScreenSize size }
        ensures most { result ≤ most }
        ensures behind { 0 < result → AreBehind first.now (result - 1) self.old }
        ensures start { 0 < result → starts_line self.old.crtc ≡ false }
        ensures inside { 0 < result → result - 1 ≤ inside_clocks self.old.crtc }
        ensures put { self.new ≡ bytes_put ram.now size first.now.ma first.now.ra result self.old }
    {
        if !first.shown || first.cursor || bit(first.ra, 3) || bit(self.ula.mode(), 1) {
            return 0;
        }
        if self.crtc.is_edge() || !self.is_cursor_far() {
            return 0;
        }
        let span = self.crtc.span();
        if !follows(&span, first) {
            return 0;
        }
        let n = most.min(u64::from(span.clocks) + 1) as u16;
        let n = inside(LEFT, &self.place, bit(self.ula.mode(), 4), n);
        if n == 0 {
            return 0;
        }
        self.put_bytes(ram, size, first.ma, first.ra, n)
    }

    /// Does at least one and at most `most` character clocks inside a line, and returns their
    /// number.
    #[inline(always)]
    pub(crate) fn stretch(&mut self, ram: &[u8], size: u16, font: &GlyphTable, most: u64) -> u64
        requires ram { length ram.now ≡ 32768 }
        requires size { IsScreenSize size }
        requires start { starts_line self.old.crtc ≡ false }
        requires end { ends_line self.old.crtc ≡ false }
        requires some { 0 < most }
        ensures some { 0 < result }
        ensures most { result ≤ most }
        ensures state { self.new ≡ char_clocks ram.now size font.now.font result self.old }
    {
        let span = self.crtc.span();
        let most = most.min(u64::from(span.clocks)) as u16;
        let n = self.draw_some(ram, size, font, span, most);
        if n == 0 {
            self.clock(ram, size, font);
            return 1;
        }
        self.pass_span(span.to_sync, n);
        u64::from(n)
    }

    // Moves past `n` characters of a span. Horizontal sync begins after `to_sync` of them, if `n`
    // is above that.
    #[inline(always)]
    fn pass_span(&mut self, to_sync: u16, n: u16)
        requires start { starts_line self.old.crtc ≡ false }
        requires inside { n ≤ inside_clocks self.old.crtc }
        ensures { self.new ≡ record self.old {
          crtc = clocks n self.old.crtc;
          place = place_in_span to_sync n (dots_of self.old.ula.control) self.old.place;
        } }
    {
        self.place.pass_span(bit(self.ula.mode(), 4), to_sync, n);
        self.crtc.pass(n);
    }

    // Reports if the cursor was on none of the last three characters.
    #[inline(always)]
    fn is_cursor_far(&self) -> bool
        ensures far { result ≡ true → self.now.cursor ≡ first_cursor }
        ensures counted { self.now.place.x ≤ 4095 }
    {
        let _x = self.place.x();
        self.cursor.is_clear()
    }

    // Draws some of the next characters of a span, at most `n`, and returns their number. Returns
    // 0, with nothing drawn, if the first must be drawn by itself.
    #[inline(always)]
    fn draw_some(&mut self, ram: &[u8], size: u16, font: &GlyphTable, span: Span, n: u16) -> u16
        requires ram { length ram.now ≡ 32768 }
        requires size { IsScreenSize size }
        requires told { (k : ℕ) → k < n → beam_of (clocks k self.old.crtc) ≡ beam_in_span span k }
        requires page { span.shown ≡ true → span.ma % 1024 + n ≤ 1024 }
        requires sync { span.shown ≡ true → 0 < span.to_sync → n ≤ span.to_sync }
        ensures most { result ≤ n }
        ensures plain { 0 < result → ArePlain span result self.old }
        ensures counted { 0 < result → self.old.place.x ≤ 4095 }
        ensures drawn { self.new ≡ drawn_ahead ram.now size font.now.font result self.old }
    {
        if span.cursor || !self.is_cursor_far() {
            return 0;
        }
        if !span.shown {
            return n;
        }
        if span.to_sync == 0 {
            return 0;
        }
        if bit(self.ula.mode(), 1) {
            self.draw_text(ram, size, font, span, n)
        } else {
            self.draw_span(ram, size, span, n)
        }
    }

    // Draws some of the next characters of a shown span, in teletext, and returns their number.
    #[inline(always)]
    fn draw_text(&mut self, ram: &[u8], size: u16, font: &GlyphTable, span: Span, n: u16) -> u16
        requires ram { length ram.now ≡ 32768 }
        requires size { IsScreenSize size }
        requires plain { ArePlain span n self.old }
        requires shown { span.shown ≡ true }
        requires page { span.ma % 1024 + n ≤ 1024 }
        requires cells { bit self.old.ula.control 1 ≡ true }
        requires counted { self.old.place.x ≤ 4095 }
        ensures most { result ≤ n }
        ensures drawn { self.new ≡ drawn_ahead ram.now size font.now.font result self.old }
    {
        if bit(self.ula.mode(), 4) {
            return 0;
        }
        let n = inside(TEXT_LEFT, &self.place, false, n);
        if n == 0 {
            return 0;
        }
        let bytes = bytes_from(span.ma, span.ra, size, n);
        draw_cells(
            &mut self.text,
            &mut self.working,
            &self.place,
            font,
            span,
            &ram[bytes.at..],
            bytes.step,
            bytes.count,
        );
        bytes.count
    }

    // Draws some of the next characters of a shown span, without teletext, and returns their
    // number.
    #[inline(always)]
    fn draw_span(&mut self, ram: &[u8], size: u16, span: Span, n: u16) -> u16
        requires ram { length ram.now ≡ 32768 }
        requires size { IsScreenSize size }
        requires plain { ArePlain span n self.old }
        requires shown { span.shown ≡ true }
        requires page { span.ma % 1024 + n ≤ 1024 }
        requires bits { bit self.old.ula.control 1 ≡ false }
        requires counted { self.old.place.x ≤ 4095 }
        ensures most { result ≤ n }
        ensures drawn { (font : Font) → self.new ≡ drawn_ahead ram.now size font result self.old }
    {
        let narrow = bit(self.ula.mode(), 4);
        let seen = inside(LEFT, &self.place, narrow, n);
        if seen == 0 {
            return outside(LEFT, &self.place, narrow, n);
        }
        if bit(span.ra, 3) {
            self.working.draw_black(LEFT, &self.place, narrow, seen);
            return seen;
        }
        self.put_bytes(ram, size, span.ma, span.ra, seen)
    }

    // Draws the bytes of `n` characters in the frame, up to the end of the RAM, and returns their
    // number. Returns 0, with nothing drawn, if the ULA does not have the dots ready.
    #[inline(always)]
    fn put_bytes(&mut self, ram: &[u8], size: u16, ma: u16, ra: u8, n: u16) -> u16
        requires ram { length ram.now ≡ 32768 }
        requires size { IsScreenSize size }
        requires page { ma % 1024 + n ≤ 1024 }
        requires along { (240 ≤ self.old.place.x) × (self.old.place.x + n * dots_of self.old.ula.control ≤ 880) }
        requires down { (40 ≤ self.old.place.y) × (self.old.place.y < 296) }
        ensures most { result ≤ n }
        ensures put { self.new ≡ bytes_put ram.now size ma ra result self.old }
    {
        let bytes = bytes_from(ma, ra, size, n);
        if self.working.draw_row(
            LEFT,
            &self.place,
            &self.ula,
            &ram[bytes.at..],
            bytes.step,
            bytes.count,
        ) {
            bytes.count
        } else {
            0
        }
    }

    // Moves the beam to a character.
    fn begin(&mut self, beam: &Beam)
        ensures { self.new ≡ begin_leaves beam.now self.old }
    {
        self.place.meet(beam);
        self.text.meet(beam);
        if beam.frame_end {
            self.finish();
        }
    }

    // Finishes the working frame, and begins a black one.
    #[inline(never)]
    fn finish(&mut self)
        ensures { self.new ≡ record self.old { working = black; finished = self.old.working } }
    {
        swap(&mut self.working, &mut self.finished);
        self.working.clear();
    }

    // Draws a character, if it is shown.
    #[inline(always)]
    fn show(&mut self, ram: &[u8], size: u16, font: &GlyphTable, beam: &Beam)
        requires ram { length ram.now ≡ 32768 }
        requires size { IsScreenSize size }
        ensures { self.new ≡ show_leaves ram.now size font.now.font beam.now self.old }
    {
        if beam.shown {
            self.draw(ram, size, font, beam);
        }
    }

    // Draws a shown character.
    #[inline(always)]
    fn draw(&mut self, ram: &[u8], size: u16, font: &GlyphTable, beam: &Beam)
        requires ram { length ram.now ≡ 32768 }
        requires size { IsScreenSize size }
        ensures { self.new ≡ draw_leaves ram.now size font.now.font beam.now self.old }
    {
        let byte = ram[byte_address(beam.ma, beam.ra, size)];
        if bit(self.ula.mode(), 1) {
            let marked = self.cursor.is_marked(self.ula.mode(), beam.cursor);
            self.draw_cell(font, byte % 128, beam.ra, beam.fields, marked);
        } else {
            self.draw_byte(beam, byte);
        }
    }

    #[inline(always)]
    fn draw_byte(&mut self, beam: &Beam, byte: u8)
        ensures { self.new ≡ draw_byte_leaves beam.now byte self.old }
    {
        let marked = self.cursor.is_marked(self.ula.mode(), beam.cursor);
        self.ula.prepare();
        let dots = dots_on(&self.ula, byte, beam.ra, marked);
        self.working
            .draw(LEFT, &self.place, &dots, bit(self.ula.mode(), 4));
    }

    #[inline(never)]
    fn draw_cell(&mut self, font: &GlyphTable, code: u8, ra: u8, fields: u32, marked: bool)
        requires { code < 128 }
        ensures { self.new ≡ cell_drawn_on font.now.font code ra fields marked self.old }
    {
        if code < 32 {
            self.draw_control(font, code, ra, fields, marked);
        } else {
            self.draw_code(font, code, ra, fields, marked);
        }
    }

    // Draws the cell of a control code. It is not inlined, so that `draw_cell` stays small for the
    // other codes.
    #[inline(never)]
    fn draw_control(&mut self, font: &GlyphTable, code: u8, ra: u8, fields: u32, marked: bool)
        requires { code < 128 }
        ensures { self.new ≡ cell_drawn_on font.now.font code ra fields marked self.old }
    {
        self.draw_code(font, code, ra, fields, marked);
    }

    #[inline(always)]
    fn draw_code(&mut self, font: &GlyphTable, code: u8, ra: u8, fields: u32, marked: bool)
        requires { code < 128 }
        ensures { self.new ≡ cell_drawn_on font.now.font code ra fields marked self.old }
    {
        let mut dots = [0; 16];
        self.text.put(font, code, ra, fields, &mut dots);
        mark(&mut dots, marked);
        self.working
            .draw(TEXT_LEFT, &self.place, &dots, bit(self.ula.mode(), 4));
    }

    // Moves the beam past the character.
    fn pass(&mut self, beam: &Beam)
        ensures { self.new ≡ pass_leaves beam.now self.old }
    {
        self.place.pass(bit(self.ula.mode(), 4));
        self.cursor.pass(beam.cursor);
        self.text.pass(beam);
    }
}
