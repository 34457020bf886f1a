//! The chip, and its character clock.
ghost use Rattle.std.specs.Prelude.{◌≡◌, ◌<◌, ◌==◌, ◌||◌, false, if◌then◌else◌};
ghost use Rattle.crtc6845.specs.State.{power_on};
ghost use Rattle.crtc6845.specs.Registers.{select_leaves, set_leaves, answer_of};
ghost use Rattle.crtc6845.specs.CodeSteps.{cursor_is_on, ends_row_line, is_quiet};
ghost use Rattle.crtc6845.specs.Clock.{starts_line, begins_sync, begins_horizontal_sync, sync_counted, sync_begun, line_started, is_shown, blinks_on, has_cursor};
ghost use Rattle.crtc6845.specs.Clock.{address, ends_row, ends_frame, ends_line, is_row_done, are_rows_done, is_last_line, row_line_ended, adjust_line_ended};
ghost use Rattle.crtc6845.specs.Clock.{frame_begun, adjust_begun, line_ended, count_leaves, clock_leaves, beam_of, is_in_sync};

use crate::Beam;
use crate::registers::Registers;
use beeb_bits::bit;
use std::marker::Model;

/// A 6845.
#[derive(Drop)]
pub struct Crtc {
    pub(crate) selected: u8,
    pub(crate) registers: Registers,
    // The next character of the line, its row of the frame, and its raster of the row.
    pub(crate) character: u8,
    pub(crate) row: u8,
    pub(crate) raster: u8,
    // The address of the row's first character.
    pub(crate) base: u16,
    // The number of the adjust line, if the line is one.
    pub(crate) adjust: Option<u8>,
    // The lines of vertical sync that are left.
    pub(crate) sync_lines: u8,
    // The number of times that vertical sync began, modulo 2^32.
    pub(crate) fields: u32,
}

impl Model for Crtc {
    ghost use Rattle.std.specs.Prelude.{◌<◌, ◌≤◌, IfSome};
    ghost use Rattle.crtc6845.specs.State.{State};

    ghost Value = { State };

    ghost view = { λ c. record {
      selected = c.selected;
      registers = c.registers;
      character = c.character;
      row = c.row;
      raster = c.raster;
      base = c.base;
      adjust = c.adjust;
      sync_lines = c.sync_lines;
      fields = c.fields;
    } };

    ghost invariant = { λ c. (c.row ≤ 128) × (c.raster < 32) × (c.base < 16384) × IfSome c.adjust (λ line. line < 32) };
}

// Reports if the cursor is on, by bits 6 and 5 of R10.
fn blinks_on(start: u8, fields: u32) -> bool
    ensures { result ≡ blinks_on start fields }
{
    if !bit(start, 6) {
        !bit(start, 5)
    } else if !bit(start, 5) {
        fields / 8 % 2 == 0
    } else {
        fields / 16 % 2 == 0
    }
}

impl Crtc {
    /// Returns the chip at power-on: all is 0. The first character clock then begins vertical sync.
    pub fn new() -> Crtc
        ensures { result ≡ power_on }
    {
        Crtc {
            selected: 0,
            registers: Registers::new(),
            character: 0,
            row: 0,
            raster: 0,
            base: 0,
            adjust: None,
            sync_lines: 0,
            fields: 0,
        }
    }

    /// Selects a register by the low five bits.
    pub fn select(&mut self, v: u8)
        ensures { self.new ≡ select_leaves v self.old }
    {
        self.selected = v % 32;
    }

    /// Writes the selected register, as many bits as it has. Writes to R16 to R31 are ignored.
    pub fn set(&mut self, v: u8)
        ensures { self.new ≡ set_leaves v self.old }
    {
        self.registers.write(self.selected, v);
    }

    /// Reads the selected register: R12 to R15 can be read, and the others read 00.
    pub fn get(&self) -> u8
        ensures { result ≡ answer_of self.now }
    {
        match self.selected {
            12 => self.registers.start_high,
            13 => self.registers.start_low,
            14 => self.registers.cursor_high(),
            15 => self.registers.cursor_low(),
            _ => 0,
        }
    }

    /// Reports if vertical sync, VSYNC, is on.
    #[inline(always)]
    pub fn vsync(&self) -> bool
        ensures { result ≡ is_in_sync self.now }
    {
        self.sync_lines > 0
    }

    /// Does one character clock, and returns its outputs.
    #[inline(always)]
    pub fn clock(&mut self) -> Beam
        ensures beam { result ≡ beam_of self.old }
        ensures state { self.new ≡ clock_leaves self.old }
    {
        let line_start = self.starts_line();
        let frame_end = line_start && self.start_line();
        let beam = self.beam(line_start, frame_end);
        self.count();
        beam
    }

    // Returns the outputs of the character clock, after the start of its line and its frame.
    #[inline(always)]
    fn beam(&self, line_start: bool, frame_end: bool) -> Beam
        ensures { result ≡ record {
          shown = is_shown self.now;
          ma = address self.now;
          ra = self.now.raster;
          cursor = has_cursor self.now;
          line_start = line_start;
          sync_start = begins_horizontal_sync self.now;
          frame_end = frame_end;
          fields = self.now.fields;
          row_end = ends_row self.now;
          restart = ends_frame self.now;
        } }
    {
        Beam {
            shown: self.is_shown(),
            ma: self.address(),
            ra: self.raster,
            cursor: self.has_cursor(),
            line_start,
            sync_start: self.character == self.registers.horizontal_sync_position,
            frame_end,
            fields: self.fields,
            row_end: self.ends_row(),
            restart: self.ends_frame(),
        }
    }

    /// Reports if the next character is the first or the last of its line. Only with such a
    /// character a line, a row or a frame begins or ends.
    #[inline(always)]
    pub fn is_edge(&self) -> bool
        ensures { result ≡ (starts_line self.now || ends_line self.now) }
    {
        self.starts_line() || self.ends_line()
    }

    /// Reports if the next character is the first of its line.
    #[inline(always)]
    pub fn starts_line(&self) -> bool
        ensures { result ≡ starts_line self.now }
    {
        self.character == 0
    }

    /// Reports if each character is a whole line and a whole frame, and is not shown. The chip is
    /// quiet at power-on.
    #[inline(always)]
    pub fn is_quiet(&self) -> bool
        ensures { result ≡ is_quiet self.now }
    {
        self.starts_line()
            && self.ends_line()
            && self.registers.horizontal_displayed == 0
            && self.row == 0
            && self.raster == 0
            && self.adjust.is_none()
            && self.is_last_line()
            && self.base == self.registers.start_address()
    }

    // Starts a line: vertical sync continues, ends or begins. Reports if it begins.
    #[inline(always)]
    fn start_line(&mut self) -> bool
        ensures begins { result ≡ begins_sync (sync_counted self.old) }
        ensures state { self.new ≡ line_started self.old }
    {
        self.sync_lines = self.sync_lines.saturating_sub(1);
        if self.begins_sync() {
            self.begin_sync();
            return true;
        }
        false
    }

    #[inline(never)]
    fn begin_sync(&mut self)
        ensures { self.new ≡ sync_begun self.old }
    {
        self.sync_lines = self.registers.sync_height();
        self.fields = self.fields.wrapping_add(1);
    }

    #[inline(always)]
    fn begins_sync(&self) -> bool
        ensures { result ≡ begins_sync self.now }
    {
        self.sync_lines == 0
            && self.adjust.is_none()
            && self.row == self.registers.vertical_sync_position
            && self.raster == 0
    }

    #[inline(always)]
    pub(crate) fn is_shown(&self) -> bool
        ensures { result ≡ is_shown self.now }
    {
        self.character < self.registers.horizontal_displayed
            && self.row < self.registers.vertical_displayed
            && self.adjust.is_none()
    }

    #[inline(always)]
    pub(crate) fn address(&self) -> u16
        ensures { result ≡ address self.now }
    {
        (self.base + u16::from(self.character)) % 16384
    }

    #[inline(always)]
    pub(crate) fn has_cursor(&self) -> bool
        ensures { result ≡ has_cursor self.now }
    {
        self.is_shown() && self.address() == self.registers.cursor_address() && self.cursor_is_on()
    }

    // Reports if the cursor is on the current raster, and not blinked off.
    #[inline(never)]
    pub(crate) fn cursor_is_on(&self) -> bool
        ensures { result ≡ cursor_is_on self.now }
    {
        self.registers.cursor_start % 32 <= self.raster
            && self.raster <= self.registers.cursor_end
            && blinks_on(self.registers.cursor_start, self.fields)
    }

    /// Reports if the next character is the last of its line.
    #[inline(always)]
    pub fn ends_line(&self) -> bool
        ensures { result ≡ ends_line self.now }
    {
        self.character == self.registers.horizontal_total
    }

    // Reports if the row goes up by one after the next character.
    #[inline(always)]
    fn ends_row(&self) -> bool
        ensures { result ≡ ends_row self.now }
    {
        self.ends_line() && self.ends_row_line()
    }

    // Reports if the line is the last of its row, and another row follows.
    #[inline(never)]
    fn ends_row_line(&self) -> bool
        ensures { result ≡ ends_row_line self.now }
    {
        self.adjust.is_none() && self.is_row_done() && !self.is_last_line()
    }

    // Reports if a new frame begins after the next character.
    #[inline(always)]
    fn ends_frame(&self) -> bool
        ensures { result ≡ ends_frame self.now }
    {
        self.ends_line() && self.is_last_line()
    }

    // Reports if the line is the last of its frame.
    #[inline(never)]
    fn is_last_line(&self) -> bool
        ensures { result ≡ is_last_line self.now }
    {
        match self.adjust {
            None => self.are_rows_done() && self.registers.vertical_adjust == 0,
            Some(line) => (line + 1) % 32 == self.registers.vertical_adjust,
        }
    }

    fn is_row_done(&self) -> bool
        ensures { result ≡ is_row_done self.now }
    {
        self.raster == self.registers.last_raster()
    }

    fn are_rows_done(&self) -> bool
        ensures { result ≡ are_rows_done self.now }
    {
        self.is_row_done() && self.row == self.registers.vertical_total
    }

    // Counts to the next character.
    #[inline(always)]
    fn count(&mut self)
        ensures { self.new ≡ count_leaves self.old }
    {
        if self.ends_line() {
            self.end_line();
        } else {
            self.character = self.character.wrapping_add(1);
        }
    }

    #[inline(never)]
    fn end_line(&mut self)
        ensures { self.new ≡ line_ended self.old }
    {
        self.character = 0;
        match self.adjust {
            None => self.end_row_line(),
            Some(line) => self.end_adjust_line(line),
        }
    }

    fn begin_frame(&mut self)
        ensures { self.new ≡ frame_begun self.old }
    {
        self.row = 0;
        self.raster = 0;
        self.adjust = None;
        self.base = self.registers.start_address();
    }

    // Ends an adjust line.
    fn end_adjust_line(&mut self, line: u8)
        requires { line < 32 }
        ensures { self.new ≡ adjust_line_ended line self.old }
    {
        let next = (line + 1) % 32;
        if next == self.registers.vertical_adjust {
            self.begin_frame();
        } else {
            self.adjust = Some(next);
        }
    }

    // Ends a line of a row.
    fn end_row_line(&mut self)
        ensures { self.new ≡ row_line_ended self.old }
    {
        if self.are_rows_done() {
            self.end_rows();
        } else if self.is_row_done() {
            self.row = (self.row + 1) % 128;
            self.raster = 0;
            self.base = (self.base + u16::from(self.registers.horizontal_displayed)) % 16384;
        } else {
            self.raster = (self.raster + self.registers.raster_step()) % 32;
        }
    }

    // Ends the last row.
    fn end_rows(&mut self)
        requires { self.old.row ≡ self.old.registers.vertical_total }
        ensures { self.new ≡ (if self.old.registers.vertical_adjust == 0 then frame_begun self.old else adjust_begun self.old) }
    {
        if self.registers.vertical_adjust == 0 {
            self.begin_frame();
        } else {
            self.row += 1;
            self.raster = 0;
            self.adjust = Some(0);
        }
    }
}
