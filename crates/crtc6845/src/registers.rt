//! Registers R0 to R15.
ghost use Rattle.std.specs.Prelude.{◌≡◌, ◌≤◌, ◌<◌};
ghost use Rattle.crtc6845.specs.State.{power_on};
ghost use Rattle.crtc6845.specs.Registers.{start_address, cursor_address, write_leaves};
ghost use Rattle.crtc6845.specs.Clock.{sync_height, raster_step, last_raster, is_interlaced};
ghost use Rattle.crtc6845.specs.Windows.{shown_count};
ghost use Rattle.crtc6845.specs.Laws.{line_characters, row_lines, HaveTheirBits};

use beeb_bits::bit;
use std::marker::Model;

#[derive(Drop)]
pub(crate) struct Registers {
    pub(crate) horizontal_total: u8,
    pub(crate) horizontal_displayed: u8,
    pub(crate) horizontal_sync_position: u8,
    pub(crate) sync_widths: u8,
    pub(crate) vertical_total: u8,
    pub(crate) vertical_adjust: u8,
    pub(crate) vertical_displayed: u8,
    pub(crate) vertical_sync_position: u8,
    pub(crate) interlace: u8,
    pub(crate) maximum_raster: u8,
    pub(crate) cursor_start: u8,
    pub(crate) cursor_end: u8,
    pub(crate) start_high: u8,
    pub(crate) start_low: u8,
    // R14 and R15 as one address, which is compared with each character's.
    pub(crate) cursor: u16,
}

impl Model for Registers {
    ghost use Rattle.std.specs.Prelude.{◌<◌, ◌/◌, ◌%◌};
    ghost use Rattle.crtc6845.specs.State.{Registers};

    ghost Value = { Registers };

    ghost view = { λ r. record {
      horizontal_total = r.horizontal_total;
      horizontal_displayed = r.horizontal_displayed;
      horizontal_sync_position = r.horizontal_sync_position;
      sync_widths = r.sync_widths;
      vertical_total = r.vertical_total;
      vertical_adjust = r.vertical_adjust;
      vertical_displayed = r.vertical_displayed;
      vertical_sync_position = r.vertical_sync_position;
      interlace = r.interlace;
      maximum_raster = r.maximum_raster;
      cursor_start = r.cursor_start;
      cursor_end = r.cursor_end;
      start_high = r.start_high;
      start_low = r.start_low;
      cursor_high = r.cursor / 256;
      cursor_low = r.cursor % 256;
    } };

    ghost invariant = { λ r.
        (r.vertical_total < 128) × (r.vertical_adjust < 32) × (r.vertical_sync_position < 128)
        × (r.maximum_raster < 32) × (r.start_high < 64) × (r.cursor < 16384) };
}

impl Registers {
    pub(crate) fn new() -> Registers
        ensures { result ≡ power_on.registers }
    {
        Registers {
            horizontal_total: 0,
            horizontal_displayed: 0,
            horizontal_sync_position: 0,
            sync_widths: 0,
            vertical_total: 0,
            vertical_adjust: 0,
            vertical_displayed: 0,
            vertical_sync_position: 0,
            interlace: 0,
            maximum_raster: 0,
            cursor_start: 0,
            cursor_end: 0,
            start_high: 0,
            start_low: 0,
            cursor: 0,
        }
    }

    /// Writes register `n`, as many bits as it has.
    pub(crate) fn write(&mut self, n: u8, v: u8)
        ensures { self.new ≡ write_leaves n v self.old }
    {
        match n {
            0 => self.horizontal_total = v,
            1 => self.horizontal_displayed = v,
            2 => self.horizontal_sync_position = v,
            3 => self.sync_widths = v,
            4 => self.vertical_total = v % 128,
            5 => self.vertical_adjust = v % 32,
            6 => self.vertical_displayed = v % 128,
            7 => self.vertical_sync_position = v % 128,
            8 => self.interlace = v,
            9 => self.maximum_raster = v % 32,
            10 => self.cursor_start = v % 128,
            11 => self.cursor_end = v % 32,
            12 => self.start_high = v % 64,
            13 => self.start_low = v,
            14 => self.cursor = 256 * u16::from(v % 64) + self.cursor % 256,
            15 => self.cursor = 256 * (self.cursor / 256) + u16::from(v),
            _ => {}
        }
    }

    /// Returns the address of a frame's first character, R12 and R13.
    pub(crate) fn start_address(&self) -> u16
        ensures value { result ≡ start_address self.now }
        ensures bound { result < 16384 }
    {
        256 * u16::from(self.start_high) + u16::from(self.start_low)
    }

    /// Returns the address of the cursor, R14 and R15.
    #[inline(always)]
    pub(crate) fn cursor_address(&self) -> u16
        ensures { result ≡ cursor_address self.now }
    {
        self.cursor
    }

    pub(crate) fn cursor_high(&self) -> u8
        ensures { result ≡ self.now.cursor_high }
    {
        (self.cursor / 256) as u8
    }

    pub(crate) fn cursor_low(&self) -> u8
        ensures { result ≡ self.now.cursor_low }
    {
        (self.cursor % 256) as u8
    }

    /// Returns the number of lines of vertical sync.
    pub(crate) fn sync_height(&self) -> u8
        ensures value { result ≡ sync_height self.now }
        ensures bound { (1 ≤ result) × (result ≤ 16) }
    {
        if self.sync_widths / 16 == 0 {
            16
        } else {
            self.sync_widths / 16
        }
    }

    fn is_interlaced(&self) -> bool
        ensures { result ≡ is_interlaced self.now }
    {
        bit(self.interlace, 0) && bit(self.interlace, 1)
    }

    /// Returns the difference of a raster and the next one of the row.
    pub(crate) fn raster_step(&self) -> u8
        ensures value { result ≡ raster_step self.now }
        ensures bound { result ≤ 2 }
    {
        if self.is_interlaced() { 2 } else { 1 }
    }

    /// Returns the last raster of a row.
    pub(crate) fn last_raster(&self) -> u8
        ensures { result ≡ last_raster self.now }
    {
        if self.is_interlaced() {
            self.maximum_raster - self.maximum_raster % 2
        } else {
            self.maximum_raster
        }
    }

    /// Returns the number of lines of a row.
    pub(crate) fn row_lines(&self) -> u64
        ensures value { result ≡ row_lines self.now }
        ensures bound { result ≤ 256 }
    {
        u64::from(self.last_raster() / self.raster_step()) + 1
    }

    /// Returns the number of characters of a line.
    pub(crate) fn line_characters(&self) -> u64
        ensures value { result ≡ line_characters self.now }
        ensures bound { result ≤ 256 }
        ensures bits { HaveTheirBits self.now }
        ensures row { self.now.vertical_sync_position < 128 }
    {
        u64::from(self.horizontal_total) + 1
    }

    /// Returns R0, the horizontal total less one.
    #[inline(always)]
    pub(crate) fn total(&self) -> u16
        ensures value { result ≡ self.now.horizontal_total }
        ensures bound { result < 256 }
        ensures bits { HaveTheirBits self.now }
        ensures row { self.now.vertical_sync_position < 128 }
        ensures cursor { cursor_address self.now < 16384 }
    {
        u16::from(self.horizontal_total)
    }

    /// Returns the number of characters that a frame shows from row `first` on, among the rows that
    /// it has.
    pub(crate) fn shown_count(&self, first: u8) -> u16
        ensures value { result ≡ shown_count self.now first }
        ensures bits { HaveTheirBits self.now }
    {
        let rows = self.vertical_displayed.min(self.vertical_total + 1);
        u16::from(rows.saturating_sub(first)) * u16::from(self.horizontal_displayed)
    }
}
