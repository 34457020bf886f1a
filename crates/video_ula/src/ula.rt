//! The chip.
ghost use Rattle.std.specs.Prelude.{ℕ, ◌≡◌, ◌<◌, ◌*◌, ◌++◌, true, false, drop, length};
ghost use Rattle.beeb_bits.specs.Bits.{bit};
ghost use Rattle.video_ula.specs.State.{power_on, control_leaves, palette_leaves};
ghost use Rattle.video_ula.specs.Pixels.{dots_of, pixel_width, colour_of, colours, row_colours};
ghost use Rattle.video_ula.specs.Colours.{entry_colours, dots_in};

use crate::dots::sixteen;
use crate::ready::Ready;
use beeb_bits::bit;
use std::marker::Model;

/// A video ULA.
#[derive(Drop)]
pub struct Ula {
    control: u8,
    palette: [u8; 16],
    // The colours of the palette's entries, while the control byte's bit 0 is clear and while it is
    // set.
    steady: [u8; 16],
    flashed: [u8; 16],
    // The tables of the dots of all bytes.
    ready: Ready,
}

impl Model for Ula {
    ghost use Rattle.std.specs.Prelude.{◌≡◌, true, false};
    ghost use Rattle.beeb_bits.specs.Bits.{bit};
    ghost use Rattle.video_ula.specs.State.{State};
    ghost use Rattle.video_ula.specs.Pixels.{pixel_width};
    ghost use Rattle.video_ula.specs.Colours.{entry_colours, IsReady};

    ghost Value = { State };

    ghost view = { λ u. record { control = u.control; palette = u.palette } };

    ghost invariant = { λ u. (u.steady ≡ entry_colours false u.palette) × (u.flashed ≡ entry_colours true u.palette)
        × IsReady (entry_colours (bit u.control 0) u.palette) (pixel_width u.control) u.ready };
}

/// Returns the colour of a palette value.
fn colour_of(flash: bool, value: u8) -> u8
    ensures { result ≡ colour_of flash value }
{
    (value % 8) ^ (if bit(value, 3) && flash { 7 } else { 0 })
}

impl Ula {
    /// Returns the chip at power-on: all is 0, the palette's values too.
    pub fn new() -> Ula
        ensures { result ≡ power_on }
    {
        Ula {
            control: 0,
            palette: [0; 16],
            steady: [0; 16],
            flashed: [0; 16],
            ready: Ready::nothing(),
        }
    }

    /// Writes the control byte.
    pub fn control(&mut self, v: u8)
        ensures { self.new ≡ control_leaves v self.old }
    {
        self.control = v;
        self.ready.forget();
    }

    /// Writes the palette: the high digit is the entry, and its value is the low digit XOR 7.
    pub fn palette(&mut self, v: u8)
        ensures { self.new ≡ palette_leaves v self.old }
    {
        let entry = (v / 16) as usize;
        let value = (v % 16) ^ 7;
        self.palette[entry] = value;
        self.steady[entry] = colour_of(false, value);
        self.flashed[entry] = colour_of(true, value);
        self.ready.forget();
    }

    /// Returns the control byte last written, 00 at power-on.
    #[inline(always)]
    pub fn mode(&self) -> u8
        ensures { result ≡ self.now.control }
    {
        self.control
    }

    /// Writes the colours of a byte's 8 or 16 dots, and returns their number. `cursor` says if the
    /// cursor marks the character.
    #[inline(always)]
    pub fn pixels(&self, byte: u8, cursor: bool, to: &mut [u8; 16]) -> u8
        ensures number { result ≡ dots_of self.now.control }
        ensures dots { to.new ≡ colours self.now byte cursor ++ drop (dots_of self.now.control) to.old }
    {
        let dots = self.dots(byte, cursor);
        if bit(self.control, 4) {
            to[..8].copy_from_slice(&dots[..8]);
            8
        } else {
            *to = dots;
            16
        }
    }

    /// Counts a byte. The tables are computed some bytes after a write to the palette or the
    /// control byte. Contracts see no change.
    #[inline(always)]
    pub fn prepare(&mut self)
        ensures { self.new ≡ self.old }
    {
        if !self.ready.is_ready() {
            self.wait();
        }
    }

    // Counts a byte while the tables are not right.
    #[inline(never)]
    fn wait(&mut self)
        ensures { self.new ≡ self.old }
    {
        if self.ready.wait() {
            let entries = if bit(self.control, 0) {
                self.flashed
            } else {
                self.steady
            };
            self.ready.compute(&entries, self.control / 4 % 4);
        }
    }

    /// Writes the colours of the dots of `n` characters side by side without the cursor, if the
    /// tables are right. Their bytes are `step` apart, and `to` has the length of their dots.
    /// Returns `false`, with `to` unchanged, if the tables are not right.
    #[inline(always)]
    pub fn row_ready(&self, bytes: &[u8], step: usize, n: usize, to: &mut [u8]) -> bool
        requires bytes { (k : ℕ) → k < n → k * step < length bytes.now }
        requires room { length to.old ≡ n * dots_of self.now.control }
        ensures dots { result ≡ true → to.new ≡ row_colours self.now bytes.now step n }
        ensures stays { result ≡ false → to.new ≡ to.old }
    {
        if !self.ready.is_ready() {
            return false;
        }
        if bit(self.control, 4) {
            self.ready.narrow_row(bytes, step, n, to);
        } else {
            self.ready.wide_row(bytes, step, n, to);
        }
        true
    }

    // Returns the colours of the entries, by the control byte's bit 0.
    #[inline(always)]
    fn entries(&self) -> &[u8; 16]
        ensures { result.now ≡ entry_colours (bit self.now.control 0) self.now.palette }
    {
        if bit(self.control, 0) {
            &self.flashed
        } else {
            &self.steady
        }
    }

    // Returns sixteen dots of a byte, from the tables if they are right.
    #[inline(always)]
    fn dots(&self, byte: u8, cursor: bool) -> [u8; 16]
        ensures { result ≡ dots_in (entry_colours (bit self.now.control 0) self.now.palette) byte cursor (pixel_width self.now.control) }
    {
        if !cursor && self.ready.is_ready() {
            self.ready.dots(byte)
        } else {
            self.dots_by_themselves(byte, cursor)
        }
    }

    // Returns sixteen dots of a byte without the tables.
    #[inline(never)]
    fn dots_by_themselves(&self, byte: u8, cursor: bool) -> [u8; 16]
        ensures { result ≡ dots_in (entry_colours (bit self.now.control 0) self.now.palette) byte cursor (pixel_width self.now.control) }
    {
        sixteen(self.entries(), byte, cursor, self.control / 4 % 4)
    }
}
