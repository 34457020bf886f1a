//! The raster. It does many clocks at once if they only move the beam down.
ghost use Rattle.std.specs.Prelude.{◌≡◌, ◌<◌, ◌≤◌, length, IfOk};
ghost use Rattle.std.specs.Borrow.{sem};
ghost use Rattle.raster.specs.Beam.{IsScreenSize};
ghost use Rattle.raster.specs.State.{power_on};
ghost use Rattle.raster.specs.Lending.{LendsCrtc, LendsUla};
ghost use Rattle.raster.specs.Clock.{char_clock_leaves, microsecond, microseconds, vsync_of};
ghost use Rattle.raster.specs.CodeSteps.{char_clocks};
ghost use Rattle.beeb_bits.specs.Bits.{bit};
ghost use Rattle.crtc6845.specs.Calm.{StaysInSync as CrtcStaysInSync};
ghost use Rattle.raster.specs.Reads.{ReadsFrom, StaysInSync};

use crate::beam::lowest_of;
use crate::frame::Frame;
use crate::screen::Screen;
use beeb_bits::{NoMemory, bit};
use crtc6845::Crtc;
use saa5050::GlyphTable;
use std::alloc::Global;
use std::marker::Model;
use video_ula::Ula;

/// The 6845, the video ULA and the teletext chip, their beam, and the frames that it draws.
#[derive(Drop)]
pub struct Raster {
    screen: Screen,
    // The screen is known to be quiet. It soon is if the 6845 is quiet.
    quiet: bool,
}

impl Model for Raster {
    ghost use Rattle.std.specs.Prelude.{◌≡◌, true};
    ghost use Rattle.raster.specs.State.{State};
    ghost use Rattle.raster.specs.CodeQuiet.{IsQuiet};

    ghost Value = { State };

    ghost view = { λ r. r.screen };

    ghost invariant = { λ r. r.quiet ≡ true → IsQuiet r.screen };
}

impl Raster {
    /// Makes the raster at power-on, with two black frames.
    ///
    /// # Errors
    /// Out of memory. No other call takes memory.
    pub fn make(alloc: Global) -> Result<Raster, NoMemory>
        ensures { IfOk result (λ r. r ≡ power_on) }
    {
        let screen = Screen::make(alloc)?;
        Ok(Raster {
            screen,
            quiet: false,
        })
    }

    /// Lends the 6845. The caller may change it, and the rest of the raster stays.
    pub fn crtc(&mut self) -> &mut Crtc
        ensures* lends { sem 𝓛 (LendsCrtc self.entry result) }
        ensures value { result.now ≡ self.old.crtc }
    {
        self.quiet = false;
        &mut self.screen.crtc
    }

    /// Lends the video ULA. The caller may change it, and the rest of the raster stays.
    pub fn ula(&mut self) -> &mut Ula
        ensures* lends { sem 𝓛 (LendsUla self.entry result) }
        ensures value { result.now ≡ self.old.ula }
    {
        self.quiet = false;
        &mut self.screen.ula
    }

    /// Returns the last finished frame, a black one at power-on.
    pub fn frame(&self) -> &Frame
        ensures { result.now ≡ self.now.finished }
    {
        self.screen.frame()
    }

    /// Reports if vertical sync is on.
    #[inline(always)]
    pub fn vsync(&self) -> bool
        ensures { result ≡ vsync_of self.now }
    {
        self.screen.crtc.vsync()
    }

    /// Does one character clock. `ram` has 32,768 bytes, and `size` is that of the screen: 16384,
    /// 8192, 20480 or 10240 bytes.
    #[inline(always)]
    pub fn char_clock(&mut self, ram: &[u8], size: u16, font: &GlyphTable)
        requires ram { length ram.now ≡ 32768 }
        requires size { IsScreenSize size }
        ensures { self.new ≡ char_clock_leaves ram.now size font.now.font self.old }
    {
        self.quiet = self.screen.clock(ram, size, font);
    }

    /// Does `n` microseconds, each of two character clocks if the ULA selects the 2 MHz clock,
    /// otherwise of one. `ram` and `size` are as in `char_clock`.
    pub fn advance(&mut self, ram: &[u8], size: u16, font: &GlyphTable, n: u64)
        requires ram { length ram.now ≡ 32768 }
        requires size { IsScreenSize size }
        ensures { self.new ≡ microseconds ram.now size font.now.font n self.old }
    {
        if self.is_fast() {
            self.char_clock_pairs(ram, size, font, n);
        } else {
            self.char_clocks(ram, size, font, n);
        }
    }

    // Does `2 * n` character clocks, at once if that number fits.
    fn char_clock_pairs(&mut self, ram: &[u8], size: u16, font: &GlyphTable, n: u64)
        requires ram { length ram.now ≡ 32768 }
        requires size { IsScreenSize size }
        ensures { let on = char_clocks ram.now size font.now.font n in
            self.new ≡ on (on self.old) }
    {
        if n < 1 << 63 {
            self.char_clocks(ram, size, font, 2 * n);
        } else {
            self.char_clocks(ram, size, font, n);
            self.char_clocks(ram, size, font, n);
        }
    }

    // Does `n` character clocks, and those that are alike at once.
    fn char_clocks(&mut self, ram: &[u8], size: u16, font: &GlyphTable, n: u64)
        requires ram { length ram.now ≡ 32768 }
        requires size { IsScreenSize size }
        ensures { self.new ≡ char_clocks ram.now size font.now.font n self.old }
    {
        let mut left = n;
        while left > 0 {
            left -= self.some_clocks(ram, size, font, left);
        }
    }

    // Does at least one and at most `most` of the next character clocks, and returns their number.
    #[inline(always)]
    fn some_clocks(&mut self, ram: &[u8], size: u16, font: &GlyphTable, most: u64) -> u64
        requires ram { length ram.now ≡ 32768 }
        requires size { IsScreenSize size }
        requires some { 0 < most }
        ensures some { 0 < result }
        ensures most { result ≤ most }
        ensures state { self.new ≡ char_clocks ram.now size font.now.font result self.old }
    {
        if self.quiet {
            self.screen.rest(most);
            most
        } else if self.screen.crtc.ends_line() {
            self.char_clock(ram, size, font);
            1
        } else if self.screen.crtc.starts_line() {
            self.screen.stretch_from_start(ram, size, font, most)
        } else {
            self.screen.stretch(ram, size, font, most)
        }
    }

    /// Returns a number of microseconds during which vertical sync does not change.
    pub fn calm(&self) -> u64
        ensures { StaysInSync result self.now }
    {
        let calm = self.calm_clocks();
        if self.is_fast() { calm / 2 } else { calm }
    }

    fn calm_clocks(&self) -> u64
        ensures { CrtcStaysInSync result self.now.crtc }
    {
        self.screen.crtc.calm()
    }

    fn is_fast(&self) -> bool
        ensures { result ≡ bit self.now.ula.control 4 }
    {
        bit(self.screen.ula.mode(), 4)
    }

    /// Returns a RAM address. No byte below it is read from now on, until a register is written.
    /// `size` is as in `char_clock`.
    pub fn lowest(&self, size: u16) -> u16
        requires { IsScreenSize size }
        ensures { ReadsFrom result size self.now }
    {
        let shown = self.screen.crtc.windows();
        let now = lowest_of(shown.base, shown.count, size);
        let next = lowest_of(shown.start, shown.frame, size);
        if now < next { now } else { next }
    }
}
