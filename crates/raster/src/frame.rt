//! A frame.
ghost use Rattle.std.specs.Prelude.{ℕ, ◌≡◌, ◌+◌, ◌*◌, ◌<◌, ◌≤◌, ◌++◌, true, false, length, take, drop, replicate, IfOk};
ghost use Rattle.video_ula.specs.Pixels.{dots_of, row_colours};
ghost use Rattle.beeb_bits.specs.Zeros.{zeros};
ghost use Rattle.raster.specs.Frame.{black};

use beeb_bits::{NoMemory, zeroed};
use std::alloc::Global;
use std::marker::Model;
use video_ula::Ula;

/// The dots of a frame: 256 lines of 640.
const FRAME_SIZE: usize = 163_840;

const LINES: usize = 256;

const LINE: usize = 640;

/// A frame of 256 lines of 640 dots, by lines from the top. Each dot is a colour from 0 to 7: bit 0
/// is red, bit 1 green and bit 2 blue.
#[derive(Drop)]
pub struct Frame {
    /// The colours, 163,840 of them.
    pub colours: Vec<u8>,
}

impl Model for Frame {
    ghost use Rattle.std.specs.Prelude.{◌≡◌, ℕ, List, length};

    ghost Value = { List ℕ };

    ghost view = { λ f. f.colours.items };

    ghost invariant = { λ f. length f.colours.items ≡ 163840 };
}

// Makes the dots of one line black.
#[inline(never)]
fn clear_line(dots: &mut [u8])
    requires { length dots.old ≡ LINE }
    ensures { dots.new ≡ zeros LINE }
{
    dots.fill(0);
}

// Makes all dots black, one line at a time: a fill of only 640 bytes uses wide stores.
fn clear_lines(dots: &mut [u8])
    requires { length dots.old ≡ FRAME_SIZE }
    ensures { dots.new ≡ black }
{
    for y in 0..LINES {
        clear_line(&mut dots[LINE * y..LINE * y + LINE]);
    }
}

impl Frame {
    /// Makes a black frame.
    ///
    /// # Errors
    /// Out of memory.
    pub fn black(alloc: Global) -> Result<Frame, NoMemory>
        ensures { IfOk result (λ f. f ≡ black) }
    {
        let colours = zeroed(alloc, FRAME_SIZE)?;
        Ok(Frame { colours })
    }

    /// Copies another frame into this one, and takes no memory.
    pub fn copy_from(&mut self, other: &Frame)
        ensures { self.new ≡ other.now }
    {
        self.colours.copy_from_slice(&other.colours);
    }

    /// Makes the frame black.
    pub(crate) fn clear(&mut self)
        ensures { self.new ≡ black }
    {
        clear_lines(&mut self.colours);
    }

    /// Sets dots, from `at` on.
    #[inline(always)]
    pub(crate) fn put(&mut self, at: usize, dots: &[u8])
        requires within { at + length dots.now ≤ FRAME_SIZE }
        ensures size { length self.old ≡ FRAME_SIZE }
        ensures put { self.new ≡ take at self.old ++ (dots.now ++ drop (at + length dots.now) self.old) }
    {
        self.colours[at..at + dots.len()].copy_from_slice(dots);
    }

    /// Sets `count` dots from `at` on to those of `n` characters side by side, if the ULA has them
    /// ready. Returns `false`, with the frame unchanged, if it has not.
    #[inline(always)]
    pub(crate) fn put_row(
        &mut self,
        at: usize,
        count: usize,
        ula: &Ula,
        bytes: &[u8],
        step: usize,
        n: usize,
    ) -> bool
        requires within { at + count ≤ FRAME_SIZE }
        requires room { count ≡ n * dots_of ula.now.control }
        requires bytes { (k : ℕ) → k < n → k * step < length bytes.now }
        ensures size { length self.old ≡ FRAME_SIZE }
        ensures put { result ≡ true → self.new ≡ take at self.old ++ (row_colours ula.now bytes.now step n ++ drop (at + count) self.old) }
        ensures stays { result ≡ false → self.new ≡ self.old }
    {
        ula.row_ready(bytes, step, n, &mut self.colours[at..at + count])
    }

    /// Makes `count` dots black, from `at` on.
    pub(crate) fn blacken(&mut self, at: usize, count: usize)
        requires within { at + count ≤ FRAME_SIZE }
        ensures size { length self.old ≡ FRAME_SIZE }
        ensures put { self.new ≡ take at self.old ++ (replicate count 0 ++ drop (at + count) self.old) }
    {
        self.colours[at..at + count].fill(0);
    }
}
