//! A frame that is drawn or shown, with a flag for a black one.
ghost use Rattle.std.specs.Prelude.{ℕ, ◌≡◌, ◌≤◌, ◌<◌, ◌+◌, ◌-◌, ◌*◌, ◌%◌, ◌++◌, true, false, length, take, replicate, IfOk, if◌then◌else◌};
ghost use Rattle.video_ula.specs.Pixels.{dots_of, row_colours};
ghost use Rattle.raster.specs.Frame.{black, is_in_frame, dots_set};
ghost use Rattle.raster.specs.CodeSteps.{wide};

use crate::frame::Frame;
use crate::place::Place;
use beeb_bits::{NoMemory, bit};
use std::alloc::Global;
use std::marker::Model;
use video_ula::Ula;

/// The lines from the beginning of vertical sync to the frame's top.
const TOP: u16 = 40;

/// The lines of a frame.
const LINES: u16 = 256;

/// The dots of a line of the frame.
const WIDTH: u16 = 640;

/// A frame that is cleared only if something was drawn. A 6845 that is not programmed finishes a
/// frame every 16 microseconds.
#[derive(Drop)]
pub(crate) struct Canvas {
    pub(crate) frame: Frame,
    // Nothing was drawn after the last clearing.
    is_clear: bool,
}

impl Model for Canvas {
    ghost use Rattle.std.specs.Prelude.{◌≡◌, ℕ, List, true};
    ghost use Rattle.raster.specs.Frame.{black};

    ghost Value = { List ℕ };

    ghost view = { λ p. p.frame };

    ghost invariant = { λ p. p.is_clear ≡ true → p.frame ≡ black };
}

/// Reports if a dot is in the frame.
#[inline(always)]
fn is_in_frame(left: u16, x: u16, y: u16) -> bool
    requires { left ≤ 240 }
    ensures { result ≡ is_in_frame left x y }
{
    left <= x && x < left + WIDTH && TOP <= y && y < TOP + LINES
}

// Returns the number of dots of a character.
#[inline(always)]
fn wide(narrow: bool) -> usize
    ensures { result ≡ wide narrow }
{
    if narrow { 8 } else { 16 }
}

// Returns the number of characters of 8 or 16 dots that fit in `eights` times eight dots.
#[inline(always)]
fn characters(eights: u16, narrow: bool) -> u16
    ensures { result * wide narrow ≤ 8 * eights }
{
    if narrow { eights } else { eights / 2 }
}

/// Returns a number, at most `n`, of next characters outside the frame, the first of them at
/// `place`. Returns 0 if the first may be inside.
#[inline(always)]
pub(crate) fn outside(left: u16, place: &Place, narrow: bool, n: u16) -> u16
    requires { (left ≤ 240) × (left % 8 ≡ 0) }
    ensures most { result ≤ n }
    ensures out { (k : ℕ) → k < result * wide narrow → is_in_frame left (place.now.x + k) place.now.y ≡ false }
{
    if place.y < TOP || TOP + LINES <= place.y || (left + WIDTH) / 8 <= place.eights {
        n
    } else {
        n.min(characters((left / 8).saturating_sub(place.eights), narrow))
    }
}

/// Returns a number, at most `n`, of next characters inside the frame, the first of them at
/// `place`. Returns 0 if the first may be outside.
#[inline(always)]
pub(crate) fn inside(left: u16, place: &Place, narrow: bool, n: u16) -> u16
    requires { (left ≤ 240) × (left % 8 ≡ 0) }
    ensures most { result ≤ n }
    ensures along { 0 < result → (left ≤ place.now.x) × (place.now.x + result * wide narrow ≤ left + 640) }
    ensures down { 0 < result → (40 ≤ place.now.y) × (place.now.y < 296) }
{
    if place.y < TOP || TOP + LINES <= place.y || place.eights < left / 8 {
        0
    } else {
        n.min(characters(((left + WIDTH) / 8).saturating_sub(place.eights), narrow))
    }
}

// Returns the index in the frame of the dot at `place`.
#[inline(always)]
fn dot_at(left: u16, place: &Place) -> usize
    requires left { left ≤ 240 }
    requires along { (left ≤ place.now.x) × (place.now.x ≤ left + 640) }
    requires down { (40 ≤ place.now.y) × (place.now.y < 296) }
    ensures { result ≡ 640 * (place.now.y - 40) + (place.now.x - left) }
{
    WIDTH as usize * usize::from(place.y - TOP) + usize::from(8 * place.eights - left)
}

impl Canvas {
    pub(crate) fn make(alloc: Global) -> Result<Canvas, NoMemory>
        ensures { IfOk result (λ p. p ≡ black) }
    {
        let frame = Frame::black(alloc)?;
        Ok(Canvas {
            frame,
            is_clear: true,
        })
    }

    /// Makes the frame black.
    pub(crate) fn clear(&mut self)
        ensures { self.new ≡ black }
    {
        if !self.is_clear {
            self.frame.clear();
            self.is_clear = true;
        }
    }

    /// Draws dots that are in the frame, side by side, the first of them at `x` and `y`.
    #[inline(always)]
    pub(crate) fn put(&mut self, left: u16, x: u16, y: u16, dots: &[u8])
        requires along { (left ≤ x) × (x + length dots.now ≤ left + 640) }
        requires down { (40 ≤ y) × (y < 296) }
        ensures { self.new ≡ dots_set left x y dots.now self.old }
    {
        let at = WIDTH as usize * usize::from(y - TOP) + usize::from(x - left);
        self.is_clear = false;
        self.frame.put(at, dots);
    }

    /// Draws eight dots, the first of them at `x` and `y`, if they are in the frame, whose left
    /// edge is at `left`. `x` and `left` are multiples of eight, so all of the dots are in the
    /// frame or none is.
    #[inline(always)]
    fn draw_eight(&mut self, left: u16, x: u16, y: u16, dots: &[u8])
        requires left { (left ≤ 240) × (left % 8 ≡ 0) }
        requires x { x % 8 ≡ 0 }
        requires eight { length dots.now ≡ 8 }
        ensures { self.new ≡ dots_set left x y dots.now self.old }
    {
        if is_in_frame(left, x, y) {
            self.put(left, x, y, dots);
        }
    }

    // Draws those of sixteen dots that are in the frame.
    #[inline(always)]
    fn draw_sixteen(&mut self, left: u16, x: u16, y: u16, dots: &[u8; 16])
        requires left { (left ≤ 240) × (left % 8 ≡ 0) }
        requires x { (x % 8 ≡ 0) × (x ≤ 4096) }
        ensures { self.new ≡ dots_set left x y dots.now self.old }
    {
        if left <= x && x <= left + (WIDTH - 16) && TOP <= y && y < TOP + LINES {
            self.put(left, x, y, dots);
        } else {
            self.draw_apart(left, x, y, dots);
        }
    }

    // Draws sixteen dots, eight at a time.
    #[inline(always)]
    fn draw_apart(&mut self, left: u16, x: u16, y: u16, dots: &[u8; 16])
        requires left { (left ≤ 240) × (left % 8 ≡ 0) }
        requires x { (x % 8 ≡ 0) × (x ≤ 4096) }
        ensures { self.new ≡ dots_set left x y dots.now self.old }
    {
        self.draw_eight(left, x, y, &dots[..8]);
        self.draw_eight(left, x + 8, y, &dots[8..]);
    }

    /// Draws the 8 or 16 dots of a character.
    #[inline(always)]
    pub(crate) fn draw(&mut self, left: u16, place: &Place, dots: &[u8; 16], narrow: bool)
        requires { (left ≤ 240) × (left % 8 ≡ 0) }
        ensures { self.new ≡ dots_set left place.now.x place.now.y (take (if narrow then 8 else 16) dots.now) self.old }
    {
        let x = 8 * place.eights;
        if narrow {
            self.draw_eight(left, x, place.y, &dots[..8]);
        } else {
            self.draw_sixteen(left, x, place.y, dots);
        }
    }

    /// Draws the dots of `n` characters side by side, all in the frame, if the ULA has them ready.
    /// Returns `false`, with the frame unchanged, if it has not.
    #[inline(always)]
    pub(crate) fn draw_row(
        &mut self,
        left: u16,
        place: &Place,
        ula: &Ula,
        bytes: &[u8],
        step: usize,
        n: u16,
    ) -> bool
        requires along { (left ≤ place.now.x) × (place.now.x + n * dots_of ula.now.control ≤ left + 640) }
        requires down { (40 ≤ place.now.y) × (place.now.y < 296) }
        requires left { left ≤ 240 }
        requires bytes { (k : ℕ) → k < n → k * step < length bytes.now }
        ensures drawn { result ≡ true → self.new ≡ dots_set left place.now.x place.now.y (row_colours ula.now bytes.now step n) self.old }
        ensures stays { result ≡ false → self.new ≡ self.old }
    {
        let at = dot_at(left, place);
        let count = usize::from(n) * wide(bit(ula.mode(), 4));
        self.is_clear = false;
        self.frame
            .put_row(at, count, ula, bytes, step, usize::from(n))
    }

    /// Draws `n` black characters side by side.
    #[inline(never)]
    pub(crate) fn draw_black(&mut self, left: u16, place: &Place, narrow: bool, n: u16)
        requires along { (left ≤ place.now.x) × (place.now.x + n * wide narrow ≤ left + 640) }
        requires down { (40 ≤ place.now.y) × (place.now.y < 296) }
        requires left { left ≤ 240 }
        ensures { self.new ≡ dots_set left place.now.x place.now.y (replicate (n * wide narrow) 0) self.old }
    {
        let at = dot_at(left, place);
        let count = usize::from(n) * wide(narrow);
        self.is_clear = false;
        self.frame.blacken(at, count);
    }
}
