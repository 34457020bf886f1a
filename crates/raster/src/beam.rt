//! The byte that the beam shows, and the cursor's marks.
ghost use Rattle.std.specs.Prelude.{◌≡◌, ◌<◌, ◌≤◌, ◌+◌, ◌%◌, true};
ghost use Rattle.raster.specs.Beam.{IsScreenSize, byte_address, cursor_past, is_marked};
ghost use Rattle.raster.specs.State.{first_cursor};
ghost use Rattle.raster.specs.Reads.{IsLowest};
ghost use Rattle.raster.specs.CodeSteps.{AreApart};

use beeb_bits::bit;
use std::marker::Model;

/// Returns the RAM address of the byte that is shown.
#[inline(always)]
pub(crate) fn byte_address(ma: u16, ra: u8, size: u16) -> usize
    requires { IsScreenSize size }
    ensures value { result ≡ byte_address ma ra size }
    ensures bound { result < 32768 }
{
    if ma / 0x2000 % 2 == 1 {
        let page = if ma / 0x800 % 2 == 1 { 0x7c00 } else { 0x3c00 };
        page + usize::from(ma % 1024)
    } else {
        let at = ma % 0x2000 * 8 + u16::from(ra % 8);
        let at = if at >= 0x8000 { at - size } else { at };
        usize::from(at % 0x8000)
    }
}

/// The places of the bytes of characters whose addresses count up: from `at` on, `step` apart.
#[derive(Clone, Copy)]
pub(crate) struct Bytes {
    pub(crate) at: usize,
    pub(crate) step: usize,
    /// The number of bytes before the end of the RAM. Later ones are elsewhere.
    pub(crate) count: u16,
}

/// Returns the places of the bytes of `n` characters in one block of 1,024 addresses.
#[inline(always)]
pub(crate) fn bytes_from(ma: u16, ra: u8, size: u16, n: u16) -> Bytes
    requires size { IsScreenSize size }
    requires page { ma % 1024 + n ≤ 1024 }
    ensures most { result.count ≤ n }
    ensures apart { AreApart ma ra size result.count result.at result.step }
    ensures bound { result.at < 32768 }
{
    let at = byte_address(ma, ra, size);
    let rest = (0x8000 - at) as u16;
    if ma / 0x2000 % 2 == 1 {
        Bytes {
            at,
            step: 1,
            count: n.min(rest),
        }
    } else {
        Bytes {
            at,
            step: 8,
            count: n.min(rest / 8 + u16::from(rest % 8 != 0)),
        }
    }
}

/// Returns a RAM address. None of the `count` characters from `base` on is shown from a byte below
/// it.
pub(crate) fn lowest_of(base: u16, count: u16, size: u16) -> u16
    requires base { base < 16384 }
    requires size { IsScreenSize size }
    ensures { IsLowest result base count size }
{
    let end = u32::from(base) + u32::from(count);
    if count == 0 {
        0x8000
    } else if base >= 0x2000 && end <= 0x4000 {
        // If bit 11 may be clear in an address, the page at 3C00 may be shown.
        if base / 0x800 % 2 == 1 && (end - 1) / 0x800 == u32::from(base / 0x800) {
            0x7c00
        } else {
            0x3c00
        }
    } else if end > 0x2000 || 8 * end > 0x8000 + u32::from(size) {
        0
    } else if end <= 0x1000 {
        8 * base
    } else if base >= 0x1000 {
        (8 * u32::from(base) - u32::from(size)) as u16
    } else {
        (8 * base).min(0x8000 - size)
    }
}

/// The cursor among the last three characters.
#[derive(Drop)]
pub(crate) struct Cursor {
    one_ago: bool,
    two_ago: bool,
    three_ago: bool,
    // The cursor was on one of them, which is rare.
    is_near: bool,
}

impl Model for Cursor {
    ghost use Rattle.std.specs.Prelude.{◌≡◌, ◌||◌};
    ghost use Rattle.raster.specs.Beam.{Cursor};

    ghost Value = { Cursor };

    ghost view = { λ c. record { one_ago = c.one_ago; two_ago = c.two_ago; three_ago = c.three_ago } };

    ghost invariant = { λ c. c.is_near ≡ (c.one_ago || c.two_ago || c.three_ago) };
}

impl Cursor {
    pub(crate) fn first() -> Cursor
        ensures { result ≡ first_cursor }
    {
        Cursor {
            one_ago: false,
            two_ago: false,
            three_ago: false,
            is_near: false,
        }
    }

    /// Reports if the cursor marks the character that the beam is on.
    #[inline(always)]
    pub(crate) fn is_marked(&self, control: u8, here: bool) -> bool
        ensures { result ≡ is_marked control here self.now }
    {
        (here || self.is_near) && self.marks(control, here)
    }

    #[inline(never)]
    fn marks(&self, control: u8, here: bool) -> bool
        ensures { result ≡ is_marked control here self.now }
    {
        if bit(control, 1) {
            here && (bit(control, 5) || bit(control, 6) || bit(control, 7))
        } else {
            (bit(control, 7) && here)
                || (bit(control, 6) && self.one_ago)
                || (bit(control, 5) && (self.two_ago || self.three_ago))
        }
    }

    /// Reports if the cursor was on none of the last three characters.
    pub(crate) fn is_clear(&self) -> bool
        ensures { result ≡ true → self.now ≡ first_cursor }
    {
        !self.is_near
    }

    /// Moves past a character, which had the cursor if `here`.
    #[inline(always)]
    pub(crate) fn pass(&mut self, here: bool)
        ensures { self.new ≡ cursor_past here self.old }
    {
        if here || self.is_near {
            self.shift(here);
        }
    }

    #[inline(never)]
    fn shift(&mut self, here: bool)
        ensures { self.new ≡ cursor_past here self.old }
    {
        self.is_near = here || self.one_ago || self.two_ago;
        self.three_ago = self.two_ago;
        self.two_ago = self.one_ago;
        self.one_ago = here;
    }
}
