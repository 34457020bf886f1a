//! The sixteen dots of a byte, by the width of a pixel.
ghost use Rattle.std.specs.Prelude.{◌≡◌, ◌<◌, ◌/◌, ◌-◌, ◌^◌, slice_index, map};
ghost use Rattle.std.specs.List.{range_with_len};
ghost use Rattle.video_ula.specs.Pixels.{shifted_byte, entry_of, under_cursor};
ghost use Rattle.video_ula.specs.Colours.{pixel_of, dots_in};

use crate::entries::entry_of;

/// Returns the byte for pixel `k`.
#[inline(always)]
fn shifted(byte: u8, k: u32) -> u8
    requires { k < 16 }
    ensures { result ≡ shifted_byte byte k }
{
    let ones = (1u32 << k) - 1;
    (((u32::from(byte) << k) + ones) % 256) as u8
}

/// Returns the colour of pixel `k`, by the colours of the palette's entries.
#[inline(always)]
fn pixel(colours: &[u8; 16], byte: u8, cursor: bool, k: u32) -> u8
    requires { k < 16 }
    ensures { result ≡ pixel_of colours.now byte cursor k }
{
    let colour = colours[entry_of(shifted(byte, k)) as usize];
    colour ^ (if cursor { 7 } else { 0 })
}

/// Returns the sixteen dots of a byte. A pixel is 8, 4, 2 or 1 dots wide for `width` 0 to 3.
#[inline(always)]
pub(crate) fn sixteen(colours: &[u8; 16], byte: u8, cursor: bool, width: u8) -> [u8; 16]
    requires { width < 4 }
    ensures { result ≡ dots_in colours.now byte cursor (2 ^ (3 - width)) }
{
    if width == 0 {
        eight_wide(colours, byte, cursor)
    } else if width == 1 {
        four_wide(colours, byte, cursor)
    } else if width == 2 {
        two_wide(colours, byte, cursor)
    } else {
        one_wide(colours, byte, cursor)
    }
}

/// Returns the dots for a pixel of 8 dots.
fn eight_wide(colours: &[u8; 16], byte: u8, cursor: bool) -> [u8; 16]
    ensures { result ≡ dots_in colours.now byte cursor 8 }
{
    let a = pixel(colours, byte, cursor, 0);
    let b = pixel(colours, byte, cursor, 1);
    [a, a, a, a, a, a, a, a, b, b, b, b, b, b, b, b]
}

/// Returns the dots for a pixel of 4 dots.
fn four_wide(colours: &[u8; 16], byte: u8, cursor: bool) -> [u8; 16]
    ensures { result ≡ dots_in colours.now byte cursor 4 }
{
    let a = pixel(colours, byte, cursor, 0);
    let b = pixel(colours, byte, cursor, 1);
    let c = pixel(colours, byte, cursor, 2);
    let d = pixel(colours, byte, cursor, 3);
    [a, a, a, a, b, b, b, b, c, c, c, c, d, d, d, d]
}

/// Returns the dots for a pixel of 2 dots.
fn two_wide(colours: &[u8; 16], byte: u8, cursor: bool) -> [u8; 16]
    ensures { result ≡ dots_in colours.now byte cursor 2 }
{
    let a = pixel(colours, byte, cursor, 0);
    let b = pixel(colours, byte, cursor, 1);
    let c = pixel(colours, byte, cursor, 2);
    let d = pixel(colours, byte, cursor, 3);
    let e = pixel(colours, byte, cursor, 4);
    let f = pixel(colours, byte, cursor, 5);
    let g = pixel(colours, byte, cursor, 6);
    let h = pixel(colours, byte, cursor, 7);
    [a, a, b, b, c, c, d, d, e, e, f, f, g, g, h, h]
}

/// Returns the dots for a pixel of 1 dot. From the ninth pixel on, all bits that count are ones
/// that were shifted in.
fn one_wide(colours: &[u8; 16], byte: u8, cursor: bool) -> [u8; 16]
    ensures { result ≡ dots_in colours.now byte cursor 1 }
{
    let a = pixel(colours, byte, cursor, 0);
    let b = pixel(colours, byte, cursor, 1);
    let c = pixel(colours, byte, cursor, 2);
    let d = pixel(colours, byte, cursor, 3);
    let e = pixel(colours, byte, cursor, 4);
    let f = pixel(colours, byte, cursor, 5);
    let g = pixel(colours, byte, cursor, 6);
    let h = pixel(colours, byte, cursor, 7);
    let z = pixel(colours, byte, cursor, 8);
    [a, b, c, d, e, f, g, h, z, z, z, z, z, z, z, z]
}
