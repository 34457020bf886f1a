//! A frame as the bytes of a picture file (Netpbm, the PPM format, raw).
#![tactic(auto)]

ghost use Rattle.std.specs.Prelude.{◌≡◌, ◌==◌, ◌++◌, IfOk, IsOk, flat_map, take, drop, replicate, bit_and};
ghost use Rattle.std.specs.Simd.Lanes.{zip2, sel_l};
ghost use Rattle.frame_out.specs.Pixmap.{sample, pixel, pixmap};

use beeb_bits::{NoMemory, bit};
use raster::Frame;
use std::alloc::{AllocError, Global};
use std::simd::prelude::*;

/// A pixmap of 640 by 256 pixels, with samples up to 255.
const HEADER: &[u8] = b"P6\n640 256\n255\n";

/// The bytes of a frame's pixmap.
const SIZE: usize = 491_535;

fn sample(on: bool) -> u8
    ensures { result ≡ sample on }
{
    if on { 0xff } else { 0x00 }
}

// Returns a colour as its red, green and blue.
fn pixel(colour: u8) -> [u8; 3]
    ensures { result ≡ pixel colour }
{
    [
        sample(bit(colour, 0)),
        sample(bit(colour, 1)),
        sample(bit(colour, 2)),
    ]
}

// Returns the first sixteen of the 48 samples of sixteen colours.
#[inline(always)]
fn first_samples(colours: u8x16) -> [u8; 16]
    ensures { result ≡ take 16 (flat_map pixel colours) }
{
    let bits = u8x16::from_array([1, 2, 4, 1, 2, 4, 1, 2, 4, 1, 2, 4, 1, 2, 4, 1]);
    let colours = colours.swizzle([0, 0, 0, 1, 1, 1, 2, 2, 2, 3, 3, 3, 4, 4, 4, 5]);
    samples(colours, bits)
}

// Returns the next sixteen samples.
#[inline(always)]
fn next_samples(colours: u8x16) -> [u8; 16]
    ensures { result ≡ take 16 (drop 16 (flat_map pixel colours)) }
{
    let bits = u8x16::from_array([2, 4, 1, 2, 4, 1, 2, 4, 1, 2, 4, 1, 2, 4, 1, 2]);
    let colours = colours.swizzle([5, 5, 6, 6, 6, 7, 7, 7, 8, 8, 8, 9, 9, 9, 10, 10]);
    samples(colours, bits)
}

// Returns the last sixteen samples.
#[inline(always)]
fn last_samples(colours: u8x16) -> [u8; 16]
    ensures { result ≡ drop 32 (flat_map pixel colours) }
{
    let bits = u8x16::from_array([4, 1, 2, 4, 1, 2, 4, 1, 2, 4, 1, 2, 4, 1, 2, 4]);
    let colours = colours.swizzle([
        10, 11, 11, 11, 12, 12, 12, 13, 13, 13, 14, 14, 14, 15, 15, 15,
    ]);
    samples(colours, bits)
}

// Returns FF if a colour has its bit, otherwise 00.
#[inline(always)]
fn samples(colours: u8x16, bits: u8x16) -> [u8; 16]
    ensures { result ≡ sel_l (zip2 (λ a b. a == b) (zip2 bit_and colours bits) bits) (replicate 16 255) (replicate 16 0) }
{
    (colours & bits)
        .simd_eq(bits)
        .select(u8x16::splat(0xff), u8x16::splat(0x00))
        .to_array()
}

// Appends the pixels of sixteen colours.
fn add_sixteen(bytes: &mut Vec<u8>, colours: u8x16) -> Result<(), AllocError>
    ensures { IsOk result → bytes.new.items ≡ bytes.old.items ++ flat_map pixel colours }
{
    bytes.extend_from_slice(&first_samples(colours))?;
    bytes.extend_from_slice(&next_samples(colours))?;
    bytes.extend_from_slice(&last_samples(colours))?;
    Ok(())
}

// Makes the pixmap of `colours`: sixteen at a time, and the rest one by one.
fn pixmap(alloc: Global, colours: &[u8]) -> Result<Vec<u8>, AllocError>
    ensures { IfOk result (λ bytes. bytes.items ≡ pixmap colours.now) }
{
    let mut bytes = Vec::with_capacity(alloc, SIZE)?;
    bytes.extend_from_slice(HEADER)?;
    for i in 0..colours.len() / 16 {
        add_sixteen(&mut bytes, u8x16::from_slice(&colours[16 * i..]))?;
    }
    for k in colours.len() / 16 * 16..colours.len() {
        bytes.extend_from_slice(&pixel(colours[k]))?;
    }
    Ok(bytes)
}

/// Makes the pixmap of a frame: a header, and then each pixel, by rows from the top. A pixel is its
/// red, green and blue, each FF if the colour has it, otherwise 00.
///
/// # Errors
/// Out of memory.
pub fn ppm(alloc: Global, frame: &Frame) -> Result<Vec<u8>, NoMemory>
    ensures { IfOk result (λ bytes. bytes.items ≡ pixmap frame.now) }
{
    Ok(pixmap(alloc, &frame.colours)?)
}
