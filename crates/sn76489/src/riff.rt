//! Samples as a sound file (RIFF, WAVE).
ghost use Rattle.std.specs.Prelude.{◌≡◌, ◌≤◌, ◌<◌, ◌^◌, ◌++◌, IfOk, length};
ghost use Rattle.sn76489.specs.Wav.{chunk, format, header, sample_bytes, wav};

use beeb_bits::NoMemory;
use std::alloc::{AllocError, Global};

/// The bytes before the samples.
const HEADER_SIZE: usize = 44;

/// Pulse code modulation.
const ENCODING: u16 = 1;

const CHANNELS: u16 = 1;

const SAMPLES_A_SECOND: u32 = 31_250;

const BYTES_A_SECOND: u32 = 62_500;

const BYTES_A_SAMPLE: u16 = 2;

const BITS_A_SAMPLE: u16 = 16;

/// The bytes of the format, and those of the file after its first eight, without any samples.
const FORMAT_SIZE: u32 = 16;

const REST_SIZE: u32 = 36;

// Returns a sample as its two bytes.
fn sample_bytes(sample: i16) -> [u8; 2]
    ensures { result ≡ sample_bytes sample }
{
    sample.cast_unsigned().to_le_bytes()
}

// Appends the name and the size of a chunk.
fn put_chunk(bytes: &mut Vec<u8>, name: &[u8], size: u32) -> Result<(), AllocError>
    ensures { IfOk result (λ _. bytes.new.items ≡ bytes.old.items ++ chunk name.now size) }
{
    bytes.extend_from_slice(name)?;
    bytes.extend_from_slice(&size.to_le_bytes())?;
    Ok(())
}

// Appends the format of the samples.
fn put_format(bytes: &mut Vec<u8>) -> Result<(), AllocError>
    ensures { IfOk result (λ _. bytes.new.items ≡ bytes.old.items ++ format) }
{
    bytes.extend_from_slice(&ENCODING.to_le_bytes())?;
    bytes.extend_from_slice(&CHANNELS.to_le_bytes())?;
    bytes.extend_from_slice(&SAMPLES_A_SECOND.to_le_bytes())?;
    bytes.extend_from_slice(&BYTES_A_SECOND.to_le_bytes())?;
    bytes.extend_from_slice(&BYTES_A_SAMPLE.to_le_bytes())?;
    bytes.extend_from_slice(&BITS_A_SAMPLE.to_le_bytes())?;
    Ok(())
}

// Appends the bytes before `size` bytes of samples.
fn put_header(bytes: &mut Vec<u8>, size: u32) -> Result<(), AllocError>
    requires { size < 2 ^ 31 }
    ensures { IfOk result (λ _. bytes.new.items ≡ bytes.old.items ++ header size) }
{
    put_chunk(bytes, b"RIFF", REST_SIZE + size)?;
    bytes.extend_from_slice(b"WAVE")?;
    put_chunk(bytes, b"fmt ", FORMAT_SIZE)?;
    put_format(bytes)?;
    put_chunk(bytes, b"data", size)?;
    Ok(())
}

// Makes the file of `samples`.
fn file(alloc: Global, samples: &[i16]) -> Result<Vec<u8>, AllocError>
    requires { length samples.now ≤ 2 ^ 24 }
    ensures { IfOk result (λ bytes. bytes.items ≡ wav samples.now) }
{
    let size = 2 * samples.len();
    let mut bytes = Vec::with_capacity(alloc, HEADER_SIZE + size)?;
    put_header(&mut bytes, size as u32)?;
    for sample in samples {
        bytes.extend_from_slice(&sample_bytes(*sample))?;
    }
    Ok(bytes)
}

/// Makes the sound file of `samples`: one channel, 31,250 samples a second, 16 bits each.
///
/// # Errors
/// Out of memory.
pub fn wav(alloc: Global, samples: &[i16]) -> Result<Vec<u8>, NoMemory>
    requires { length samples.now ≤ 2 ^ 24 }
    ensures { IfOk result (λ bytes. bytes.items ≡ wav samples.now) }
{
    Ok(file(alloc, samples)?)
}
