//! The demonstration pair: two programs that send 4,096 bytes through the Tube.
#![tactic(auto)]

ghost use Rattle.std.specs.Prelude.{◌≡◌, ◌%◌, Ok, IsOk, IfOk, take, drop};
ghost use Rattle.asm65.specs.Source.{source};
ghost use Rattle.rand_pcg.specs.Pcg.{pcg32};
ghost use Rattle.demo_gen.specs.Demo.{host_text, tube_text, drawn_bytes, image_with, image_of, image_holding, ImagesFit};

use asm65::{AsmError, Image, assemble};
use beeb_bits::NoMemory;
use op_table::Part;
use rand_core::utils::NextWord;
use rand_pcg::Lcg64Xsh32;
use std::alloc::{AllocError, Global};

/// The images of the pair.
#[derive(Debug, Drop)]
pub struct Demo {
    /// The host's operating system, 16,384 bytes. It takes bytes from the Tube's register 1, stores
    /// them from 2000 on, and their sum at 0070 and 0071.
    pub os: Vec<u8>,
    /// The second processor's boot ROM, 2,048 bytes. It sends the 256 bytes at F900 sixteen times
    /// to the Tube's register 1.
    pub tube: Vec<u8>,
}

/// The host's source text.
const HOST: &str = "org &C000
start: LDX #0
STX &70
STX &71
wait: BIT &FEE0
BPL wait
LDA &FEE1
STA &2000,X
CLC
ADC &70
STA &70
BCC next
INC &71
next: INX
JMP wait
org &FFFA
word start, start, start
";

/// The second processor's source text.
const TUBE: &str = "org &F800
start: LDX #0
copy: LDA &F800,X
STA &F800,X
LDA &F900,X
STA &F900,X
INX
BNE copy
LDY #16
send: BIT &FEF8
BVC send
LDA &F900,X
STA &FEF9
INX
BNE send
DEY
BNE send
stop: JMP stop
org &FFFA
word start, start, start
";

/// Makes the pair of a seed: the images of both programs. The second processor's has 256 bytes at
/// F900 to F9FF: the low bytes of the first 256 words of the PCG generator (XSH RR 64/32) of the
/// seed and stream 0. Both programs assemble.
///
/// # Errors
/// Out of memory.
pub fn pair(alloc: Global, seed: u64) -> Result<Demo, NoMemory>
    ensures assembles { IsOk (source Part.Nmos host_text) × IsOk (source Part.Cmos tube_text) }
    ensures os { IfOk result (λ demo. image_of (source Part.Nmos host_text) ≡ Ok demo.os.items) }
    ensures tube { IfOk result (λ demo. image_holding (drawn_bytes seed) (source Part.Cmos tube_text) ≡ Ok demo.tube.items) }
{
    let os = host_image(alloc)?;
    let tube = tube_image(alloc, seed)?;
    Ok(Demo { os, tube })
}

/// States that the images of every seed have the lengths that their machines require.
pub fn images_fit()
    ensures { ImagesFit }
{}

// Makes the image of a text that assembles.
fn assembled(alloc: Global, part: Part, text: &[u8]) -> Result<Image, NoMemory>
    requires { IsOk (source part text.now) }
    ensures { IfOk result (λ image. source part text.now ≡ Ok (image.origin, image.bytes.items)) }
{
    match assemble(alloc, part, text) {
        Ok(image) => Ok(image),
        Err(AsmError::NoMemory) => Err(NoMemory),
        Err(_) => unreachable!(),
    }
}

fn host_image(alloc: Global) -> Result<Vec<u8>, NoMemory>
    ensures { IfOk result (λ image. image_of (source Part.Nmos host_text) ≡ Ok image.items) }
{
    let program = assembled(alloc, Part::Nmos, HOST.as_bytes())?;
    Ok(program.bytes)
}

fn tube_program(alloc: Global) -> Result<Image, NoMemory>
    ensures { IfOk result (λ image. source Part.Cmos tube_text ≡ Ok (image.origin, image.bytes.items)) }
{
    assembled(alloc, Part::Cmos, TUBE.as_bytes())
}

fn tube_image(alloc: Global, seed: u64) -> Result<Vec<u8>, NoMemory>
    ensures { IfOk result (λ image. image_holding (drawn_bytes seed) (source Part.Cmos tube_text) ≡ Ok image.items) }
{
    let program = tube_program(alloc)?;
    let bytes = drawn(alloc, seed)?;
    Ok(holding(alloc, &program.bytes, &bytes)?)
}

// Returns the low byte of the generator's next word.
fn next_byte(generator: &mut Lcg64Xsh32) -> u8
    ensures byte { result ≡ (pcg32 generator.old).0 % 256 }
    ensures after { generator.new ≡ (pcg32 generator.old).1 }
{
    (generator.next_word() % 256) as u8
}

// Returns the low bytes of the generator's first 256 words.
fn drawn(alloc: Global, seed: u64) -> Result<Vec<u8>, AllocError>
    ensures { IfOk result (λ bytes. bytes.items ≡ drawn_bytes seed) }
{
    let mut generator = Lcg64Xsh32::new(seed, 0);
    let mut bytes = Vec::new(alloc);
    for _ in 0..256u16 {
        bytes.push(next_byte(&mut generator))?;
    }
    Ok(bytes)
}

// Returns the first page of an image.
fn front(image: &[u8]) -> &[u8]
    ensures { result.now ≡ take 256 image.now }
{
    if image.len() < 256 {
        image
    } else {
        &image[..256]
    }
}

// Returns the bytes of an image after its second page.
fn behind(image: &[u8]) -> &[u8]
    ensures { result.now ≡ drop 512 image.now }
{
    if image.len() < 512 {
        &[]
    } else {
        &image[512..]
    }
}

// Returns the image with `bytes` as its second page.
fn holding(alloc: Global, image: &[u8], bytes: &[u8]) -> Result<Vec<u8>, AllocError>
    ensures { IfOk result (λ held. held.items ≡ image_with bytes.now image.now) }
{
    let mut held = front(image).to_vec(alloc)?;
    held.extend_from_slice(bytes)?;
    held.extend_from_slice(behind(image))?;
    Ok(held)
}
