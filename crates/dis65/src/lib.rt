//! The disassembler: makes a source text of bytes of the NMOS 6502 or the 65C02.
#![tactic(auto)]

ghost use Rattle.std.specs.Prelude.{◌≡◌, ◌+◌, ◌≤◌, IfOk, length};
ghost use Rattle.asm65.specs.Source.{source};
ghost use Rattle.dis65.specs.Listing.{decode};
ghost use Rattle.dis65.specs.Meaning.{DecodeMeansItsBytes};

mod line;
mod number;

use crate::line::push_line;
use crate::number::push_word;
use beeb_bits::NoMemory;
use op_table::Part;
use std::alloc::{AllocError, Global};

#[tactic(auto, unfolding(crate::specs::Listing::decode))]
fn listing(alloc: Global, part: Part, bytes: &[u8], origin: u16) -> Result<Vec<u8>, AllocError>
    requires { origin + length bytes.now ≤ 65536 }
    ensures { IfOk result (λ v. v.items ≡ decode part bytes.now origin) }
{
    let mut text = Vec::new(alloc);
    push_word(&mut text, b"org &", origin, b"\n")?;
    let mut at = usize::from(origin);
    let mut rest = bytes;
    while let Some((op, behind)) = rest.split_first() {
        let passed = push_line(&mut text, part, at as u16, *op, behind)?;
        at += 1 + passed;
        rest = &behind[passed..];
    }
    Ok(text)
}

/// Returns the source text of bytes from an origin on: `org` with the origin, and then a line for
/// each instruction. A byte gets the line `byte` if its opcode isn't documented for the part or if
/// its instruction passes the end.
///
/// # Errors
/// Returns an error if there is no memory for the text.
pub fn disassemble(
    alloc: Global,
    part: Part,
    bytes: &[u8],
    origin: u16,
) -> Result<Vec<u8>, NoMemory>
    requires { origin + length bytes.now ≤ 65536 }
    ensures text { IfOk result (λ v. v.items ≡ decode part bytes.now origin) }
    // In words: the text, assembled for the same part, yields the origin and the bytes.
    ensures meaning { IfOk result (λ v. source part v.items ≡ Ok (origin, bytes.now)) }
{
    Ok(listing(alloc, part, bytes, origin)?)
}

/// Proves a law of disassemblies, for every list of bytes and for both parts: the text, assembled
/// for the same part, yields its origin and its bytes.
pub fn decode_means_its_bytes()
    ensures { DecodeMeansItsBytes }
{}
