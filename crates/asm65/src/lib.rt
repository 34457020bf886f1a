//! The assembler: makes the bytes of a source text for the NMOS 6502 or the 65C02.
#![tactic(auto)]

ghost use Rattle.std.specs.Prelude.{◌≡◌, ◌+◌, ◌≤◌, ◌⊎◌, Ok, Err, length, IfOk, MatchResult};
ghost use Rattle.asm65.specs.declared.AsmError.TheVariants.{NoMemory};
ghost use Rattle.asm65.specs.Source.{source};

mod emit;
mod encode;
mod labels;
mod passes;
mod placement;

use op_table::Part;
use std::alloc::Global;
use thiserror::Error;

/// The result of assembling a source text.
#[derive(Debug, Drop)]
pub struct Image {
    /// The address of the first byte.
    pub origin: u16,
    /// The bytes from there on, at most up to address 65,535.
    pub bytes: Vec<u8>,
}

/// The first offending line of a source text. Lines count from 1.
#[derive(Clone, Copy, Debug, PartialEq, Eq, Error)]
pub enum AsmError {
    /// The line is outside the syntax.
    #[error("line {line}: syntax")]
    Syntax { line: u64 },
    /// The part lacks the mnemonic, or the mnemonic the form of its operand.
    #[error("line {line}: no such form of the instruction")]
    NoSuchForm { line: u64 },
    /// A value names a label that no line has.
    #[error("line {line}: unknown label")]
    UnknownLabel { line: u64 },
    /// An earlier line has the label of this one.
    #[error("line {line}: the label stands at an earlier line")]
    Repeated { line: u64 },
    /// An `org` goes back, a number or value is too large for its place, or a branch goes too far.
    #[error("line {line}: out of range")]
    OutOfRange { line: u64 },
    /// A byte would lie past address 65,535.
    #[error("line {line}: past the end of memory")]
    TooLong { line: u64 },
    /// Memory ran out.
    #[error("no memory")]
    NoMemory,
}

/// Assembles a source text for a part. The form of the text is this project's own; the opcodes are
/// those of the MCS6500 Programming Manual and of the 65C02's data sheet.
///
/// # Source texts
/// Lines end with a line feed, which the last may lack. A line is an optional label with a colon,
/// an optional statement, and an optional comment from `;` on. Spaces and tabs may come between
/// tokens. Only words need them, as separators.
///
/// - A label is a letter or `_` and then letters, digits and `_`, except `A`, `X` and `Y` in either
///   case. It is case sensitive. Its value is the address at the beginning of its line, before an
///   `org` on that line.
/// - A statement is a mnemonic with its operand, `org N`, `byte E, E` or `word E, E` with one or
///   more values. Mnemonics and these words may be in upper or lower case.
/// - N is a number: one to five decimal digits, or `&` and one to four hexadecimal digits.
/// - A value E is N, a label, or a label `+` N. It may begin with `<` or `>`, for its low or its
///   high byte.
/// - An operand is nothing, `A`, `#E`, `E`, `E,X`, `E,Y`, `(E)`, `(E,X)` or `(E),Y`.
///
/// A value is byte-sized if it begins with `<` or `>`, or is a number of one or two hexadecimal
/// digits or a decimal number below 256. `E`, `E,X` and `E,Y` take the zero-page form if the value
/// is byte-sized and the part has that form; otherwise they take the absolute one. With JMP,
/// parentheses take the absolute forms. With others they take the zero-page forms, which need a
/// byte-sized value. A branch takes its target, from -128 to 127 bytes from the address after it,
/// modulo 65,536.
///
/// The origin is that of the first statement if it is `org`, otherwise 0. A later `org` fills with
/// 00 up to its address.
///
/// # Errors
/// The first pass returns the first line that is outside the syntax, has no such form, repeats a
/// label, has an `org` that goes back or a number above 65,535, or passes the end of memory. The
/// first of these causes counts if a line has several. If no line has one, the second pass returns
/// the first line with an unknown label or a value out of range. A value must be below 65,536
/// before `<` or `>` is applied, and below 256 in `byte` and after `#`. Memory may run out at any
/// time.
pub fn assemble(alloc: Global, part: Part, text: &[u8]) -> Result<Image, AsmError>
    ensures value { MatchResult result
        (λ image. source part text.now ≡ Ok (image.origin, image.bytes.items))
        (λ e. (e ≡ NoMemory) ⊎ (source part text.now ≡ Err e)) }
    ensures fits { IfOk result (λ image. image.origin + length image.bytes.items ≤ 65536) }
{
    let origin = passes::origin_of(text);
    let labels = match passes::first_pass(alloc, part, origin, text) {
        Ok(labels) => labels,
        Err(error) => return Err(error),
    };
    match passes::second_pass(alloc, part, origin, &labels, text) {
        Ok(bytes) => Ok(Image {
            origin: origin as u16,
            bytes,
        }),
        Err(error) => Err(error),
    }
}
