//! The line of a start.
ghost use Rattle.std.specs.Prelude.{◌≡◌, ◌+◌, ◌++◌, ◌≤◌, ℕ, IfOk, length};
ghost use Rattle.digits.specs.Hexadecimal.{hex_digits};
ghost use Rattle.dis65.specs.Listing.{decode};
ghost use Rattle.follow.specs.Listing.{behind_line, first_line, instruction_text, registers_text, start_line};
ghost use Rattle.follow.specs.CodeStart.{start_seen, code_seen};

use crate::start::Start;
use cpu_alu::Regs;
use digits::{four_digits, ten_digits, two_digits};
use dis65::disassemble;
use op_table::Part;
use std::alloc::{AllocError, Global};

// Returns the text after its first line.
fn behind_line(text: &[u8]) -> &[u8]
    ensures { result.now ≡ behind_line text.now }
{
    let mut rest = text;
    while let Some((first, behind)) = rest.split_first() {
        rest = behind;
        if *first == b'\n' {
            return rest;
        }
    }
    rest
}

// Appends the first line of `other`.
fn push_first_line(text: &mut Vec<u8>, other: &[u8]) -> Result<(), AllocError>
    ensures { IfOk result (λ _. text.new.items ≡ text.old.items ++ first_line other.now) }
{
    let mut rest = other;
    while let Some((first, behind)) = rest.split_first() {
        if *first == b'\n' {
            return Ok(());
        }
        text.push(*first)?;
        rest = behind;
    }
    Ok(())
}

// Appends the second line of the disassembly of the bytes.
fn push_decoded(
    alloc: Global,
    text: &mut Vec<u8>,
    part: Part,
    bytes: &[u8],
    pc: u16,
) -> Result<(), AllocError>
    requires { pc + length bytes.now ≤ 65536 }
    ensures { IfOk result (λ _. text.new.items ≡ text.old.items ++ first_line (behind_line (decode part bytes.now pc))) }
{
    let decoded = disassemble(alloc, part, bytes, pc)?;
    push_first_line(text, behind_line(&decoded))
}

// Appends the text of the instruction at a start.
fn push_instruction(
    alloc: Global,
    text: &mut Vec<u8>,
    part: Part,
    start: &Start,
) -> Result<(), AllocError>
    requires { (start.now.regs).pc + length (code_seen start.now) ≤ 65536 }
    ensures { IfOk result (λ _. text.new.items ≡ text.old.items ++ instruction_text part (start.now.regs).pc (code_seen start.now)) }
{
    let pc = start.regs.pc;
    let Some(first) = start.first else {
        return text.extend_from_slice(b"?");
    };
    let Some(second) = start.second else {
        return push_decoded(alloc, text, part, &[first], pc);
    };
    let Some(third) = start.third else {
        return push_decoded(alloc, text, part, &[first, second], pc);
    };
    push_decoded(alloc, text, part, &[first, second, third], pc)
}

// Appends a name and then a byte in two hexadecimal digits.
fn push_byte(text: &mut Vec<u8>, name: &[u8], n: u8) -> Result<(), AllocError>
    ensures { IfOk result (λ _. text.new.items ≡ text.old.items ++ (name.now ++ hex_digits 2 n)) }
{
    text.extend_from_slice(name)?;
    text.extend_from_slice(&two_digits(n))
}

// Appends all registers but the program counter.
#[tactic(auto, unfolding(crate::specs::Listing::registers_text))]
fn push_registers(text: &mut Vec<u8>, regs: Regs) -> Result<(), AllocError>
    ensures { IfOk result (λ _. text.new.items ≡ text.old.items ++ registers_text regs) }
{
    push_byte(text, b" A=", regs.a)?;
    push_byte(text, b" X=", regs.x)?;
    push_byte(text, b" Y=", regs.y)?;
    push_byte(text, b" S=", regs.s)?;
    push_byte(text, b" P=", (regs.p & 0xcf) | 0x20)
}

/// Appends the line of a start: its tick, the program counter, the other registers and the text of
/// the instruction.
#[tactic(auto, unfolding(crate::specs::Listing::start_line))]
pub(crate) fn push_line(
    alloc: Global,
    text: &mut Vec<u8>,
    part: Part,
    start: &Start,
) -> Result<(), AllocError>
    requires { (start.now.regs).pc + length (code_seen start.now) ≤ 65536 }
    ensures { IfOk result (λ _. text.new.items ≡ text.old.items ++ start_line part (start_seen start.now)) }
{
    text.extend_from_slice(&ten_digits(start.tick))?;
    text.extend_from_slice(b" ")?;
    text.extend_from_slice(&four_digits(start.regs.pc))?;
    push_registers(text, start.regs)?;
    text.extend_from_slice(b" ")?;
    push_instruction(alloc, text, part, start)?;
    text.extend_from_slice(b"\n")
}
