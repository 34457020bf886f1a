//! One line of a disassembly.
ghost use Rattle.std.specs.Prelude.{◌≡◌, ◌+◌, ◌*◌, ◌++◌, ◌≤◌, IfOk, length, option_map, slice_index, codes};
ghost use Rattle.op_table.specs.Forms.{forms, form_at};
ghost use Rattle.op_table.specs.Rows.{row_of};
ghost use Rattle.op_table.specs.Names.{name_of};
ghost use Rattle.dis65.specs.Listing.{target, operand_text, if_whole, form_here, line_text, bytes_behind};

use crate::number::{push_byte, push_word};
use op_table::{Mode, Part, Row, documented};
use std::alloc::AllocError;

// Returns the target of a branch at `at` with the signed operand `far`, which counts from the next
// instruction.
fn target(at: u16, far: u8) -> u16
    ensures { result ≡ target at far }
{
    at.wrapping_add(2)
        .wrapping_add_signed(i16::from(far.cast_signed()))
}

// Appends the operand of an instruction at an address, by its mode.
fn push_operand(
    text: &mut Vec<u8>,
    at: u16,
    mode: Mode,
    low: u8,
    high: u8,
) -> Result<(), AllocError>
    ensures { IfOk result (λ _. text.new.items ≡ text.old.items ++ operand_text at mode low high) }
{
    let word = u16::from_le_bytes([low, high]);
    match mode {
        Mode::Imp | Mode::Spare => Ok(()),
        Mode::Acc => text.extend_from_slice(b" A"),
        Mode::Imm => push_byte(text, b" #&", low, b""),
        Mode::Zp => push_byte(text, b" &", low, b""),
        Mode::ZpX => push_byte(text, b" &", low, b",X"),
        Mode::ZpY => push_byte(text, b" &", low, b",Y"),
        Mode::Abs => push_word(text, b" &", word, b""),
        Mode::AbsX => push_word(text, b" &", word, b",X"),
        Mode::AbsY => push_word(text, b" &", word, b",Y"),
        Mode::IndX => push_byte(text, b" (&", low, b",X)"),
        Mode::IndY => push_byte(text, b" (&", low, b"),Y"),
        Mode::IndZp => push_byte(text, b" (&", low, b")"),
        Mode::Rel => push_word(text, b" &", target(at, low), b""),
        Mode::Ind => push_word(text, b" (&", word, b")"),
        Mode::IndAbsX => push_word(text, b" (&", word, b",X)"),
    }
}

// Returns the row of an opcode if it is documented for the part and at most `available` bytes long.
#[tactic(auto, using(crate::proofs::LineLemmas::row_whole))]
fn whole(part: Part, op: u8, available: usize) -> Option<Row>
    ensures { result ≡ option_map (row_of part) (if_whole available (form_at (forms part) op)) }
{
    let row = documented(part, op)?;
    if usize::from(row.bytes) <= available {
        Some(row)
    } else {
        None
    }
}

// Returns the byte at `place`, or 0 past the end. An instruction that has no such byte does not
// print it.
fn byte_or_0(bytes: &[u8], place: usize) -> u8
    ensures { result ≡ slice_index bytes.now place }
{
    bytes.get(place).copied().unwrap_or(0)
}

// Appends the line of an instruction with the bytes after its opcode.
fn push_instruction(text: &mut Vec<u8>, at: u16, row: Row, behind: &[u8]) -> Result<(), AllocError>
    ensures { let operand = operand_text at row.mode (slice_index behind.now 0) (slice_index behind.now 1) in
        IfOk result (λ _. text.new.items ≡ text.old.items ++ (name_of row.mnemonic ++ operand ++ codes "\n")) }
{
    text.extend_from_slice(&row.mnemonic.name())?;
    push_operand(
        text,
        at,
        row.mode,
        byte_or_0(behind, 0),
        byte_or_0(behind, 1),
    )?;
    text.extend_from_slice(b"\n")
}

/// Appends the line of an opcode with the bytes after it. Returns the number of them that belong to
/// the line.
pub(crate) fn push_line(
    text: &mut Vec<u8>,
    part: Part,
    at: u16,
    op: u8,
    behind: &[u8],
) -> Result<usize, AllocError>
    ensures text { IfOk result (λ _. text.new.items ≡ text.old.items ++ line_text at op behind.now (form_here part op behind.now)) }
    ensures passed { IfOk result (λ n. n ≡ bytes_behind (form_here part op behind.now)) }
    ensures within { IfOk result (λ n. n ≤ length behind.now) }
{
    match whole(part, op, behind.len() + 1) {
        Some(row) => {
            push_instruction(text, at, row, behind)?;
            Ok(usize::from(row.bytes) - 1)
        }
        None => {
            push_byte(text, b"byte &", op, b"\n")?;
            Ok(0)
        }
    }
}
