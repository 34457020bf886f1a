//! The bytes that a statement makes, appended to those before it.
ghost use Rattle.std.specs.Prelude.{◌≡◌, ◌<◌, ◌≤◌, ◌-◌, ◌++◌, ◌∷◌, [], false, map, replicate, option_map, vec_len, OnOk};
ghost use Rattle.std.specs.List.{list_any, concat};
ghost use Rattle.asm65.specs.Placement.{mode_of};
ghost use Rattle.asm65.specs.Source.{value_in, is_out, operand_out, statement_out, word_bytes, operand_bytes, instruction_bytes, statement_bytes};
ghost use Rattle.asm_lines.specs.Code.{seen_list, seen_operand, seen_statement};
ghost use Rattle.asm65.specs.CodeLabels.{labels_in, room_of};

use crate::encode::{distance, evaluate};
use crate::labels::Labels;
use crate::placement::{mode_of, operand_value};
use asm_lines::{Operand, Statement, ValueList};
use op_table::{Mnemonic, Mode, Part, find};
use std::alloc::AllocError;

// Appends a word, its low byte first.
fn push_word(bytes: &mut Vec<u8>, word: u64) -> Result<(), AllocError>
    requires { word < 65536 }
    ensures { OnOk result (bytes.new.items ≡ bytes.old.items ++ word_bytes word) }
{
    bytes.push((word % 256) as u8)?;
    bytes.push((word / 256) as u8)?;
    Ok(())
}

fn push_operand(
    bytes: &mut Vec<u8>,
    address: u32,
    mode: Mode,
    number: u64,
) -> Result<(), AllocError>
    requires { number < room_of mode }
    ensures { OnOk result (bytes.new.items ≡ bytes.old.items ++ operand_bytes address mode (number ∷ [])) }
{
    match mode {
        Mode::Rel => bytes.push((distance(address, number) % 256) as u8)?,
        Mode::Abs | Mode::AbsX | Mode::AbsY | Mode::Ind | Mode::IndAbsX => push_word(
            bytes, number,
        )?,
        _ => bytes.push(number as u8)?,
    }
    Ok(())
}

fn push_instruction<'a>(
    bytes: &mut Vec<u8>,
    part: Part,
    labels: &Labels<'a>,
    address: u32,
    mnemonic: Mnemonic,
    operand: &Operand<'a>,
) -> Result<(), AllocError>
    requires { let operand = seen_operand operand.now in
        operand_out (labels_in labels.now) address (mode_of part mnemonic operand) operand ≡ false }
    ensures { let operand = seen_operand operand.now in
        OnOk result (bytes.new.items ≡ bytes.old.items
        ++ instruction_bytes part (labels_in labels.now) address mnemonic operand (mode_of part mnemonic operand)) }
{
    let Some(mode) = mode_of(part, mnemonic, operand) else {
        return Ok(());
    };
    bytes.push(find(part, mnemonic, mode).unwrap_or(0))?;
    if let Some(value) = operand_value(operand) {
        push_operand(bytes, address, mode, evaluate(labels, &value))?;
    }
    Ok(())
}

fn push_bytes<'a>(
    bytes: &mut Vec<u8>,
    labels: &Labels<'a>,
    values: ValueList<'a>,
) -> Result<(), AllocError>
    requires { list_any (is_out (labels_in labels.now) 256) (seen_list values) ≡ false }
    ensures { OnOk result (bytes.new.items
        ≡ bytes.old.items ++ map (value_in (labels_in labels.now)) (seen_list values.entry)) }
{
    let mut rest = values;
    while let Some((value, others)) = rest.next() {
        bytes.push(evaluate(labels, &value) as u8)?;
        rest = others;
    }
    Ok(())
}

fn push_words<'a>(
    bytes: &mut Vec<u8>,
    labels: &Labels<'a>,
    values: ValueList<'a>,
) -> Result<(), AllocError>
    requires { list_any (is_out (labels_in labels.now) 65536) (seen_list values) ≡ false }
    ensures { OnOk result (bytes.new.items ≡ bytes.old.items
        ++ concat (map (λ v. word_bytes (value_in (labels_in labels.now) v)) (seen_list values.entry))) }
{
    let mut rest = values;
    while let Some((value, others)) = rest.next() {
        push_word(bytes, evaluate(labels, &value))?;
        rest = others;
    }
    Ok(())
}

// Fills with 00 up to an address.
fn fill(bytes: &mut Vec<u8>, address: u32, up_to: u32) -> Result<(), AllocError>
    requires { vec_len bytes.old ≤ 65536 }
    ensures { OnOk result (bytes.new.items ≡ bytes.old.items ++ replicate (up_to - address) 0) }
{
    bytes.resize(bytes.len() + up_to.saturating_sub(address) as usize, 0)
}

/// Appends the bytes of a statement at an address. An `org` fills with 00 up to its own address.
pub(crate) fn push_statement<'a>(
    bytes: &mut Vec<u8>,
    part: Part,
    labels: &Labels<'a>,
    address: u32,
    statement: &Option<Statement<'a>>,
) -> Result<(), AllocError>
    requires room { vec_len bytes.old ≤ 65536 }
    requires in_range { let statement = option_map seen_statement statement.now in
        statement_out part (labels_in labels.now) address statement ≡ false }
    ensures { let statement = option_map seen_statement statement.now in
        OnOk result (bytes.new.items
        ≡ bytes.old.items ++ statement_bytes part (labels_in labels.now) address statement) }
{
    match statement {
        Some(Statement::Instruction(mnemonic, operand)) => push_instruction(
            bytes, part, labels, address, *mnemonic, operand,
        ),
        Some(Statement::Org(number)) => fill(bytes, address, number.value()),
        Some(Statement::Bytes(values)) => push_bytes(bytes, labels, *values),
        Some(Statement::Words(values)) => push_words(bytes, labels, *values),
        None => Ok(()),
    }
}
