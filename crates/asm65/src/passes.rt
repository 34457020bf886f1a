//! Both passes over the lines of a text.
ghost use Rattle.std.specs.Prelude.{◌≡◌, ◌≤◌, false, [], ◌⊎◌, None, Some, option_map, vec_len, MatchResult};
ghost use Rattle.asm65.specs.declared.AsmError.TheVariants.{NoMemory};
ghost use Rattle.asm_lines.specs.Syntax.{parsed_text};
ghost use Rattle.asm65.specs.Placement.{origin_of, placed_from, first_fault, first_pass};
ghost use Rattle.asm65.specs.Source.{second_fault, second_pass};
ghost use Rattle.asm_lines.specs.Code.{seen_line};
ghost use Rattle.asm65.specs.CodeLabels.{labels_in, names_in};
ghost use Rattle.asm65.specs.Passes.{SettlesOrigin, IsPlaced, IsLabelled, IsEncoded, IsProgram, line_is_long};

use crate::AsmError;
use crate::emit::push_statement;
use crate::encode::second_fault;
use crate::labels::{Labels, define};
use crate::placement::{address_behind, is_formless, statement_fault};
use asm_lines::{Line, Statement, next_line};
use op_table::Part;
use std::alloc::Global;
use std::collections::BTreeMap;

// Returns the origin of a text that begins with this line, if the line determines it.
fn line_origin(line: &Option<Line<'_>>) -> Option<u32>
    ensures { SettlesOrigin (option_map seen_line line.now) result }
{
    match line {
        Some(line) => match &line.statement {
            Some(Statement::Org(number)) => Some(number.value()),
            Some(_) => Some(0),
            None => None,
        },
        None => None,
    }
}

/// Returns the origin: that of the first statement if it is `org`, otherwise 0.
pub(crate) fn origin_of(text: &[u8]) -> u32
    ensures { result ≡ origin_of (parsed_text text.now) }
{
    let mut rest = text;
    while !rest.is_empty() {
        let (line, others) = next_line(rest);
        if let Some(origin) = line_origin(&line) {
            return origin;
        }
        rest = others;
    }
    0
}

// Makes the first pass over one line. Returns the address after it.
fn place<'a>(
    part: Part,
    line_number: u64,
    labels: &mut Labels<'a>,
    address: u32,
    line: Option<Line<'a>>,
) -> Result<u32, AsmError>
    ensures { let line = option_map seen_line line.entry in
        MatchResult result
        (λ next. IsPlaced part line_number address line labels.old labels.new next)
        (λ e. (e ≡ NoMemory) ⊎ (first_fault part line_number (names_in labels.old) address line ≡ Some e)) }
{
    let Some(line) = line else {
        return Err(AsmError::Syntax { line: line_number });
    };
    if is_formless(part, &line.statement) {
        return Err(AsmError::NoSuchForm { line: line_number });
    }
    let Ok(new) = define(labels, line.label, address) else {
        return Err(AsmError::NoMemory);
    };
    if !new {
        return Err(AsmError::Repeated { line: line_number });
    }
    if let Some(error) = statement_fault(part, line_number, address, &line.statement) {
        return Err(error);
    }
    Ok(address_behind(part, address, &line.statement))
}

/// Makes the first pass. Returns the labels, or the first line with a fault.
pub(crate) fn first_pass<'a>(
    alloc: Global,
    part: Part,
    origin: u32,
    text: &'a [u8],
) -> Result<Labels<'a>, AsmError>
    ensures { MatchResult result
        (λ labels. IsLabelled part (placed_from part origin (parsed_text text.now)) labels)
        (λ e. (e ≡ NoMemory) ⊎ (first_pass part 1 [] (placed_from part origin (parsed_text text.now)) ≡ Some e)) }
{
    let mut labels = BTreeMap::new(alloc);
    let mut address = origin;
    let mut line_number = 0;
    let mut rest = text;
    while !rest.is_empty() {
        let (line, others) = next_line(rest);
        line_number += 1;
        match place(part, line_number, &mut labels, address, line) {
            Ok(next) => address = next,
            Err(error) => return Err(error),
        }
        rest = others;
    }
    Ok(labels)
}

// Makes the second pass over one line: appends its bytes to those of the lines before it. Returns
// the address after it.
fn encode<'a>(
    part: Part,
    line_number: u64,
    labels: &Labels<'a>,
    address: u32,
    line: Option<Line<'a>>,
    bytes: &mut Vec<u8>,
) -> Result<u32, AsmError>
    requires room { vec_len bytes.old ≤ 65536 }
    requires short { line_is_long part address (option_map seen_line line) ≡ false }
    ensures { let line = option_map seen_line line.entry in
        let labels = labels_in labels.now in
        MatchResult result
        (λ next. IsEncoded part line_number labels address line bytes.old.items bytes.new.items next)
        (λ e. (e ≡ NoMemory) ⊎ (second_fault part line_number labels address line ≡ Some e)) }
{
    let Some(line) = line else {
        return Ok(address);
    };
    if let Some(error) = second_fault(part, line_number, labels, address, &line) {
        return Err(error);
    }
    if push_statement(bytes, part, labels, address, &line.statement).is_err() {
        return Err(AsmError::NoMemory);
    }
    Ok(address_behind(part, address, &line.statement))
}

/// Makes the second pass, after a first one without a fault. Returns the bytes, or the first line
/// with a fault.
pub(crate) fn second_pass<'a>(
    alloc: Global,
    part: Part,
    origin: u32,
    labels: &Labels<'a>,
    text: &'a [u8],
) -> Result<Vec<u8>, AsmError>
    requires clear { first_pass part 1 [] (placed_from part origin (parsed_text text.now)) ≡ None }
    requires within { origin ≤ 65535 }
    ensures { let labels = labels_in labels.now in
        let placed = placed_from part origin (parsed_text text.now) in
        MatchResult result
        (λ bytes. IsProgram part labels origin placed bytes.items)
        (λ e. (e ≡ NoMemory) ⊎ (second_pass part 1 labels placed ≡ Some e)) }
{
    let mut bytes = Vec::new(alloc);
    let mut address = origin;
    let mut line_number = 0;
    let mut rest = text;
    while !rest.is_empty() {
        let (line, others) = next_line(rest);
        line_number += 1;
        match encode(part, line_number, labels, address, line, &mut bytes) {
            Ok(next) => address = next,
            Err(error) => return Err(error),
        }
        rest = others;
    }
    Ok(bytes)
}
