//! The second pass over one line: the numbers of values, and the bytes of statements.
ghost use Rattle.std.specs.Prelude.{◌≡◌, ◌+◌, ◌^◌, ◌<◌, ◌≤◌, if◌then◌else◌, ◌++◌, ◌∷◌, [], false, true, Some, option_map, IfSome, OnOk};
ghost use Rattle.std.specs.List.{list_any, list_all};
ghost use Rattle.op_table.specs.declared.Mode.TheVariants.{Rel};
ghost use Rattle.asm65.specs.Placement.{is_byte_base, is_byte, mode_of, operand_values};
ghost use Rattle.asm65.specs.Source.{base_value, portion_in, value_in, is_unknown, is_out, distance, is_near, operand_out, values_in, statement_out, second_fault};
ghost use Rattle.asm_lines.specs.Code.{seen_portion, seen_base, seen_value, seen_list, seen_operand, seen_statement, seen_line};
ghost use Rattle.asm65.specs.CodeLabels.{labels_in, base_or_zero};

use crate::AsmError;
use crate::labels::{Labels, address_of};
use crate::placement::{mode_of, operand_value};
use asm_lines::{Base, Line, Operand, Portion, Statement, Value, ValueList};
use op_table::{Mode, Part};

// Returns the base of a value, if its label is known.
fn evaluate_base<'a>(labels: &Labels<'a>, base: &Base<'a>) -> Option<u64>
    ensures value { result ≡ base_value (labels_in labels.now) (seen_base base.now) }
    ensures bound { IfSome result (λ n. n < 2 ^ 33) }
    ensures byte { is_byte_base (seen_base base.now) ≡ true → IfSome result (λ n. n < 256) }
{
    match *base {
        Base::Number(number) => Some(u64::from(number.value())),
        Base::Label(name) => Some(u64::from(address_of(labels, name)?)),
        Base::Beyond(name, number) => {
            let address = address_of(labels, name)?;
            Some(u64::from(address) + u64::from(number.value()))
        }
    }
}

// Returns the base of a value, or 0 if its label is unknown.
fn base_or_zero<'a>(labels: &Labels<'a>, value: &Value<'a>) -> u64
    ensures value { result ≡ base_or_zero (labels_in labels.now) (seen_value value.now) }
    ensures bound { result < 2 ^ 33 }
    ensures byte { is_byte_base (seen_base value.now.base) ≡ true → result < 256 }
{
    evaluate_base(labels, &value.base).unwrap_or(0)
}

fn portion_of(portion: Portion, number: u64) -> u64
    ensures value { result ≡ portion_in (seen_portion portion) number }
    ensures bound { result ≤ number }
{
    match portion {
        Portion::Whole => number,
        Portion::Low => number % 256,
        Portion::High => number / 256,
    }
}

/// Returns the number of a value.
pub(crate) fn evaluate<'a>(labels: &Labels<'a>, value: &Value<'a>) -> u64
    ensures value { result ≡ value_in (labels_in labels.now) (seen_value value.now) }
    ensures bound { result < 2 ^ 33 }
    ensures byte { let value = seen_value value.now in
        is_byte value ≡ true → base_or_zero (labels_in labels.now) value < 65536 → result < 256 }
{
    portion_of(value.portion, base_or_zero(labels, value))
}

fn is_unknown<'a>(labels: &Labels<'a>, value: &Value<'a>) -> bool
    ensures { result ≡ is_unknown (labels_in labels.now) (seen_value value.now) }
{
    evaluate_base(labels, &value.base).is_none()
}

fn any_unknown<'a>(labels: &Labels<'a>, values: ValueList<'a>) -> bool
    ensures { result ≡ list_any (is_unknown (labels_in labels.now)) (seen_list values.entry) }
{
    let mut rest = values;
    while let Some((value, others)) = rest.next() {
        if is_unknown(labels, &value) {
            return true;
        }
        rest = others;
    }
    false
}

fn is_out<'a>(labels: &Labels<'a>, limit: u64, value: &Value<'a>) -> bool
    ensures { result ≡ is_out (labels_in labels.now) limit (seen_value value.now) }
{
    base_or_zero(labels, value) >= 65_536 || evaluate(labels, value) >= limit
}

fn any_out<'a>(labels: &Labels<'a>, limit: u64, values: ValueList<'a>) -> bool
    ensures { result ≡ list_any (is_out (labels_in labels.now) limit) (seen_list values.entry) }
{
    let mut rest = values;
    while let Some((value, others)) = rest.next() {
        if is_out(labels, limit, &value) {
            return true;
        }
        rest = others;
    }
    false
}

/// Returns the distance of a branch at the address `address`, modulo 65,536.
pub(crate) fn distance(address: u32, target: u64) -> u64
    requires { target < 2 ^ 33 }
    ensures value { result ≡ distance address target }
    ensures bound { result < 65536 }
{
    (65_536 + target - (u64::from(address) + 2) % 65_536) % 65_536
}

fn is_near(distance: u64) -> bool
    ensures { result ≡ is_near distance }
{
    distance < 128 || 65_408 <= distance
}

fn is_far<'a>(labels: &Labels<'a>, address: u32, value: &Value<'a>) -> bool
    ensures { let target = value_in (labels_in labels.now) (seen_value value.now) in
        result ≡ (if is_near (distance address target) then false else true) }
{
    !is_near(distance(address, evaluate(labels, value)))
}

#[tactic(auto, using(crate::proofs::EncodeLemmas::any_one))]
fn operand_out<'a>(
    labels: &Labels<'a>,
    address: u32,
    mode: Option<Mode>,
    operand: &Operand<'a>,
) -> bool
    ensures { result ≡ operand_out (labels_in labels.now) address mode (seen_operand operand.now) }
{
    let Some(value) = operand_value(operand) else {
        return false;
    };
    match mode {
        Some(Mode::Imm) => is_out(labels, 256, &value),
        Some(Mode::Rel) => is_out(labels, 65_536, &value) || is_far(labels, address, &value),
        _ => is_out(labels, 65_536, &value),
    }
}

fn statement_out<'a>(
    part: Part,
    labels: &Labels<'a>,
    address: u32,
    statement: &Option<Statement<'a>>,
) -> bool
    ensures { result ≡ statement_out part (labels_in labels.now) address (option_map seen_statement statement.now) }
{
    match statement {
        Some(Statement::Instruction(mnemonic, operand)) => {
            operand_out(labels, address, mode_of(part, *mnemonic, operand), operand)
        }
        Some(Statement::Bytes(values)) => any_out(labels, 256, *values),
        Some(Statement::Words(values)) => any_out(labels, 65_536, *values),
        _ => false,
    }
}

#[tactic(auto, using(crate::proofs::EncodeLemmas::any_one))]
fn operand_unknown<'a>(labels: &Labels<'a>, operand: &Operand<'a>) -> bool
    ensures { result ≡ list_any (is_unknown (labels_in labels.now)) (operand_values (seen_operand operand.now)) }
{
    match operand_value(operand) {
        Some(value) => is_unknown(labels, &value),
        None => false,
    }
}

fn names_unknown<'a>(labels: &Labels<'a>, statement: &Option<Statement<'a>>) -> bool
    ensures { let statement = option_map seen_statement statement.now in
        result ≡ list_any (is_unknown (labels_in labels.now)) (values_in statement) }
{
    match statement {
        Some(Statement::Instruction(_, operand)) => operand_unknown(labels, operand),
        Some(Statement::Bytes(values)) | Some(Statement::Words(values)) => any_unknown(
            labels, *values,
        ),
        _ => false,
    }
}

/// Finds the fault of a line in the second pass: an unknown label before a value out of range.
pub(crate) fn second_fault<'a>(
    part: Part,
    line_number: u64,
    labels: &Labels<'a>,
    address: u32,
    line: &Line<'a>,
) -> Option<AsmError>
    ensures { result ≡ second_fault part line_number (labels_in labels.now) address (Some (seen_line line.now)) }
{
    if names_unknown(labels, &line.statement) {
        Some(AsmError::UnknownLabel { line: line_number })
    } else if statement_out(part, labels, address, &line.statement) {
        Some(AsmError::OutOfRange { line: line_number })
    } else {
        None
    }
}
