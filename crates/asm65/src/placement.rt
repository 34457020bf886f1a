//! The placement of lines: the form that an instruction takes, and the address of each line.
ghost use Rattle.std.specs.Prelude.{◌≡◌, ◌+◌, ◌-◌, ◌^◌, ◌≤◌, ◌<◌, nat_lt, false, None, option_map, option_to_list, length};
ghost use Rattle.std.specs.List.{list_any};
ghost use Rattle.asm65.specs.Placement.{is_byte_base, is_byte, has_form, if_formed, shorter, mode_in_parentheses, mode_of, size_of};
ghost use Rattle.asm65.specs.Placement.{after_statement, base_numbers, values_numbers, statement_numbers, formless, is_past, is_long, or_else, operand_values};
ghost use Rattle.asm65.specs.declared.AsmError.TheVariants.{OutOfRange, TooLong};
ghost use Rattle.asm_lines.specs.Code.{seen_base, seen_value, seen_list, seen_operand, seen_statement};

use crate::AsmError;
use asm_lines::{Base, Number, Operand, Portion, Statement, Value, ValueList};
use op_table::{Mnemonic, Mode, Part, find};

// The size of the memory in bytes.
const MEMORY: usize = 65_536;

fn is_byte_sized_base(base: &Base<'_>) -> bool
    ensures { result ≡ is_byte_base (seen_base base.now) }
{
    match base {
        Base::Number(Number::Byte(_)) => true,
        _ => false,
    }
}

// Returns true if a value takes one byte.
fn is_byte_sized(value: &Value<'_>) -> bool
    ensures { result ≡ is_byte (seen_value value.now) }
{
    match value.portion {
        Portion::Whole => is_byte_sized_base(&value.base),
        _ => true,
    }
}

fn has_form(part: Part, mnemonic: Mnemonic, mode: Mode) -> bool
    ensures { result ≡ has_form part mnemonic mode }
{
    find(part, mnemonic, mode).is_some()
}

fn if_formed(part: Part, mnemonic: Mnemonic, mode: Mode) -> Option<Mode>
    ensures { result ≡ if_formed part mnemonic mode }
{
    if has_form(part, mnemonic, mode) {
        Some(mode)
    } else {
        None
    }
}

// Returns the zero-page form if the value is byte-sized and the table has that form. Otherwise
// returns the absolute form.
fn shorter(
    part: Part,
    mnemonic: Mnemonic,
    value: &Value<'_>,
    zero_page: Mode,
    absolute: Mode,
) -> Option<Mode>
    ensures { result ≡ shorter part mnemonic (seen_value value.now) zero_page absolute }
{
    if is_byte_sized(value) && has_form(part, mnemonic, zero_page) {
        Some(zero_page)
    } else {
        if_formed(part, mnemonic, absolute)
    }
}

// Returns the form in parentheses: JMP takes the absolute form, others the zero-page form.
fn parenthesized(
    part: Part,
    mnemonic: Mnemonic,
    value: &Value<'_>,
    zero_page: Mode,
    absolute: Mode,
) -> Option<Mode>
    ensures { result ≡ mode_in_parentheses part mnemonic (seen_value value.now) zero_page absolute }
{
    if mnemonic == Mnemonic::Jmp {
        if_formed(part, mnemonic, absolute)
    } else if is_byte_sized(value) {
        if_formed(part, mnemonic, zero_page)
    } else {
        None
    }
}

/// Returns the mode of an instruction. Returns `None` if the part's table lacks the form.
pub(crate) fn mode_of(part: Part, mnemonic: Mnemonic, operand: &Operand<'_>) -> Option<Mode>
    ensures { result ≡ mode_of part mnemonic (seen_operand operand.now) }
{
    match operand {
        Operand::Nothing => if_formed(part, mnemonic, Mode::Imp),
        Operand::Accumulator => if_formed(part, mnemonic, Mode::Acc),
        Operand::Immediate(_) => if_formed(part, mnemonic, Mode::Imm),
        Operand::Direct(value) => {
            if has_form(part, mnemonic, Mode::Rel) {
                Some(Mode::Rel)
            } else {
                shorter(part, mnemonic, value, Mode::Zp, Mode::Abs)
            }
        }
        Operand::DirectX(value) => shorter(part, mnemonic, value, Mode::ZpX, Mode::AbsX),
        Operand::DirectY(value) => shorter(part, mnemonic, value, Mode::ZpY, Mode::AbsY),
        Operand::Indirect(value) => parenthesized(part, mnemonic, value, Mode::IndZp, Mode::Ind),
        Operand::IndirectX(value) => parenthesized(
            part,
            mnemonic,
            value,
            Mode::IndX,
            Mode::IndAbsX,
        ),
        Operand::IndirectY(value) => {
            if is_byte_sized(value) {
                if_formed(part, mnemonic, Mode::IndY)
            } else {
                None
            }
        }
    }
}

// Returns the number of values, or 65,537, one more than the bytes of the memory, if there are
// more.
fn value_count(values: ValueList<'_>) -> usize
    ensures exact { result ≤ 65536 → result ≡ length (seen_list values.entry) }
    ensures more { 65536 < result → 65536 < length (seen_list values.entry) }
    ensures most { result ≤ 65537 }
{
    let mut count = 0;
    let mut rest = values;
    while let Some((_, others)) = rest.next() {
        count += 1;
        if count > MEMORY {
            return count;
        }
        rest = others;
    }
    count
}

// Returns the number of bytes that a statement makes, except `org`. A size above that of the memory
// need not be exact.
fn size_in_bytes(part: Part, statement: &Statement<'_>) -> usize
    ensures exact { result ≤ 65536 → result ≡ size_of part (seen_statement statement.now) }
    ensures more { 65536 < result → 65536 < size_of part (seen_statement statement.now) }
    ensures most { result < 2 ^ 32 }
{
    match statement {
        Statement::Instruction(mnemonic, operand) => match mode_of(part, *mnemonic, operand) {
            Some(mode) => usize::from(mode.length()),
            None => 0,
        },
        Statement::Org(_) => 0,
        Statement::Bytes(values) => value_count(*values),
        Statement::Words(values) => 2 * value_count(*values),
    }
}

// Returns true if a statement has bytes past the end of memory.
fn is_long(part: Part, address: u32, statement: &Option<Statement<'_>>) -> bool
    ensures { result ≡ is_long part address (option_map seen_statement statement.now) }
{
    match statement {
        Some(statement) => address as usize + size_in_bytes(part, statement) > MEMORY,
        None => false,
    }
}

/// Returns the address after a statement.
pub(crate) fn address_behind(part: Part, address: u32, statement: &Option<Statement<'_>>) -> u32
    requires { is_long part address (option_map seen_statement statement.now) ≡ false }
    ensures { result ≡ after_statement part address (option_map seen_statement statement.now) }
{
    match statement {
        Some(Statement::Org(number)) => number.value(),
        Some(statement) => address + size_in_bytes(part, statement) as u32,
        None => address,
    }
}

/// Returns the value of an operand, if it has one.
pub(crate) fn operand_value<'a>(operand: &Operand<'a>) -> Option<Value<'a>>
    ensures { option_to_list (option_map seen_value result) ≡ operand_values (seen_operand operand.now) }
{
    match *operand {
        Operand::Nothing | Operand::Accumulator => None,
        Operand::Immediate(value)
        | Operand::Direct(value)
        | Operand::DirectX(value)
        | Operand::DirectY(value)
        | Operand::Indirect(value)
        | Operand::IndirectX(value)
        | Operand::IndirectY(value) => Some(value),
    }
}

/// Returns true if the part's table lacks the form of a statement.
pub(crate) fn is_formless(part: Part, statement: &Option<Statement<'_>>) -> bool
    ensures { result ≡ formless part (option_map seen_statement statement.now) }
{
    match statement {
        Some(Statement::Instruction(mnemonic, operand)) => mode_of(
            part, *mnemonic, operand,
        ).is_none(),
        _ => false,
    }
}

// Returns true if a value has a number above 65,535 in it.
fn has_large_number(value: &Value<'_>) -> bool
    ensures { result ≡ list_any (λ n. nat_lt 65535 n) (base_numbers (seen_base value.now.base)) }
{
    match value.base {
        Base::Number(number) | Base::Beyond(_, number) => number.value() > 65_535,
        Base::Label(_) => false,
    }
}

#[tactic(auto, using(crate::proofs::PlacementLemmas::number_steps))]
fn operand_has_large_number(operand: &Operand<'_>) -> bool
    ensures { result ≡ list_any (λ n. nat_lt 65535 n) (values_numbers (operand_values (seen_operand operand.now))) }
{
    match operand_value(operand) {
        Some(value) => has_large_number(&value),
        None => false,
    }
}

#[tactic(auto, using(crate::proofs::PlacementLemmas::number_steps))]
fn any_large_number(values: ValueList<'_>) -> bool
    ensures { result ≡ list_any (λ n. nat_lt 65535 n) (values_numbers (seen_list values.entry)) }
{
    let mut rest = values;
    while let Some((value, others)) = rest.next() {
        if has_large_number(&value) {
            return true;
        }
        rest = others;
    }
    false
}

// Returns true if an `org` goes back, or if a number is above 65,535.
fn is_past(address: u32, statement: &Option<Statement<'_>>) -> bool
    ensures { result ≡ is_past address (option_map seen_statement statement.now) }
{
    match statement {
        Some(Statement::Instruction(_, operand)) => operand_has_large_number(operand),
        Some(Statement::Org(number)) => number.value() < address || number.value() > 65_535,
        Some(Statement::Bytes(values)) | Some(Statement::Words(values)) => any_large_number(
            *values,
        ),
        None => false,
    }
}

/// Finds the first fault of a statement that has its form, in the first pass.
pub(crate) fn statement_fault(
    part: Part,
    line_number: u64,
    address: u32,
    statement: &Option<Statement<'_>>,
) -> Option<AsmError>
    ensures { result ≡ or_else (is_past address (option_map seen_statement statement.now)) (OutOfRange line_number)
        (or_else (is_long part address (option_map seen_statement statement.now)) (TooLong line_number) None) }
{
    if is_past(address, statement) {
        Some(AsmError::OutOfRange { line: line_number })
    } else if is_long(part, address, statement) {
        Some(AsmError::TooLong { line: line_number })
    } else {
        None
    }
}
