//! The meaning of a line: an optional label and an optional statement.
ghost use Rattle.std.specs.Prelude.{◌≡◌, ◌≤◌, ◌<◌, ◌^◌, nat_lt, nat_le, IsTrue, length, ◌∷◌, [], true, is_some, option_map, option_and_then, IfSome};
ghost use Rattle.std.specs.List.{list_all};
ghost use Rattle.op_table.specs.Names.{mnemonic_of};
ghost use Rattle.digits.specs.Hexadecimal.{is_hex_any_case, hex_number as hex_value};
ghost use Rattle.asm_lines.specs.Tokens.{comma, right, word, tokens_of};
ghost use Rattle.asm_lines.specs.Syntax.{decimal_number, hex_number, number_of, is_named, is_register, begins_name, is_label, label_at, word_at, base_at, portion_of, value_at, opening_of, from_value};
ghost use Rattle.asm_lines.specs.Syntax.{closing_of, value_and_closing, operand_of, values_of, org_of, instruction_of, rest_of, line_of, parsed_text};
ghost use Rattle.asm_lines.specs.Code.{seen_token, seen_number, seen_base_and_rest, seen_portion, seen_value_and_rest, seen_opening, seen_closing, seen_value_and_closing, seen_operand};
ghost use Rattle.asm_lines.specs.Code.{values_of_list, length_left, seen_list, seen_first, seen_next_value, values_by_first, seen_statement, seen_line, seen_label_and_rest, word_statement};
ghost use Rattle.asm_lines.specs.Code.{label_in_front};

use crate::tokens::{Token, code_of, next_token};
use digits::{all_digits, all_hex_any_case, decimal_value, first_line};
use op_table::Mnemonic;

/// A number with its size: a byte-sized one takes one byte if the form allows it.
#[derive(Clone, Copy)]
pub enum Number {
    /// A byte-sized one: one or two hexadecimal digits, or a decimal number below 256.
    Byte(u8),
    /// Any other, of at most five decimal digits.
    Word(u32),
}

impl Number {
    /// Returns the value of the number. A byte-sized one is below 256.
    pub fn value(self) -> u32
        ensures value { result ≡ (seen_number self).value }
        ensures byte_sized { (seen_number self).byte_sized ≡ true → result < 256 }
    {
        match self {
            Number::Byte(value) => u32::from(value),
            Number::Word(value) => value,
        }
    }
}

/// The base of a value.
#[derive(Clone, Copy)]
pub enum Base<'a> {
    /// A number
    Number(Number),
    /// The name of a label
    Label(&'a [u8]),
    /// `label + number`
    Beyond(&'a [u8], Number),
}

/// The part of a base that a value takes.
#[derive(Clone, Copy)]
pub enum Portion {
    /// All of it
    Whole,
    /// `<`
    Low,
    /// `>`
    High,
}

/// `E`
#[derive(Clone, Copy)]
pub struct Value<'a> {
    /// The part of the base.
    pub portion: Portion,
    /// The base.
    pub base: Base<'a>,
}

/// An operand without a value, or the token before its value.
#[derive(Clone, Copy)]
enum Opening {
    NoOperand,
    /// `A`
    RegisterA,
    /// `#`
    Hashed,
    /// `(`
    Parenthesized,
    Bare,
}

/// The tokens after the value of an operand.
#[derive(Clone, Copy)]
enum Closing {
    Ends,
    /// `,X`
    CommaX,
    /// `,Y`
    CommaY,
    /// `)`
    Closed,
    /// `,X)`
    CommaXClosed,
    /// `),Y`
    ClosedCommaY,
}

/// Operands, by their written forms.
#[derive(Clone, Copy)]
pub enum Operand<'a> {
    /// No operand
    Nothing,
    /// `A`
    Accumulator,
    /// `#E`
    Immediate(Value<'a>),
    /// `E`
    Direct(Value<'a>),
    /// `E,X`
    DirectX(Value<'a>),
    /// `E,Y`
    DirectY(Value<'a>),
    /// `(E)`
    Indirect(Value<'a>),
    /// `(E,X)`
    IndirectX(Value<'a>),
    /// `(E),Y`
    IndirectY(Value<'a>),
}

/// The values of a `byte` or a `word`, read from the code of their line one by one.
#[derive(Clone, Copy)]
pub struct ValueList<'a> {
    /// The code from the next value on, if there is one.
    pub rest: Option<&'a [u8]>,
}

/// A statement of a line, apart from its label.
#[derive(Clone, Copy)]
pub enum Statement<'a> {
    /// A mnemonic and its operand
    Instruction(Mnemonic, Operand<'a>),
    /// `org N`
    Org(Number),
    /// `byte E, E`
    Bytes(ValueList<'a>),
    /// `word E, E`
    Words(ValueList<'a>),
}

/// The meaning of a line.
#[derive(Clone, Copy)]
pub struct Line<'a> {
    /// The name before its colon, if there is one.
    pub label: Option<&'a [u8]>,
    /// The statement, if there is one.
    pub statement: Option<Statement<'a>>,
}

// Makes a decimal number, which is byte-sized if it is below 256.
fn decimal_of_value(value: u64) -> Number
    requires { value < 2 ^ 32 }
    ensures { seen_number result ≡ record { value = value; byte_sized = nat_lt value 256 } }
{
    if value < 256 {
        Number::Byte(value as u8)
    } else {
        Number::Word(value as u32)
    }
}

fn decimal_number(run: &[u8]) -> Option<Number>
    ensures { option_map seen_number result ≡ decimal_number run.now }
{
    if all_digits(run) && 1 <= run.len() && run.len() <= 5 {
        Some(decimal_of_value(decimal_value(run)))
    } else {
        None
    }
}

// Makes the number of one to four hexadecimal digits, which is byte-sized with one or two.
#[tactic(auto, using(crate::proofs::NumberLemmas::two, crate::proofs::NumberLemmas::four))]
fn hex_of_digits(digits: &[u8]) -> Number
    requires few { length digits.now ≤ 4 }
    requires hexadecimal { IsTrue (list_all is_hex_any_case digits.now) }
    ensures { seen_number result ≡ record { value = hex_value digits.now; byte_sized = nat_le (length digits.now) 2 } }
{
    let value = digits::hex_number(digits);
    if digits.len() <= 2 {
        Number::Byte(value as u8)
    } else {
        Number::Word(value as u32)
    }
}

fn hex_number(run: &[u8]) -> Option<Number>
    ensures { option_map seen_number result ≡ hex_number run.now }
{
    if all_hex_any_case(run) && 1 <= run.len() && run.len() <= 4 {
        Some(hex_of_digits(run))
    } else {
        None
    }
}

fn number_of(token: Token<'_>) -> Option<Number>
    ensures { option_map seen_number result ≡ number_of (seen_token token.entry) }
{
    match token {
        Token::Word(run) => decimal_number(run),
        Token::Hex(run) => hex_number(run),
        _ => None,
    }
}

// Returns true if the word `run` is `name`, in upper or lower case.
fn is_named(name: &[u8], run: &[u8]) -> bool
    ensures { result ≡ is_named name.now run.now }
{
    if run.len() != name.len() {
        return false;
    }
    for (i, b) in run.iter().enumerate() {
        if b.to_ascii_uppercase() != name[i] {
            return false;
        }
    }
    true
}

fn is_register(run: &[u8]) -> bool
    ensures { result ≡ is_register run.now }
{
    is_named(b"A", run) || is_named(b"X", run) || is_named(b"Y", run)
}

fn begins_name(run: &[u8]) -> bool
    ensures { result ≡ begins_name run.now }
{
    match run.first() {
        Some(b) => b.is_ascii_alphabetic() || *b == b'_',
        None => false,
    }
}

fn is_label(run: &[u8]) -> bool
    ensures { result ≡ is_label run.now }
{
    begins_name(run) && !is_register(run)
}

// Reads a label, with `+` and a number if they follow it. Returns the code after that too.
fn label_at<'a>(name: &'a [u8], code: &'a [u8]) -> Option<(Base<'a>, &'a [u8])>
    ensures value { option_map seen_base_and_rest result ≡ label_at name.now (tokens_of code.now) }
    ensures shorter { IfSome result (λ r. length r.1.now ≤ length code.now) }
{
    match next_token(code) {
        Some((Token::Plus, behind)) => {
            let (token, rest) = next_token(behind)?;
            let number = number_of(token)?;
            Some((Base::Beyond(name, number), rest))
        }
        _ => Some((Base::Label(name), code)),
    }
}

// Reads a word as a number, or if it is none, as a label with what follows it.
fn word_at<'a>(run: &'a [u8], code: &'a [u8]) -> Option<(Base<'a>, &'a [u8])>
    ensures value { option_map seen_base_and_rest result
        ≡ word_at run.now (tokens_of code.now) (decimal_number run.now) }
    ensures shorter { IfSome result (λ r. length r.1.now ≤ length code.now) }
{
    if let Some(number) = decimal_number(run) {
        Some((Base::Number(number), code))
    } else if is_label(run) {
        label_at(run, code)
    } else {
        None
    }
}

// Reads a value's base at the front of code. Returns the code after it too.
fn base_at<'a>(code: &'a [u8]) -> Option<(Base<'a>, &'a [u8])>
    ensures value { option_map seen_base_and_rest result ≡ base_at (tokens_of code.now) }
    ensures shorter { IfSome result (λ r. length r.1.now < length code.now) }
{
    match next_token(code) {
        Some((Token::Word(run), rest)) => word_at(run, rest),
        Some((Token::Hex(run), rest)) => {
            let number = hex_number(run)?;
            Some((Base::Number(number), rest))
        }
        _ => None,
    }
}

// Reads a value whose portion has been read.
fn portion_at<'a>(portion: Portion, code: &'a [u8]) -> Option<(Value<'a>, &'a [u8])>
    ensures value { option_map seen_value_and_rest result
        ≡ portion_of (seen_portion portion) (base_at (tokens_of code.now)) }
    ensures shorter { IfSome result (λ r. length r.1.now < length code.now) }
{
    let (base, rest) = base_at(code)?;
    Some((Value { portion, base }, rest))
}

// Reads a value at the front of code. Returns the code after it too.
fn value_at<'a>(code: &'a [u8]) -> Option<(Value<'a>, &'a [u8])>
    ensures value { option_map seen_value_and_rest result ≡ value_at (tokens_of code.now) }
    ensures shorter { IfSome result (λ r. length r.1.now < length code.now) }
{
    match next_token(code) {
        Some((Token::Low, rest)) => portion_at(Portion::Low, rest),
        Some((Token::High, rest)) => portion_at(Portion::High, rest),
        _ => portion_at(Portion::Whole, code),
    }
}

// Reads an operand without a value, or the token before its value. Returns the code from the value
// on too.
fn opening_of<'a>(code: &'a [u8]) -> (Opening, &'a [u8])
    ensures opening { seen_opening result.0 ≡ opening_of (tokens_of code.now) }
    ensures rest { tokens_of result.1.now ≡ from_value (tokens_of code.now) }
{
    match next_token(code) {
        None => (Opening::NoOperand, code),
        Some((Token::Hash, rest)) => (Opening::Hashed, rest),
        Some((Token::Left, rest)) => (Opening::Parenthesized, rest),
        Some((Token::Word(run), rest)) => (word_opening(run, rest), code),
        Some(_) => (Opening::Bare, code),
    }
}

// Reads an operand that begins with a word.
fn word_opening(run: &[u8], rest: &[u8]) -> Opening
    ensures { seen_opening result ≡ opening_of (word run.now ∷ tokens_of rest.now) }
{
    if is_named(b"A", run) && next_token(rest).is_none() {
        Opening::RegisterA
    } else {
        Opening::Bare
    }
}

// Reads the closing of an operand after its value. Returns `None` if it is outside the syntax.
fn closing_of(code: &[u8]) -> Option<Closing>
    ensures { option_map seen_closing result ≡ closing_of (tokens_of code.now) }
{
    match next_token(code) {
        None => Some(Closing::Ends),
        Some((Token::Comma, rest)) => closing_by_comma(rest),
        Some((Token::Right, rest)) => closing_by_right(rest),
        Some(_) => None,
    }
}

// Reads the closing after a `,` that follows the value.
fn closing_by_comma(code: &[u8]) -> Option<Closing>
    ensures { option_map seen_closing result ≡ closing_of (comma ∷ tokens_of code.now) }
{
    let (token, rest) = next_token(code)?;
    let Token::Word(run) = token else {
        return None;
    };
    match next_token(rest) {
        None => index_of(run),
        Some((Token::Right, behind)) => {
            if is_named(b"X", run) && next_token(behind).is_none() {
                Some(Closing::CommaXClosed)
            } else {
                None
            }
        }
        Some(_) => None,
    }
}

fn index_of(run: &[u8]) -> Option<Closing>
    ensures { option_map seen_closing result ≡ closing_of (comma ∷ word run.now ∷ []) }
{
    if is_named(b"X", run) {
        Some(Closing::CommaX)
    } else if is_named(b"Y", run) {
        Some(Closing::CommaY)
    } else {
        None
    }
}

// Reads the closing after a `)` that follows the value.
fn closing_by_right(code: &[u8]) -> Option<Closing>
    ensures { option_map seen_closing result ≡ closing_of (right ∷ tokens_of code.now) }
{
    match next_token(code) {
        None => Some(Closing::Closed),
        Some((Token::Comma, behind)) => match next_token(behind) {
            Some((Token::Word(run), rest)) => {
                if is_named(b"Y", run) && next_token(rest).is_none() {
                    Some(Closing::ClosedCommaY)
                } else {
                    None
                }
            }
            _ => None,
        },
        Some(_) => None,
    }
}

fn value_and_closing<'a>(code: &'a [u8]) -> Option<(Value<'a>, Closing)>
    ensures { option_map seen_value_and_closing result ≡ value_and_closing (tokens_of code.now) }
{
    let (value, rest) = value_at(code)?;
    let closing = closing_of(rest)?;
    Some((value, closing))
}

// Reads an operand in one of its nine forms.
fn operand_of<'a>(code: &'a [u8]) -> Option<Operand<'a>>
    ensures { option_map seen_operand result ≡ operand_of (tokens_of code.now) }
{
    let (opening, rest) = opening_of(code);
    match (opening, value_and_closing(rest)) {
        (Opening::NoOperand, _) => Some(Operand::Nothing),
        (Opening::RegisterA, _) => Some(Operand::Accumulator),
        (Opening::Hashed, Some((value, Closing::Ends))) => Some(Operand::Immediate(value)),
        (Opening::Bare, Some((value, Closing::Ends))) => Some(Operand::Direct(value)),
        (Opening::Bare, Some((value, Closing::CommaX))) => Some(Operand::DirectX(value)),
        (Opening::Bare, Some((value, Closing::CommaY))) => Some(Operand::DirectY(value)),
        (Opening::Parenthesized, Some((value, Closing::Closed))) => Some(Operand::Indirect(value)),
        (Opening::Parenthesized, Some((value, Closing::CommaXClosed))) => {
            Some(Operand::IndirectX(value))
        }
        (Opening::Parenthesized, Some((value, Closing::ClosedCommaY))) => {
            Some(Operand::IndirectY(value))
        }
        _ => None,
    }
}

// Reads the first of the values that commas separate. Returns the code after its comma, if there is
// one.
#[tactic(auto, using(crate::proofs::ValueLemmas::listed_first, crate::proofs::ValueLemmas::values_first))]
fn first_value<'a>(code: &'a [u8]) -> Option<(Value<'a>, Option<&'a [u8]>)>
    ensures listed { values_of_list (tokens_of code.now) ≡ seen_first result }
    ensures values { values_of (tokens_of code.now) ≡ values_by_first result }
    ensures shorter { IfSome result (λ r. IfSome r.1 (λ rest. length rest.now < length code.now)) }
{
    let Some((value, rest)) = value_at(code) else {
        return None;
    };
    match next_token(rest) {
        None => Some((value, None)),
        Some((Token::Comma, behind)) => Some((value, Some(behind))),
        Some(_) => None,
    }
}

// Returns true if code is one or more values, separated by commas.
fn are_values(code: &[u8]) -> bool
    ensures { result ≡ is_some (values_of (tokens_of code.now)) }
{
    let mut rest = Some(code);
    while let Some(code) = rest {
        let Some((_, behind)) = first_value(code) else {
            return false;
        };
        rest = behind;
    }
    true
}

// Returns the values of code, if each item is one.
#[tactic(auto, using(crate::proofs::ValueLemmas::listed_all))]
fn values_of<'a>(code: &'a [u8]) -> Option<ValueList<'a>>
    ensures { option_map seen_list result ≡ values_of (tokens_of code.now) }
{
    if are_values(code) {
        Some(ValueList { rest: Some(code) })
    } else {
        None
    }
}

impl<'a> ValueList<'a> {
    /// Returns the first value and the others. Returns `None` if no value is left.
    pub fn next(self) -> Option<(Value<'a>, ValueList<'a>)>
        ensures values { seen_list self.entry ≡ seen_next_value result }
        ensures shorter { IfSome result (λ r. length_left r.1 < length_left self.entry) }
    {
        let code = self.rest?;
        let (value, rest) = first_value(code)?;
        Some((value, ValueList { rest }))
    }
}

// Reads `org N`.
fn org_of<'a>(code: &'a [u8]) -> Option<Statement<'a>>
    ensures { option_map seen_statement result ≡ org_of (tokens_of code.now) }
{
    let (token, rest) = next_token(code)?;
    if next_token(rest).is_none() {
        Some(Statement::Org(number_of(token)?))
    } else {
        None
    }
}

// Reads an instruction, if the word is a mnemonic of either part.
fn instruction_of<'a>(run: &[u8], code: &'a [u8]) -> Option<Statement<'a>>
    ensures { option_map seen_statement result ≡ instruction_of (tokens_of code.now) (mnemonic_of run.now) }
{
    let mnemonic = Mnemonic::of_name(run)?;
    let operand = operand_of(code)?;
    Some(Statement::Instruction(mnemonic, operand))
}

// Reads a statement that begins with the word `run`.
fn word_statement<'a>(run: &[u8], code: &'a [u8]) -> Option<Statement<'a>>
    ensures { option_map seen_statement result ≡ word_statement run.now (tokens_of code.now) }
{
    if is_named(b"ORG", run) {
        org_of(code)
    } else if is_named(b"BYTE", run) {
        Some(Statement::Bytes(values_of(code)?))
    } else if is_named(b"WORD", run) {
        Some(Statement::Words(values_of(code)?))
    } else {
        instruction_of(run, code)
    }
}

// Reads the statement after a label, or on a line without one.
fn rest_of<'a>(label: Option<&'a [u8]>, code: &'a [u8]) -> Option<Line<'a>>
    ensures { let name = option_map (λ name. name.now) label.entry in
        option_map seen_line result
        ≡ option_map (λ s. record { label = name; statement = s }) (rest_of (tokens_of code.now)) }
{
    match next_token(code) {
        None => Some(Line {
            label,
            statement: None,
        }),
        Some((Token::Word(run), rest)) => Some(Line {
            label,
            statement: Some(word_statement(run, rest)?),
        }),
        Some(_) => None,
    }
}

// Reads the word before a colon at the front of code. Returns the code after the colon too.
fn label_in_front<'a>(code: &'a [u8]) -> Option<(&'a [u8], &'a [u8])>
    ensures { option_map seen_label_and_rest result ≡ label_in_front (tokens_of code.now) }
{
    match next_token(code) {
        Some((Token::Word(run), rest)) => match next_token(rest) {
            Some((Token::Colon, behind)) => Some((run, behind)),
            _ => None,
        },
        _ => None,
    }
}

// Returns the line that code means. Returns `None` if code is outside the syntax.
#[tactic(auto, using(crate::proofs::ValueLemmas::line_of_front))]
fn line_of<'a>(code: &'a [u8]) -> Option<Line<'a>>
    ensures { option_map seen_line result ≡ line_of (tokens_of code.now) }
{
    match label_in_front(code) {
        None => rest_of(None, code),
        Some((name, rest)) => {
            if is_label(name) {
                rest_of(Some(name), rest)
            } else {
                None
            }
        }
    }
}

/// Returns the first line of a text that has a byte, or `None` if the line is outside the syntax,
/// and the text after it.
pub fn next_line<'a>(text: &'a [u8]) -> (Option<Line<'a>>, &'a [u8])
    requires { 0 < length text.now }
    ensures lines { parsed_text text.now ≡ option_map seen_line result.0 ∷ parsed_text result.1.now }
    ensures shorter { length result.1.now < length text.now }
{
    let (first, rest) = first_line(text);
    (line_of(code_of(first)), rest)
}
