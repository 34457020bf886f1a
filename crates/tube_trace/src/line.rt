//! One line of a trace, read and written.
ghost use Rattle.std.specs.Prelude.{◌≡◌, ◌∷◌, [], ◌+◌, ◌%◌, ◌++◌, ◌&&◌, ◌==◌, IfOk, IfSome, OnOk, OnErr, codes, length, slice_index, slice_range, if◌then◌else◌};
ghost use Rattle.std.specs.List.{list_all};
ghost use Rattle.digits.specs.Hexadecimal.{hex_digits, hex_number, is_hex};
ghost use Rattle.tube_trace.specs.Line.{is_space, is_octal, side_of, reset_of, op_of, answer_in, entry_from, entry_of};
ghost use Rattle.tube_trace.specs.Entries.{IsEntry};
ghost use Rattle.tube_trace.specs.Laws.{IsOfByte};
ghost use Rattle.tube_trace.specs.Text.{side_letter, op_letter, number_of, access_text, asked_byte, line_byte, line_text};

use crate::Entry;
use crate::hex::{number, pair, pair_at};
use beeb_bits::{Side, Tick};
use std::alloc::AllocError;
use tube_chip::Op;

/// The length of a line, with its line feed.
pub(crate) const LENGTH: usize = 20;

fn side_of(letter: u8) -> Option<Side>
    ensures { result ≡ side_of letter }
{
    match letter {
        b'H' => Some(Side::Host),
        b'P' => Some(Side::Para),
        _ => None,
    }
}

fn reset_of(side: Side, number: u8, byte: u8) -> Option<Op>
    ensures { result ≡ reset_of side number byte }
{
    match side {
        Side::Host => {
            if number == 0 && byte == 0 {
                Some(Op::Reset)
            } else {
                None
            }
        }
        Side::Para => None,
    }
}

fn op_of(side: Side, letter: u8, number: u8, byte: u8) -> Option<Op>
    ensures { result ≡ op_of side letter number byte }
{
    match letter {
        b'R' => Some(Op::Read(number)),
        b'W' => Some(Op::Write(number, byte)),
        b'X' => reset_of(side, number, byte),
        _ => None,
    }
}

fn answer_in(op: Op, byte: u8) -> u8
    ensures { result ≡ answer_in op byte }
{
    match op {
        Op::Read(_) => byte,
        Op::Write(..) | Op::Reset => 0,
    }
}

fn is_octal(b: u8) -> bool
    ensures { result ≡ is_octal b }
{
    b'0' <= b && b <= b'7'
}

fn are_spaces(a: u8, b: u8, c: u8, d: u8) -> bool
    ensures { result ≡ list_all is_space (a ∷ b ∷ c ∷ d ∷ []) }
{
    a == b' ' && b == b' ' && c == b' ' && d == b' '
}

// Returns `true` if the bytes between the letters and the hexadecimal digits are as the form
// requires.
fn is_parted(line: &[u8]) -> bool
    requires { length line.now ≡ LENGTH }
    ensures { result ≡ (list_all is_space (slice_index line.now 10 ∷ slice_index line.now 12 ∷ slice_index line.now 14 ∷ slice_index line.now 16 ∷ [])
        && is_octal (slice_index line.now 15) && slice_index line.now 19 == 10) }
{
    are_spaces(line[10], line[12], line[14], line[16]) && is_octal(line[15]) && line[19] == b'\n'
}

// Returns the tick and the byte of a line, if their digits are hexadecimal.
fn numbers_in(line: &[u8]) -> Option<(u64, u8)>
    requires { length line.now ≡ LENGTH }
    ensures { result ≡ (if list_all is_hex (slice_range line.now 0 10) && list_all is_hex (slice_range line.now 17 19)
        then Some (hex_number (slice_range line.now 0 10), hex_number (slice_range line.now 17 19)) else None) }
{
    let high = number(&line[..5])?;
    let low = number(&line[5..10])?;
    let byte = number(&line[17..19])?;
    Some((high * 0x10_0000 + low, byte as u8))
}

fn entry_from(tick: u64, side: u8, letter: u8, number: u8, byte: u8) -> Option<Entry>
    ensures { result ≡ entry_from tick (side_of side) letter number byte }
{
    let side = side_of(side)?;
    let op = op_of(side, letter, number, byte)?;
    Some(Entry {
        tick: Tick(tick),
        side,
        op,
        answer: answer_in(op, byte),
    })
}

/// Returns the entry of a line with its line feed, or `None` if the bytes are outside the form.
#[tactic(auto, unfolding(crate::specs::Line::entry_of))]
pub(crate) fn entry_of(line: &[u8]) -> Option<Entry>
    ensures value { result ≡ entry_of line.now }
    ensures may { IfSome result IsEntry }
{
    if line.len() != LENGTH || !is_parted(line) {
        return None;
    }
    let (tick, byte) = numbers_in(line)?;
    entry_from(tick, line[11], line[13], line[15] - b'0', byte)
}

fn side_letter(side: Side) -> u8
    ensures { result ≡ side_letter side }
{
    match side {
        Side::Host => b'H',
        Side::Para => b'P',
    }
}

fn asked_byte(op: Op) -> [u8; 2]
    ensures { result ≡ asked_byte op }
{
    match op {
        Op::Read(_) => *b"--",
        Op::Write(_, byte) => pair(byte),
        Op::Reset => *b"00",
    }
}

// Returns the letter and the number of an operation, and the byte answered or written.
fn parts_of(op: Op, answer: u8) -> (u8, u8, u8)
    ensures letter { result.0 ≡ op_letter op }
    ensures number { result.1 ≡ number_of op }
    ensures byte { result.2 ≡ line_byte op answer }
{
    match op {
        Op::Read(number) => (b'R', number, answer),
        Op::Write(number, byte) => (b'W', number, byte),
        Op::Reset => (b'X', 0, 0),
    }
}

// Returns the line of these parts, with its line feed.
fn line_of(tick: Tick, side: Side, letter: u8, number: u8, byte: [u8; 2]) -> [u8; LENGTH]
    ensures { result ≡ (hex_digits 10 tick.0 ++ (32 ∷ side_letter side ∷ 32 ∷ letter ∷ 32 ∷ (48 + number % 8) ∷ 32 ∷ byte)) ++ codes "\n" }
{
    let [a, b] = pair_at(tick.0, 0x1_0000_0000);
    let [c, d] = pair_at(tick.0, 0x100_0000);
    let [e, f] = pair_at(tick.0, 0x1_0000);
    let [g, h] = pair_at(tick.0, 0x100);
    let [i, j] = pair_at(tick.0, 1);
    let side = side_letter(side);
    let number = b'0' + number % 8;
    [
        a, b, c, d, e, f, g, h, i, j, b' ', side, b' ', letter, b' ', number, b' ', byte[0],
        byte[1], b'\n',
    ]
}

/// Appends an access in the form of a trace's line, without the line feed. A read, whose answer is
/// not known, has `--` for its byte.
///
/// # Errors
/// Out of memory: the text then has its old bytes.
pub fn push_access(text: &mut Vec<u8>, tick: Tick, side: Side, op: Op) -> Result<(), AllocError>
    ensures ok { OnOk result (text.new.items ≡ text.old.items ++ access_text tick.0 side op (asked_byte op)) }
    ensures err { OnErr result (text.new.items ≡ text.old.items) }
{
    let (letter, number, _) = parts_of(op, 0);
    let line = line_of(tick, side, letter, number, asked_byte(op));
    text.extend_from_slice(&line[..LENGTH - 1])
}

/// Appends the line of an entry.
#[tactic(auto, unfolding(crate::specs::Text::access_text))]
pub(crate) fn push_line(text: &mut Vec<u8>, entry: Entry) -> Result<(), AllocError>
    ensures text { IfOk result (λ _. text.new.items ≡ text.old.items ++ line_text entry) }
    ensures byte { IfOk result (λ _. IsOfByte entry) }
{
    let (letter, number, byte) = parts_of(entry.op, entry.answer);
    text.extend_from_slice(&line_of(entry.tick, entry.side, letter, number, pair(byte)))
}
