//! The accesses of a session.
ghost use Rattle.std.specs.Prelude.{◌≡◌, ◌++◌, length, None, OnOk};
ghost use Rattle.save_state.specs.Fields.{field, Gives};
ghost use Rattle.save_state.specs.Entries.{tick_in, side_in, op_by, op_in, entry_in, in_order, next_entry, entries_at, side_bits, op_bits, form_byte, tick_bytes, entry_bytes};
ghost use Rattle.tube_trace.specs.Line.{reset_of, answer_in};
ghost use Rattle.tube_trace.specs.Trace.{follows};
ghost use Rattle.tube_trace.specs.Entries.{IsEntry};
ghost use Rattle.tube_trace.specs.Text.{number_of, line_byte};

use crate::StateError;
use crate::fields::{field, outside};
use beeb_bits::{Side, Tick, before};
use std::alloc::{AllocError, Global};
use tube_chip::Op;
use tube_trace::Entry;

/// The number of bytes of the field of an access.
pub(crate) const LENGTH: usize = 7;

fn tick_in(field: &[u8]) -> Tick
    requires { length field.now ≡ LENGTH }
    ensures { result.0 ≡ tick_in field.now }
{
    Tick(u64::from_be_bytes([0, 0, 0, field[0], field[1], field[2], field[3], field[4]]))
}

fn side_in(form: u8) -> Side
    ensures { result ≡ side_in form }
{
    if 128 <= form { Side::Para } else { Side::Host }
}

fn reset_of(side: Side, register: u8, byte: u8) -> Option<Op>
    ensures { result ≡ reset_of side register byte }
{
    match side {
        Side::Host if register == 0 && byte == 0 => Some(Op::Reset),
        _ => None,
    }
}

fn op_in(form: u8, byte: u8) -> Option<Op>
    ensures { result ≡ op_in form byte }
{
    if form / 8 % 4 != 0 {
        return None;
    }
    let register = form % 8;
    match form / 32 % 4 {
        0 => Some(Op::Read(register)),
        1 => Some(Op::Write(register, byte)),
        2 => reset_of(side_in(form), register, byte),
        _ => None,
    }
}

fn answer_in(op: Op, byte: u8) -> u8
    ensures { result ≡ answer_in op byte }
{
    match op {
        Op::Read(_) => byte,
        Op::Write(..) | Op::Reset => 0,
    }
}

fn entry_in(field: &[u8]) -> Option<Entry>
    requires { length field.now ≡ LENGTH }
    ensures { result ≡ entry_in field.now }
{
    let op = op_in(field[5], field[6])?;
    Some(Entry {
        tick: tick_in(field),
        side: side_in(field[5]),
        op,
        answer: answer_in(op, field[6]),
    })
}

fn follows(last: Option<Entry>, entry: Entry) -> bool
    ensures { result ≡ follows last entry }
{
    match last {
        None => true,
        Some(last) => before(last.tick, last.side, entry.tick, entry.side),
    }
}

#[tactic(auto, unfolding(crate::specs::Entries::next_entry))]
fn next_entry(ticks: Tick, last: Option<Entry>, field: &[u8]) -> Option<Entry>
    requires { length field.now ≡ LENGTH }
    ensures { result ≡ next_entry ticks.0 last field.now }
{
    let entry = entry_in(field)?;
    if entry.tick < ticks && follows(last, entry) {
        Some(entry)
    } else {
        None
    }
}

// Reads an access below the moment and after access `last`. Returns the access, and the offset
// after its field.
fn entry_at(
    ticks: Tick,
    last: Option<Entry>,
    bytes: &[u8],
    at: usize,
) -> Result<(Entry, usize), StateError>
    ensures { Gives (λ x. x) result (field 7 (next_entry ticks.0 last) bytes.now at) }
{
    let found = field(bytes, at, LENGTH)?;
    match next_entry(ticks, last, found) {
        Some(entry) => Ok((entry, at + LENGTH)),
        None => Err(outside(at)),
    }
}

/// Reads `count` accesses below the moment, each after the one before it. Returns the accesses, and
/// the offset after them.
pub(crate) fn entries_at(
    alloc: Global,
    ticks: Tick,
    count: u32,
    bytes: &[u8],
    at: usize,
) -> Result<(Vec<Entry>, usize), StateError>
    ensures { Gives (λ x. (x.0.items, x.1)) result (entries_at ticks.0 count None bytes.now at) }
{
    let room = bytes.len().saturating_sub(at) / LENGTH;
    let mut entries = Vec::with_capacity(alloc, room.min(count as usize))?;
    let mut last = None;
    let mut next = at;
    for _ in 0..count {
        let (entry, behind) = entry_at(ticks, last, bytes, next)?;
        entries.push(entry)?;
        last = Some(entry);
        next = behind;
    }
    Ok((entries, next))
}

fn side_bits(side: Side) -> u8
    ensures { result ≡ side_bits side }
{
    match side {
        Side::Host => 0,
        Side::Para => 128,
    }
}

fn op_bits(op: Op) -> u8
    ensures { result ≡ op_bits op }
{
    match op {
        Op::Read(_) => 0,
        Op::Write(..) => 32,
        Op::Reset => 64,
    }
}

fn number_of(op: Op) -> u8
    ensures { result ≡ number_of op }
{
    match op {
        Op::Read(register) | Op::Write(register, _) => register,
        Op::Reset => 0,
    }
}

fn line_byte(op: Op, answer: u8) -> u8
    ensures { result ≡ line_byte op answer }
{
    match op {
        Op::Read(_) => answer,
        Op::Write(_, byte) => byte,
        Op::Reset => 0,
    }
}

/// Appends the field of an access.
#[tactic(auto, unfolding(crate::specs::Entries::entry_bytes))]
pub(crate) fn push_entry(file: &mut Vec<u8>, entry: Entry) -> Result<(), AllocError>
    requires { IsEntry entry }
    ensures { OnOk result (file.new.items ≡ file.old.items ++ entry_bytes entry) }
{
    let form = side_bits(entry.side) + op_bits(entry.op) + number_of(entry.op);
    file.extend_from_slice(&entry.tick.0.to_be_bytes()[3..])?;
    file.push(form)?;
    file.push(line_byte(entry.op, entry.answer))?;
    Ok(())
}
