//! The counts of an address: starts, ticks and branches taken.
ghost use Rattle.std.specs.Prelude.{◌≡◌, ◌++◌, IfOk};
ghost use Rattle.follow.specs.Counts.{branch_of, condition_at, number_text, taken_text, count_line};
ghost use Rattle.follow.specs.CodeStart.{code_seen};
ghost use Rattle.follow.specs.CodeTally.{with_ticks, with_start};

use crate::start::Start;
use digits::four_digits;
use op_table::Mnemonic;
use std::alloc::{AllocError, Global};

/// The counts of the starts of one address.
#[derive(Clone, Copy, Drop)]
pub struct Count {
    /// The number of starts.
    pub starts: u64,
    /// The sum, over these starts, of the ticks to the next start of the run.
    pub ticks: u64,
    /// At one of these starts the instruction is a conditional branch.
    pub branches: bool,
    /// The number of starts at which a conditional branch has a condition that holds.
    pub taken: u64,
}

// Returns the branch of a conditional branch's opcode.
#[inline(always)]
fn branch_of(opcode: u8) -> Option<Mnemonic>
    ensures { result ≡ branch_of opcode }
{
    match opcode {
        0x10 => Some(Mnemonic::Bpl),
        0x30 => Some(Mnemonic::Bmi),
        0x50 => Some(Mnemonic::Bvc),
        0x70 => Some(Mnemonic::Bvs),
        0x90 => Some(Mnemonic::Bcc),
        0xb0 => Some(Mnemonic::Bcs),
        0xd0 => Some(Mnemonic::Bne),
        0xf0 => Some(Mnemonic::Beq),
        _ => None,
    }
}

/// Returns true if the condition of the branch at `start` holds, or `None` if the instruction is no
/// conditional branch.
#[inline(always)]
pub(crate) fn condition_at(start: &Start) -> Option<bool>
    ensures { result ≡ condition_at (code_seen start.now) (start.now).regs }
{
    match start.first {
        None => None,
        Some(opcode) => match branch_of(opcode) {
            None => None,
            Some(branch) => Some(start.regs.takes(branch)),
        },
    }
}

/// Returns `count` with `ticks` added to its ticks.
#[inline(always)]
pub(crate) fn with_ticks(count: Count, ticks: u64) -> Count
    ensures { result ≡ with_ticks count ticks }
{
    Count {
        starts: count.starts,
        ticks: count.ticks.saturating_add(ticks),
        branches: count.branches,
        taken: count.taken,
    }
}

/// Returns `count` with one more start. `holds` is the condition of the branch there, if there is
/// one.
#[inline(always)]
pub(crate) fn with_start(count: Count, holds: Option<bool>) -> Count
    ensures { result ≡ with_start count holds }
{
    let taken = match holds {
        None => 0,
        Some(holds) => u64::from(holds),
    };
    Count {
        starts: count.starts.saturating_add(1),
        ticks: count.ticks,
        branches: count.branches || holds.is_some(),
        taken: count.taken.saturating_add(taken),
    }
}

// Appends a space and a number.
fn push_number(alloc: Global, text: &mut Vec<u8>, n: u64) -> Result<(), AllocError>
    ensures { IfOk result (λ _. text.new.items ≡ text.old.items ++ number_text n) }
{
    let digits = format!(in alloc; " {n}")?;
    text.extend_from_slice(digits.as_bytes())
}

// Appends a space and the number of branches taken, if there is a branch.
fn push_taken(
    alloc: Global,
    text: &mut Vec<u8>,
    branches: bool,
    taken: u64,
) -> Result<(), AllocError>
    ensures { IfOk result (λ _. text.new.items ≡ text.old.items ++ taken_text branches taken) }
{
    if !branches {
        return Ok(());
    }
    push_number(alloc, text, taken)
}

/// Appends the line of address `pc`, if an instruction starts there.
#[tactic(auto, unfolding(crate::specs::Counts::count_line))]
pub(crate) fn push_count(
    alloc: Global,
    text: &mut Vec<u8>,
    pc: u16,
    count: Count,
) -> Result<(), AllocError>
    ensures { IfOk result (λ _. text.new.items ≡ text.old.items ++ count_line pc count) }
{
    let Count {
        starts,
        ticks,
        branches,
        taken,
    } = count;
    if starts == 0 {
        return Ok(());
    }
    text.extend_from_slice(&four_digits(pc))?;
    push_number(alloc, text, starts)?;
    push_number(alloc, text, ticks)?;
    push_taken(alloc, text, branches, taken)?;
    text.extend_from_slice(b"\n")
}
