//! The addressing modes of an instruction with an operand in memory.
ghost use Rattle.std.specs.Prelude.{ℕ, ◌≡◌, ◌<◌, ◌≤◌, ◌+◌, ◌%◌, ◌||◌, true, cond};
ghost use Rattle.cpu_alu.specs.Addresses.{word, wrap, place, crosses_page};
ghost use Rattle.cpu_core.specs.Accesses.{idle, in_page};
ghost use Rattle.cpu_whole.specs.Whole.{AreRead};
ghost use Rattle.cpu_whole.specs.CodeWays.{IsReached, is_beside};

use crate::plain::Plain;
use cpu_alu::{Regs, crosses_page, in_zero_page, word, wrapping_sum};
use op_table::{Mode, Part};

/// The operand's address and the cycles before it.
#[derive(Clone, Copy, Debug, PartialEq, Eq)]
pub(crate) struct Reached {
    /// The operand's address.
    pub(crate) at: u16,
    /// The cycles before the operand's, or 0 if one of them is not of plain memory.
    pub(crate) cycles: u64,
}

/// Returns a byte of the zero page or the stack.
#[inline(always)]
pub(crate) fn low_byte<N, M: Plain<N>, L>(memory: &M, at: u16) -> u8
    requires { at < 512 }
    ensures byte { result ≡ (M.reach).byte (M.state memory.now) at }
    ensures read { (M.reach).reads at ≡ true }
{
    memory.byte(at)
}

/// Returns `true` only if a cycle whose byte is not used is one of plain memory. The NMOS part
/// reads the partial address `so_far`.
#[inline(always)]
pub(crate) fn idles<N, M: Plain<N>, L>(part: Part, memory: &M, so_far: u16) -> bool
    ensures { result ≡ true → (last : ℕ) → (M.reach).reads last ≡ true → (M.reach).reads (idle part so_far last) ≡ true }
{
    match part {
        Part::Nmos => memory.reads(so_far),
        Part::Cmos => true,
    }
}

/// Adds `index` to an address; `before` cycles come before.
#[inline(always)]
fn indexed<N, M: Plain<N>, L>(
    part: Part,
    always: bool,
    memory: &M,
    low: u8,
    high: u8,
    index: u8,
    before: u64,
) -> Reached
    requires some { 0 < before }
    requires few { before < 8 }
    ensures at { result.at ≡ wrap (word low high + index) }
    ensures cycles { 0 < result.cycles → result.cycles ≡ cond (always || crosses_page low index) (before + 1) before }
    ensures few { result.cycles ≤ before + 1 }
    ensures idle { 0 < result.cycles → (always || crosses_page low index) ≡ true → (last : ℕ) → (M.reach).reads last ≡ true →
        (M.reach).reads (idle part (in_page low high index) last) ≡ true }
{
    let at = wrapping_sum(word(low, high), index as u16);
    let waits = always || crosses_page(low, index);
    if !waits {
        return Reached { at, cycles: before };
    }
    if !idles::<N, M, L>(part, memory, word(low.wrapping_add(index), high)) {
        return Reached { at, cycles: 0 };
    }
    Reached {
        at,
        cycles: before + 1,
    }
}

/// Finds an absolute address with X.
#[inline(always)]
fn absolute_x<N, M: Plain<N>, L>(
    part: Part,
    always: bool,
    r: &Regs,
    memory: &M,
    first: u8,
) -> Reached
    requires runs { AreRead M.reach r.now.pc }
    requires first { first ≡ (M.reach).byte (M.state memory.now) (place r.now 1) }
    ensures reached { (t : ℕ) → 0 < result.cycles → IsReached part M.reach t Mode.AbsX always r.now (M.state memory.now) result.at result.cycles }
    ensures few { result.cycles ≤ 5 }
{
    let high = memory.byte(r.place(2));
    indexed::<N, M, L>(part, always, memory, first, high, r.x, 3)
}

/// Finds an absolute address with Y.
#[inline(always)]
fn absolute_y<N, M: Plain<N>, L>(
    part: Part,
    always: bool,
    r: &Regs,
    memory: &M,
    first: u8,
) -> Reached
    requires runs { AreRead M.reach r.now.pc }
    requires first { first ≡ (M.reach).byte (M.state memory.now) (place r.now 1) }
    ensures reached { (t : ℕ) → 0 < result.cycles → IsReached part M.reach t Mode.AbsY always r.now (M.state memory.now) result.at result.cycles }
    ensures few { result.cycles ≤ 5 }
{
    let high = memory.byte(r.place(2));
    indexed::<N, M, L>(part, always, memory, first, high, r.y, 3)
}

/// Finds the address at a pointer in the zero page, with Y added.
#[inline(always)]
fn pointer_y<N, M: Plain<N>, L>(
    part: Part,
    always: bool,
    r: &Regs,
    memory: &M,
    first: u8,
) -> Reached
    requires runs { AreRead M.reach r.now.pc }
    requires first { first ≡ (M.reach).byte (M.state memory.now) (place r.now 1) }
    ensures reached { (t : ℕ) → 0 < result.cycles → IsReached part M.reach t Mode.IndY always r.now (M.state memory.now) result.at result.cycles }
    ensures few { result.cycles ≤ 5 }
{
    let low = low_byte::<N, M, L>(memory, first as u16);
    let high = low_byte::<N, M, L>(memory, in_zero_page(first, 1));
    indexed::<N, M, L>(part, always, memory, low, high, r.y, 4)
}

/// Finds the address at a pointer in the zero page.
#[inline(always)]
fn pointer<N, M: Plain<N>, L>(part: Part, always: bool, r: &Regs, memory: &M, first: u8) -> Reached
    requires runs { AreRead M.reach r.now.pc }
    requires first { first ≡ (M.reach).byte (M.state memory.now) (place r.now 1) }
    ensures reached { (t : ℕ) → IsReached part M.reach t Mode.IndZp always r.now (M.state memory.now) result.at result.cycles }
    ensures few { result.cycles ≤ 5 }
{
    let low = low_byte::<N, M, L>(memory, first as u16);
    let high = low_byte::<N, M, L>(memory, in_zero_page(first, 1));
    Reached {
        at: word(low, high),
        cycles: 4,
    }
}

/// Finds the address at a pointer in the zero page that is indexed by X.
#[inline(always)]
fn pointer_x<N, M: Plain<N>, L>(
    part: Part,
    always: bool,
    r: &Regs,
    memory: &M,
    first: u8,
) -> Reached
    requires runs { AreRead M.reach r.now.pc }
    requires first { first ≡ (M.reach).byte (M.state memory.now) (place r.now 1) }
    ensures reached { (t : ℕ) → IsReached part M.reach t Mode.IndX always r.now (M.state memory.now) result.at result.cycles }
    ensures few { result.cycles ≤ 5 }
{
    let low = low_byte::<N, M, L>(memory, in_zero_page(first, r.x as u16));
    let high = low_byte::<N, M, L>(memory, in_zero_page(first, r.x as u16 + 1));
    Reached {
        at: word(low, high),
        cycles: 5,
    }
}

/// Finds an address in the zero page with X.
#[inline(always)]
fn zero_page_x<N, M: Plain<N>, L>(
    part: Part,
    always: bool,
    r: &Regs,
    memory: &M,
    first: u8,
) -> Reached
    requires runs { AreRead M.reach r.now.pc }
    requires first { first ≡ (M.reach).byte (M.state memory.now) (place r.now 1) }
    ensures reached { (t : ℕ) → IsReached part M.reach t Mode.ZpX always r.now (M.state memory.now) result.at result.cycles }
    ensures few { result.cycles ≤ 5 }
{
    Reached {
        at: in_zero_page(first, r.x as u16),
        cycles: 3,
    }
}

/// Finds an address in the zero page with Y.
#[inline(always)]
fn zero_page_y<N, M: Plain<N>, L>(
    part: Part,
    always: bool,
    r: &Regs,
    memory: &M,
    first: u8,
) -> Reached
    requires runs { AreRead M.reach r.now.pc }
    requires first { first ≡ (M.reach).byte (M.state memory.now) (place r.now 1) }
    ensures reached { (t : ℕ) → IsReached part M.reach t Mode.ZpY always r.now (M.state memory.now) result.at result.cycles }
    ensures few { result.cycles ≤ 5 }
{
    Reached {
        at: in_zero_page(first, r.y as u16),
        cycles: 3,
    }
}

/// Finds an address in the zero page.
#[inline(always)]
fn zero_page<N, M: Plain<N>, L>(
    part: Part,
    always: bool,
    r: &Regs,
    memory: &M,
    first: u8,
) -> Reached
    requires runs { AreRead M.reach r.now.pc }
    requires first { first ≡ (M.reach).byte (M.state memory.now) (place r.now 1) }
    ensures reached { (t : ℕ) → IsReached part M.reach t Mode.Zp always r.now (M.state memory.now) result.at result.cycles }
    ensures few { result.cycles ≤ 5 }
{
    Reached {
        at: first as u16,
        cycles: 2,
    }
}

/// Finds an absolute address.
#[inline(always)]
fn absolute<N, M: Plain<N>, L>(part: Part, always: bool, r: &Regs, memory: &M, first: u8) -> Reached
    requires runs { AreRead M.reach r.now.pc }
    requires first { first ≡ (M.reach).byte (M.state memory.now) (place r.now 1) }
    ensures reached { (t : ℕ) → IsReached part M.reach t Mode.Abs always r.now (M.state memory.now) result.at result.cycles }
    ensures few { result.cycles ≤ 5 }
{
    Reached {
        at: word(first, memory.byte(r.place(2))),
        cycles: 3,
    }
}

/// Finds the operand in the byte after the opcode.
#[inline(always)]
fn immediate<N, M: Plain<N>, L>(
    part: Part,
    mode: Mode,
    always: bool,
    r: &Regs,
    memory: &M,
) -> Reached
    requires { is_beside mode ≡ true }
    ensures reached { (t : ℕ) → IsReached part M.reach t mode always r.now (M.state memory.now) result.at result.cycles }
    ensures few { result.cycles ≤ 5 }
{
    Reached {
        at: r.place(1),
        cycles: 1,
    }
}

/// Finds the operand's address by the mode. The mode is found by comparisons with the order of the
/// modes, which take less time than a mispredicted jump through a table.
#[inline(always)]
pub(crate) fn find<N, M: Plain<N>, L>(
    part: Part,
    mode: Mode,
    always: bool,
    r: &Regs,
    memory: &M,
    first: u8,
) -> Reached
    requires runs { AreRead M.reach r.now.pc }
    requires first { first ≡ (M.reach).byte (M.state memory.now) (place r.now 1) }
    ensures reached { (t : ℕ) → 0 < result.cycles → IsReached part M.reach t mode always r.now (M.state memory.now) result.at result.cycles }
    ensures few { result.cycles ≤ 5 }
{
    if (mode as u8) < Mode::Abs as u8 {
        if (mode as u8) < Mode::ZpX as u8 {
            match mode {
                Mode::Zp => zero_page::<N, M, L>(part, always, r, memory, first),
                // Imm
                _ => immediate::<N, M, L>(part, mode, always, r, memory),
            }
        } else {
            match mode {
                Mode::ZpX => zero_page_x::<N, M, L>(part, always, r, memory, first),
                // ZpY
                _ => zero_page_y::<N, M, L>(part, always, r, memory, first),
            }
        }
    } else if (mode as u8) < Mode::IndX as u8 {
        match mode {
            Mode::Abs => absolute::<N, M, L>(part, always, r, memory, first),
            Mode::AbsX => absolute_x::<N, M, L>(part, always, r, memory, first),
            // AbsY
            _ => absolute_y::<N, M, L>(part, always, r, memory, first),
        }
    } else if (mode as u8) < Mode::Rel as u8 {
        match mode {
            Mode::IndY => pointer_y::<N, M, L>(part, always, r, memory, first),
            Mode::IndZp => pointer::<N, M, L>(part, always, r, memory, first),
            // IndX
            _ => pointer_x::<N, M, L>(part, always, r, memory, first),
        }
    } else {
        immediate::<N, M, L>(part, mode, always, r, memory)
    }
}
