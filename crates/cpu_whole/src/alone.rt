//! The instructions without an operand in memory.
ghost use Rattle.std.specs.Prelude.{ℕ, ◌≡◌, ◌≢◌, ◌<◌, ◌≤◌, ◌+◌, ◌/◌, ◌*◌, ◌%◌, ◌^◌, Some, true};
ghost use Rattle.cpu_alu.specs.Addresses.{place};
ghost use Rattle.cpu_alu.specs.Instructions.{bus_use, takes_branch};
ghost use Rattle.cpu_core.specs.Accesses.{row_at, second};
ghost use Rattle.cpu_whole.specs.Whole.{AreRead, IsDone};
ghost use Rattle.cpu_whole.specs.CodeWays.{IsModifying, IsPointer, moves_i, pulls_flags};

use crate::operations;
use crate::plain::Plain;
use crate::ways::{idles, low_byte};
use cpu_alu::{BusUse, Regs, word, wrapping_sum};
use op_table::{Mnemonic, Mode, Part, Row};

/// Returns true if an instruction sets or clears I, which a whole instruction leaves unchanged.
#[inline(always)]
fn moves_i(mnemonic: Mnemonic) -> bool
    ensures { result ≡ moves_i mnemonic }
{
    match mnemonic {
        Mnemonic::Cli => true,
        Mnemonic::Sei => true,
        _ => false,
    }
}

/// Returns true if an instruction pulls the flags, I among them.
#[inline(always)]
fn pulls_flags(mnemonic: Mnemonic) -> bool
    ensures { result ≡ pulls_flags mnemonic }
{
    match mnemonic {
        Mnemonic::Pla => false,
        Mnemonic::Plx => false,
        Mnemonic::Ply => false,
        _ => true,
    }
}

/// Carries out an instruction without an operand.
#[inline(always)]
pub(crate) fn implied<N, M: Plain<N>, L>(part: Part, row: Row, r: &mut Regs, memory: &M) -> u64
    requires runs { AreRead M.reach r.old.pc }
    requires row { row_at part ((M.reach).byte (M.state memory.now) r.old.pc) ≡ Some row }
    requires uses { bus_use row.mnemonic ≡ BusUse.Implied }
    ensures done { (t : ℕ) → 0 < result → IsDone part M.reach t r.old (M.state memory.now) result r.new (M.state memory.now) }
    ensures still { result ≡ 0 → r.new ≡ r.old }
    ensures few { result ≤ 8 }
{
    if moves_i(row.mnemonic) {
        return 0;
    }
    match row.mode {
        Mode::Spare => 0,
        _ => {
            r.move_past(1);
            operations::implied(row.mnemonic, r);
            2
        }
    }
}

/// The mark of an operand that is A.
struct OnA;

/// Carries out a shift, INC or DEC of A.
#[inline(always)]
pub(crate) fn accumulator<N, M: Plain<N>, L>(
    part: Part,
    row: Row,
    always: bool,
    r: &mut Regs,
    memory: &M,
) -> u64
    requires runs { AreRead M.reach r.old.pc }
    requires row { row_at part ((M.reach).byte (M.state memory.now) r.old.pc) ≡ Some row }
    requires uses { IsModifying part row always }
    requires mode { row.mode ≡ Mode.Acc }
    ensures done { (t : ℕ) → IsDone part M.reach t r.old (M.state memory.now) result r.new (M.state memory.now) }
    ensures some { 0 < result }
    ensures few { result ≤ 8 }
{
    r.move_past(1);
    let a = r.a;
    operations::change::<OnA, N, M, L>(row.mnemonic, Mode::Acc, r, a);
    2
}

/// Carries out a branch that is taken.
#[inline(always)]
fn branch_on<N, M: Plain<N>, L>(part: Part, row: Row, r: &mut Regs, memory: &M, first: u8) -> u64
    requires runs { AreRead M.reach r.old.pc }
    requires first { first ≡ (M.reach).byte (M.state memory.now) (place r.old 1) }
    requires row { row_at part ((M.reach).byte (M.state memory.now) r.old.pc) ≡ Some row }
    requires uses { bus_use row.mnemonic ≡ BusUse.Branches }
    requires taken { takes_branch row.mnemonic r.old ≡ true }
    ensures done { (t : ℕ) → 0 < result → IsDone part M.reach t r.old (M.state memory.now) result r.new (M.state memory.now) }
    ensures still { result ≡ 0 → r.new ≡ r.old }
    ensures few { result ≤ 8 }
{
    let to = r.target(first);
    let next = r.place(2);
    if to / 256 == next / 256 {
        r.pc = to;
        return 3;
    }
    if !idles::<N, M, L>(part, memory, next / 256 * 256 + to % 256) {
        return 0;
    }
    r.pc = to;
    4
}

/// Carries out a branch.
#[inline(always)]
pub(crate) fn branch<N, M: Plain<N>, L>(
    part: Part,
    row: Row,
    r: &mut Regs,
    memory: &M,
    first: u8,
) -> u64
    requires runs { AreRead M.reach r.old.pc }
    requires first { first ≡ (M.reach).byte (M.state memory.now) (place r.old 1) }
    requires row { row_at part ((M.reach).byte (M.state memory.now) r.old.pc) ≡ Some row }
    requires uses { bus_use row.mnemonic ≡ BusUse.Branches }
    ensures done { (t : ℕ) → 0 < result → IsDone part M.reach t r.old (M.state memory.now) result r.new (M.state memory.now) }
    ensures still { result ≡ 0 → r.new ≡ r.old }
    ensures few { result ≤ 8 }
{
    if operations::takes(row.mnemonic, r) {
        return branch_on::<N, M, L>(part, row, r, memory, first);
    }
    r.move_past(2);
    2
}

/// Carries out JSR, which reads the high byte of its target after its pushes.
#[inline(always)]
pub(crate) fn call<N, M: Plain<N>, L>(
    part: Part,
    row: Row,
    r: &mut Regs,
    memory: &mut M,
    first: u8,
    t: u64,
    notes: &mut N,
) -> u64
    requires order { M.may_come (M.state memory.old) t 0 }
    requires tick { t < 2 ^ 40 }
    requires runs { AreRead M.reach r.old.pc }
    requires first { first ≡ (M.reach).byte (M.state memory.old) (place r.old 1) }
    requires row { row_at part ((M.reach).byte (M.state memory.old) r.old.pc) ≡ Some row }
    requires uses { bus_use row.mnemonic ≡ BusUse.Calls }
    ensures done { 0 < result → IsDone part M.reach t r.old (M.state memory.old) result r.new (M.state memory.new) }
    ensures still { result ≡ 0 → (r.new ≡ r.old) × (memory.new ≡ memory.old) × (notes.new ≡ notes.old) }
    ensures order { M.may_come (M.state memory.new) t result }
    ensures noted { M.before notes.new memory.new ≡ M.before notes.old memory.old }
    ensures room { M.room notes.old ≤ M.room notes.new + result }
    ensures few { result ≤ 8 }
{
    let top = r.stack(0);
    if !memory.writes(top, notes) {
        return 0;
    }
    let back = r.place(2);
    memory.put(t, 3, top, (back / 256) as u8, notes);
    memory.put(t, 4, r.stack(255), (back % 256) as u8, notes);
    let high = memory.byte(back);
    r.move_stack(254);
    r.pc = word(first, high);
    6
}

/// Carries out RTS.
#[inline(always)]
pub(crate) fn go_back<N, M: Plain<N>, L>(part: Part, row: Row, r: &mut Regs, memory: &M) -> u64
    requires runs { AreRead M.reach r.old.pc }
    requires row { row_at part ((M.reach).byte (M.state memory.now) r.old.pc) ≡ Some row }
    requires uses { bus_use row.mnemonic ≡ BusUse.Returns }
    ensures done { (t : ℕ) → 0 < result → IsDone part M.reach t r.old (M.state memory.now) result r.new (M.state memory.now) }
    ensures still { result ≡ 0 → r.new ≡ r.old }
    ensures few { result ≤ 8 }
{
    let low = low_byte::<N, M, L>(memory, r.stack(1));
    let high = low_byte::<N, M, L>(memory, r.stack(2));
    let to = word(low, high);
    if !memory.reads(to) {
        return 0;
    }
    r.move_stack(2);
    r.pc = wrapping_sum(to, 1);
    6
}

/// Carries out a push.
#[inline(always)]
pub(crate) fn push<N, M: Plain<N>, L>(
    part: Part,
    row: Row,
    r: &mut Regs,
    memory: &mut M,
    t: u64,
    notes: &mut N,
) -> u64
    requires order { M.may_come (M.state memory.old) t 0 }
    requires tick { t < 2 ^ 40 }
    requires runs { AreRead M.reach r.old.pc }
    requires row { row_at part ((M.reach).byte (M.state memory.old) r.old.pc) ≡ Some row }
    requires uses { bus_use row.mnemonic ≡ BusUse.Pushes }
    ensures done { 0 < result → IsDone part M.reach t r.old (M.state memory.old) result r.new (M.state memory.new) }
    ensures still { result ≡ 0 → (r.new ≡ r.old) × (memory.new ≡ memory.old) × (notes.new ≡ notes.old) }
    ensures order { M.may_come (M.state memory.new) t result }
    ensures noted { M.before notes.new memory.new ≡ M.before notes.old memory.old }
    ensures room { M.room notes.old ≤ M.room notes.new + result }
    ensures few { result ≤ 8 }
{
    let top = r.stack(0);
    if !memory.writes(top, notes) {
        return 0;
    }
    memory.put(t, 2, top, operations::pushed(row.mnemonic, r), notes);
    r.move_past(1);
    r.move_stack(255);
    3
}

/// Carries out a pull, except PLP.
#[inline(always)]
pub(crate) fn pull<N, M: Plain<N>, L>(part: Part, row: Row, r: &mut Regs, memory: &M) -> u64
    requires runs { AreRead M.reach r.old.pc }
    requires row { row_at part ((M.reach).byte (M.state memory.now) r.old.pc) ≡ Some row }
    requires uses { bus_use row.mnemonic ≡ BusUse.Pulls }
    ensures done { (t : ℕ) → 0 < result → IsDone part M.reach t r.old (M.state memory.now) result r.new (M.state memory.now) }
    ensures still { result ≡ 0 → r.new ≡ r.old }
    ensures few { result ≤ 8 }
{
    if pulls_flags(row.mnemonic) {
        return 0;
    }
    let byte = low_byte::<N, M, L>(memory, r.stack(1));
    r.move_past(1);
    r.move_stack(1);
    operations::pull(row.mnemonic, r, byte);
    4
}

/// Returns the address of the second byte of a jump's pointer.
#[inline(always)]
fn second(part: Part, p: u16) -> u16
    ensures { result ≡ second part p }
{
    match part {
        Part::Nmos => p / 256 * 256 + wrapping_sum(p, 1) % 256,
        Part::Cmos => wrapping_sum(p, 1),
    }
}

/// Carries out JMP to an absolute address.
#[inline(always)]
fn jump_to<N, M: Plain<N>, L>(
    part: Part,
    row: Row,
    r: &mut Regs,
    memory: &M,
    first: u8,
    high: u8,
) -> u64
    requires runs { AreRead M.reach r.old.pc }
    requires first { first ≡ (M.reach).byte (M.state memory.now) (place r.old 1) }
    requires high { high ≡ (M.reach).byte (M.state memory.now) (place r.old 2) }
    requires row { row_at part ((M.reach).byte (M.state memory.now) r.old.pc) ≡ Some row }
    requires uses { bus_use row.mnemonic ≡ BusUse.Jumps }
    requires mode { row.mode ≡ Mode.Abs }
    ensures done { (t : ℕ) → IsDone part M.reach t r.old (M.state memory.now) result r.new (M.state memory.now) }
    ensures some { 0 < result }
    ensures few { result ≤ 8 }
{
    r.pc = word(first, high);
    3
}

/// Carries out JMP through the pointer at `at`.
#[inline(always)]
fn jump_through<N, M: Plain<N>, L>(part: Part, row: Row, r: &mut Regs, memory: &M, at: u16) -> u64
    requires runs { AreRead M.reach r.old.pc }
    requires row { row_at part ((M.reach).byte (M.state memory.now) r.old.pc) ≡ Some row }
    requires uses { bus_use row.mnemonic ≡ BusUse.Jumps }
    requires pointer { IsPointer part row.mode (M.reach) r.old (M.state memory.now) at }
    ensures done { (t : ℕ) → 0 < result → IsDone part M.reach t r.old (M.state memory.now) result r.new (M.state memory.now) }
    ensures still { result ≡ 0 → r.new ≡ r.old }
    ensures few { result ≤ 8 }
{
    let above = second(part, at);
    if !memory.reads(at) {
        return 0;
    }
    if !memory.reads(above) {
        return 0;
    }
    r.pc = word(memory.byte(at), memory.byte(above));
    match part {
        Part::Nmos => 5,
        Part::Cmos => 6,
    }
}

/// Carries out JMP.
#[inline(always)]
pub(crate) fn jump<N, M: Plain<N>, L>(
    part: Part,
    row: Row,
    r: &mut Regs,
    memory: &M,
    first: u8,
) -> u64
    requires runs { AreRead M.reach r.old.pc }
    requires first { first ≡ (M.reach).byte (M.state memory.now) (place r.old 1) }
    requires row { row_at part ((M.reach).byte (M.state memory.now) r.old.pc) ≡ Some row }
    requires uses { bus_use row.mnemonic ≡ BusUse.Jumps }
    ensures done { (t : ℕ) → 0 < result → IsDone part M.reach t r.old (M.state memory.now) result r.new (M.state memory.now) }
    ensures still { result ≡ 0 → r.new ≡ r.old }
    ensures few { result ≤ 8 }
{
    let high = memory.byte(r.place(2));
    if (row.mode as u8) < Mode::Ind as u8 {
        return match row.mode {
            Mode::Abs => jump_to::<N, M, L>(part, row, r, memory, first, high),
            _ => 0,
        };
    }
    match row.mode {
        Mode::Ind => jump_through::<N, M, L>(part, row, r, memory, word(first, high)),
        Mode::IndAbsX => jump_through::<N, M, L>(
            part,
            row,
            r,
            memory,
            wrapping_sum(word(first, high), r.x as u16),
        ),
        _ => 0,
    }
}
