//! The access to an operand in memory.
ghost use Rattle.std.specs.Prelude.{ℕ, ◌≡◌, ◌≢◌, ◌<◌, ◌≤◌, ◌+◌, ◌^◌, Some};
ghost use Rattle.cpu_alu.specs.Addresses.{place};
ghost use Rattle.cpu_alu.specs.Instructions.{bus_use};
ghost use Rattle.cpu_core.specs.Accesses.{row_at, waits, modify_form};
ghost use Rattle.cpu_whole.specs.Whole.{AreRead, IsDone};
ghost use Rattle.cpu_whole.specs.CodeWays.{IsModifying};

use crate::operations;
use crate::plain::Plain;
use crate::ways::find;
use cpu_alu::{BusUse, Regs};
use op_table::{Mode, Part, Row};

/// Reads the operand.
#[inline(always)]
pub(crate) fn load<N, M: Plain<N>, L>(
    part: Part,
    row: Row,
    r: &mut Regs,
    memory: &M,
    first: u8,
) -> u64
    requires runs { AreRead M.reach r.old.pc }
    requires first { first ≡ (M.reach).byte (M.state memory.now) (place r.old 1) }
    requires row { row_at part ((M.reach).byte (M.state memory.now) r.old.pc) ≡ Some row }
    requires uses { bus_use row.mnemonic ≡ BusUse.Reads }
    ensures done { (t : ℕ) → 0 < result → IsDone part M.reach t r.old (M.state memory.now) result r.new (M.state memory.now) }
    ensures still { result ≡ 0 → r.new ≡ r.old }
    ensures few { result ≤ 8 }
{
    let to = find::<N, M, L>(part, row.mode, false, r, memory, first);
    if to.cycles == 0 {
        return 0;
    }
    if !memory.reads(to.at) {
        return 0;
    }
    let byte = memory.byte(to.at);
    let pc = r.pc;
    r.move_past(row.bytes);
    if !operations::read(part, row.mnemonic, row.mode, r, byte) {
        r.pc = pc;
        return 0;
    }
    to.cycles + 1
}

/// Writes the operand.
#[inline(always)]
pub(crate) fn store<N, M: Plain<N>, L>(
    part: Part,
    row: Row,
    r: &mut Regs,
    memory: &mut M,
    first: u8,
    t: u64,
    notes: &mut N,
) -> u64
    requires order { M.may_come (M.state memory.old) t 0 }
    requires tick { t < 2 ^ 40 }
    requires runs { AreRead M.reach r.old.pc }
    requires first { first ≡ (M.reach).byte (M.state memory.old) (place r.old 1) }
    requires row { row_at part ((M.reach).byte (M.state memory.old) r.old.pc) ≡ Some row }
    requires uses { bus_use row.mnemonic ≡ BusUse.Stores }
    ensures done { 0 < result → IsDone part M.reach t r.old (M.state memory.old) result r.new (M.state memory.new) }
    ensures still { result ≡ 0 → (r.new ≡ r.old) × (memory.new ≡ memory.old) × (notes.new ≡ notes.old) }
    ensures order { M.may_come (M.state memory.new) t result }
    ensures noted { M.before notes.new memory.new ≡ M.before notes.old memory.old }
    ensures room { M.room notes.old ≤ M.room notes.new + result }
    ensures few { result ≤ 8 }
{
    let to = find::<N, M, L>(part, row.mode, true, r, memory, first);
    if to.cycles == 0 {
        return 0;
    }
    if !memory.writes(to.at, notes) {
        return 0;
    }
    memory.put(
        t,
        to.cycles,
        to.at,
        operations::stored(row.mnemonic, r),
        notes,
    );
    r.move_past(row.bytes);
    to.cycles + 1
}

/// The mark of an operand in memory.
struct InMemory;

/// Reads the operand and writes it back. The first of the NMOS part's two writes is left out, since
/// it leaves the byte as it was read.
#[inline(always)]
pub(crate) fn change<N, M: Plain<N>, L>(
    part: Part,
    row: Row,
    always: bool,
    r: &mut Regs,
    memory: &mut M,
    first: u8,
    t: u64,
    notes: &mut N,
) -> u64
    requires order { M.may_come (M.state memory.old) t 0 }
    requires tick { t < 2 ^ 40 }
    requires runs { AreRead M.reach r.old.pc }
    requires first { first ≡ (M.reach).byte (M.state memory.old) (place r.old 1) }
    requires row { row_at part ((M.reach).byte (M.state memory.old) r.old.pc) ≡ Some row }
    requires uses { IsModifying part row always }
    requires apart { row.mode ≢ Mode.Acc }
    ensures done { 0 < result → IsDone part M.reach t r.old (M.state memory.old) result r.new (M.state memory.new) }
    ensures still { result ≡ 0 → (r.new ≡ r.old) × (memory.new ≡ memory.old) × (notes.new ≡ notes.old) }
    ensures order { M.may_come (M.state memory.new) t result }
    ensures noted { M.before notes.new memory.new ≡ M.before notes.old memory.old }
    ensures room { M.room notes.old ≤ M.room notes.new + result }
    ensures few { result ≤ 8 }
{
    let to = find::<N, M, L>(part, row.mode, always, r, memory, first);
    if to.cycles == 0 {
        return 0;
    }
    if !memory.writes(to.at, notes) {
        return 0;
    }
    let byte = memory.byte(to.at);
    r.move_past(row.bytes);
    let value = operations::change::<InMemory, N, M, L>(row.mnemonic, row.mode, r, byte);
    memory.put(t, to.cycles + 2, to.at, value, notes);
    to.cycles + 3
}
