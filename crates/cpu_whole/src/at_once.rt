//! The choice of what to do for an opcode.
ghost use Rattle.std.specs.Prelude.{ℕ, ◌≡◌, ◌≢◌, ◌<◌, ◌≤◌, ◌+◌, ◌^◌, Some, true};
ghost use Rattle.cpu_alu.specs.Addresses.{place};
ghost use Rattle.cpu_alu.specs.Instructions.{bus_use};
ghost use Rattle.cpu_core.specs.Accesses.{row_at};
ghost use Rattle.cpu_whole.specs.Whole.{AreRead, IsDone};
ghost use Rattle.cpu_whole.specs.CodeWays.{IsModifying, is_modifying, known_at};

use crate::alone::{accumulator, branch, call, go_back, implied, jump, pull, push};
use crate::known::{Known, known_at};
use crate::operate::{change, load, store};
use crate::plain::Plain;
use cpu_alu::{BusUse, Regs};
use op_table::{Mode, Part, Row, cmos, nmos};

/// Returns the instruction of an opcode.
#[inline(always)]
fn row_at(part: Part, op: u8) -> Option<Row>
    ensures { result ≡ row_at part op }
{
    match part {
        Part::Nmos => nmos(op),
        Part::Cmos => Some(cmos(op)),
    }
}

/// Returns true if an instruction that reads and writes back takes its cycle for a carry even
/// without a carry: all but the shifts of the 65C02 do.
#[inline(always)]
fn waits(part: Part, row: Row, uses: BusUse) -> bool
    requires uses { bus_use row.mnemonic ≡ uses }
    requires modifying { is_modifying uses ≡ true }
    ensures { IsModifying part row result }
{
    match uses {
        BusUse::Shifts => match part {
            Part::Nmos => true,
            Part::Cmos => false,
        },
        _ => true,
    }
}

/// Carries out an instruction that reads and writes back, or works on A.
#[inline(always)]
fn modify<N, M: Plain<N>, L>(
    part: Part,
    row: Row,
    always: bool,
    r: &mut Regs,
    memory: &mut M,
    first: u8,
    t: u64,
    notes: &mut N,
) -> u64
    requires order { M.may_come (M.state memory.old) t 0 }
    requires tick { t < 2 ^ 40 }
    requires runs { AreRead M.reach r.old.pc }
    requires first { first ≡ (M.reach).byte (M.state memory.old) (place r.old 1) }
    requires row { row_at part ((M.reach).byte (M.state memory.old) r.old.pc) ≡ Some row }
    requires uses { IsModifying part row always }
    ensures done { 0 < result → IsDone part M.reach t r.old (M.state memory.old) result r.new (M.state memory.new) }
    ensures still { result ≡ 0 → (r.new ≡ r.old) × (memory.new ≡ memory.old) × (notes.new ≡ notes.old) }
    ensures order { M.may_come (M.state memory.new) t result }
    ensures noted { M.before notes.new memory.new ≡ M.before notes.old memory.old }
    ensures room { M.room notes.old ≤ M.room notes.new + result }
    ensures few { result ≤ 8 }
{
    match row.mode {
        Mode::Acc => accumulator::<N, M, L>(part, row, always, r, memory),
        _ => change::<N, M, L>(part, row, always, r, memory, first, t, notes),
    }
}

/// Returns the row of an opcode that has an instruction. Only the number of its cycles is read from
/// the table of rows.
#[inline(always)]
pub(crate) fn row_of(part: Part, op: u8, known: &Known) -> Row
    requires known { known.now ≡ known_at part op }
    requires some { known.now.uses ≢ BusUse.Breaks }
    ensures row { row_at part op ≡ Some result }
    ensures uses { bus_use result.mnemonic ≡ known.now.uses }
{
    let cycles = match row_at(part, op) {
        Some(row) => row.cycles,
        None => 0,
    };
    Row {
        mnemonic: known.mnemonic,
        mode: known.mode,
        bytes: known.bytes,
        cycles,
    }
}

/// Carries out an instruction by its use of the bus. The use is found by comparisons, as the mode
/// is.
#[inline(always)]
fn carry_out<N, M: Plain<N>, L>(
    part: Part,
    op: u8,
    known: &Known,
    r: &mut Regs,
    memory: &mut M,
    first: u8,
    t: u64,
    notes: &mut N,
) -> u64
    requires order { M.may_come (M.state memory.old) t 0 }
    requires tick { t < 2 ^ 40 }
    requires runs { AreRead M.reach r.old.pc }
    requires first { first ≡ (M.reach).byte (M.state memory.old) (place r.old 1) }
    requires op { op ≡ (M.reach).byte (M.state memory.old) r.old.pc }
    requires known { known.now ≡ known_at part op }
    ensures done { 0 < result → IsDone part M.reach t r.old (M.state memory.old) result r.new (M.state memory.new) }
    ensures still { result ≡ 0 → (r.new ≡ r.old) × (memory.new ≡ memory.old) × (notes.new ≡ notes.old) }
    ensures order { M.may_come (M.state memory.new) t result }
    ensures noted { M.before notes.new memory.new ≡ M.before notes.old memory.old }
    ensures room { M.room notes.old ≤ M.room notes.new + result }
    ensures few { result ≤ 8 }
{
    let uses = known.uses;
    if (uses as u8) < BusUse::Shifts as u8 {
        match uses {
            BusUse::Reads => load::<N, M, L>(part, row_of(part, op, known), r, memory, first),
            BusUse::Implied => implied::<N, M, L>(part, row_of(part, op, known), r, memory),
            // Stores
            _ => store::<N, M, L>(part, row_of(part, op, known), r, memory, first, t, notes),
        }
    } else if (uses as u8) < BusUse::Pushes as u8 {
        let row = row_of(part, op, known);
        let always = waits(part, row, uses);
        modify::<N, M, L>(part, row, always, r, memory, first, t, notes)
    } else if (uses as u8) < BusUse::Jumps as u8 {
        match uses {
            BusUse::Branches => branch::<N, M, L>(part, row_of(part, op, known), r, memory, first),
            BusUse::Pushes => push::<N, M, L>(part, row_of(part, op, known), r, memory, t, notes),
            // Pulls
            _ => pull::<N, M, L>(part, row_of(part, op, known), r, memory),
        }
    } else if (uses as u8) < BusUse::Resumes as u8 {
        match uses {
            BusUse::Calls => call::<N, M, L>(
                part,
                row_of(part, op, known),
                r,
                memory,
                first,
                t,
                notes,
            ),
            BusUse::Returns => go_back::<N, M, L>(part, row_of(part, op, known), r, memory),
            // Jumps
            _ => jump::<N, M, L>(part, row_of(part, op, known), r, memory, first),
        }
    } else {
        0
    }
}

/// Carries out the instruction at PC at once if all its accesses are of plain memory. Returns the
/// number of its cycles, at most 8. Otherwise returns 0 and changes nothing. Some instructions
/// always return 0: sums and differences in decimal mode, BRK, RTI, PLP, CLI and SEI, and opcodes
/// of mode `Spare` or without an instruction. So the flag I is unchanged. `L` names the calling
/// loop and has no other use: each loop gets its own inlined copy.
/// Source: the MCS6500 Hardware Manual, summary of single cycle execution, and the 65C02's data
/// sheet.
#[inline(always)]
pub fn whole<N, M: Plain<N>, L>(
    part: Part,
    r: &mut Regs,
    memory: &mut M,
    t: u64,
    notes: &mut N,
) -> u64
    requires order { M.may_come (M.state memory.old) t 0 }
    requires tick { t < 2 ^ 40 }
    ensures done { 0 < result → IsDone part M.reach t r.old (M.state memory.old) result r.new (M.state memory.new) }
    ensures still { result ≡ 0 → (r.new ≡ r.old) × (memory.new ≡ memory.old) × (notes.new ≡ notes.old) }
    ensures order { M.may_come (M.state memory.new) t result }
    ensures noted { M.before notes.new memory.new ≡ M.before notes.old memory.old }
    ensures room { M.room notes.old ≤ M.room notes.new + result }
    ensures few { result ≤ 8 }
{
    if !memory.runs(r.pc) {
        return 0;
    }
    let op = memory.byte(r.pc);
    let first = memory.byte(r.place(1));
    carry_out::<N, M, L>(part, op, known_at(part, op), r, memory, first, t, notes)
}
