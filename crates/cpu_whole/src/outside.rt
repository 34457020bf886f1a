//! The last access of an instruction whose other accesses are all of plain memory.
ghost use Rattle.std.specs.Prelude.{ℕ, ◌≡◌, ◌≤◌, ◌<◌, Some};
ghost use Rattle.cpu_alu.specs.Addresses.{place};
ghost use Rattle.cpu_alu.specs.Instructions.{bus_use};
ghost use Rattle.cpu_core.specs.Accesses.{row_at};
ghost use Rattle.cpu_whole.specs.Whole.{AreRead};
ghost use Rattle.cpu_whole.specs.Outside.{IsOutside, CanTakeIn, access_of, adds, outcome};

use crate::at_once::row_of;
use crate::known::known_at;
use crate::operations;
use crate::plain::Plain;
use crate::ways::find;
use cpu_alu::{BusUse, Cycle, Regs};
use op_table::{Mnemonic, Mode, Part, Row};

/// The last access of an instruction, and the facts that determine the registers after it.
#[derive(Clone, Copy, Debug, PartialEq, Eq)]
pub struct LastAccess {
    /// The cycles before the access, or 0 if nothing is known.
    pub cycles: u64,
    /// The address of the access.
    pub at: u16,
    /// The byte to write, if the access writes.
    pub value: Option<u8>,
    /// The instruction.
    pub mnemonic: Mnemonic,
    pub mode: Mode,
    pub bytes: u8,
}

impl LastAccess {
    /// Returns the access.
    #[inline(always)]
    pub fn access(&self) -> Cycle
        ensures { result ≡ access_of self.now }
    {
        match self.value {
            Some(byte) => Cycle::Write(self.at, byte),
            None => Cycle::Read(self.at),
        }
    }
}

const NONE: LastAccess = LastAccess {
    cycles: 0,
    at: 0,
    value: None,
    mnemonic: Mnemonic::Lda,
    mode: Mode::Abs,
    bytes: 3,
};

/// Returns true if an instruction adds or subtracts, so that it may take a cycle more.
#[inline(always)]
fn adds(mnemonic: Mnemonic) -> bool
    ensures { result ≡ adds mnemonic }
{
    match mnemonic {
        Mnemonic::Adc | Mnemonic::Sbc => true,
        _ => false,
    }
}

/// Finds the last access of an instruction that reads its operand.
#[inline(always)]
fn read_last<N, M: Plain<N>, L>(part: Part, row: Row, r: &Regs, memory: &M, first: u8) -> LastAccess
    requires runs { AreRead M.reach r.now.pc }
    requires first { first ≡ (M.reach).byte (M.state memory.now) (place r.now 1) }
    requires row { row_at part ((M.reach).byte (M.state memory.now) r.now.pc) ≡ Some row }
    requires uses { bus_use row.mnemonic ≡ BusUse.Reads }
    ensures outside { (t : ℕ) → 0 < result.cycles → IsOutside part M.reach t r.now (M.state memory.now) result }
    ensures few { result.cycles ≤ 5 }
{
    if adds(row.mnemonic) {
        return NONE;
    }
    let to = find::<N, M, L>(part, row.mode, false, r, memory, first);
    LastAccess {
        cycles: to.cycles,
        at: to.at,
        value: None,
        mnemonic: row.mnemonic,
        mode: row.mode,
        bytes: row.bytes,
    }
}

/// Finds the last access of an instruction that writes its operand.
#[inline(always)]
fn written_last<N, M: Plain<N>, L>(
    part: Part,
    row: Row,
    r: &Regs,
    memory: &M,
    first: u8,
) -> LastAccess
    requires runs { AreRead M.reach r.now.pc }
    requires first { first ≡ (M.reach).byte (M.state memory.now) (place r.now 1) }
    requires row { row_at part ((M.reach).byte (M.state memory.now) r.now.pc) ≡ Some row }
    requires uses { bus_use row.mnemonic ≡ BusUse.Stores }
    ensures outside { (t : ℕ) → 0 < result.cycles → IsOutside part M.reach t r.now (M.state memory.now) result }
    ensures few { result.cycles ≤ 5 }
{
    let to = find::<N, M, L>(part, row.mode, true, r, memory, first);
    LastAccess {
        cycles: to.cycles,
        at: to.at,
        value: Some(operations::stored(row.mnemonic, r)),
        mnemonic: row.mnemonic,
        mode: row.mode,
        bytes: row.bytes,
    }
}

/// Returns the last access of the instruction at PC. The instruction must read or write an operand
/// at a 16-bit address, and all its other accesses must be reads of plain memory. Returns 0 cycles
/// otherwise, and for a sum or a difference.
#[inline(always)]
pub fn last_access<N, M: Plain<N>, L>(part: Part, r: &Regs, memory: &M) -> LastAccess
    ensures outside { (t : ℕ) → 0 < result.cycles → IsOutside part M.reach t r.now (M.state memory.now) result }
    ensures few { result.cycles ≤ 5 }
{
    if !memory.runs(r.pc) {
        return NONE;
    }
    let op = memory.byte(r.pc);
    let known = known_at(part, op);
    match known.mode {
        Mode::Abs | Mode::AbsX | Mode::AbsY | Mode::IndX | Mode::IndY | Mode::IndZp => (),
        _ => return NONE,
    }
    let first = memory.byte(r.place(1));
    match known.uses {
        BusUse::Reads => read_last::<N, M, L>(part, row_of(part, op, known), r, memory, first),
        BusUse::Stores => written_last::<N, M, L>(part, row_of(part, op, known), r, memory, first),
        _ => NONE,
    }
}

/// Ends the instruction with the byte `byte`.
#[inline(always)]
pub fn take_in(part: Part, last: &LastAccess, r: &mut Regs, byte: u8)
    requires { CanTakeIn last.now }
    ensures { r.new ≡ outcome part last.now r.old byte }
{
    r.move_past(last.bytes);
    if last.value.is_none() {
        operations::read(part, last.mnemonic, last.mode, r, byte);
    }
}
