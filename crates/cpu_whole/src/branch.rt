//! A branch that leads from given registers to others.
ghost use Rattle.std.specs.Prelude.{ℕ, ◌≡◌, ◌<◌, ◌≤◌, true};
ghost use Rattle.cpu_whole.specs.Whole.{IsDone};

use crate::alone::branch;
use crate::at_once::row_of;
use crate::known::known_at;
use crate::plain::Plain;
use cpu_alu::{BusUse, Regs};
use op_table::Part;

#[inline(always)]
fn are_same(a: &Regs, b: &Regs) -> bool
    ensures { result ≡ true → a.now ≡ b.now }
{
    a.pc == b.pc && a.a == b.a && a.x == b.x && a.y == b.y && a.s == b.s && a.p == b.p
}

/// Returns the number of cycles of the instruction at PC if it is a branch over plain memory that
/// leads from the registers `from` to `to`. Otherwise returns 0.
#[inline(always)]
pub fn branch_to<N, M: Plain<N>, L>(part: Part, from: &Regs, to: &Regs, memory: &M) -> u64
    ensures done { (t : ℕ) → 0 < result → IsDone part M.reach t from.now (M.state memory.now) result to.now (M.state memory.now) }
    ensures few { result ≤ 8 }
{
    if from.p != to.p || from.a != to.a || !memory.runs(from.pc) {
        return 0;
    }
    let op = memory.byte(from.pc);
    let known = known_at(part, op);
    match known.uses {
        BusUse::Branches => (),
        _ => return 0,
    }
    let first = memory.byte(from.place(1));
    let mut r = *from;
    let cycles = branch::<N, M, L>(part, row_of(part, op, known), &mut r, memory, first);
    if are_same(&r, to) { cycles } else { 0 }
}
