//! The 65C02, one bus access at a time.
#![tactic(auto)]

ghost use Rattle.std.specs.Prelude.{◌≡◌, ℕ, ◌<◌};
ghost use Rattle.cpu65c02.specs.Sequences.{TakesAtLeast, MayTakeJust};

use cpu_core::{Cmos, Core};
use op_table::Part;

/// A 65C02, with the calls of `Core`.
pub type Cpu = Core<Cmos>;

/// Returns the part.
pub fn part() -> Part
    ensures { result ≡ Part.Cmos }
{
    Cpu::part()
}

/// Proves a law and does no work: the instruction table's cycles are the fewest that an opcode ever
/// takes. More are taken only if a branch is taken, if an indexed address or a branch crosses a
/// page, or in decimal mode.
pub fn cycles_of_the_table()
    ensures least { (op : ℕ) → op < 256 → TakesAtLeast op }
    ensures reached { (op : ℕ) → op < 256 → MayTakeJust op }
{
    cpu_core::cycles_of_the_table();
}
