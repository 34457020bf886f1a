//! The NMOS 6502, one bus access at a time.
#![tactic(auto)]

ghost use Rattle.std.specs.Prelude.{◌≡◌, ℕ, ◌<◌};
ghost use Rattle.cpu6502.specs.Sequences.{TakesAtLeast, MayTakeJust};

use cpu_core::{Core, Nmos};
use op_table::Part;

/// An NMOS 6502, with the calls of `Core`. An opcode outside the 151 of the manual halts it until
/// `begin_reset`.
pub type Cpu = Core<Nmos>;

/// Returns the part.
pub fn part() -> Part
    ensures { result ≡ Part.Nmos }
{
    Cpu::part()
}

/// Proves a law and does no work: the instruction table's cycles are the fewest that an opcode ever
/// takes. More are taken only if a branch is taken, or if an indexed address or a branch crosses a
/// page.
pub fn cycles_of_the_table()
    ensures least { (op : ℕ) → op < 256 → TakesAtLeast op }
    ensures reached { (op : ℕ) → op < 256 → MayTakeJust op }
{
    cpu_core::cycles_of_the_table();
}
