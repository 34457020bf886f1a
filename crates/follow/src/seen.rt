//! A party whose processor can be inspected.
ghost use Rattle.std.specs.Prelude.{ℕ, ◌≡◌, ◌≤◌, Bool, true};
ghost use Rattle.tube_party.specs.Transitions.{Transitions, IsPermitted, shown_lines};
ghost use Rattle.tube_machine.specs.SkipWhile.{IsSkipped, Passes};
ghost use Rattle.follow.specs.Sight.{Sight, IsSeen, IsSame};

use beeb_bits::Tick;
use cpu_alu::Regs;
use tube_chip::Lines;
use tube_machine::SkipWhile;
use tube_party::{MOST, Party};

/// A party whose processor can be inspected. Each view is a function of the party's state, and
/// closing the party leaves it as it is. The trait names the state and the steps once more, since
/// its members cannot name the types of its supertrait.
pub trait Seen: Party {
    /// The party's state, as contracts see it.
    ghost Inside: { Type 0 };

    ghost inside: { Self → Inside };

    /// The party's steps.
    ghost steps: { Transitions Inside };

    /// The view of a state.
    ghost sights: { Inside → Sight };

    /// Returns the registers at the start of the instruction, reset or interrupt to which the next
    /// step belongs.
    fn regs(&self) -> Regs
        ensures { result ≡ (sights (inside self.now)).regs };

    /// Returns true if the next step is the first cycle of an instruction.
    fn starting(&self) -> bool
        ensures { result ≡ (sights (inside self.now)).starting };

    /// Returns the byte that a read of address `at` would give now, or `None` if a device answers
    /// there.
    fn peek(&self, at: u16) -> Option<u8>
        ensures { result ≡ (sights (inside self.now)).peek at };

    /// Runs instructions whose starts `skip` leaves out. Their looks see `lines`, and come before
    /// both `until` and `safe_until`. It may stop at any start.
    fn skip_while(&mut self, until: Tick, lines: &Lines, safe_until: Tick, skip: SkipWhile)
        requires { until.0 ≤ MOST }
        ensures { let old = inside self.old in
            let new = inside self.new in
            (k : ℕ) × Passes steps (λ s. IsSkipped skip (steps.due s) (sights s).regs.pc (sights s).peek) until.0 (shown_lines lines.now safe_until.0) k old new };

    ghost seen: { IsSeen steps sights };

    ghost same: { IsSame Self.state Self.transitions inside steps };

    ghost may_ask: { IsPermitted steps Self.plays };
}
