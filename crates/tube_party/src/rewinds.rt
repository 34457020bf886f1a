//! A party that can be rolled back.
ghost use Rattle.std.specs.Prelude.{◌≡◌, ◌≤◌, MatchOption};
ghost use Rattle.tube_party.specs.Transitions.{PortRunToAnyAsk, shown_lines};
ghost use Rattle.tube_party.specs.Turn.{IsPending};

use crate::party::{Ask, MOST, Party};
use crate::port::TubePort;
use beeb_bits::Tick;
use std::alloc::{AllocError, Global};
use tube_chip::Lines;

/// A party that can speculate, and be rolled back.
///
/// A party that cannot be rolled back notes nothing: its `Past` is `()`, its `advance_noting`
/// returns `None`, and it never speculates. `Forward` makes such a party of any other.
pub trait Rewinds: Party {
    /// The notes with which it is rolled back.
    type Past: Drop;

    /// The party at the start of its notes, from the notes and the present party.
    ghost before: { Self.Past → Self → Self };

    /// Makes room for the notes.
    ///
    /// # Errors
    /// Out of memory.
    fn past(alloc: Global) -> Result<Self::Past, AllocError>;

    /// Starts notes at the present state, and runs as `advance_at` does, with `lines` at each look
    /// below `safe_until`; but it may stop at any look. Returns `None`, with party and port
    /// unchanged, if it cannot note its steps.
    fn advance_noting<D: TubePort>(
        &mut self,
        until: Tick,
        lines: &Lines,
        safe_until: Tick,
        past: &mut Self::Past,
        port: &mut D,
    ) -> Option<Ask>
        requires { until.0 ≤ MOST }
        ensures { let old = Self.state self.old in
            let new = Self.state self.new in
            let mark = Self.state (before past.new self.new) in
            MatchOption result ((new ≡ old) × (D.state port.new ≡ D.state port.old))
            (λ ask. PortRunToAnyAsk Self.transitions D.answers until.0 (shown_lines lines.now safe_until.0) old (D.state port.old) ask new (D.state port.new)
            × (mark ≡ old)) };

    /// Continues a noted run from `ask`, at which it stopped, and notes the further steps too. A
    /// rollback still leads to the start of the notes. It may stop at any look, and also at `ask`.
    fn advance_on<D: TubePort>(
        &mut self,
        ask: Ask,
        until: Tick,
        lines: &Lines,
        safe_until: Tick,
        past: &mut Self::Past,
        port: &mut D,
    ) -> Ask
        requires ticks { until.0 ≤ MOST }
        requires pending { IsPending Self.transitions until.0 (Self.state self.old) ask }
        ensures goes { PortRunToAnyAsk Self.transitions D.answers until.0 (shown_lines lines.now safe_until.0)
            (Self.state self.old) (D.state port.old) result (Self.state self.new) (D.state port.new) }
        ensures mark { Self.state (before past.new self.new) ≡ Self.state (before past.old self.old) }
    {
        ask
    }

    /// Rolls the party back to the start of its notes.
    fn rewind(&mut self, past: &mut Self::Past)
        ensures { Self.state self.new ≡ Self.state (before past.old self.old) };
}
