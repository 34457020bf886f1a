//! The bytes that the cycles of a sequence showed. Only contracts see a trail: it takes no memory,
//! and its methods do nothing at run time. The invariant of `Core` ties it to the progress.
ghost use Rattle.std.specs.Prelude.{◌≡◌};
ghost use Rattle.std.specs.Borrow.{ftrue};
ghost use Rattle.cpu_core.specs.State.{State};
ghost use Rattle.cpu_core.specs.CodeState.{state_coded};

use crate::Sequence;
use cpu_alu::Regs;
use op_table::Part;
use std::marker::Model;

/// The processor's state as contracts see it.
#[derive(Drop)]
pub(crate) struct Trail {
    pub ghost state: { State } by { state_coded },
}

impl Model for Trail {
    ghost also_owns = { λ _. ftrue };
}

// A trail owns nothing.
unsafe impl Send for Trail {}

/// An event of the processor.
#[derive(Clone, Copy, Drop)]
pub(crate) enum Turn {
    /// A sequence begins with the given registers.
    Begins(Sequence, Regs),
    /// A cycle is done, with the byte that was read.
    Given(Part, u8),
    /// Nothing happens.
    Rests,
}

impl Trail {
    ghost use Rattle.cpu_core.specs.Sequences.{power_on};
    ghost use Rattle.cpu_core.specs.CodeTurns.{after_turn};

    /// Makes the trail at power-on.
    pub(crate) fn new() -> Trail
        ensures { result.state ≡ power_on }
    {
        Trail {}
    }

    /// Returns the trail after one more turn.
    #[inline(always)]
    pub(crate) fn after(&self, _turn: &Turn) -> Trail
        ensures { result.state ≡ after_turn self.now.state _turn.now }
    {
        Trail {}
    }
}
