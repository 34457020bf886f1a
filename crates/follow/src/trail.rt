//! Lists of starts that only contracts see: they take no memory, and their methods do nothing at
//! run time.
ghost use Rattle.std.specs.Prelude.{◌≡◌, List, [], ◌∷◌, ◌++◌};
ghost use Rattle.std.specs.Borrow.{ftrue};
ghost use Rattle.follow.specs.Start.{StartState};
ghost use Rattle.follow.specs.CodeTrail.{starts_coded};

use crate::start::Start;
use std::marker::Model;

/// The starts, in order.
#[derive(Drop)]
pub(crate) struct Trail {
    pub ghost starts: { List StartState } by { starts_coded },
}

impl Model for Trail {
    ghost also_owns = { λ _. ftrue };
}

impl Trail {
    ghost use Rattle.follow.specs.CodeStart.{start_seen};

    /// Returns the empty list.
    pub(crate) fn new() -> Trail
        ensures { result.starts ≡ [] }
    {
        Trail {}
    }

    /// Returns the list with `start` appended.
    #[inline(always)]
    pub(crate) fn after(&self, _start: &Start) -> Trail
        ensures { result.starts ≡ self.now.starts ++ start_seen _start.now ∷ [] }
    {
        Trail {}
    }
}
