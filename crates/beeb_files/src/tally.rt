//! The counts of a crew.
ghost use Rattle.std.specs.Prelude.{◌≡◌};
ghost use Rattle.beeb_files.specs.Crew.{no_counts, with_fault, with_pair, Grows};

use std::marker::Model;

/// The faults, and the pairs of jobs that were worked. Each stays at its last value, 2^64 - 1.
#[derive(Drop)]
pub(crate) struct Tally {
    faults: u64,
    pairs: u64,
}

impl Model for Tally {
    ghost use Rattle.beeb_files.specs.Crew.{Counts};

    ghost Value = { Counts };

    ghost view = { λ t. record { faults = t.faults; pairs = t.pairs } };
}

impl Tally {
    /// Makes a tally with both counts 0.
    pub(crate) fn new() -> Tally
        ensures { result ≡ no_counts }
    {
        Tally {
            faults: 0,
            pairs: 0,
        }
    }

    pub(crate) fn faults(&self) -> u64
        ensures { result ≡ self.now.faults }
    {
        self.faults
    }

    pub(crate) fn pairs(&self) -> u64
        ensures { result ≡ self.now.pairs }
    {
        self.pairs
    }

    pub(crate) fn count_fault(&mut self)
        ensures counted { self.new ≡ with_fault self.old }
        ensures grows { Grows self.old self.new }
    {
        self.faults = self.faults.saturating_add(1);
    }

    pub(crate) fn count_pair(&mut self)
        ensures counted { self.new ≡ with_pair self.old }
        ensures grows { Grows self.old self.new }
    {
        self.pairs = self.pairs.saturating_add(1);
    }
}
