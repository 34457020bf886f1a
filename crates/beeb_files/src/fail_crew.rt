//! A crew that refuses every pair.
ghost use Rattle.std.specs.Prelude.{◌≡◌, true, false};
ghost use Rattle.beeb_files.specs.Counts.{Rose};
ghost use Rattle.beeb_files.specs.Crew.{no_counts, with_fault, with_pair, Grows};

use crate::crew::{Crew, Pairing};
use crate::tally::Tally;
use std::marker::Model;

/// A crew that refuses every pair, and counts each as a fault.
#[derive(Drop)]
pub struct FailCrew {
    tally: Tally,
}

impl Model for FailCrew {
    ghost use Rattle.beeb_files.specs.Crew.{Counts};

    ghost Value = { Counts };

    ghost view = { λ c. c.tally };
}

impl FailCrew {
    /// Makes a crew that has counted nothing.
    pub fn make() -> FailCrew
        ensures { result ≡ no_counts }
    {
        FailCrew {
            tally: Tally::new(),
        }
    }

    /// Returns the number of pairs that were refused.
    pub fn faults(&self) -> u64
        ensures { result ≡ self.now.faults }
    {
        self.tally.faults()
    }

    /// Returns the number of pairs that were worked, which is 0.
    pub fn pairs(&self) -> u64
        ensures { result ≡ self.now.pairs }
    {
        self.tally.pairs()
    }
}

impl Crew for FailCrew {
    ghost counts = { λ c. c };

    ghost refuses = { λ _. true };

    fn starts(&mut self, call: &Pairing) -> bool
        ensures asked { result ≡ false }
        ensures refused { Rose self.old.faults self.new.faults }
        ensures grows { Grows self.old self.new }
        ensures counted { self.new ≡ with_fault self.old }
    {
        self.count_fault(call);
        false
    }

    fn count_fault(&mut self, _call: &Pairing)
        ensures rose { Rose self.old.faults self.new.faults }
        ensures grows { Grows self.old self.new }
        ensures counted { self.new ≡ with_fault self.old }
    {
        self.tally.count_fault();
    }

    fn count_pair(&mut self, _call: &Pairing)
        ensures rose { Rose self.old.pairs self.new.pairs }
        ensures grows { Grows self.old self.new }
        ensures counted { self.new ≡ with_pair self.old }
    {
        self.tally.count_pair();
    }
}
