//! A crew that works each pair in two threads.
ghost use Rattle.std.specs.Prelude.{◌≡◌, true, false};
ghost use Rattle.beeb_files.specs.Counts.{Rose};
ghost use Rattle.beeb_files.specs.Crew.{no_counts, with_fault, with_pair, Grows};

use crate::crew::{Crew, Pairing};
use crate::tally::Tally;
use std::marker::Model;

/// A crew that works the first job of each pair in a thread of its own and the second in the
/// caller's. The crew counts the threads that could not be started, and the pairs that were worked.
#[derive(Drop)]
pub struct ThreadCrew {
    tally: Tally,
}

impl Model for ThreadCrew {
    ghost use Rattle.beeb_files.specs.Crew.{Counts};

    ghost Value = { Counts };

    ghost view = { λ c. c.tally };
}

impl ThreadCrew {
    /// Makes a crew that has counted nothing.
    pub fn make() -> ThreadCrew
        ensures { result ≡ no_counts }
    {
        ThreadCrew {
            tally: Tally::new(),
        }
    }

    /// Returns the number of threads that could not be started.
    pub fn faults(&self) -> u64
        ensures { result ≡ self.now.faults }
    {
        self.tally.faults()
    }

    /// Returns the number of pairs that were worked.
    pub fn pairs(&self) -> u64
        ensures { result ≡ self.now.pairs }
    {
        self.tally.pairs()
    }
}

impl Crew for ThreadCrew {
    ghost counts = { λ c. c };

    ghost refuses = { λ _. false };

    fn starts(&mut self, _call: &Pairing) -> bool
        ensures asked { result ≡ true }
        ensures refused { result ≡ false → Rose self.old.faults self.new.faults }
        ensures grows { Grows self.old self.new }
        ensures same { self.new ≡ self.old }
    {
        true
    }

    fn count_fault(&mut self, _call: &Pairing)
        ensures rose { Rose self.old.faults self.new.faults }
        ensures grows { Grows self.old self.new }
        ensures counted { self.new ≡ with_fault self.old }
    {
        self.tally.count_fault();
    }

    fn count_pair(&mut self, _call: &Pairing)
        ensures rose { Rose self.old.pairs self.new.pairs }
        ensures grows { Grows self.old self.new }
        ensures counted { self.new ≡ with_pair self.old }
    {
        self.tally.count_pair();
    }
}
