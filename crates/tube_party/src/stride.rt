//! The parasite's distance ahead of the host on one thread, and when it stays.
use beeb_bits::Tick;

// In ticks: the least and the most that the parasite speculates, and the least with which it also
// reads its status registers.
const FEWEST: u64 = 16;

const FURTHEST: u64 = 4_096;

const TRUSTED: u64 = 64;

// In ticks: the cost of a speculation that is rolled back, which is twice that of another, and the
// most credit.
const COST: u64 = 128;

const MOST_CREDIT: u64 = 1_024;

/// The length of the parasite's next speculation, and the credit of speculation. No promise depends
/// on them.
#[derive(Drop)]
pub(crate) struct Stride {
    ticks: u64,
    // The ticks gained by speculation, less their cost. It grows by one in each turn in which the
    // parasite stays, so that the parasite tries again.
    credit: u64,
    // The start of the last speculation.
    from: Tick,
}

impl Stride {
    pub(crate) fn new() -> Stride {
        Stride {
            ticks: FEWEST,
            credit: MOST_CREDIT,
            from: Tick(0),
        }
    }

    /// Returns `true` if speculation pays.
    pub(crate) fn pays(&self) -> bool {
        self.credit >= COST
    }

    /// Returns `true` if the parasite reads its status registers as it speculates.
    pub(crate) fn reads(&self) -> bool {
        self.ticks >= TRUSTED && self.pays()
    }

    /// Starts a speculation at tick `from`. Returns the tick of its end.
    pub(crate) fn set_out(&mut self, from: Tick) -> Tick {
        self.from = from;
        Tick(from.0.saturating_add(self.ticks))
    }

    /// Ends the parasite's turn. Its next speculation is longer, if speculation pays.
    pub(crate) fn grow(&mut self) {
        if self.pays() {
            self.ticks = self.ticks.saturating_add(self.ticks / 4).min(FURTHEST);
        }
    }

    /// Starts the parasite's turn at tick `at`. If it was ahead, it was not rolled back.
    pub(crate) fn take_turn(&mut self, is_ahead: bool, at: Tick) {
        if is_ahead {
            self.account(at, COST / 2);
        } else {
            self.credit = self.credit.saturating_add(1).min(MOST_CREDIT);
        }
    }

    /// Records that the parasite is rolled back, and runs again up to tick `at`.
    pub(crate) fn is_cut(&mut self, at: Tick) {
        self.ticks = (self.ticks / 8).max(FEWEST);
        self.account(at, COST);
    }

    // Adds the last speculation to the credit: it was valid up to tick `at`, and cost `cost` ticks.
    fn account(&mut self, at: Tick, cost: u64) {
        let gained = at.0.saturating_sub(self.from.0);
        let credit = self.credit.saturating_add(gained).min(MOST_CREDIT);
        self.credit = credit.saturating_sub(cost);
    }
}
