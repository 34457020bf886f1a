//! Chooses the starts of instructions that are listed, and those that are counted.
ghost use Rattle.std.specs.Prelude.{◌≡◌};
ghost use Rattle.follow.specs.Listing.{is_at, is_in, is_same_byte, has_changed, is_chosen};
ghost use Rattle.follow.specs.Counts.{is_counted};

use crate::points::Points;

/// The starts of instructions that are listed: those at tick `from` or later that meet each
/// condition that is given. `at`: the program counter is `at`. `points`: the program counter is one
/// of these addresses. `watch`: the byte at address `watch` differs from its value at the start
/// before, listed or not. If `counts` is set, all starts at tick `from` or later are counted,
/// listed or not.
#[derive(Drop)]
pub struct Choice {
    pub from: u64,
    pub at: Option<u16>,
    pub points: Option<Points>,
    pub watch: Option<u16>,
    pub counts: bool,
}

#[inline(always)]
fn is_at(at: Option<u16>, pc: u16) -> bool
    ensures { result ≡ is_at at pc }
{
    match at {
        None => true,
        Some(at) => at == pc,
    }
}

#[inline(always)]
fn is_in(points: &Option<Points>, pc: u16) -> bool
    ensures { result ≡ is_in points.now pc }
{
    match points {
        None => true,
        Some(points) => points.has(pc),
    }
}

#[inline(always)]
fn is_same_byte(one: Option<u8>, other: Option<u8>) -> bool
    ensures { result ≡ is_same_byte one other }
{
    match (one, other) {
        (None, None) => true,
        (Some(a), Some(b)) => a == b,
        _ => false,
    }
}

#[inline(always)]
fn has_changed(watch: Option<u16>, before: Option<Option<u8>>, now: Option<u8>) -> bool
    ensures { result ≡ has_changed watch before now }
{
    if watch.is_none() {
        return true;
    }
    match before {
        None => false,
        Some(before) => !is_same_byte(before, now),
    }
}

impl Choice {
    /// Returns true if a start at tick `tick` and address `pc`, with watched byte `watched`, is
    /// listed. `before` is the byte that was watched at the start before.
    #[inline(always)]
    pub(crate) fn chooses(
        &self,
        before: Option<Option<u8>>,
        tick: u64,
        pc: u16,
        watched: Option<u8>,
    ) -> bool
        ensures { result ≡ is_chosen self.now before tick pc watched }
    {
        self.from <= tick
            && is_at(self.at, pc)
            && is_in(&self.points, pc)
            && has_changed(self.watch, before, watched)
    }

    /// Returns true if a start at tick `tick` is counted.
    #[inline(always)]
    pub(crate) fn counts_at(&self, tick: u64) -> bool
        ensures { result ≡ is_counted self.now tick }
    {
        self.counts && self.from <= tick
    }
}
