//! Waits of one side for the other: it spins, then parks.
use beeb_bits::{Side, Tick};
use std::hint;
use std::sync::Wait;
use tube_cell::{TubeCell, Waker};

// The number of polls of the waker before a side parks: some tenths of a millisecond. It is larger
// if the other side was signalled and has not disarmed its waker yet, since that side may be about
// to wake. Between polls the side does not yield its CPU to another thread: under load from other
// programs that would cost milliseconds.
const SPIN: u32 = 8_000;

const LONG_SPIN: u32 = 30_000;

// After `TOO_LONG` waits in succession that outlast the spin, both threads may share a CPU. The
// next `FEWEST_SKIPS` waits then park at once. If the first wait that spins again is too long too,
// twice as many park at once, up to `MOST_SKIPS`.
const TOO_LONG: u32 = 3;

const FEWEST_SKIPS: u32 = 8;

const MOST_SKIPS: u32 = 1_024;

/// The waits of one side between the tries of its steps.
#[derive(Drop)]
pub struct SpinThenPark {
    // The waker is armed.
    is_armed: bool,
    // The present wait outlasted its spin, and the number of waits in succession that did.
    is_long: bool,
    long: u32,
    // The number of waits to come that skip the spin, and the number set after the next wait that
    // is too long.
    skips: u32,
    next_skips: u32,
}

impl SpinThenPark {
    /// Makes the state of a side that has not waited yet.
    pub fn new() -> SpinThenPark {
        SpinThenPark {
            is_armed: false,
            is_long: false,
            long: 0,
            skips: 0,
            next_skips: FEWEST_SKIPS,
        }
    }

    /// Arms the waker for a step at tick `t`; on the next call spins, then parks, until the waker
    /// is signalled. The caller tries the step again after each call.
    pub fn rest<R: Wait>(&mut self, rt: &R, cell: &TubeCell, side: Side, t: Tick) {
        let waker = cell.waker(side);
        if self.is_armed {
            if self.skips > 0 || !is_signalled_within(waker, spin_of(cell, side)) {
                self.is_long = true;
                waker.sleep(rt);
            }
            waker.disarm();
        } else {
            waker.arm(t);
        }
        self.is_armed = !self.is_armed;
    }

    /// Ends the wait after the step is done. The next waits spin or park by the length of this one
    /// and the ones before.
    pub fn end(&mut self, cell: &TubeCell, side: Side) {
        if self.is_armed {
            cell.waker(side).disarm();
            self.is_armed = false;
        }
        if self.skips > 0 {
            self.skips -= 1;
        } else if self.is_long {
            self.long = self.long.saturating_add(1);
            if self.long >= TOO_LONG {
                self.skips = self.next_skips;
                self.next_skips = self.skips.saturating_mul(2).min(MOST_SKIPS);
            }
        } else {
            self.long = 0;
            self.next_skips = FEWEST_SKIPS;
        }
        self.is_long = false;
    }
}

// Returns the number of polls of the waker in one wait.
fn spin_of(cell: &TubeCell, side: Side) -> u32 {
    let other = match side {
        Side::Host => Side::Para,
        Side::Para => Side::Host,
    };
    if cell.waker(other).is_signalled() {
        LONG_SPIN
    } else {
        SPIN
    }
}

// Polls the waker up to `looks` times. Returns `true` if it was signalled.
fn is_signalled_within(waker: &Waker, looks: u32) -> bool {
    for _ in 0..looks {
        if waker.is_signalled() {
            return true;
        }
        hint::spin_loop();
    }
    false
}
