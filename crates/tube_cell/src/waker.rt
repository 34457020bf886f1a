//! Lets a side sleep until the other side's exchange may admit its step.
use beeb_bits::Tick;
use crossbeam_utils::CachePadded;
use std::sync::Wait;
use std::sync::atomic::AtomicU64;
use std::sync::atomic::Ordering::SeqCst;

/// The waker of one side. A side that must wait arms it, tries its step once more, and then polls
/// only the waker, which shares no cache line with the cell. Each exchange of the other side that
/// may admit the step signals it. Nothing is proved of it: a side that is woken too early tries its
/// step and waits again.
#[derive(Drop)]
pub struct Waker {
    // 0: idle. `2t + 2`: awake, waiting for tick t. `2t + 3`: parked. `SIGNALLED`: signalled, until
    // disarmed.
    state: CachePadded<AtomicU64>,
}

const SIGNALLED: u64 = u64::MAX;

// Returns the state of a waker armed for a step at tick `t`, with the side awake. It is `PARKED`
// more if the side is parked.
fn armed(t: u64) -> u64 {
    t.saturating_mul(2).saturating_add(2)
}

const PARKED: u64 = 1;

impl Waker {
    pub(crate) fn new() -> Waker {
        Waker {
            state: CachePadded::new(AtomicU64::new(0)),
        }
    }

    /// Arms the waker for the side's step at tick `t`.
    pub fn arm(&self, t: Tick) {
        self.state.store(armed(t.0), SeqCst);
    }

    /// Disarms the waker: the side no longer waits.
    pub fn disarm(&self) {
        self.state.store(0, SeqCst);
    }

    /// Returns `true` if the waker was signalled and not disarmed since.
    pub fn is_signalled(&self) -> bool {
        self.state.load(SeqCst) == SIGNALLED
    }

    /// Parks until the waker is signalled. It must have been armed before the step was last tried.
    pub fn sleep<R: Wait>(&self, rt: &R) {
        for _ in rt.forever() {
            let state = self.state.load(SeqCst);
            if state == SIGNALLED {
                return;
            }
            if state & PARKED == 0 {
                // If the exchange fails, the waker was signalled.
                let _ = self
                    .state
                    .compare_exchange(state, state | PARKED, SeqCst, SeqCst);
            } else {
                self.state.park(rt, (state & 0xFFFF_FFFF) as u32);
            }
        }
    }

    /// Returns the tick of the step that waits, if the waker is armed.
    pub(crate) fn tick(&self) -> Option<u64> {
        let state = self.state.load(SeqCst);
        if state == 0 || state == SIGNALLED {
            return None;
        }
        Some((state / 2).saturating_sub(1))
    }

    /// Signals the waker if it is armed for a step at tick `t`, and wakes the side if it is parked.
    pub(crate) fn signal(&self, t: u64) {
        let awake = armed(t);
        if self
            .state
            .compare_exchange(awake, SIGNALLED, SeqCst, SeqCst)
            .is_ok()
        {
            return;
        }
        // The side may have parked since.
        if self
            .state
            .compare_exchange(awake | PARKED, SIGNALLED, SeqCst, SeqCst)
            .is_ok()
        {
            self.state.wake_one();
        }
    }
}
