//! The second processor publishes its speculation once for each stride, for any number of reads of
//! status registers in it.
ghost use Rattle.std.specs.Prelude.{◌≡◌, ◌≤◌, ◌^◌, []};
ghost use Rattle.beeb_bits.specs.declared.Side.TheVariants.{Para};
ghost use Rattle.tube_cell.specs.Passes.{own_horizon};

use super::shared_cell::end;
use beeb_bits::Tick;
use crossbeam_utils::Backoff;
use session::{Half, Strides, drive_ahead};
use std::alloc::{AllocError, Global};
use std::sync::atomic::{AtomicU64, Ordering};
use std::sync::{Arc, Wait};
use std::test::Fail;
use std::thread::{Threads, join};
use tube_cell::{Pass, TubeCell, Whole};
use tube_chip::{Lines, Op};
use tube_party::{Answer, Ask, Log, Party, Rewinds, TubePort};

/// The end of the run.
const END: u64 = 500;

// From tick 0 on the strides end at 128 and 384, and the last at the end of the run.
const DOUBLING: Strides = Strides {
    first: 128,
    fewest: 64,
    most: 2_048,
    span: 65_536,
};

// The number of turns after which a waiting side gives up, and the test fails.
const TURNS: u64 = 10_000_000;

type Count = Arc<AtomicU64, Global>;

fn count(alloc: Global) -> Result<Count, AllocError> {
    Ok(Arc::new(alloc, AtomicU64::new(0))?)
}

/// Reads its first status register at tick `due` and every two ticks, after `looks` looks. Before
/// each step it waits until the other side has looked at the cell.
#[derive(Drop)]
pub struct Poller {
    due: u64,
    // The ticks from its closed part to the next step.
    lag: u64,
    looks: u64,
    // The number of steps that it has reached, and the number of those after which the other side
    // has looked.
    steps: Count,
    seen: Count,
}

/// The poller's state when it began to note.
#[derive(Drop)]
pub struct Begun {
    due: u64,
    lag: u64,
    looks: u64,
}

impl Poller {
    fn is_seen(&self) {
        let step = self.steps.load(Ordering::SeqCst).wrapping_add(1);
        self.steps.store(step, Ordering::SeqCst);
        let backoff = Backoff::new();
        for _ in 0..TURNS {
            if self.seen.load(Ordering::SeqCst) == step {
                return;
            }
            backoff.snooze();
        }
    }
}

impl Party for Poller {
    ghost use Rattle.std.specs.Prelude.{ℕ, ◌+◌, ◌-◌, Some, true, false, refl};
    ghost use Rattle.std.proofs.Common.{arith};
    ghost use Rattle.tube_party.specs.Transitions.{MayAsk};
    ghost use Rattle.cases_tube.specs.Steady.{Polling};
    ghost use Rattle.cases_tube.specs.Talking.{asks, may_ask, looks_after};

    ghost State = { Polling };

    ghost state = { λ m. record { due = m.due; lag = m.lag; looks = m.looks } };

    ghost transitions = { record {
      due = λ s. s.due;
      asks = λ s. Some (asks s.looks true false 0);
      next = λ s a. record { due = s.due + 2; lag = 1; looks = looks_after s.looks 0 };
      closed = λ s. s.due - s.lag;
      close = λ s t. record s { lag = s.due - t };
    } };

    ghost plays = { λ side. true };

    ghost lawful = { record {
      rises = λ s a. omega arith;
      within = λ s. omega arith;
      closing = λ s t low high. record { closed = omega arith; due = refl; asks = refl; next = λ a. refl; again = λ u low2 high2. refl };
    } };

    ghost permitted = { λ s side plays. may_ask s.looks true false 0 side };

    fn due(&self) -> Tick {
        Tick(self.due)
    }

    fn advance(&mut self, until: Tick) -> Ask {
        self.is_seen();
        if self.due >= until.0 {
            self.lag = self.lag.min(self.due - until.0);
            return Ask::Nothing;
        }
        if self.looks > 0 {
            return Ask::Look(Tick(self.due));
        }
        Ask::Access(Tick(self.due), Op::Read(0))
    }

    fn answer(&mut self, _answer: Answer) {
        self.lag = 1;
        self.due += 2;
        if self.looks > 0 {
            self.looks -= 1;
        }
    }
}

impl Rewinds for Poller {
    type Past = Begun;

    ghost before = { λ past m. record m { due = past.due; lag = past.lag; looks = past.looks } };

    fn past(_alloc: Global) -> Result<Begun, AllocError> {
        Ok(Begun {
            due: 0,
            lag: 0,
            looks: 0,
        })
    }

    fn advance_noting<D: TubePort>(
        &mut self,
        until: Tick,
        lines: &Lines,
        safe_until: Tick,
        past: &mut Begun,
        port: &mut D,
    ) -> Option<Ask> {
        past.due = self.due;
        past.lag = self.lag;
        past.looks = self.looks;
        Some(self.advance_at(until, lines, safe_until, port))
    }

    fn advance_on<D: TubePort>(
        &mut self,
        _ask: Ask,
        until: Tick,
        lines: &Lines,
        safe_until: Tick,
        _past: &mut Begun,
        port: &mut D,
    ) -> Ask {
        self.advance_at(until, lines, safe_until, port)
    }

    fn rewind(&mut self, past: &mut Begun) {
        self.due = past.due;
        self.lag = past.lag;
        self.looks = past.looks;
    }
}

// Looks at the speculative horizon after each of the other side's steps, until it is at the end of
// the run. Returns the number of its changes.
fn changes<R: Wait>(rt: &R, cell: &TubeCell, pass: &mut Pass, steps: &Count, seen: &Count) -> u32
    requires cell { pass.old.cell ≡ cell.now }
    requires published { (pass.old.ahead ≡ []) × (pass.old.speculative ≡ []) }
    requires later { own_horizon pass.old ≤ 2 ^ 30 }
    ensures same { (pass.new.cell ≡ pass.old.cell) × (pass.new.ahead ≡ []) × (pass.new.speculative ≡ []) }
    ensures later { own_horizon pass.new ≤ 2 ^ 30 }
{
    let backoff = Backoff::new();
    let mut spec_horizon = 0;
    let mut changes = 0u32;
    for _ in 0..TURNS {
        let step = steps.load(Ordering::SeqCst);
        cell.learn(rt, pass);
        let found = cell.spec_horizon(pass).0;
        if found != spec_horizon {
            spec_horizon = found;
            changes = changes.saturating_add(1);
        }
        seen.store(step, Ordering::SeqCst);
        if found >= END {
            return changes;
        }
        backoff.snooze();
    }
    changes
}

// Runs the host's side: it looks, and at last lets the other continue. Returns the number of
// changes.
fn look_on<R: Wait>(rt: &R, cell: &TubeCell, pass: Pass, steps: Count, seen: Count) -> u32
    requires cell { pass.cell ≡ cell.now }
    requires published { (pass.ahead ≡ []) × (pass.speculative ≡ []) }
    requires later { own_horizon pass ≤ 0 }
{
    let mut pass = pass;
    let changes = changes(rt, cell, &mut pass, &steps, &seen);
    end(rt, cell, &mut pass);
    changes
}

// Runs the parasite's side. Returns the number of its accesses.
fn go_ahead<R: Wait>(
    rt: &R,
    alloc: Global,
    cell: &TubeCell,
    pass: Pass,
    steps: Count,
    seen: Count,
) -> Result<u64, AllocError>
    requires cell { pass.cell ≡ cell.now }
    requires side { pass.side ≡ Para }
    requires published { (pass.ahead ≡ []) × (pass.speculative ≡ []) }
    requires later { own_horizon pass ≤ 0 }
{
    let mut past = Begun {
        due: 0,
        lag: 0,
        looks: 0,
    };
    let mut half = Half {
        machine: Poller {
            due: 0,
            lag: 0,
            looks: 0,
            steps,
            seen,
        },
        pass,
        log: Log::new(alloc, 0)?,
    };
    drive_ahead(rt, cell, &mut half, &mut past, Tick(END), DOUBLING);
    Ok(half.log.count)
}

// Runs both sides in threads of their own. Returns the number of changes of the speculative
// horizon, and of reads.
fn pair<R: Threads + Wait + Sync>(
    rt: &R,
    alloc: Global,
    cell: &TubeCell,
    whole: Whole,
) -> Result<(u32, u64), AllocError>
    requires { whole ≡ cell.now }
{
    let (steps, seen) = (count(alloc)?, count(alloc)?);
    let (steps_too, seen_too) = (Arc::try_clone(&steps)?, Arc::try_clone(&seen)?);
    let (host, para) = cell.split(rt, whole);
    let (changes, reads) = join(
        rt,
        move || -> u32
            requires cell { host.cell ≡ cell.now }
            requires published { (host.ahead ≡ []) × (host.speculative ≡ []) }
            requires later { own_horizon host ≤ 0 }
        { look_on(rt, cell, host, steps, seen) },
        move || -> Result<u64, AllocError>
            requires cell { para.cell ≡ cell.now }
            requires side { para.side ≡ Para }
            requires published { (para.ahead ≡ []) × (para.speculative ≡ []) }
            requires later { own_horizon para ≤ 0 }
        { go_ahead(rt, alloc, cell, para, steps_too, seen_too) },
    );
    Ok((changes, reads?))
}

#[test]
fn reads_ahead_are_told_stride_by_stride(rt: HostRuntime) -> Result<(), Fail> {
    let Ok((cell, whole)) = TubeCell::make(rt.alloc()) else {
        return Err(Fail::from("no memory"));
    };
    assert_eq!(rt; pair(&rt, rt.alloc(), &cell, whole)?, (3, 250));
    Ok(())
}
