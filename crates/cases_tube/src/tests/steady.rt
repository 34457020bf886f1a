//! Two parties with accesses only. Each must be asked for the tick up to which it is quiet.
ghost use Rattle.std.specs.Prelude.{◌≡◌};

use beeb_bits::Tick;
use beeb_files::ThreadCrew;
use session::{Half, drive, run_pair};
use std::alloc::{AllocError, Global};
use std::sync::Arc;
use std::sync::atomic::{AtomicBool, Ordering};
use std::test::Fail;
use tube_cell::TubeCell;
use tube_chip::Op;
use tube_party::{Answer, Ask, Forward, Log, Party};

pub type Flag = Arc<AtomicBool, Global>;

pub fn flag(alloc: Global) -> Result<Flag, AllocError> {
    Ok(Arc::new(alloc, AtomicBool::new(false))?)
}

/// Reads register 1 at tick `due` and every six ticks. Sets its flag when it is asked for its quiet
/// tick.
#[derive(Drop)]
pub struct Steady {
    due: u64,
    // The ticks from its closed part to the next step.
    lag: u64,
    asked: Flag,
}

impl Party for Steady {
    ghost use Rattle.std.specs.Prelude.{ℕ, ◌+◌, ◌-◌, Some, true, refl};
    ghost use Rattle.std.proofs.Common.{arith};
    ghost use Rattle.tube_party.specs.Transitions.{MayAsk};
    ghost use Rattle.tube_party.specs.Quiet.{quiet_at_due};
    ghost use Rattle.tube_chip.specs.declared.Op.TheVariants as op;
    ghost use Rattle.tube_chip.specs.Act.{access};
    ghost use Rattle.cases_tube.specs.Steady.{SideAndLog};

    ghost State = { SideAndLog };

    ghost state = { λ m. record { due = m.due; lag = m.lag } };

    ghost transitions = { record {
      due = λ s. s.due;
      asks = λ s. Some (access (op.Read 1));
      next = λ s a. record { due = s.due + 6; lag = 5 };
      closed = λ s. s.due - s.lag;
      close = λ s t. record s { lag = s.due - t };
    } };

    ghost plays = { λ side. true };

    ghost lawful = { record {
      rises = λ s a. omega arith;
      within = λ s. omega arith;
      closing = λ s t low high. record { closed = omega arith; due = refl; asks = refl; next = λ a. refl; again = λ u low2 high2. refl };
    } };

    ghost permitted = { λ s side plays. omega arith };

    fn due(&self) -> Tick {
        Tick(self.due)
    }

    fn quiet(&self) -> Tick {
        self.asked.store(true, Ordering::SeqCst);
        Tick(self.due)
    }

    fn advance(&mut self, until: Tick) -> Ask {
        if self.due < until.0 {
            return Ask::Access(Tick(self.due), Op::Read(1));
        }
        self.lag = self.lag.min(self.due - until.0);
        Ask::Nothing
    }

    fn answer(&mut self, _answer: Answer) {
        self.lag = 5;
        self.due += 6;
    }
}

fn begins_at(due: u8, asked: Flag) -> Steady
    ensures { result.lag ≡ result.due }
{
    Steady {
        due: due as u64,
        lag: due as u64,
        asked,
    }
}

#[test]
fn quiet_is_asked(rt: HostRuntime) -> Result<(), Fail> {
    let alloc = rt.alloc();
    let (host_asked, para_asked) = (flag(alloc)?, flag(alloc)?);
    let host = begins_at(0, Arc::try_clone(&host_asked)?);
    let para = Forward {
        party: begins_at(3, Arc::try_clone(&para_asked)?),
    };
    let mut crew = ThreadCrew::make();
    let Ok(done) = run_pair(&rt, alloc, &mut crew, host, para, Tick(600), 0) else {
        return Err(Fail::from("not run"));
    };
    assert_eq!(rt; (done.host_count, done.para_count), (100, 100));
    assert!(rt; host_asked.load(Ordering::SeqCst));
    assert!(rt; para_asked.load(Ordering::SeqCst));
    Ok(())
}

#[test]
fn a_side_alone_comes_to_its_end(rt: HostRuntime) -> Result<(), Fail> {
    let alloc = rt.alloc();
    let Ok((cell, whole)) = TubeCell::make(alloc) else {
        return Err(Fail::from("no memory"));
    };
    let (host, mut para) = cell.split(&rt, whole);
    assert!(rt; cell.raise(&rt, &mut para, Tick(1_000)));
    let mut half = Half {
        machine: begins_at(0, flag(alloc)?),
        pass: host,
        log: Log::new(alloc, 100)?,
    };
    drive(&rt, &cell, &mut half, Tick(600));
    assert_eq!(rt; (half.log.list.len(), half.log.count), (100, 100));
    for (k, entry) in half.log.list.iter().enumerate() {
        assert_eq!(rt; entry.tick.0, 6 * k as u64);
    }
    assert_eq!(rt; half.machine.due, 600);
    Ok(())
}
