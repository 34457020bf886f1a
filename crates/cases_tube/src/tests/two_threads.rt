//! Two parties in two threads, compared with the same parties on one thread.
ghost use Rattle.std.specs.Prelude.{◌≡◌, ◌≤◌};
ghost use Rattle.tube_party.specs.Transitions.{PortRunToAnyAsk, shown_lines};
ghost use Rattle.cases_tube.specs.Talking.{heard_lines};

use super::steady::{Flag, flag};
use beeb_bits::Tick;
use beeb_files::{FailCrew, ThreadCrew};
use session::{PairError, Strides, run_pair, run_pair_by};
use std::alloc::{AllocError, Global};
use std::hint;
use std::sync::Arc;
use std::sync::atomic::Ordering;
use std::test::Fail;
use tube_chip::{Lines, Op};
use tube_party::{Answer, Ask, Done, MOST, Party, Rewinds, TubePort, solo};

/// A talker's next step: a look, or an access. All answers before decide its register.
#[derive(Clone, Copy, Debug, Drop, PartialEq, Eq)]
pub struct Talk {
    due: u64,
    // The ticks from its closed part to the next step.
    lag: u64,
    // The looks before the next access, and those between later ones.
    looks: u64,
    rest: u64,
    // It reads a status register at each access.
    polls: bool,
    writes: bool,
    heard: u8,
}

/// Does looks and an access in turn, one to four ticks apart, all decided by what it heard. Its
/// first advance may wait for another talker.
#[derive(Drop)]
pub struct Talker {
    talk: Talk,
    // The number of ticks that its notes hold, or `None` for any number.
    room: Option<u64>,
    meeting: Option<Meeting>,
}

/// The talker's state when it began to note, and the tick at which its notes are full.
#[derive(Drop)]
pub struct Notes {
    talk: Talk,
    full: u64,
}

// Returns what a look hears.
fn heard(lines: Lines) -> u8
    ensures { result ≡ heard_lines lines }
{
    let flags = if lines.prst { 16 } else { 0 }
        + if lines.pirq { 32 } else { 0 }
        + if lines.hirq { 64 } else { 0 };
    (lines.nmis % 8) as u8 + (lines.resets % 8) as u8 + flags
}

impl Party for Talker {
    ghost use Rattle.std.specs.Prelude.{◌+◌, ◌-◌, ◌%◌, not, true, false, Some, refl, if◌then◌else◌, ◌==◌};
    ghost use Rattle.std.proofs.Common.{arith};
    ghost use Rattle.tube_party.specs.Transitions.{MayAsk};
    ghost use Rattle.cases_tube.specs.declared.tests.two_threads.Talk.{Talk};
    ghost use Rattle.cases_tube.specs.Talking.{asks, may_ask, heard_after, looks_after, writes_after};

    ghost State = { Talk };

    ghost state = { λ m. m.talk };

    ghost transitions = { record {
      due = λ s. s.due;
      asks = λ s. Some (asks s.looks s.polls s.writes s.heard);
      next = λ s a. record {
        due = s.due + 1 + heard_after s.heard a % 4;
        lag = heard_after s.heard a % 4;
        looks = looks_after s.looks s.rest;
        rest = s.rest;
        polls = s.polls;
        writes = writes_after s.looks s.writes;
        heard = heard_after s.heard a;
      };
      closed = λ s. s.due - s.lag;
      close = λ s t. record s { lag = s.due - t };
    } };

    ghost plays = { λ side. true };

    ghost lawful = { record {
      rises = λ s a. omega arith;
      within = λ s. omega arith;
      closing = λ s t low high. record { closed = omega arith; due = refl; asks = refl; next = λ a. refl; again = λ u low2 high2. refl };
    } };

    ghost permitted = { λ s side plays. may_ask s.looks s.polls s.writes s.heard side };

    fn due(&self) -> Tick {
        Tick(self.talk.due)
    }

    fn advance(&mut self, until: Tick) -> Ask {
        if let Some(meeting) = self.meeting.take() {
            meeting.meet();
        }
        let talk = &mut self.talk;
        if talk.due >= until.0 {
            talk.lag = talk.lag.min(talk.due - until.0);
            return Ask::Nothing;
        }
        if talk.looks > 0 {
            return Ask::Look(Tick(talk.due));
        }
        let number = talk.heard % 8;
        let op = if talk.polls {
            Op::Read(talk.heard % 4 * 2)
        } else if talk.writes {
            Op::Write(number, talk.heard)
        } else {
            Op::Read(number)
        };
        Ask::Access(Tick(talk.due), op)
    }

    fn answer(&mut self, answer: Answer) {
        let talk = &mut self.talk;
        let byte = match answer {
            Answer::Byte(byte) => byte,
            Answer::Seen(lines) => heard(lines),
        };
        talk.heard = talk
            .heard
            .wrapping_mul(5)
            .wrapping_add(byte)
            .wrapping_add(1);
        if talk.looks > 0 {
            talk.looks -= 1;
        } else {
            talk.looks = talk.rest;
            talk.writes = !talk.writes;
        }
        talk.lag = (talk.heard % 4) as u64;
        talk.due += 1 + talk.lag;
    }
}

// Advances with the port's answers, and with looks that are safe and see these lines, both while
// they are below tick `full`.
fn go_below<M: Party, D: TubePort>(
    machine: &mut M,
    until: Tick,
    lines: &Lines,
    safe_until: Tick,
    full: Tick,
    port: &mut D,
) -> Ask
    requires { until.0 ≤ MOST }
    ensures { PortRunToAnyAsk M.transitions D.answers until.0 (shown_lines lines.now safe_until.0)
        (M.state machine.old) (D.state port.old) result (M.state machine.new) (D.state port.new) }
{
    let near = Tick(safe_until.0.min(full.0));
    loop {
        let ask = machine.advance_seeing(until, lines, near);
        let Ask::Access(tick, op) = ask else {
            return ask;
        };
        if full <= tick {
            return ask;
        }
        let Some(byte) = port.ask(tick, op) else {
            return ask;
        };
        machine.answer(Answer::Byte(byte));
    }
}

// It advances until its notes are full, and is rolled back by a copy of its state.
impl Rewinds for Talker {
    type Past = Notes;

    ghost before = { λ past m. record m { talk = past.talk } };

    fn past(_alloc: Global) -> Result<Notes, AllocError> {
        Ok(Notes {
            talk: first_talk(0, 0, 0),
            full: 0,
        })
    }

    fn advance_noting<D: TubePort>(
        &mut self,
        until: Tick,
        lines: &Lines,
        safe_until: Tick,
        past: &mut Notes,
        port: &mut D,
    ) -> Option<Ask> {
        past.talk = self.talk;
        past.full = match self.room {
            Some(room) => self.talk.due.saturating_add(room),
            None => u64::MAX,
        };
        Some(go_below(self, until, lines, safe_until, Tick(past.full), port))
    }

    fn advance_on<D: TubePort>(
        &mut self,
        _ask: Ask,
        until: Tick,
        lines: &Lines,
        safe_until: Tick,
        past: &mut Notes,
        port: &mut D,
    ) -> Ask {
        go_below(self, until, lines, safe_until, Tick(past.full), port)
    }

    fn rewind(&mut self, past: &mut Notes) {
        self.talk = past.talk;
    }
}

/// A meeting of two: each sets its flag and waits for the other's.
#[derive(Drop)]
pub struct Meeting {
    own: Flag,
    other: Flag,
    missed: Flag,
}

impl Meeting {
    fn meet(&self) {
        self.own.store(true, Ordering::SeqCst);
        for _ in 0..100_000_000u32 {
            if self.other.load(Ordering::SeqCst) {
                return;
            }
            hint::spin_loop();
        }
        self.missed.store(true, Ordering::SeqCst);
    }
}

// Returns a first step at this tick. Nothing is closed before it.
fn first_talk(due: u8, heard: u8, rest: u32) -> Talk
    ensures { result.lag ≡ result.due }
{
    Talk {
        due: due as u64,
        lag: due as u64,
        looks: 0,
        rest: rest as u64,
        polls: false,
        writes: true,
        heard,
    }
}

/// A talker's beginning: the tick of its first step, what it heard before, the number of looks
/// between two accesses, and the number of ticks that it can note.
type Start = (u8, u8, u32, Option<u8>);

// Makes a talker with this beginning.
fn at_start(start: Start, polls: bool, meeting: Option<Meeting>) -> Talker
    ensures { result.talk.lag ≡ result.talk.due }
{
    let (due, heard, rest, room) = start;
    let mut talk = first_talk(due, heard, rest);
    talk.polls = polls;
    Talker {
        talk,
        room: room.map(|ticks| ticks as u64),
        meeting,
    }
}

#[test]
fn two_parties_meet(rt: HostRuntime) -> Result<(), Fail> {
    let alloc = rt.alloc();
    let (mine, theirs, missed) = (flag(alloc)?, flag(alloc)?, flag(alloc)?);
    let host = Meeting {
        own: Arc::try_clone(&mine)?,
        other: Arc::try_clone(&theirs)?,
        missed: Arc::try_clone(&missed)?,
    };
    let para = Meeting {
        own: theirs,
        other: mine,
        missed: Arc::try_clone(&missed)?,
    };
    let mut crew = ThreadCrew::make();
    let (host, para) = (
        at_start((0, 0, 1, None), false, Some(host)),
        at_start((1, 0, 1, None), false, Some(para)),
    );
    let done = run_pair(&rt, alloc, &mut crew, host, para, Tick(9), 0);
    assert!(rt; done.is_ok());
    assert!(rt; !missed.load(Ordering::SeqCst));
    assert_eq!(rt; (crew.faults(), crew.pairs()), (0, 1));
    Ok(())
}

// Returns true if both did the same, and as many accesses are kept as were done, up to `keep`.
fn is_same(one: &Done<Talker, Talker>, two: &Done<Talker, Talker>, keep: u32) -> bool {
    let is_all_kept = two.host_list.len() as u64 == two.host_count.min(keep as u64);
    one.host.talk == two.host.talk
        && one.para.talk == two.para.talk
        && one.chip.pack() == two.chip.pack()
        && one.host_list == two.host_list
        && one.para_list == two.para_list
        && (one.host_count, one.para_count) == (two.host_count, two.para_count)
        && is_all_kept
}

// Strides with many publications and many rollbacks.
const TINY: Strides = Strides {
    first: 3,
    fewest: 1,
    most: 9,
    span: 40,
};

// A number of looks after which no access comes in the run.
const LONG: u32 = 1_000_000;

#[test]
fn two_threads_do_what_one_does(rt: HostRuntime) -> Result<(), Fail> {
    let alloc = rt.alloc();
    // The beginning of each side, true if the parasite polls, the ticks of the run, and the number
    // of accesses to keep.
    let rows: [(Start, Start, bool, u16, u32); 26] = [
        ((0, 0, 1, None), (0, 0, 1, None), false, 0, 9),
        ((0, 0, 1, None), (0, 0, 1, None), false, 1, 9),
        ((5, 1, 1, None), (5, 2, 1, None), false, 5, 9),
        ((0, 16, 1, None), (0, 200, 1, None), false, 1_200, 10_000),
        ((3, 77, 1, None), (2, 8, 1, None), false, 800, 0),
        ((9, 128, 1, None), (0, 129, 1, None), false, 800, 1),
        ((0, 255, 1, None), (250, 31, 1, None), false, 1_200, 100),
        ((250, 6, 1, None), (0, 11, 1, None), false, 4_000, 100_000),
        // The host does accesses only, and the parasite looks most of the time.
        ((0, 3, 0, None), (0, 9, 20, None), false, 601, 10_000),
        ((1, 40, 0, None), (0, 5, 200, None), false, 1_203, 10_000),
        ((0, 21, 3, None), (4, 250, 200, None), false, 800, 20),
        // The reverse.
        ((0, 3, 20, None), (0, 9, 0, None), false, 601, 10_000),
        ((1, 40, 200, None), (0, 5, 0, None), false, 1_203, 10_000),
        // Neither does much.
        ((2, 90, 200, None), (0, 33, 200, None), false, 4_001, 1_000),
        // The parasite can note little, or nothing.
        ((0, 3, 0, None), (0, 9, 20, Some(3)), false, 500, 10_000),
        ((0, 60, 20, None), (0, 7, 200, Some(3)), false, 700, 10_000),
        (
            (0, 60, 20, None),
            (0, 7, 200, Some(100)),
            false,
            700,
            10_000,
        ),
        ((0, 60, 20, None), (0, 7, 200, Some(0)), false, 700, 10_000),
        // After its first access it only looks, and the run ends within a stride.
        ((0, 200, 200, None), (0, 1, LONG, None), false, 9_173, 100),
        ((0, 8, LONG, None), (0, 100, LONG, None), false, 20_001, 100),
        // The parasite polls, while the host does an access now and then, or often, or none after
        // its first.
        ((0, 60, 20, None), (0, 7, 0, None), true, 1_200, 10_000),
        ((0, 60, 200, None), (1, 8, 3, None), true, 1_201, 1_000),
        ((3, 60, 0, None), (0, 9, 1, None), true, 601, 10_000),
        ((0, 8, LONG, None), (0, 3, 0, None), true, 9_173, 100),
        // It can note little of it, or nothing.
        ((0, 60, 20, None), (0, 7, 0, Some(5)), true, 500, 10),
        ((0, 60, 20, None), (0, 7, 2, Some(0)), true, 500, 10_000),
    ];
    for (k, (host, para, polls, ticks, keep)) in rows.into_iter().enumerate() {
        let n = Tick(ticks as u64);
        let (one_host, one_para) = (at_start(host, false, None), at_start(para, polls, None));
        let Ok(one) = solo(alloc, one_host, one_para, n, keep) else {
            return Err(Fail::from("no memory"));
        };
        let mut crew = ThreadCrew::make();
        let (host, para) = (at_start(host, false, None), at_start(para, polls, None));
        let Ok(two) = run_pair(&rt, alloc, &mut crew, host, para, n, keep) else {
            return Err(Fail::from("not run"));
        };
        assert!(rt; is_same(&one, &two, keep), "{k}");
        let (host, para) = (
            at_start(rows[k].0, false, None),
            at_start(rows[k].1, polls, None),
        );
        let Ok(two) = run_pair_by(&rt, alloc, &mut crew, host, para, n, keep, TINY) else {
            return Err(Fail::from("not run"));
        };
        assert!(rt; is_same(&one, &two, keep), "{k}, in tiny strides");
    }
    Ok(())
}

#[test]
fn without_a_thread_nothing_is_run(rt: HostRuntime) {
    let mut crew = FailCrew::make();
    let (host, para) = (
        at_start((0, 0, 1, None), false, None),
        at_start((0, 0, 1, None), false, None),
    );
    let refused = run_pair(&rt, rt.alloc(), &mut crew, host, para, Tick(1_000), 9);
    assert!(rt; matches!(refused, Err(PairError::NoThread)));
    assert_eq!(rt; (crew.faults(), crew.pairs()), (1, 0));
}
