//! The cell by its calls, on one thread and on two.
ghost use Rattle.std.specs.Prelude.{◌≡◌, ◌+◌, ◌*◌, ◌<◌, ◌≤◌, ◌^◌, [], IfSome, IfNone};
ghost use Rattle.beeb_bits.specs.declared.Side.TheVariants.{Host, Para};
ghost use Rattle.tube_chip.specs.Act.{MayDo};
ghost use Rattle.tube_cell.specs.Views.{admits};
ghost use Rattle.tube_cell.specs.Passes.{own_horizon};

use beeb_bits::{Side, Tick};
use crossbeam_utils::Backoff;
use std::alloc::Global;
use std::sync::Wait;
use std::thread::{Threads, join};
use tube_cell::{Pass, TubeCell, Whole};
use tube_chip::{Chip, Lines, Op};
use tube_trace::{first_wrong, read};

const IDLE: Lines = Lines {
    prst: false,
    resets: 0,
    nmis: 0,
    pirq: false,
    hirq: false,
};

#[test]
fn horizons_are_raised_and_learnt(rt: HostRuntime) {
    let (cell, whole) = TubeCell::make(rt.alloc()).expect(&rt, "ample memory");
    let (mut host, mut para) = cell.split(&rt, whole);
    assert_eq!(rt; cell.look(&rt, &mut para, Tick(0)), None);
    assert!(rt; cell.raise(&rt, &mut host, Tick(1)));
    assert_eq!(rt; cell.look(&rt, &mut para, Tick(0)), Some(IDLE));
    assert!(rt; cell.raise(&rt, &mut para, Tick(1)));
    assert!(rt; !cell.raise(&rt, &mut host, Tick(2)));
    assert!(rt; cell.raise(&rt, &mut host, Tick(2)));
    assert_eq!(rt; cell.other(&para), Tick(1));
    cell.learn(&rt, &mut para);
    assert_eq!(rt; cell.other(&para), Tick(2));
    assert_eq!(rt; (host.side(), para.side()), (Side::Host, Side::Para));
    assert_eq!(rt; cell.join(&rt, host, para).lines(), IDLE);
}

// Returns true if the other side's horizon admits a side at this tick.
fn is_admitted(side: Side, horizon: u64, tick: u64) -> bool
    ensures { result ≡ admits side horizon tick }
{
    match side {
        Side::Host => tick <= horizon,
        Side::Para => tick < horizon,
    }
}

// Does the access at tick `t` if it is admitted, otherwise raises the horizon to `t`.
fn attempt<R: Wait>(rt: &R, cell: &TubeCell, pass: &mut Pass, t: u64, op: Op) -> Option<u8>
    requires cell { pass.old.cell ≡ cell.now }
    requires published { (pass.old.ahead ≡ []) × (pass.old.speculative ≡ []) }
    requires operation { MayDo pass.old.side op }
    requires later { (own_horizon pass.old ≤ t) × (t < 2 ^ 30) }
    ensures same { (pass.new.cell ≡ pass.old.cell) × (pass.new.side ≡ pass.old.side) × (pass.new.ahead ≡ []) × (pass.new.speculative ≡ []) }
    ensures done { IfSome result (λ _. own_horizon pass.new ≤ t + 1) }
    ensures not_done { IfNone result (own_horizon pass.new ≤ t) }
{
    cell.learn(rt, pass);
    if is_admitted(pass.side(), cell.other(pass).0, t) {
        return cell.commit(rt, pass, Tick(t), op);
    }
    cell.raise(rt, pass, Tick(t));
    None
}

// Raises the other side's horizon, and does an access at tick `t`.
fn turn<R: Wait>(
    rt: &R,
    cell: &TubeCell,
    mine: &mut Pass,
    theirs: &mut Pass,
    t: u64,
    op: Op,
) -> Option<u8>
    requires cells { (mine.old.cell ≡ cell.now) × (theirs.old.cell ≡ cell.now) }
    requires published { (mine.old.ahead ≡ []) × (mine.old.speculative ≡ []) × (theirs.old.ahead ≡ []) × (theirs.old.speculative ≡ []) }
    requires operation { MayDo mine.old.side op }
    requires later { (own_horizon mine.old ≤ t) × (own_horizon theirs.old ≤ t) × (t < 2 ^ 30) }
    ensures mine { (mine.new.cell ≡ mine.old.cell) × (mine.new.side ≡ mine.old.side)
        × (mine.new.ahead ≡ []) × (mine.new.speculative ≡ []) × (own_horizon mine.new ≤ t + 1) }
    ensures theirs { (theirs.new.cell ≡ theirs.old.cell) × (theirs.new.side ≡ theirs.old.side)
        × (theirs.new.ahead ≡ []) × (theirs.new.speculative ≡ []) × (own_horizon theirs.new ≤ t + 1) }
{
    cell.learn(rt, theirs);
    cell.raise(rt, theirs, Tick(t + 1));
    attempt(rt, cell, mine, t, op)
}

// Returns the accesses of the test below, with their answers.
fn row(k: u64) -> (Side, Op, u8)
    ensures { MayDo result.0 result.1 }
{
    let byte = (k % 64) as u8;
    match k {
        0..=22 => (Side::Para, Op::Write(1, byte + 1), 0),
        23 => (Side::Para, Op::Read(0), 0x40),
        24 => (Side::Para, Op::Write(1, 0x18), 0),
        25 => (Side::Para, Op::Read(0), 0x00),
        26 => (Side::Para, Op::Write(1, 0x19), 0),
        27..=50 => (Side::Host, Op::Read(1), byte - 26),
        _ => (Side::Host, Op::Read(1), 0x18),
    }
}

#[test]
fn turns_at_the_cell_are_answered_as_by_the_chip(rt: HostRuntime) {
    let (cell, whole) = TubeCell::make(rt.alloc()).expect(&rt, "ample memory");
    let (mut host, mut para) = cell.split(&rt, whole);
    let mut chip = Chip::new();
    for k in 0..52u64 {
        let (side, op, byte) = row(k);
        assert_eq!(rt; chip.apply(side, op), byte, "{k}");
        let answer = match side {
            Side::Host => turn(&rt, &cell, &mut host, &mut para, k, op),
            Side::Para => turn(&rt, &cell, &mut para, &mut host, k, op),
        };
        assert_eq!(rt; answer, Some(byte), "{k}");
    }
    assert_eq!(rt; cell.join(&rt, host, para).pack(), chip.pack());
}

// ---- two threads

const ACCESSES: u64 = 250;

// The number of tries after which a side that is not admitted gives up, and the test fails.
const TRIES: u64 = 1_000_000_000;

#[derive(Drop)]
struct Entry {
    tick: u64,
    number: u8,
    byte: u8,
    is_write: bool,
    answer: u8,
}

/// Returns an access to the register of this number, taken modulo 8.
pub(super) fn op_of(number: u8, byte: u8, is_write: bool) -> Op
    ensures host { MayDo Host result }
    ensures para { MayDo Para result }
{
    if is_write {
        Op::Write(number % 8, byte)
    } else {
        Op::Read(number % 8)
    }
}

// Does the access at tick `t` as soon as it is admitted.
fn access<R: Wait>(rt: &R, cell: &TubeCell, pass: &mut Pass, t: u64, op: Op) -> Option<u8>
    requires cell { pass.old.cell ≡ cell.now }
    requires published { (pass.old.ahead ≡ []) × (pass.old.speculative ≡ []) }
    requires operation { MayDo pass.old.side op }
    requires later { (own_horizon pass.old ≤ t) × (t < 2 ^ 30) }
    ensures same { (pass.new.cell ≡ pass.old.cell) × (pass.new.side ≡ pass.old.side) × (pass.new.ahead ≡ []) × (pass.new.speculative ≡ []) }
    ensures later { own_horizon pass.new ≤ t + 1 }
{
    let backoff = Backoff::new();
    for _ in 0..TRIES {
        let answer = attempt(rt, cell, pass, t, op);
        if answer.is_some() {
            return answer;
        }
        backoff.snooze();
    }
    None
}

/// Raises the own horizon past all ticks, so that the other side can continue.
pub(super) fn end<R: Wait>(rt: &R, cell: &TubeCell, pass: &mut Pass)
    requires cell { pass.old.cell ≡ cell.now }
    requires published { (pass.old.ahead ≡ []) × (pass.old.speculative ≡ []) }
    requires later { own_horizon pass.old ≤ 2 ^ 30 }
    ensures same { (pass.new.cell ≡ pass.old.cell) × (pass.new.side ≡ pass.old.side) × (pass.new.ahead ≡ []) × (pass.new.speculative ≡ []) }
{
    for _ in 0..TRIES {
        if cell.raise(rt, pass, Tick(1 << 30)) {
            return;
        }
    }
}

// Does accesses of one side at seeded ticks. Returns them with their answers.
fn work<R: Wait>(
    rt: &R,
    alloc: Global,
    cell: &TubeCell,
    pass: Pass,
    seed: u64,
) -> Option<(Pass, Vec<Entry>)>
    requires cell { pass.cell ≡ cell.now }
    requires published { (pass.ahead ≡ []) × (pass.speculative ≡ []) }
    requires later { own_horizon pass ≤ 0 }
    ensures { IfSome result (λ r. (r.0.cell ≡ pass.cell) × (r.0.side ≡ pass.side) × (r.0.ahead ≡ []) × (r.0.speculative ≡ [])) }
{
    let mut pass = pass;
    let mut list = Vec::with_capacity(alloc, 250).ok()?;
    let mut random = seed;
    let mut tick = 0;
    for k in 0..ACCESSES {
        random = random
            .wrapping_mul(6_364_136_223_846_793_005)
            .wrapping_add(1_442_695_040_888_963_407);
        // Runs of accesses, and gaps, so that the other side does not always have to wait.
        if (random >> 59) == 0 {
            tick += (random >> 48) % 1000;
        }
        let number = ((random >> 40) % 8) as u8;
        let byte = ((random >> 48) % 256) as u8;
        let is_write = (random >> 33) % 2 == 1;
        let answer = access(rt, cell, &mut pass, tick, op_of(number, byte, is_write))?;
        list.push(Entry {
            tick,
            number,
            byte,
            is_write,
            answer,
        })
        .ok()?;
        tick += 1;
    }
    end(rt, cell, &mut pass);
    Some((pass, list))
}

// Runs both sides in threads of their own. Returns their accesses, and the chip at the end.
fn pair<R: Threads + Wait + Sync>(
    rt: &R,
    alloc: Global,
    cell: &TubeCell,
    whole: Whole,
    seed: u64,
) -> Option<(Vec<Entry>, Vec<Entry>, Chip)>
    requires { whole ≡ cell.now }
{
    let (host, para) = cell.split(rt, whole);
    let (host, para) = join(
        rt,
        move || -> Option<(Pass, Vec<Entry>)>
            requires cell { host.cell ≡ cell.now }
            requires published { (host.ahead ≡ []) × (host.speculative ≡ []) }
            requires later { own_horizon host ≤ 0 }
            ensures { IfSome result (λ r. (r.0.cell ≡ host.cell) × (r.0.side ≡ host.side) × (r.0.ahead ≡ []) × (r.0.speculative ≡ [])) }
        { work(rt, alloc, cell, host, seed) },
        move || -> Option<(Pass, Vec<Entry>)>
            requires cell { para.cell ≡ cell.now }
            requires published { (para.ahead ≡ []) × (para.speculative ≡ []) }
            requires later { own_horizon para ≤ 0 }
            ensures { IfSome result (λ r. (r.0.cell ≡ para.cell) × (r.0.side ≡ para.side) × (r.0.ahead ≡ []) × (r.0.speculative ≡ [])) }
        { work(rt, alloc, cell, para, !seed) },
    );
    let (host, host_list) = host?;
    let (para, para_list) = para?;
    Some((host_list, para_list, cell.join(rt, host, para)))
}

// Adds the line of a side's access in a trace.
fn push_line(alloc: Global, text: &mut Vec<u8>, side: char, entry: &Entry) -> Option<()> {
    let (kind, byte) = if entry.is_write {
        ('W', entry.byte)
    } else {
        ('R', entry.answer)
    };
    let number = entry.number % 8;
    let line = format!(in alloc; "{:010X} {side} {kind} {number} {byte:02X}\n", entry.tick).ok()?;
    text.extend_from_slice(line.as_bytes()).ok()
}

// Returns the trace of both sides' accesses: by tick, and at one tick the host's first.
fn trace_text(alloc: Global, host: &[Entry], para: &[Entry]) -> Option<Vec<u8>> {
    let mut text = Vec::new(alloc);
    let mut mine = host;
    let mut theirs = para;
    for _ in 0..2 * ACCESSES {
        match (mine, theirs) {
            ([a, rest @ ..], [b, ..]) if a.tick <= b.tick => {
                push_line(alloc, &mut text, 'H', a)?;
                mine = rest;
            }
            (_, [b, rest @ ..]) => {
                push_line(alloc, &mut text, 'P', b)?;
                theirs = rest;
            }
            ([a, rest @ ..], []) => {
                push_line(alloc, &mut text, 'H', a)?;
                mine = rest;
            }
            ([], []) => return None,
        }
    }
    Some(text)
}

#[test]
fn two_threads_make_a_legal_history(rt: HostRuntime) {
    for seed in 1..=10u64 {
        let (cell, whole) = TubeCell::make(rt.alloc()).expect(&rt, "ample memory");
        let (host, para, end) = pair(&rt, rt.alloc(), &cell, whole, seed).expect(
            &rt,
            "both get on",
        );
        let text = trace_text(rt.alloc(), &host, &para).expect(&rt, "ample memory");
        // The entries of a text that is read rise, as `first_wrong` requires.
        let entries = read(rt.alloc(), &text).expect(&rt, "a trace").entries;
        assert_eq!(rt; entries.len(), 500);
        assert_eq!(rt; first_wrong(&entries), None, "{seed}");
        let mut chip = Chip::new();
        for entry in &entries {
            chip.apply(entry.side, entry.op);
        }
        assert_eq!(rt; chip.pack(), end.pack());
    }
}
