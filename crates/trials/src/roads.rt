//! Two runs of one machine: in whole instructions with far horizons, and with a horizon at each
//! tick.
ghost use Rattle.std.specs.Prelude.{◌≤◌, ◌^◌};

use crate::chance::Chance;
use crate::setting::is_handler;
use crate::twins::Tried;
use beeb_bits::{Clock, NoMemory, Tick};
use cpu_alu::{DECIMAL, INTERRUPT, Regs};
use op_table::Part;
use std::alloc::Global;
use tube_chip::{Answer, Lines, Op};
use tube_party::{Ask, MOST, NO_LINES, NoPort, Party, Rewinds};

// A Tube with random answers: bytes to accesses, of which it keeps a sum, and lines that stay the
// same for a while.
#[derive(Drop)]
struct Tube {
    answers: Chance,
    accesses: u64,
    sum: u64,
    // No line is asserted before this tick.
    from: u64,
    // The lines stay for this number of ticks.
    stay: u64,
    // The lines that are driven.
    drives: u64,
    turn: u64,
}

impl Tube {
    // Makes the Tube of a seed. The same seed gives the same answers.
    fn new(seed: u64, from: u64) -> Tube {
        let mut answers = Chance::new(seed, 7);
        let stay = 4_u64 << answers.below(10);
        let drives = if answers.once_in(3) {
            0
        } else {
            u64::from(answers.word())
        };
        let turn = u64::from(answers.word());
        Tube {
            answers,
            accesses: 0,
            sum: 0,
            from,
            stay,
            drives,
            turn,
        }
    }

    fn note(&mut self, number: u64) {
        self.sum = self
            .sum
            .wrapping_mul(6_364_136_223_846_793_005)
            .wrapping_add(number);
    }

    fn byte(&mut self, t: Tick, op: Op) -> u8 {
        self.accesses = self.accesses.wrapping_add(1);
        self.note(t.0);
        match op {
            Op::Read(n) => self.note(u64::from(n)),
            Op::Write(n, v) => {
                self.note(256 + u64::from(n));
                self.note(u64::from(v));
            }
            Op::Reset => self.note(512),
        }
        self.answers.byte()
    }

    // Returns the number of the period of equal lines that has tick `t`.
    fn number(&self, t: u64) -> u64 {
        let since = t.saturating_sub(self.from);
        if self.stay == 0 { 0 } else { since / self.stay }
    }

    fn lines(&self, t: u64) -> Lines {
        if t < self.from {
            return NO_LINES;
        }
        let number = self.number(t);
        let bits = (number ^ self.turn).wrapping_mul(0x9e37_79b9_7f4a_7c15) >> 20;
        let drives = bits & self.drives;
        Lines {
            prst: self.drives & 3 == 3 && bits & 0x70 == 0x70,
            resets: if self.drives & 3 == 3 {
                (number / 8 % 0x1000) as u32
            } else {
                0
            },
            nmis: if self.drives & 0x100 == 0x100 {
                (number / 2 % 0x1000) as u32
            } else {
                0
            },
            pirq: drives & 0x200 == 0x200,
            hirq: drives & 0x400 == 0x400,
        }
    }

    // Returns a tick before which the lines stay as they are at tick `t`.
    fn safe_until(&self, t: u64) -> u64 {
        if t < self.from {
            return self.from;
        }
        let stays = self.number(t).wrapping_add(1).wrapping_mul(self.stay);
        self.from.wrapping_add(stays)
    }

    // Returns true if both were asked the same, in the same order.
    fn heard_the_same(&self, other: &Tube) -> bool {
        self.accesses == other.accesses && self.sum == other.sum
    }
}

// Advances up to tick `until`, or to the first step that asks, and answers it.
fn step<M: Party>(machine: &mut M, until: u64, tube: &mut Tube)
    requires { until ≤ MOST }
{
    let t = machine.due().0;
    let lines = tube.lines(t);
    match machine.advance_seeing(Tick(until), &lines, Tick(tube.safe_until(t))) {
        Ask::Nothing => (),
        Ask::Access(t, op) => {
            let byte = tube.byte(t, op);
            machine.answer(Answer::Byte(byte));
        }
        Ask::Look(t) => machine.answer(Answer::Seen(tube.lines(t.0))),
    }
}

// Advances speculatively with notes, as if the lines stayed as they are, as long as there is room,
// or for some ticks.
#[tactic(auto, using(tube_party::specs::Steps::left_pending))]
fn note<M: Rewinds>(
    machine: &mut M,
    past: &mut M::Past,
    lines: &Lines,
    safe_until: Tick,
    more: Tick,
) {
    let end = Tick(MOST);
    let Some(Ask::Look(t)) = machine.advance_noting(end, lines, safe_until, past, &mut NoPort)
    else {
        return;
    };
    let first = Ask::Look(t);
    let Ask::Look(t) = machine.advance_on(first, end, lines, more, past, &mut NoPort) else {
        return;
    };
    let second = Ask::Look(t);
    let Ask::Look(t) = machine.advance_on(second, end, lines, more, past, &mut NoPort) else {
        return;
    };
    let third = Ask::Look(t);
    let _ = machine.advance_on(third, end, lines, more, past, &mut NoPort);
}

// Advances with notes and rolls back; or advances up to tick `until`.
fn go_ahead<M: Rewinds>(
    machine: &mut M,
    past: &mut M::Past,
    until: u64,
    tube: &Tube,
    chance: &mut Chance,
)
    requires { until ≤ MOST }
{
    let t = machine.due().0;
    let lines = tube.lines(t);
    if chance.once_in(2) {
        let _ = machine.advance_noting(
            Tick(until),
            &lines,
            Tick(tube.safe_until(t)),
            past,
            &mut NoPort,
        );
        return;
    }
    let safe_until = t.saturating_add(u64::from(chance.below(64)));
    let more = if chance.once_in(4) { 50_000 } else { 64 };
    let more = safe_until.saturating_add(u64::from(chance.below(more)));
    note(machine, past, &lines, Tick(safe_until), Tick(more));
    machine.rewind(past);
}

// Advances to tick `end` with horizons that are mostly far, and at times with notes.
fn go_far<M: Rewinds>(
    machine: &mut M,
    past: &mut M::Past,
    end: u64,
    tube: &mut Tube,
    chance: &mut Chance,
)
    requires { end ≤ MOST }
{
    for _ in 0..end {
        let t = machine.due().0;
        if t >= end {
            break;
        }
        let ahead = match chance.below(8) {
            0 => chance.below(16),
            1 => chance.below(400),
            _ => 0x4000_0000,
        };
        let until = end.min(t.saturating_add(u64::from(ahead)));
        if chance.once_in(8) {
            go_ahead(machine, past, until, tube, chance);
        }
        step(machine, until, tube);
    }
    step(machine, end, tube);
}

// Returns true if there was no interrupt between, or if it set I and, on the 65C02, cleared D.
fn masks(part: Part, before: &Regs, now: &Regs) -> bool {
    if !is_handler(part, now.pc) || now.s != before.s.wrapping_sub(3) {
        return true;
    }
    let p = match part {
        Part::Nmos => before.p,
        Part::Cmos => before.p & !DECIMAL,
    };
    now.p == p | INTERRUPT
}

// Advances with a horizon at each tick. Returns true if interrupts leave the flags as `masks`
// checks.
fn go_by_ticks<M: Stands>(machine: &mut M, end: u64, tube: &mut Tube) -> bool
    requires { end ≤ MOST }
{
    let mut is_right = true;
    let mut before = machine.registers();
    for t in machine.due().0..end {
        step(machine, t + 1, tube);
        let now = machine.registers();
        is_right = is_right && masks(M::part(), &before, &now);
        before = now;
    }
    step(machine, end, tube);
    is_right
}

/// A machine whose registers can be read.
pub trait Stands: Rewinds {
    /// Makes a machine at a course's beginning.
    fn begun(alloc: Global, course: &Course) -> Result<Self, NoMemory>;

    fn part() -> Part;

    fn registers(&self) -> Regs;

    /// Returns true if both are at the same step with the same registers and the same memory.
    fn is_as(&self, other: &Self) -> bool;
}

/// The beginning of both machines: a clock, an image, a script and a disc or none. The machine may
/// stop at tick `begun`, lines change from tick `from` on, and both machines are compared at ticks
/// `middle` and `end`.
#[derive(Drop)]
pub struct Course {
    pub clock: Clock,
    pub image: Vec<u8>,
    pub script: Vec<u8>,
    pub has_disc: bool,
    pub begun: u64,
    pub from: u64,
    pub middle: u64,
    pub end: u64,
}

impl Course {
    /// Returns the course of a random program. Its entry code takes 15,134 cycles.
    pub fn of_program(
        chance: &mut Chance,
        clock: Clock,
        cycle: u64,
        image: Vec<u8>,
        script: Vec<u8>,
    ) -> Course
        requires { cycle ≤ 6 }
    {
        let begun = cycle * (15_100 + u64::from(chance.below(60) % 60));
        let middle = begun + u64::from(chance.below(3_000) % 3_000);
        let end = middle + u64::from(chance.below(3_000) % 3_000);
        Course {
            clock,
            image,
            script,
            has_disc: false,
            begun,
            from: begun,
            middle,
            end,
        }
    }
}

impl<M: Stands> Tried<Course> for M {
    fn make(alloc: Global, course: &Course) -> Result<Self, NoMemory> {
        M::begun(alloc, course)
    }

    fn agrees(
        &mut self,
        other: &mut Self,
        alloc: Global,
        course: &Course,
        chance: &mut Chance,
    ) -> Result<bool, NoMemory> {
        come_to_the_same(alloc, self, other, course, chance)
    }
}

// Runs `near` fast to the tick `begun` and tick by tick from there, and `far` fast. Returns true if
// both ask the Tube the same, in the same order, and are the same at both ticks of the course.
fn come_to_the_same<M: Stands>(
    alloc: Global,
    far: &mut M,
    near: &mut M,
    course: &Course,
    chance: &mut Chance,
) -> Result<bool, NoMemory> {
    let mut past = M::past(alloc)?;
    let seed = u64::from(chance.word());
    let mut far_tube = Tube::new(seed, course.from);
    let mut near_tube = Tube::new(seed, course.from);
    let begun = course.begun.min(MOST);
    go_far(near, &mut past, begun, &mut near_tube, chance);
    // If `far` stops here too, its next instruction is done cycle by cycle.
    if chance.once_in(4) {
        go_far(far, &mut past, begun, &mut far_tube, chance);
    }
    for end in [course.middle, course.end] {
        let end = end.min(MOST);
        go_far(far, &mut past, end, &mut far_tube, chance);
        if !go_by_ticks(near, end, &mut near_tube)
            || !far_tube.heard_the_same(&near_tube)
            || !far.is_as(near)
        {
            return Ok(false);
        }
    }
    Ok(true)
}
