//! A party of two kinds of step, compared with traces that fit it and traces that don't, and beside
//! another at one chip.

ghost use Rattle.std.specs.Prelude.{◌≡◌, All, IfOk};
ghost use Rattle.tube_chip.specs.Events.{Rises};
ghost use Rattle.tube_trace.specs.Entries.{IsEntry, events_of};

use beeb_bits::{Side, Tick};
use std::alloc::Global;
use std::test::Fail;
use std::vec::Vec;
use tube_chip::{Chip, Op};
use tube_party::{
    Answer, Ask, Doing, Forward, MOST, Party, legal_merge_is_reference, party_goes_on,
    reference_is_followed, reference_is_replayed, reference_is_trace, replay, replay_is_following,
    solo,
};
use tube_trace::{Entry, read};

/// Looks at tick 5 and every 10 ticks, and reads register 0 five ticks after each look.
#[derive(Drop)]
pub struct Probe {
    pub(crate) due: u64,
    looks: bool,
    // The ticks from its closed part to the next step.
    pub(crate) lag: u64,
    last: Option<Answer>,
}

impl Party for Probe {
    ghost use Rattle.std.specs.Prelude.{◌+◌, ◌-◌, not, true, false, Some, refl, if◌then◌else◌};
    ghost use Rattle.std.proofs.Common.{arith};
    ghost use Rattle.tube_party.specs.Transitions.{MayAsk};
    ghost use Rattle.cases_tube.specs.declared.tests.parties.Probe.{Probe};
    ghost use Rattle.tube_chip.specs.declared.Op.TheVariants as op;
    ghost use Rattle.tube_chip.specs.Act.{access, look};

    ghost State = { Probe };

    ghost state = { λ m. m };

    ghost transitions = { record {
      due = λ s. s.due;
      asks = λ s. if s.looks then Some look else Some (access (op.Read 0));
      next = λ s a. record { due = s.due + 5; looks = not s.looks; lag = 4; last = a };
      closed = λ s. s.due - s.lag;
      close = λ s t. record s { lag = s.due - t };
    } };

    ghost plays = { λ side. true };

    ghost lawful = { record {
      rises = λ s a. omega arith;
      within = λ s. omega arith;
      closing = λ s t low high. record { closed = omega arith; due = refl; asks = refl; next = λ a. refl; again = λ u low2 high2. refl };
    } };

    ghost permitted = { λ s side plays. elim s.looks as (λ looks. MayAsk side (if looks then Some look else Some (access (op.Read 0)))) [ true ↦ tt | false ↦ omega arith ] };

    fn due(&self) -> Tick {
        Tick(self.due)
    }

    fn advance(&mut self, until: Tick) -> Ask {
        if self.due < until.0 {
            if self.looks {
                return Ask::Look(Tick(self.due));
            }
            return Ask::Access(Tick(self.due), Op::Read(0));
        }
        self.lag = self.lag.min(self.due - until.0);
        Ask::Nothing
    }

    fn answer(&mut self, answer: Answer) {
        self.last = Some(answer);
        self.looks = !self.looks;
        self.lag = 4;
        self.due += 5;
    }
}

pub(crate) fn at_power_on() -> Probe
    ensures { (result.due ≡ 5) × (result.lag ≡ 5) }
{
    Probe {
        due: 5,
        looks: true,
        lag: 5,
        last: None,
    }
}

// A line is the ticks of a replay; the line of the first difference, or `-`; the tick of the
// party's read there, or `-`; and the tick of the party's next step. After `@` comes the trace.
const REPLAYS: &str = "\
# Each read fits.
30 - - 30@~0A P R 0 01;~14 P R 0 02;
# Entries from the end of the replay on are not asked for, and neither are the other side's.
20 - - 20@~0A P R 0 01;~14 P R 0 02;
20 - - 20@~03 H W 0 01;~0A P R 0 01;
10 - - 10@
0 - - 5@
# An entry of another register, of another kind, and at another tick.
30 2 20 20@~0A P R 0 01;~14 P R 1 00;
30 2 20 20@~0A P R 0 01;~14 P W 0 00;
30 3 20 20@~0A P R 0 01;~0F H W 0 00;~15 P R 0 00;
30 1 10 10@~09 P R 0 01;
# No entry where the party reads.
30 2 20 20@~0A P R 0 01;
30 2 10 10@~03 H W 0 01;
# An entry where the party does nothing more.
15 3 - 15@~03 H W 0 01;~0A P R 0 01;~0B P R 0 02;
";

/// Returns the entries of a trace, in which `;` ends a line and `~` is eight zeros.
pub(crate) fn entries_of(alloc: Global, trace: &str) -> Result<Vec<Entry>, Fail>
    ensures entries { IfOk result (λ e. All IsEntry e.items) }
    ensures rises { IfOk result (λ e. Rises (events_of e.items)) }
{
    let text = trace.replace(alloc, "~", "00000000")?;
    let text = text.replace(alloc, ";", "\n")?;
    Ok(read(alloc, text.as_bytes())?.entries)
}

fn read_at(digits: &str) -> Option<Doing> {
    Some(Doing {
        tick: Tick(digits.parse().ok()?),
        side: Side::Para,
        op: Op::Read(0),
    })
}

// Returns the ticks of a line's replay, its difference, and the tick of the party's next step.
fn replay_of(head: &str) -> Option<(u16, Option<(u64, Option<Doing>)>, u64)> {
    let mut words = head.split(' ');
    let ticks = words.next()?.parse().ok()?;
    let place = words.next()?.parse().ok();
    let doing = read_at(words.next()?);
    let due = words.next()?.parse().ok()?;
    Some((ticks, place.map(|line| (line, doing)), due))
}

#[test]
fn the_first_place_that_differs_is_told(rt: HostRuntime) -> Result<(), Fail> {
    for line in REPLAYS.lines() {
        if let Some((head, trace)) = line.split_once('@') {
            let entries = entries_of(rt.alloc(), trace)?;
            let (ticks, place, due) = replay_of(head).unwrap_or((0, None, 0));
            let n = Tick(u64::from(ticks));
            let (party, found) = replay(at_power_on(), Side::Para, &entries, n);
            assert!(rt; found == place && party.due == due, "{line}");
        }
    }
    Ok(())
}

#[test]
fn a_look_sees_the_entries_before_it(rt: HostRuntime) -> Result<(), Fail> {
    // The side of the party, the trace, and the line of its side's first entry, which the party has
    // not made. Then come the resets and the host's IRQ line that the look at tick 5 sees.
    let rows: [(Side, &str, Option<u64>, u32, bool); 10] = [
        (Side::Para, "", None, 0, false),
        // P is set and cleared again: one reset. An access of the host at the tick of the look
        // comes before the look, and a later one doesn't.
        (Side::Para, "~04 H W 0 A0;~05 H W 0 20;", None, 1, false),
        (Side::Para, "~05 H W 0 A0;", None, 1, false),
        (Side::Para, "~06 H W 0 A0;", None, 0, false),
        (
            Side::Para,
            "~01 H W 0 A0;~02 H W 0 20;~03 H W 0 A0;~04 H W 0 20;",
            None,
            2,
            false,
        ),
        // The look also sees entries of its own side before it that the party has not made.
        (Side::Para, "~01 H W 0 81;~04 P W 7 41;", Some(2), 0, true),
        (Side::Para, "~01 H W 0 81;~05 P W 7 41;", Some(2), 0, false),
        (
            Side::Para,
            "~01 H W 0 81;~04 P W 7 41;~05 H W 0 A0;",
            Some(2),
            1,
            true,
        ),
        (Side::Host, "~04 H W 0 A0;", Some(1), 1, false),
        (Side::Host, "~05 H W 0 A0;", Some(1), 0, false),
    ];
    for (side, text, line, resets, hirq) in rows {
        let entries = entries_of(rt.alloc(), text)?;
        let (party, place) = replay(at_power_on(), side, &entries, Tick(10));
        assert_eq!(rt; place, line.map(|line| (line, None)));
        assert!(rt;
            match party.last {
                Some(Answer::Seen(lines)) => lines.resets == resets && lines.hirq == hirq,
                _ => false,
            }
        );
    }
    replay_is_following::<Probe>();
    Ok(())
}

#[test]
fn looks_below_a_tick_see_these_lines(rt: HostRuntime) -> Result<(), Fail> {
    // The end of the run, the tick below which looks are answered, the question, and true if the
    // look at tick 5 saw the lines.
    let rows: [(u8, u8, Ask, bool); 6] = [
        (30, 5, Ask::Look(Tick(5)), false),
        (30, 0, Ask::Look(Tick(5)), false),
        (30, 6, Ask::Access(Tick(10), Op::Read(0)), true),
        (10, 30, Ask::Nothing, true),
        (6, 30, Ask::Nothing, true),
        (5, 30, Ask::Nothing, false),
    ];
    let mut chip = Chip::new();
    // P is set: one reset.
    let _ = chip.apply(Side::Host, Op::Write(0, 0xa0));
    let lines = chip.lines();
    for (until, safe_until, ask, saw) in rows {
        let mut party = at_power_on();
        assert_eq!(rt;
            party.advance_seeing(Tick(until as u64), &lines, Tick(safe_until as u64)),
            ask
        );
        assert_eq!(rt; party.due, if saw { 10 } else { 5 });
        assert!(rt;
            match party.last {
                Some(Answer::Seen(seen)) => saw && seen.resets == 1 && seen.prst,
                _ => !saw,
            }
        );
    }
    Ok(())
}

/// Writes to register 1 at tick `due` and every ten ticks, one byte after another, as the host.
#[derive(Drop)]
pub struct Writer {
    pub(crate) due: u64,
    pub(crate) byte: u8,
    // The ticks from its closed part to the next step.
    pub(crate) lag: u64,
}

impl Party for Writer {
    ghost use Rattle.std.specs.Prelude.{◌+◌, ◌-◌, ◌%◌, Some, refl};
    ghost use Rattle.std.proofs.Common.{arith};
    ghost use Rattle.beeb_bits.specs.declared.Side.TheVariants.{Host};
    ghost use Rattle.tube_chip.specs.Events.{is_side};
    ghost use Rattle.cases_tube.specs.declared.tests.parties.Writer.{Writer};
    ghost use Rattle.tube_chip.specs.declared.Op.TheVariants as op;
    ghost use Rattle.tube_chip.specs.Act.{access};

    ghost State = { Writer };

    ghost state = { λ m. m };

    ghost transitions = { record {
      due = λ s. s.due;
      asks = λ s. Some (access (op.Write 1 s.byte));
      next = λ s a. record { due = s.due + 10; byte = (s.byte + 1) % 256; lag = 9 };
      closed = λ s. s.due - s.lag;
      close = λ s t. record s { lag = s.due - t };
    } };

    ghost plays = { is_side Host };

    ghost lawful = { record {
      rises = λ s a. omega arith;
      within = λ s. omega arith;
      closing = λ s t low high. record { closed = omega arith; due = refl; asks = refl; next = λ a. refl; again = λ u low2 high2. refl };
    } };

    ghost permitted = { λ s side plays. omega arith };

    fn due(&self) -> Tick {
        Tick(self.due)
    }

    fn advance(&mut self, until: Tick) -> Ask {
        if self.due < until.0 {
            return Ask::Access(Tick(self.due), Op::Write(1, self.byte));
        }
        self.lag = self.lag.min(self.due - until.0);
        Ask::Nothing
    }

    fn answer(&mut self, _answer: Answer) {
        self.byte = self.byte.wrapping_add(1);
        self.lag = 9;
        self.due += 10;
    }
}

#[test]
fn two_parties_share_one_chip(rt: HostRuntime) -> Result<(), Fail> {
    // The tick of the writer's first write, the ticks of the run, the number of accesses to keep,
    // those of each side as a trace, and their total numbers. The probe reads the status of
    // register 1 at ticks 10, 20 and 30; bit 7 says that a byte came.
    let rows: [(u16, u16, u32, &str, &str, u8, u8); 6] = [
        // At equal ticks the host's write comes first.
        (
            10,
            36,
            9,
            "~0A H W 1 01;~14 H W 1 02;~1E H W 1 03;",
            "~0A P R 0 C0;~14 P R 0 C0;~1E P R 0 C0;",
            3,
            3,
        ),
        (
            11,
            30,
            9,
            "~0B H W 1 01;~15 H W 1 02;",
            "~0A P R 0 40;~14 P R 0 C0;",
            2,
            2,
        ),
        (9, 10, 9, "~09 H W 1 01;", "", 1, 0),
        // Only the first accesses are kept.
        (10, 36, 1, "~0A H W 1 01;", "~0A P R 0 C0;", 3, 3),
        (10, 36, 0, "", "", 3, 3),
        (10, 0, 9, "", "", 0, 0),
    ];
    for (first, ticks, keep, host_text, para_text, host_count, para_count) in rows {
        let writer = Writer {
            due: first as u64,
            byte: 1,
            lag: first as u64,
        };
        // The probe is never rolled back.
        let probe = Forward {
            party: at_power_on(),
        };
        let Ok(done) = solo(rt.alloc(), writer, probe, Tick(ticks as u64), keep) else {
            return Err(Fail::from("no memory"));
        };
        assert_eq!(rt; done.host_list, entries_of(rt.alloc(), host_text)?);
        assert_eq!(rt; done.para_list, entries_of(rt.alloc(), para_text)?);
        assert_eq!(rt; done.host_count, host_count as u64);
        assert_eq!(rt; done.para_count, para_count as u64);
        assert_eq!(rt; done.host.due - done.host.lag, ticks as u64);
        assert_eq!(rt; done.para.party.due - done.para.party.lag, ticks as u64);
        // The last byte written is at the chip.
        let mut chip = done.chip;
        assert_eq!(rt; chip.apply(Side::Para, Op::Read(1)), host_count);
        // Both may be run on, since neither is closed past its next step.
        let due = done.host.due.max(done.para.party.due);
        if due >= MOST {
            return Err(Fail::from("too late"));
        }
        let Ok(more) = solo(rt.alloc(), done.host, done.para, Tick(due + 1), 0) else {
            return Err(Fail::from("no memory"));
        };
        assert_eq!(rt; (more.host_count, more.para_count), (1, 1));
    }
    party_goes_on::<Writer>();
    legal_merge_is_reference::<Writer, Probe>();
    reference_is_followed::<Writer, Probe>();
    reference_is_replayed::<Writer, Probe>();
    reference_is_trace::<Writer, Probe>();
    Ok(())
}
