//! The second processor at both clocks, run against traces and ahead of them.
use super::held::{entries_of, pair, with_new};
use beeb_bits::{Clock, Side, Tick};
use para_mach::{ParaError, ParaMachine};
use std::alloc::Global;
use std::test::Fail;
use std::vec::Vec;
use tube_chip::{Chip, Lines, Op};
use tube_party::{Ask, Doing, NoPort, Party, Rewinds, TubePort, replay};

fn put(bytes: &mut Vec<u8>, start: usize, part: &[u8]) {
    for (i, byte) in part.iter().enumerate() {
        if let Some(at) = bytes.get_mut(start.wrapping_add(i)) {
            *at = *byte;
        }
    }
}

// Makes a machine at this clock with this boot ROM: the code at F800, JMP F820 at F820 and JMP F840
// at F840, NMI to F820, reset to F800 and IRQ to F840, the rest 00.
fn fresh(alloc: Global, clock: Clock, code: &[u8]) -> Result<ParaMachine, Fail> {
    let mut bytes = vec![in alloc; 0; 2_048]?;
    put(&mut bytes, 0, code);
    put(&mut bytes, 0x20, &[0x4c, 0x20, 0xf8]);
    put(&mut bytes, 0x40, &[0x4c, 0x40, 0xf8]);
    put(&mut bytes, 0x7fa, &[0x20, 0xf8, 0x00, 0xf8, 0x40, 0xf8]);
    Ok(ParaMachine::make(alloc, clock, bytes)?)
}

// JMP F800
const LOOP: &[u8] = &[0x4c, 0x00, 0xf8];

// CLI, and JMP F801
const OPEN_LOOP: &[u8] = &[0x58, 0x4c, 0x01, 0xf8];

// JMP FEF8
const STATUS: &[u8] = &[0x4c, 0xf8, 0xfe];

// A letter to register 1, and JMP F805. The RAM that then appears there is clear: BRK.
const LETTER: &[u8] = &[0xa9, 0x48, 0x8d, 0xf9, 0xfe, 0x4c, 0x05, 0xf8];

// A copy of itself to the RAM below it, and then the two letters to register 1.
const LETTERS: &[u8] = &[
    0xa2, 0x1f, 0xbd, 0x00, 0xf8, 0x9d, 0x00, 0xf8, 0xca, 0x10, 0xf7, 0xa9, 0x48, 0x8d, 0xf9, 0xfe,
    0xa9, 0x49, 0x8d, 0xf9, 0xfe, 0x4c, 0x15, 0xf8,
];

// 1234 as the vector of the RAM, and JMP FEF8
const VECTOR: &[u8] = &[
    0xa9, 0x34, 0x8d, 0xfc, 0xff, 0xa9, 0x12, 0x8d, 0xfd, 0xff, 0x4c, 0xf8, 0xfe,
];

// INC 80, PHA, STA F900, and JMP F800
const WRITER: &[u8] = &[0xe6, 0x80, 0x48, 0x8d, 0x00, 0xf9, 0x4c, 0x00, 0xf8];

// A copy of itself to the RAM below it, INC 80, LDA FEF8 and BPL F80B, and then JMP F812
const POLL: &[u8] = &[
    0xa2, 0x1f, 0xbd, 0x00, 0xf8, 0x9d, 0x00, 0xf8, 0xca, 0x10, 0xf7, 0xe6, 0x80, 0xad, 0xf8, 0xfe,
    0x10, 0xf9, 0x4c, 0x12, 0xf8,
];

fn code_of(name: &str) -> Option<&'static [u8]> {
    match name {
        "loop" => Some(LOOP),
        "open" => Some(OPEN_LOOP),
        "status" => Some(STATUS),
        "letter" => Some(LETTER),
        "letters" => Some(LETTERS),
        "vector" => Some(VECTOR),
        "writer" => Some(WRITER),
        _ => None,
    }
}

// Returns the clock of 3 or 4 MHz.
fn clock_of(digit: &str) -> Option<Clock> {
    match digit {
        "3" => Some(Clock::Three),
        "4" => Some(Clock::Four),
        _ => None,
    }
}

// Returns the refusal of a boot ROM of `len` bytes.
fn refused(alloc: Global, clock: Clock, len: usize) -> Result<Option<ParaError>, Fail> {
    let bytes = vec![in alloc; 0; len]?;
    Ok(ParaMachine::make(alloc, clock, bytes).err())
}

#[test]
fn only_a_boot_rom_of_its_length_is_taken(rt: HostRuntime) -> Result<(), Fail> {
    for clock in [Clock::Three, Clock::Four] {
        for len in [0, 1, 2_047, 2_049, 4_096] {
            let refused = refused(rt.alloc(), clock, len)?;
            assert_eq!(rt; refused, Some(ParaError::BadTubeRom { len: len as u64 }));
        }
        let machine = fresh(rt.alloc(), clock, LOOP);
        let (shown, len) = with_new(machine, |machine| {
            (shown(rt.alloc(), machine), machine.ram().len())
        })?;
        assert_eq!(rt; shown?.as_str(), "0000 00 00 00 00 00 runs within");
        assert_eq!(rt; len, 65_536);
    }
    Ok(())
}

#[test]
fn a_boot_rom_of_another_length_is_told(rt: HostRuntime) -> Result<(), Fail> {
    let text = format!(in rt.alloc(); "{}", ParaError::BadTubeRom { len: 2_047 })?;
    assert_eq!(rt; text.as_str(), "the boot ROM has 2047 bytes");
    let text = format!(in rt.alloc(); "{}", ParaError::NoMemory)?;
    assert_eq!(rt; text.as_str(), "no memory");
    Ok(())
}

// Returns PC, A, X, Y, S and P without bits 4 and 5, which are not flags; `held` or `runs`; and
// `starts` if an instruction begins.
fn shown(alloc: Global, machine: &ParaMachine) -> Result<String, Fail> {
    let r = machine.regs();
    let held = if machine.held() { "held" } else { "runs" };
    let starting = if machine.starting() {
        "starts"
    } else {
        "within"
    };
    let text = format!(in alloc;
        "{:04X} {:02X} {:02X} {:02X} {:02X} {:02X} {held} {starting}",
        r.pc, r.a, r.x, r.y, r.s, r.p
    )?;
    Ok(text)
}

// A line is a run from power-on: 3 or 4 MHz, the code, the ticks, and the number of an entry that
// it does not make, or `-`. After `@` comes the state afterwards, or its beginning; and after
// another `@` the trace, in which `;` ends a line and `~` is eight zeros.
const RUNS: &str = "\
# No ticks: the power-on state.
3 loop 0 -@0000 00 00 00 00 00 runs within@
4 loop 0 -@0000 00 00 00 00 00 runs within@
# A reset takes seven cycles of two ticks, or of three. Its look is at the last of them.
3 loop 13 -@0000 00 00 00 00 00 runs within@
3 loop 14 -@F800 00 00 00 FD 04 runs starts@
3 loop 200 -@F800 00 00 00 FD 04 runs starts@
4 loop 20 -@0000 00 00 00 00 00 runs within@
4 loop 21 -@F800 00 00 00 FD 04 runs starts@
4 loop 201 -@F800 00 00 00 FD 04 runs starts@
# An access is at the first tick of its cycle: a letter is written, and then the RAM is run as code: BRK.
3 letter 24 -@F802 48 00 00 FD 04 runs within@
3 letter 40 -@0000 48 00 00 FA 04 runs starts@~18 P W 1 48;
4 letter 36 -@F802 48 00 00 FD 04 runs within@
4 letter 39 -@F805 48 00 00 FD 04 runs starts@~24 P W 1 48;
4 letter 40 -@F805 48 00 00 FD 04 runs within@~24 P W 1 48;
4 letter 60 -@0000 48 00 00 FA 04 runs starts@~24 P W 1 48;
# P set and cleared between two looks: one reset.
3 loop 200 -@F800 00 00 00 FA 04 runs within@~62 H W 0 A0;~65 H W 0 20;
4 loop 122 -@F800 00 00 00 FD 04 runs within@~5D H W 0 A0;~64 H W 0 20;
4 loop 123 -@F800 00 00 00 FA 04 runs starts@~5D H W 0 A0;~64 H W 0 20;
# P stands: the look at tick 103 holds, and each look two ticks later, until the one at tick 129 sees P clear.
3 loop 103 -@F800 00 00 00 FD 04 runs within@~62 H W 0 A0;~80 H W 0 20;
3 loop 104 -@F800 00 00 00 FD 04 held within@~62 H W 0 A0;~80 H W 0 20;
3 loop 129 -@F800 00 00 00 FD 04 held within@~62 H W 0 A0;~80 H W 0 20;
3 loop 130 -@F800 00 00 00 FD 04 runs within@~62 H W 0 A0;~80 H W 0 20;
3 loop 144 -@F800 00 00 00 FA 04 runs starts@~62 H W 0 A0;~80 H W 0 20;
# At 4 MHz the look at tick 101 holds, and each look three ticks later, until the one at tick 128 sees P clear.
4 loop 101 -@F800 00 00 00 FD 04 runs within@~62 H W 0 A0;~7E H W 0 20;
4 loop 102 -@F800 00 00 00 FD 04 held within@~62 H W 0 A0;~7E H W 0 20;
4 loop 128 -@F800 00 00 00 FD 04 held within@~62 H W 0 A0;~7E H W 0 20;
4 loop 129 -@F800 00 00 00 FD 04 runs within@~62 H W 0 A0;~7E H W 0 20;
4 loop 150 -@F800 00 00 00 FA 04 runs starts@~62 H W 0 A0;~7E H W 0 20;
# An interrupt by its line, where I is clear and where it is set.
3 open 200 -@F840 00 00 00 FA 04 runs starts@~28 H W 0 82;~2B H W 1 00;
3 loop 200 -@F800 00 00 00 FD 04 runs starts@~28 H W 0 82;~2B H W 1 00;
4 open 65 -@F801 00 00 00 FD 00 runs within@~28 H W 0 82;~2B H W 1 00;
4 open 66 -@F840 00 00 00 FA 04 runs starts@~28 H W 0 82;~2B H W 1 00;
4 loop 201 -@F800 00 00 00 FD 04 runs starts@~28 H W 0 82;~2B H W 1 00;
# The Tube's status run as code: RTI.
3 status 32 -@0000 00 00 00 00 00 runs starts@~14 P R 0 40;~16 P R 1 00;
4 status 48 -@0000 00 00 00 00 00 runs starts@~1E P R 0 40;~21 P R 1 00;
# A copy into the RAM below the boot ROM runs on after the first access to the Tube.
3 letters 2000 -@F815 49 FF 00 FD 04 runs within@000000039A P W 1 48;00000003A6 P W 1 49;
4 letters 3000 -@F815 49 FF 00 FD 04 runs within@0000000567 P W 1 48;0000000579 P W 1 49;
# A reset while PC is in the Tube: its first two cycles read the Tube and switch the boot ROM out again, and the vector is that of the RAM.
3 vector 58 -@1234 12 00 00 FA 04 runs starts@~29 H W 0 A0;~2A H W 0 20;~2C P R 0 40;~2E P R 0 40;
4 vector 87 -@1234 12 00 00 FA 04 runs starts@~3F H W 0 A0;~40 H W 0 20;~42 P R 0 40;~45 P R 0 40;
";

// The looks see the chip after all entries before them.
const LOOKS: &str = "\
# The condition rises once: one NMI, though it stands on.
3 open 200 -@F820 00 00 00 FA 04 runs @~28 H W 0 88;~2B H W 5 11;
4 open 200 -@F820 00 00 00 FA 04 runs @~28 H W 0 88;~2B H W 5 11;
# An NMI and an IRQ at one look: the NMI is taken, and the IRQ waits for I.
3 open 200 -@F820 00 00 00 FA 04 runs @~28 H W 0 8A;~2A H W 1 00;~2B H W 5 11;
4 open 200 -@F820 00 00 00 FA 04 runs @~28 H W 0 8A;~2A H W 1 00;~2B H W 5 11;
# An NMI and a reset at one look: the reset is taken, and the NMI is not taken after it.
3 open 200 -@F801 00 00 00 FA 00 runs @~28 H W 0 88;~2A H W 5 11;~2B H W 0 A0;~2C H W 0 20;
4 open 200 -@F801 00 00 00 FA 00 runs @~28 H W 0 88;~2A H W 5 11;~2B H W 0 A0;~2C H W 0 20;
# M clear: none.
3 open 200 -@F801 00 00 00 FD 00 runs @~2B H W 5 11;
4 open 200 -@F801 00 00 00 FD 00 runs @~2B H W 5 11;
# The read of an interrupt's byte that the trace has clears the line, though the machine does not make it.
3 open 200 3@F801 00 00 00 FD 00 runs @~28 H W 0 82;~2B H W 1 00;~2C P R 1 00;
4 open 200 3@F801 00 00 00 FD 00 runs @~28 H W 0 82;~2D H W 1 00;~2E P R 1 00;
";

// A machine, and the first entry that its run does not make, with the access in its place.
type Ended = (ParaMachine, Option<(u64, Option<Doing>)>);

// Runs from power-on against the machine's side of a trace.
fn replayed(
    alloc: Global,
    clock: Clock,
    code: &[u8],
    ticks: u16,
    trace: &str,
) -> Result<Ended, Fail> {
    let entries = entries_of(alloc, trace)?;
    let start = fresh(alloc, clock, code)?;
    Ok(replay(start, Side::Para, &entries, Tick(u64::from(ticks))))
}

// Returns true if such a run ends as expected.
fn ends_so(
    alloc: Global,
    (clock, code, ticks): (Clock, &[u8], u16),
    unmade: Option<u64>,
    want: &str,
    trace: &str,
) -> Result<bool, Fail> {
    let run = replayed(alloc, clock, code, ticks, trace);
    let (shown, place) = with_new(run, |run| (shown(alloc, &run.0), run.1))?;
    let unmade = unmade.map(|entry| (entry, None));
    Ok(shown?.starts_with(want) && place == unmade)
}

// Returns the clock, the code, the ticks and the entry of a run.
fn head_of(row: &str) -> Option<((Clock, &'static [u8], u16), Option<u64>)> {
    let mut words = row.split(' ');
    let clock = clock_of(words.next()?)?;
    let code = code_of(words.next()?)?;
    let ticks = words.next()?.parse().ok()?;
    Some(((clock, code, ticks), words.next()?.parse().ok()))
}

// Returns the first run that does not end as expected.
fn first_wrong(alloc: Global, runs: &'static str) -> Result<Option<&'static str>, Fail> {
    for line in runs.lines() {
        if let Some((head, rest)) = line.split_once('@') {
            let (want, trace) = rest.split_once('@').unwrap_or(("no trace", rest));
            let Some((run, unmade)) = head_of(head) else {
                return Ok(Some(line));
            };
            if !ends_so(alloc, run, unmade, want, trace)? {
                return Ok(Some(line));
            }
        }
    }
    Ok(None)
}

#[test]
fn it_runs_against_its_side_of_a_trace(rt: HostRuntime) -> Result<(), Fail> {
    assert_eq!(rt; first_wrong(rt.alloc(), RUNS)?, None);
    Ok(())
}

#[test]
fn looks_see_the_chip_after_all_entries_before_them(rt: HostRuntime) -> Result<(), Fail> {
    assert_eq!(rt; first_wrong(rt.alloc(), LOOKS)?, None);
    Ok(())
}

// Returns true if the RAM holds the copy, and 00 at the boot ROM's vectors.
fn holds_letters(ram: &[u8]) -> bool {
    ram.get(0xf800..0xf818) == Some(LETTERS) && ram.get(0xffff) == Some(&0)
}

#[test]
fn the_ram_lies_under_the_boot_rom(rt: HostRuntime) -> Result<(), Fail> {
    for (clock, at) in [(Clock::Three, 0x39a), (Clock::Four, 0x567)] {
        let run = replayed(rt.alloc(), clock, LETTERS, 2_000, "");
        let (shown, place, holds) = with_new(run, |run| {
            (shown(rt.alloc(), &run.0), run.1, holds_letters(run.0.ram()))
        })?;
        // The first access to the Tube has no entry.
        let doing = Doing {
            tick: Tick(at),
            side: Side::Para,
            op: Op::Write(1, 0x48),
        };
        assert_eq!(rt; place, Some((1, Some(doing))));
        assert!(rt; shown?.starts_with("F80D 48 FF 00 FD 04 "));
        assert!(rt; holds);
    }
    Ok(())
}

// A row: a clock, a code and three numbers.
type Row = (Clock, &'static [u8], u64, u64, u64);

// A row of no table, which fails each test.
const NO_ROW: Row = (Clock::Three, LOOP, 0, 0, 2);

fn number(digits: Option<&str>) -> Option<u64> {
    let number: u32 = digits?.parse().ok()?;
    Some(u64::from(number))
}

fn row_of(row: &str) -> Option<Row> {
    let mut words = row.split(' ');
    let clock = clock_of(words.next()?)?;
    let code = code_of(words.next()?)?;
    Some((
        clock,
        code,
        number(words.next())?,
        number(words.next())?,
        number(words.next())?,
    ))
}

// A tick after all that is done here.
const END: Tick = Tick(1_000_000);

// Makes a machine that has advanced from power-on with looks below tick `from` safe. Returns its
// question too.
fn begun(alloc: Global, clock: Clock, code: &[u8], from: u64) -> Result<(ParaMachine, Ask), Fail> {
    let mut machine = fresh(alloc, clock, code)?;
    let ask = machine.advance_seeing(END, &Chip::new().lines(), Tick(from));
    Ok((machine, ask))
}

// Returns true if both machines are in the same state, as far as it can be read.
fn same(one: &ParaMachine, other: &ParaMachine) -> bool {
    one.regs() == other.regs()
        && one.ram() == other.ram()
        && one.due() == other.due()
        && one.held() == other.held()
        && one.starting() == other.starting()
}

// The clock, the code, 0, the tick below which looks are safe, and the first look that is not.
const SURE: &str = "\
3 loop 0 0 13
3 loop 0 13 13
3 loop 0 14 19
3 loop 0 32 37
3 open 0 0 13
3 open 0 14 17
4 loop 0 0 20
4 loop 0 20 20
4 loop 0 21 29
4 loop 0 48 56
4 open 0 0 20
4 open 0 21 26
";

#[test]
fn a_look_is_seen_below_the_safe_tick(rt: HostRuntime) -> Result<(), Fail> {
    let lines = Chip::new().lines();
    for line in SURE.lines() {
        let (clock, code, _, safe_until, look) = row_of(line).unwrap_or(NO_ROW);
        let machine = fresh(rt.alloc(), clock, code);
        let ask = with_new(machine, |machine| {
            machine.advance_seeing(Tick(60), &lines, Tick(safe_until))
        })?;
        assert!(rt; ask == Ask::Look(Tick(look)), "{line}");
    }
    Ok(())
}

// The clock, the code, the tick below which looks are safe at first, and the same tick for the run
// that is rolled back. The last number is 1 if this run gets there, otherwise 0. At most 65,536
// writes are noted, and each takes at least a cycle.
const TAKEN_BACK: &str = "\
3 loop 0 0 1
3 loop 0 900 1
3 writer 0 14 1
3 writer 0 900 1
3 writer 700 700 1
3 writer 700 8000 1
3 writer 17 131060 1
3 writer 17 400000 0
3 letters 20 9000 1
4 loop 0 0 1
4 loop 0 1350 1
4 writer 0 21 1
4 writer 0 1350 1
4 writer 1050 1050 1
4 writer 1050 12000 1
4 writer 26 196590 1
4 writer 26 600000 0
4 letters 30 13500 1
";

// Returns true if a machine that noted a run of this row, with this question, is in the state of
// one without notes that asks the same.
fn is_ahead(
    alloc: Global,
    machine: &ParaMachine,
    ask: Option<Ask>,
    (clock, code, from, safe_until, goes): Row,
) -> Result<bool, Fail> {
    let far = if goes == 1 {
        safe_until
    } else {
        machine.due().0
    };
    with_new(begun(alloc, clock, code, from), |(other, _)| {
        let want = other.advance_seeing(END, &Chip::new().lines(), Tick(far));
        far <= safe_until && ask == Some(want) && same(machine, other)
    })
}

// The notes of a run.
type Past = <ParaMachine as Rewinds>::Past;

fn past(alloc: Global) -> Result<Past, Fail> {
    Ok(ParaMachine::past(alloc)?)
}

// Returns true if a run of this row advances and is rolled back to its twin. It is run twice:
// nothing of the first time may be left.
fn is_taken_back(
    alloc: Global,
    machine: &mut ParaMachine,
    twin: &ParaMachine,
    past: &mut Past,
    row: Row,
) -> Result<bool, Fail> {
    let lines = Chip::new().lines();
    let mut is_right = true;
    for _ in 0..2 {
        let ask = machine.advance_noting(END, &lines, Tick(row.3), past, &mut NoPort);
        is_right = is_ahead(alloc, machine, ask, row)? && is_right;
        machine.rewind(past);
        is_right = same(machine, twin) && is_right;
    }
    Ok(is_right)
}

// Returns true if this holds for new machines, which both ask for the same look at first.
fn are_taken_back(alloc: Global, row: Row) -> Result<bool, Fail> {
    let make = || begun(alloc, row.0, row.1, row.2);
    let held = pair(pair(make(), make), || past(alloc));
    let (asks, is_right) = with_new(held, |((machine, twin), past)| {
        let asks = machine.1 == twin.1 && matches!(machine.1, Ask::Look(_));
        (
            asks,
            is_taken_back(alloc, &mut machine.0, &twin.0, past, row),
        )
    })?;
    Ok(is_right? && asks)
}

#[test]
fn a_run_is_taken_back(rt: HostRuntime) -> Result<(), Fail> {
    for line in TAKEN_BACK.lines() {
        let row = row_of(line).unwrap_or(NO_ROW);
        assert!(rt; are_taken_back(rt.alloc(), row)?, "{line}");
    }
    Ok(())
}

// The clock, the code, the ticks below which looks are safe in the first stride and in the second,
// and 0.
const STRIDES: &str = "\
3 loop 0 0 0
3 loop 14 900 0
3 writer 14 900 0
3 writer 900 14 0
3 writer 900 4000 0
4 loop 0 0 0
4 loop 21 1350 0
4 writer 21 1350 0
4 writer 1350 21 0
4 writer 1350 6000 0
";

// Returns the question after two strides, if the first ends at a look.
#[tactic(auto, using(tube_party::specs::Steps::left_pending))]
fn strode(machine: &mut ParaMachine, past: &mut Past, safe_until: u64, far: u64) -> Option<Ask> {
    let lines = Chip::new().lines();
    if let Some(Ask::Look(t)) = machine.advance_noting(
        END,
        &lines,
        Tick(safe_until),
        past,
        &mut NoPort,
    ) {
        let look = Ask::Look(t);
        return Some(machine.advance_on(look, END, &lines, Tick(far), past, &mut NoPort));
    }
    None
}

// Returns true if two strides ask the question of a run up to both looks, and reach its state,
// twice, and are rolled back to a twin.
fn are_strides(
    machine: &mut ParaMachine,
    twin: &ParaMachine,
    (other, want): &(ParaMachine, Ask),
    past: &mut Past,
    (safe_until, far): (u64, u64),
) -> bool {
    let mut is_right = true;
    for _ in 0..2 {
        let ask = strode(machine, past, safe_until, far);
        is_right = ask == Some(*want) && same(machine, other) && is_right;
        machine.rewind(past);
        is_right = same(machine, twin) && is_right;
    }
    is_right
}

// Returns true if this holds for new machines.
fn new_ones_stride(alloc: Global, (clock, code, safe_until, far, _): Row) -> Result<bool, Fail> {
    let make = || fresh(alloc, clock, code);
    let others = pair(
        pair(make(), make),
        || begun(alloc, clock, code, safe_until.max(far)),
    );
    with_new(
        pair(others, || past(alloc)),
        |(((machine, twin), other), past)| {
            are_strides(machine, twin, other, past, (safe_until, far))
        },
    )
}

#[test]
fn strides_go_on_from_one_mark(rt: HostRuntime) -> Result<(), Fail> {
    for line in STRIDES.lines() {
        assert!(rt; row_of(line).is_some(), "{line}");
        let row = row_of(line).unwrap_or(NO_ROW);
        assert!(rt; new_ones_stride(rt.alloc(), row)?, "{line}");
    }
    Ok(())
}

// Returns the reads of the poll. A turn of it takes twelve cycles, and the last read ends it. The
// machine runs in the RAM from before the first read on.
fn reads_of(clock: Clock) -> &'static str {
    match clock {
        Clock::Three => "00000003A0 P R 0 00;00000003B8 P R 0 00;00000003D0 P R 0 80;",
        Clock::Four => "0000000570 P R 0 00;0000000594 P R 0 00;00000005B8 P R 0 80;",
    }
}

// Replays the poll against these reads up to a tick.
fn polled(alloc: Global, clock: Clock, t: u16) -> Result<Ended, Fail> {
    replayed(alloc, clock, POLL, t, reads_of(clock))
}

// A port that answers one access with a byte, and no other.
#[derive(Drop)]
struct Once {
    byte: Option<u8>,
}

impl TubePort for Once {
    ghost use Rattle.std.specs.Prelude.{ℕ, Option, ◌≡◌, None, Some};

    ghost State = { Option ℕ };

    ghost state = { λ d. d.byte };

    ghost answers = { λ before tick op byte after. (before ≡ Some byte) × (after ≡ None) };

    fn may_answer(&self, _from: Tick, _to: Tick) -> bool {
        self.byte.is_some()
    }

    fn answers_single_accesses(&self) -> bool {
        true
    }

    fn ask(&mut self, _tick: Tick, _op: Op) -> Option<u8> {
        self.byte.take()
    }
}

// Returns the questions after the first stride and after each of two reads that are answered ahead.
#[tactic(auto, using(tube_party::specs::Steps::left_pending))]
fn answered(
    machine: &mut ParaMachine,
    past: &mut Past,
    safe_until: u64,
) -> (Option<Ask>, Option<Ask>, Option<Ask>) {
    let lines = Chip::new().lines();
    let far = Tick(2_000);
    let first = machine.advance_noting(END, &lines, far, past, &mut NoPort);
    let Some(Ask::Access(tick, Op::Read(number))) = first else {
        return (first, None, None);
    };
    let ask = Ask::Access(tick, Op::Read(number));
    let mut port = Once { byte: Some(0) };
    let second = machine.advance_on(ask, END, &lines, far, past, &mut port);
    let Ask::Access(tick, Op::Read(number)) = second else {
        return (first, Some(second), None);
    };
    let ask = Ask::Access(tick, Op::Read(number));
    let mut port = Once { byte: Some(0x80) };
    let third = machine.advance_on(ask, END, &lines, Tick(safe_until), past, &mut port);
    (first, Some(second), Some(third))
}

// Returns true if two reads are answered ahead with these questions, and are rolled back to a twin.
// They are answered twice: nothing of the first time may be left.
fn are_answered(
    machine: &mut ParaMachine,
    twin: &ParaMachine,
    other: &ParaMachine,
    past: &mut Past,
    safe_until: u16,
    want: (Option<Ask>, Option<Ask>, Option<Ask>),
) -> bool {
    let mut is_right = true;
    for _ in 0..2 {
        let asks = answered(machine, past, u64::from(safe_until));
        is_right = asks == want && same(machine, other) && is_right;
        machine.rewind(past);
        is_right = same(machine, twin) && is_right;
    }
    is_right
}

// Returns true if the last two reads come at these ticks and are answered ahead from a checkpoint
// after the first. In the last stride, looks below tick `safe_until` are safe, and `look` is asked.
// The state must be that of a run with all reads up to that look.
fn is_answered(
    alloc: Global,
    clock: Clock,
    (first, second, third): (u16, u16, u16),
    (safe_until, look): (u16, u16),
) -> Result<bool, Fail> {
    let read_at = |t: u16| Some(Ask::Access(Tick(u64::from(t)), Op::Read(0)));
    let want = (
        read_at(second),
        read_at(third),
        Some(Ask::Look(Tick(u64::from(look)))),
    );
    let make = || polled(alloc, clock, first.wrapping_add(1));
    let others = pair(pair(make(), make), || polled(alloc, clock, look));
    with_new(
        pair(others, || past(alloc)),
        |(((machine, twin), other), past)| {
            other.1.is_none()
                && are_answered(&mut machine.0, &twin.0, &other.0, past, safe_until, want)
        },
    )
}

#[test]
fn reads_are_answered_from_one_mark(rt: HostRuntime) -> Result<(), Fail> {
    let reads = (0x3a0, 0x3b8, 0x3d0);
    for looks in [(0x3d1, 0x3d1), (0x3d6, 0x3db), (2_000, 2_001)] {
        let is_right = is_answered(rt.alloc(), Clock::Three, reads, looks)?;
        assert!(rt; is_right, "{}", looks.0);
    }
    let reads = (0x570, 0x594, 0x5b8);
    for looks in [(0x5ba, 0x5ba), (0x5c1, 0x5c9), (3_000, 3_002)] {
        let is_right = is_answered(rt.alloc(), Clock::Four, reads, looks)?;
        assert!(rt; is_right, "{}", looks.0);
    }
    Ok(())
}

// The clock, the code, the tick up to which it advances, the tick of its speculation's end, and the
// look that it asks for then. The reset at power-on takes 14 ticks or 21, and then a look comes
// every second tick or every third.
const HELD: &str = "\
3 loop 0 1000 1001
3 loop 500 500 501
3 loop 500 9000 9001
3 loop 14 15 15
4 loop 0 1000 1001
4 loop 500 500 500
4 loop 500 9000 9002
4 loop 21 23 23
4 loop 21 24 26
";

// Returns true if both ask the same at first, and one then advances ahead, held, to a look, twice,
// and is rolled back to the other.
fn goes_ahead_held(
    machine: &mut ParaMachine,
    twin: &mut ParaMachine,
    past: &mut Past,
    lines: &Lines,
    (from, safe_until, look): (u64, u64, u64),
) -> bool {
    let ask = machine.advance_seeing(END, lines, Tick(from));
    let mut is_right = twin.advance_seeing(END, lines, Tick(from)) == ask;
    for _ in 0..2 {
        let ask = machine.advance_noting(END, lines, Tick(safe_until), past, &mut NoPort);
        is_right = ask == Some(Ask::Look(Tick(look))) && machine.held() && is_right;
        machine.rewind(past);
        is_right = same(machine, twin) && is_right;
    }
    is_right
}

#[test]
fn a_held_machine_goes_ahead_too(rt: HostRuntime) -> Result<(), Fail> {
    let mut chip = Chip::new();
    // P is set: one reset, whose line stays asserted.
    let _ = chip.apply(Side::Host, Op::Write(0, 0xa0));
    let lines = chip.lines();
    for line in HELD.lines() {
        let (clock, code, from, safe_until, look) = row_of(line).unwrap_or(NO_ROW);
        let make = || fresh(rt.alloc(), clock, code);
        let held = pair(pair(make(), make), || past(rt.alloc()));
        let is_right = with_new(held, |((machine, twin), past)| {
            goes_ahead_held(machine, twin, past, &lines, (from, safe_until, look))
        })?;
        assert!(rt; is_right, "{line}");
    }
    Ok(())
}
