//! Texts of traces, in form and out of it.
use beeb_bits::{Clock, Side, Tick};
use std::alloc::{AllocError, Global};
use std::test::Fail;
use tube_chip::Op;
use tube_trace::{Entry, TraceError, first_wrong, merge, push_access, read, write, write_both};

#[test]
fn a_line_tells_of_one_access(rt: HostRuntime) -> Result<(), Fail> {
    let rows = [
        (
            b"0000000000 H R 0 40\n",
            Entry {
                tick: Tick(0),
                side: Side::Host,
                op: Op::Read(0),
                answer: 0x40,
            },
        ),
        (
            b"00000003FC P W 1 49\n",
            Entry {
                tick: Tick(0x3fc),
                side: Side::Para,
                op: Op::Write(1, 0x49),
                answer: 0,
            },
        ),
        (
            b"FFFFFFFFFF P R 7 A0\n",
            Entry {
                tick: Tick((1 << 40) - 1),
                side: Side::Para,
                op: Op::Read(7),
                answer: 0xa0,
            },
        ),
        (
            b"0000000006 H X 0 00\n",
            Entry {
                tick: Tick(6),
                side: Side::Host,
                op: Op::Reset,
                answer: 0,
            },
        ),
    ];
    for (text, entry) in rows {
        let trace = read(rt.alloc(), text)?;
        assert_eq!(rt; trace.clock, Clock::Three);
        assert_eq!(rt; trace.entries.len(), 1);
        assert_eq!(rt; trace.entries[0], entry);
        let again = write(rt.alloc(), Clock::Three, &trace.entries)?;
        assert_eq!(rt; again.as_slice(), text.as_slice());
    }
    Ok(())
}

#[test]
fn a_trace_of_each_clock_is_read_and_written(rt: HostRuntime) -> Result<(), Fail> {
    let entry = |tick| {
        Some(Entry {
            tick: Tick(tick),
            side: Side::Para,
            op: Op::Write(1, 0x48),
            answer: 0,
        })
    };
    let rows = [
        (Clock::Three, None, ""),
        (Clock::Four, None, "T2\n"),
        (Clock::Three, entry(0x18), "0000000018 P W 1 48\n"),
        (Clock::Four, entry(0x24), "T2\n0000000024 P W 1 48\n"),
    ];
    for (clock, first, text) in rows {
        let trace = read(rt.alloc(), text.as_bytes())?;
        assert_eq!(rt; trace.clock, clock);
        assert_eq!(rt; trace.entries.first().copied(), first);
        assert_eq!(rt; trace.entries.len(), first.iter().count());
        let again = write(rt.alloc(), clock, &trace.entries)?;
        assert_eq!(rt; again.as_slice(), text.as_bytes());
    }
    Ok(())
}

// Two equal ticks, and a side that ends before the other.
#[test]
fn two_sides_are_merged_by_tick_and_the_host_first(rt: HostRuntime) -> Result<(), Fail> {
    let entry = |tick, side, number| Entry {
        tick: Tick(tick),
        side,
        op: Op::Read(number),
        answer: 0x3f,
    };
    let host = [
        entry(6, Side::Host, 0),
        entry(9, Side::Host, 1),
        entry(12, Side::Host, 2),
    ];
    let para = [entry(3, Side::Para, 3), entry(9, Side::Para, 4)];
    let all = [para[0], host[0], host[1], para[1], host[2]];
    for (keep, length) in [(0, 0), (1, 1), (3, 3), (9, 5)] {
        let entries = merge(rt.alloc(), &host, &para, keep)?;
        assert_eq!(rt; entries.as_slice(), &all[..length]);
        let text = write_both(rt.alloc(), Clock::Four, &host, &para, keep)?;
        assert_eq!(rt; text, write(rt.alloc(), Clock::Four, &all[..length])?);
    }
    Ok(())
}

#[test]
fn an_access_that_asks_has_no_byte_to_read(rt: HostRuntime) -> Result<(), Fail> {
    let mut text = Vec::new(rt.alloc());
    push_access(&mut text, Tick(0x3a6), Side::Para, Op::Write(1, 0x49))?;
    push_access(&mut text, Tick(0), Side::Host, Op::Read(7))?;
    push_access(&mut text, Tick(6), Side::Host, Op::Reset)?;
    assert_eq!(rt;
        text.as_slice(),
        b"00000003A6 P W 1 490000000000 H R 7 --0000000006 H X 0 00".as_slice()
    );
    Ok(())
}

// A line is a text's result: its clock and the number of its entries, or the line that is out of
// form or order. After `@` comes the text, in which `|` ends a line.
const TEXTS: &str = "\
three 0@
three 2@0000000006 H W 3 5A|0000000006 P R 2 FF|
order 2@0000000006 P R 2 FF|0000000006 H W 3 5A|
order 2@0000000006 H R 2 FF|0000000006 H R 2 FF|
order 2@0000000007 H R 2 FF|0000000006 P R 2 FF|
# A bad line before the order is broken, behind it, and on the line that breaks it.
bad 1@x|0000000006 P R 2 FF|0000000006 H W 3 5A|
order 2@0000000006 P R 2 FF|0000000006 H W 3 5A|x|
bad 2@0000000006 P R 2 FF|0000000006 H W 8 5A|
# The last line without its line feed, and without its last digit.
bad 1@0000000000 H R 0 40
bad 2@0000000000 H R 0 40|0000000001 H R 0 40
bad 1@0000000000 H R 0 4
bad 1@0000000000 H R 0 4|
bad 1@|
bad 2@0000000000 H R 0 40||
bad 1@0000000000 H R 0 40\r|
# Each place of a line.
bad 1@00000000aa H R 0 40|
bad 1@000000000G H R 0 40|
bad 1@0000000000-H R 0 40|
bad 1@0000000000 h R 0 40|
bad 1@0000000000 H Y 0 00|
bad 1@0000000000 H R 8 40|
bad 1@0000000000 H R / 40|
bad 1@0000000000 H R 0 4a|
bad 1@00000000000 H R 0 40|
# Behind the beginning of clock Four the lines are those of any trace, and count from 1.
four 0@T2|
four 1@T2|0000000024 P W 1 48|
four 2@T2|0000000006 H W 3 5A|0000000006 P R 2 FF|
order 2@T2|0000000006 P R 2 FF|0000000006 H W 3 5A|
bad 1@T2|x|
bad 1@T2||
bad 2@T2|0000000024 P W 1 48|x|
bad 2@T2|0000000024 P W 1 48|T2|
bad 1@T2|T2|
# `T2` without its line feed, and what is nearly it.
bad 1@T2
bad 1@T20000000024 P W 1 48|
bad 1@T2\r|
bad 1@t2|
bad 1@|T2|
bad 2@0000000024 P W 1 48|T2|
";

fn wanted(outcome: &str) -> Option<Result<(Clock, usize), TraceError>> {
    let (kind, number) = outcome.split_once(' ')?;
    let n: u8 = number.parse().ok()?;
    match kind {
        "three" => Some(Ok((Clock::Three, n as usize))),
        "four" => Some(Ok((Clock::Four, n as usize))),
        "bad" => Some(Err(TraceError::BadLine { line: n as u64 })),
        _ => Some(Err(TraceError::BadOrder { line: n as u64 })),
    }
}

// Returns the result of a text, in which `|` ends a line.
fn outcome(alloc: Global, source: &str) -> Result<Result<(Clock, usize), TraceError>, AllocError> {
    let mut text = source.as_bytes().to_vec(alloc)?;
    for byte in text.iter_mut() {
        if *byte == b'|' {
            *byte = b'\n';
        }
    }
    Ok(match read(alloc, &text) {
        Ok(trace) => Ok((trace.clock, trace.entries.len())),
        Err(error) => Err(error),
    })
}

#[test]
fn the_first_line_outside_the_form_or_the_order_is_told(rt: HostRuntime) -> Result<(), Fail> {
    for line in TEXTS.lines() {
        if let Some((want, source)) = line.split_once('@') {
            let got = outcome(rt.alloc(), source)?;
            assert!(rt; Some(got) == wanted(want), "{line}");
        }
    }
    Ok(())
}

#[test]
fn the_first_wrong_answer_is_told(rt: HostRuntime) -> Result<(), Fail> {
    let rows: [(&str, Option<(usize, u8)>); 6] = [
        ("", None),
        ("0000000000 H R 0 40\n", None),
        ("0000000000 H R 0 00\n", Some((0, 0x40))),
        (
            "0000000000 H W 1 77\n0000000001 P R 1 77\n0000000002 P R 1 00\n",
            Some((2, 0x77)),
        ),
        (
            "0000000000 H W 0 9F\n0000000003 H R 0 5F\n0000000006 H X 0 00\n0000000009 H R 0 40\n",
            None,
        ),
        // The reset discards the byte that the parasite has not read yet.
        (
            "0000000000 H W 3 77\n0000000006 H X 0 00\n0000000006 P R 2 7F\n0000000009 P R 3 77\n",
            Some((3, 0x00)),
        ),
    ];
    for (text, want) in rows {
        let trace = read(rt.alloc(), text.as_bytes())?;
        assert_eq!(rt; first_wrong(&trace.entries), want, "{text}");
    }
    Ok(())
}

#[test]
fn each_refusal_of_a_trace_has_a_text(rt: HostRuntime) -> Result<(), Fail> {
    let rows = [
        (
            TraceError::BadLine { line: 3 },
            "line 3 is outside the form of a trace",
        ),
        (
            TraceError::BadOrder { line: 4 },
            "line 4 is not after the line before it",
        ),
        (TraceError::NoMemory, "no memory"),
    ];
    for (error, want) in rows {
        let text = format!(in rt.alloc(); "{error}")?;
        assert_eq!(rt; text.as_str(), want);
    }
    Ok(())
}
