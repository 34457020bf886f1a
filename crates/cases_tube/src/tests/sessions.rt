//! Session files, whole, damaged and cut; and two parties that continue from the accesses of a
//! session.
ghost use Rattle.std.specs.Prelude.{◌≡◌, ◌<◌, All, true};
ghost use Rattle.tube_chip.specs.Events.{Rises};
ghost use Rattle.tube_trace.specs.Entries.{IsEntry, events_of};
ghost use Rattle.tube_party.specs.Reference.{IsTraceBelow};

use crate::tests::parties::{Probe, Writer, at_power_on, entries_of};
use beeb_bits::{Clock, Side, Tick};
use save_state::{
    Blob, ResumeError, Saved, StateError, decode, encode, resume, saved_run_is_resumed,
};
use std::alloc::{AllocError, Global};
use std::test::Fail;
use tube_chip::Op;
use tube_party::{
    Doing, Done, Forward, Room, brought_back_is_reference, go_on_from, shorter_run_is_beginning,
    solo,
};
use tube_trace::{Entry, first_wrong};

/// The offsets of the fields after both ROMs: the lengths of the sixteen slots, of the font, of a
/// disc with its kind and its bytes, of the other, of the key script with its bytes, the number of
/// the accesses, three of them, and the end.
const TAIL: [usize; 29] = [
    18451, 18455, 18459, 18463, 18467, 18471, 18475, 18479, 18483, 18487, 18491, 18495, 18499,
    18503, 18507, 18511, 18515, 18519, 18523, 18524, 18527, 18531, 18532, 18533, 18537, 18539,
    18543, 18550, 18557,
];

/// The number of bytes of the file.
const LENGTH: usize = 18564;

/// Makes the beginning of a file of speed 03: its tick's low bytes and its devices, ROMs of these
/// bytes, and `missing` missing parts.
fn beginning(
    alloc: Global,
    [high, low, devices]: [u8; 3],
    os: u8,
    tube: u8,
    missing: u8,
) -> Result<Vec<u8>, AllocError> {
    let mut file = Vec::new(alloc);
    file.extend_from_slice(&[b'B', b'T', b'U', b'B', 1, 3, 0, 0, high, low, devices])?;
    file.extend_from_slice(&[0, 0, 0x40, 0])?;
    for _ in 0..16384 {
        file.push(os)?;
    }
    file.extend_from_slice(&[0, 0, 8, 0])?;
    for _ in 0..2048 {
        file.push(tube)?;
    }
    for _ in 0..missing {
        file.extend_from_slice(&[0xff, 0xff, 0xff, 0xff])?;
    }
    Ok(file)
}

/// Makes a file by hand: speed 03, tick 1000, two devices, both ROMs, a DSD of three bytes, an SSD
/// of one, a script of two, and three accesses.
fn file(alloc: Global) -> Result<Vec<u8>, AllocError> {
    let mut file = beginning(alloc, [0x03, 0xe8, 2], 0xa5, 0x5a, 17)?;
    file.extend_from_slice(&[0, 0, 0, 3, 1, 7, 8, 9])?;
    file.extend_from_slice(&[0, 0, 0, 1, 0, 6])?;
    file.extend_from_slice(&[0, 0, 0, 2, b'h', b'i'])?;
    file.extend_from_slice(&[0, 0, 0, 3])?;
    file.extend_from_slice(&[0, 0, 0, 0, 5, 0x21, 0x48])?;
    file.extend_from_slice(&[0, 0, 0, 0, 5, 0x86, 0x33])?;
    file.extend_from_slice(&[0, 0, 0, 3, 0xe7, 0x40, 0])?;
    Ok(file)
}

/// Makes the file with these bytes from an offset on.
fn damaged(alloc: Global, at: usize, bytes: &[u8]) -> Result<Vec<u8>, AllocError> {
    let mut other = Vec::new(alloc);
    for (place, byte) in file(alloc)?.iter().enumerate() {
        let mut new = *byte;
        for (more, damage) in bytes.iter().enumerate() {
            if place == at.saturating_add(more) {
                new = *damage;
            }
        }
        other.push(new)?;
    }
    Ok(other)
}

/// Returns the offset of the fault, if there is one.
fn fault(alloc: Global, bytes: &[u8]) -> Option<u64> {
    match decode(alloc, bytes) {
        Ok(_) | Err(StateError::NoMemory) => None,
        Err(StateError::BadField { at }) => Some(at),
    }
}

fn same(blob: Option<&Option<Blob>>, bytes: &[u8]) -> bool {
    match blob {
        Some(Some(blob)) => blob.bytes() == bytes,
        _ => false,
    }
}

#[test]
fn a_session_by_hand(rt: HostRuntime) -> Result<(), Fail> {
    let bytes = file(rt.alloc())?;
    assert_eq!(rt; bytes.len(), LENGTH);
    let saved = decode(rt.alloc(), &bytes)?;
    assert_eq!(rt; saved.clock, Clock::Three);
    assert_eq!(rt; saved.ticks, Tick(1000));
    assert_eq!(rt; saved.plugs, 2);
    assert_eq!(rt; saved.parts.len(), 22);
    for (place, part) in saved.parts.iter().enumerate() {
        let is_there = place < 2 || place > 18;
        assert_eq!(rt; part.is_some(), is_there);
    }
    assert!(rt; same(saved.parts.get(19), &[7, 8, 9]));
    assert!(rt; same(saved.parts.get(20), &[6]));
    assert!(rt; same(saved.parts.get(21), b"hi"));
    assert_eq!(rt; saved.dsd, [true, false]);
    let entries = [
        Entry {
            tick: Tick(5),
            side: Side::Host,
            op: Op::Write(1, 0x48),
            answer: 0,
        },
        Entry {
            tick: Tick(5),
            side: Side::Para,
            op: Op::Read(6),
            answer: 0x33,
        },
        Entry {
            tick: Tick(999),
            side: Side::Host,
            op: Op::Reset,
            answer: 0,
        },
    ];
    assert_eq!(rt; saved.entries.as_slice(), entries.as_slice());
    let again = encode(rt.alloc(), &saved)?;
    assert_eq!(rt; again.as_slice(), bytes.as_slice());
    Ok(())
}

#[test]
fn the_first_field_at_fault_is_told(rt: HostRuntime) -> Result<(), Fail> {
    let rows: [(usize, &[u8], Option<u64>); 43] = [
        (0, b"b", Some(0)),
        (3, b"b", Some(0)),
        (4, &[0], Some(4)),
        (4, &[2], Some(4)),
        (5, &[2], Some(5)),
        (5, &[5], Some(5)),
        (5, &[4], None),
        (6, &[0x40, 0, 0, 0], None),
        (6, &[0x40, 0, 0, 1], Some(6)),
        (10, &[8], None),
        (10, &[9], Some(10)),
        (11, &[0, 0, 0x3f, 0xff], Some(11)),
        (11, &[0xff, 0xff, 0xff, 0xff], Some(11)),
        (16399, &[0, 0, 8, 1], Some(16399)),
        (16399, &[0xff, 0xff, 0xff, 0xff], Some(16399)),
        (18451, &[0, 0, 0, 0], Some(18451)),
        (18511, &[0, 0, 0x30, 0], Some(18511)),
        (18511, &[0, 0, 0x40, 0], Some(18564)),
        (18511, &[0, 0, 0x20, 0], Some(18564)),
        (18515, &[0, 0, 3, 0xbf], Some(18515)),
        (18519, &[0, 6, 0x40, 1], Some(18519)),
        (18523, &[2], Some(18523)),
        // An SSD has at most 204,800 bytes: above that the kind is at fault, otherwise the file
        // ends.
        (18527, &[0, 3, 0x20, 1, 0], Some(18531)),
        (18527, &[0, 3, 0x20, 1, 1], Some(18564)),
        (18527, &[0, 3, 0x20, 0, 0], Some(18564)),
        (18527, &[0, 6, 0x40, 0, 1], Some(18564)),
        (18531, &[1], None),
        (18533, &[0, 0x10, 0, 1], Some(18533)),
        (18533, &[0, 0x10, 0, 0], Some(18564)),
        (18539, &[0, 0x40, 0, 1], Some(18539)),
        (18539, &[0, 0x40, 0, 0], Some(18564)),
        (18539, &[0, 0, 0, 2], Some(18557)),
        (18543, &[1], Some(18543)),
        (18547, &[6], Some(18550)),
        (18548, &[0x29], Some(18543)),
        (18548, &[0x31], Some(18543)),
        (18548, &[0x61], Some(18543)),
        // The parasite's, and at its tick another.
        (18548, &[0xa1], Some(18550)),
        (18562, &[0xc0], Some(18557)),
        (18562, &[0x41], Some(18557)),
        (18562, &[0x40, 1], Some(18557)),
        (18561, &[0xe8], Some(18557)),
        (18562, &[0], None),
    ];
    for (at, bytes, want) in rows {
        let other = damaged(rt.alloc(), at, bytes)?;
        assert_eq!(rt; fault(rt.alloc(), &other), want);
    }
    Ok(())
}

#[test]
fn a_file_that_ends_early_or_late(rt: HostRuntime) -> Result<(), Fail> {
    let bytes = file(rt.alloc())?;
    for len in 0..17 {
        let cut = &bytes[..bytes.len().min(len)];
        assert_eq!(rt; fault(rt.alloc(), cut), Some(cut.len() as u64));
    }
    for place in TAIL {
        for less in 0..3 {
            let len = bytes.len().min(place.saturating_sub(less));
            assert_eq!(rt; fault(rt.alloc(), &bytes[..len]), Some(len as u64));
        }
    }
    let mut longer = file(rt.alloc())?;
    longer.push(0)?;
    assert_eq!(rt; fault(rt.alloc(), &longer), Some(LENGTH as u64));
    Ok(())
}

/// Makes a file of both ROMs and 49 accesses, the last the host's at 3FC.
fn file_of_letters(alloc: Global) -> Result<Vec<u8>, AllocError> {
    let mut file = beginning(alloc, [0x07, 0xd0, 0], 0, 0, 20)?;
    file.extend_from_slice(&[0, 0, 0, 49])?;
    for place in 0..49 {
        file.extend_from_slice(&[0, 0, 0, 3, 0xcc + place, 1, 0x49])?;
    }
    Ok(file)
}

#[test]
fn a_session_of_49_accesses(rt: HostRuntime) -> Result<(), Fail> {
    let bytes = file_of_letters(rt.alloc())?;
    assert_eq!(rt; bytes.len(), 18878);
    let saved = decode(rt.alloc(), &bytes)?;
    assert_eq!(rt; saved.ticks, Tick(2000));
    assert_eq!(rt; saved.entries.len(), 49);
    let again = encode(rt.alloc(), &saved)?;
    assert_eq!(rt; again.as_slice(), bytes.as_slice());
    assert!(rt; again.as_slice().ends_with(&[0, 0, 0, 3, 0xfc, 1, 0x49]));
    let less = bytes.len().saturating_sub(1);
    assert_eq!(rt; fault(rt.alloc(), &bytes[..less]), Some(18877));
    Ok(())
}

#[test]
fn the_parts_of_a_session_are_handed_on(rt: HostRuntime) -> Result<(), Fail> {
    let Saved { parts, .. } = decode(rt.alloc(), &file(rt.alloc())?)?;
    let mut sizes = 0;
    for part in parts {
        if let Some(blob) = part {
            let bytes = Blob::new(blob.into_bytes()).into_bytes();
            sizes = bytes.len().saturating_add(sizes);
        }
    }
    assert_eq!(rt; sizes, 16384 + 2048 + 3 + 1 + 2);
    Ok(())
}

/// Returns true if the entries are before a tick.
fn are_below(entries: &[Entry], at: Tick) -> bool
    ensures { result ≡ true → All (λ e. (e.tick).0 < at.0) entries.now }
{
    for entry in entries {
        if at <= entry.tick {
            return false;
        }
    }
    true
}

/// Returns true if they are before it, and the chip gives their answers.
fn is_legal(entries: &[Entry], at: Tick) -> bool
    requires each { All IsEntry entries.now }
    requires rises { Rises (events_of entries.now) }
    ensures { result ≡ true → IsTraceBelow at.0 entries.now }
{
    if !are_below(entries, at) {
        return false;
    }
    match first_wrong(entries) {
        None => true,
        Some(_) => false,
    }
}

/// Makes the writer of a session, which writes 1 to register 1 at tick 10.
fn writer() -> Writer
    ensures { (result.due ≡ 10) × (result.lag ≡ 10) }
{
    Writer {
        due: 10,
        byte: 1,
        lag: 10,
    }
}

/// Makes a probe that is never rolled back.
fn forward() -> Forward<Probe>
    ensures { (result.party.due ≡ 5) × (result.party.lag ≡ 5) }
{
    Forward {
        party: at_power_on(),
    }
}

/// Returns true if two runs ended the same.
fn same_end(one: &Done<Writer, Forward<Probe>>, other: &Done<Writer, Forward<Probe>>) -> bool {
    let parties = one.host.due == other.host.due
        && one.host.byte == other.host.byte
        && one.host.lag == other.host.lag
        && one.para.party.due == other.para.party.due
        && one.para.party.lag == other.para.party.lag;
    parties
        && one.chip.lines() == other.chip.lines()
        && one.host_list == other.host_list
        && one.para_list == other.para_list
        && one.host_count == other.host_count
        && one.para_count == other.para_count
}

#[test]
fn a_session_goes_on_as_the_whole_run(rt: HostRuntime) -> Result<(), Fail> {
    // The accesses of the session, its tick, the ticks of the run, the number of accesses to keep,
    // those of each side as a trace, and their total number on either side.
    let rows: [(&str, u16, u16, u32, &str, &str, u8); 9] = [
        // Nothing was done before, because there were no ticks, or none with an access.
        (
            "",
            0,
            26,
            9,
            "~0A H W 1 01;~14 H W 1 02;",
            "~0A P R 0 C0;~14 P R 0 C0;",
            2,
        ),
        ("", 10, 26, 1, "~0A H W 1 01;", "~0A P R 0 C0;", 2),
        ("", 0, 0, 9, "", "", 0),
        // The moment lies between the accesses.
        (
            "~0A H W 1 01;~0A P R 0 C0;",
            11,
            26,
            9,
            "~0A H W 1 01;~14 H W 1 02;",
            "~0A P R 0 C0;~14 P R 0 C0;",
            2,
        ),
        (
            "~0A H W 1 01;~0A P R 0 C0;",
            20,
            36,
            2,
            "~0A H W 1 01;~14 H W 1 02;",
            "~0A P R 0 C0;~14 P R 0 C0;",
            3,
        ),
        // As many are kept as the session has, or fewer.
        (
            "~0A H W 1 01;~0A P R 0 C0;~14 H W 1 02;~14 P R 0 C0;",
            21,
            36,
            1,
            "~0A H W 1 01;",
            "~0A P R 0 C0;",
            3,
        ),
        ("~0A H W 1 01;~0A P R 0 C0;", 15, 36, 0, "", "", 3),
        // The run ends at the moment.
        (
            "~0A H W 1 01;~0A P R 0 C0;",
            20,
            20,
            9,
            "~0A H W 1 01;",
            "~0A P R 0 C0;",
            1,
        ),
        ("", 10, 10, 9, "", "", 0),
    ];
    for (text, at, n, keep, host_text, para_text, count) in rows {
        let entries = entries_of(rt.alloc(), text)?;
        let (at, n) = (Tick(at as u64), Tick(n as u64));
        let probe = forward();
        if n < at || !is_legal(&entries, at) {
            return Err(Fail::from("no session"));
        }
        let Ok(done) = resume(rt.alloc(), writer(), probe, &entries, at, n, keep) else {
            return Err(Fail::from("no memory, or a difference"));
        };
        assert_eq!(rt; done.host_list, entries_of(rt.alloc(), host_text)?);
        assert_eq!(rt; done.para_list, entries_of(rt.alloc(), para_text)?);
        assert_eq!(rt;
            (done.host_count, done.para_count),
            (count as u64, count as u64)
        );
        let probe = forward();
        let Ok(whole) = solo(rt.alloc(), writer(), probe, n, keep) else {
            return Err(Fail::from("no memory"));
        };
        assert!(rt; same_end(&done, &whole));
    }
    brought_back_is_reference::<Writer, Probe>();
    shorter_run_is_beginning::<Writer, Probe>();
    saved_run_is_resumed::<Writer, Probe>();
    Ok(())
}

#[test]
fn two_parties_go_on_behind_others(rt: HostRuntime) -> Result<(), Fail> {
    // Accesses of other parties, the number of accesses to keep, those of each side as a trace, and
    // their total numbers. The parasite's machine finds the other parties' byte at its first read.
    let rows: [(&str, u32, &str, &str, u8, u8); 3] = [
        ("", 9, "", "~0A P R 0 40;", 0, 1),
        (
            "~01 H W 1 41;~03 P R 0 C0;",
            9,
            "~01 H W 1 41;",
            "~03 P R 0 C0;~0A P R 0 C0;",
            1,
            2,
        ),
        (
            "~01 H W 1 41;~03 P R 0 C0;",
            1,
            "~01 H W 1 41;",
            "~03 P R 0 C0;",
            1,
            2,
        ),
    ];
    for (text, keep, host_text, para_text, host_count, para_count) in rows {
        let entries = entries_of(rt.alloc(), text)?;
        let late = Writer {
            due: 40,
            byte: 1,
            lag: 40,
        };
        let probe = forward();
        let room = Room::new(rt.alloc(), keep)?;
        let done = go_on_from(late, probe, &entries, Tick(20), room);
        assert_eq!(rt; done.host_list, entries_of(rt.alloc(), host_text)?);
        assert_eq!(rt; done.para_list, entries_of(rt.alloc(), para_text)?);
        assert_eq!(rt; done.host_count, host_count as u64);
        assert_eq!(rt; done.para_count, para_count as u64);
    }
    Ok(())
}

fn done_at(tick: u64, side: Side, op: Op) -> Option<Doing> {
    Some(Doing {
        tick: Tick(tick),
        side,
        op,
    })
}

#[test]
fn the_first_difference_of_a_session_is_told(rt: HostRuntime) -> Result<(), Fail> {
    // The accesses of the session, its tick, the line at which a party differs, and its access
    // there.
    let rows: [(&str, u16, u64, Option<Doing>); 6] = [
        // The host's difference comes first, even if the parasite's is on an earlier line.
        (
            "~04 P R 0 40;~0A H W 1 02;",
            20,
            2,
            done_at(10, Side::Host, Op::Write(1, 1)),
        ),
        // The parasite's, if the host has none.
        (
            "~04 P R 0 40;~0A H W 1 01;",
            20,
            1,
            done_at(10, Side::Para, Op::Read(0)),
        ),
        // No access of the side is left: one past the list.
        ("~0A H W 1 01;", 20, 2, done_at(10, Side::Para, Op::Read(0))),
        ("", 11, 1, done_at(10, Side::Host, Op::Write(1, 1))),
        // One is left, and the party does nothing more.
        ("~0A H W 1 01;~0A P R 0 C0;~0E H W 1 02;", 15, 3, None),
        ("~0A H W 1 01;~0A P R 0 C0;~0E P R 0 C0;", 15, 3, None),
    ];
    for (text, at, line, doing) in rows {
        let entries = entries_of(rt.alloc(), text)?;
        let at = Tick(at as u64);
        let probe = forward();
        if !is_legal(&entries, at) {
            return Err(Fail::from("no session"));
        }
        match resume(rt.alloc(), writer(), probe, &entries, at, Tick(70_000), 9) {
            Ok(_) | Err(ResumeError::NoMemory { .. }) => {
                return Err(Fail::from("no difference"));
            }
            Err(
                ResumeError::Differs {
                    line: found,
                    doing: told,
                },
            ) => {
                assert_eq!(rt; (found, told), (line, doing));
            }
        }
    }
    Ok(())
}
