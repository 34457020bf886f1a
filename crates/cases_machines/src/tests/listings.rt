//! Listings of both machines, run against short traces.
ghost use Rattle.std.specs.Prelude.{◌<◌, All, IfOk, IsTrue};

use super::held::entries_of;
use beeb_bits::{Clock, Side, Tick};
use bus_plug::RamCard;
use follow::{Choice, FollowError, Listing, Seen, list};
use host_mach::HostMachine;
use op_table::Part;
use para_mach::ParaMachine;
use rom_set::RomSet;
use std::alloc::Global;
use std::test::Fail;
use std::vec::Vec;
use tube_chip::Op;
use tube_party::{Doing, replay};

// Makes bytes 00, except for some parts.
fn image(alloc: Global, length: usize, parts: &[(usize, &[u8])]) -> Result<Vec<u8>, Fail> {
    let mut bytes = vec![in alloc; 0; length]?;
    for (start, part) in parts {
        for (i, byte) in part.iter().enumerate() {
            if let Some(at) = bytes.get_mut(start.wrapping_add(i)) {
                *at = *byte;
            }
        }
    }
    Ok(bytes)
}

// Two letters from register 1 to 0070 and 0071, and then JMP C011.
const TWO_LETTERS: &[u8] = &[
    0xa2, 0x00, 0xad, 0xe0, 0xfe, 0x10, 0xfb, 0xad, 0xe1, 0xfe, 0x95, 0x70, 0xe8, 0xe0, 0x02, 0xd0,
    0xf1, 0x4c, 0x11, 0xc0,
];

// Returns the bytes at F800, and at another place of the boot ROM, of the second processor's
// program of a name. NMI goes to F820, and IRQ to F840, which has JMP F840.
fn boot_of(name: &str) -> (&'static [u8], usize, &'static [u8]) {
    match name {
        // JMP F800
        "loop" => (&[0x4c, 0x00, 0xf8], 0, &[0x4c]),
        // CLI, and JMP F801
        "open" => (&[0x58, 0x4c, 0x01, 0xf8], 0, &[0x58]),
        // INC 80, PHA, STA F900, and JMP F800
        "writer" => (
            &[0xe6, 0x80, 0x48, 0x8d, 0x00, 0xf9, 0x4c, 0x00, 0xf8],
            0,
            &[0xe6],
        ),
        // JMP FEF7, and the opcode of LDA # there, below the Tube
        "gate" => (&[0x4c, 0xf7, 0xfe], 0x6f7, &[0xa9]),
        // JMP FFFE, and the first two bytes of a JMP there
        "end" => (&[0x4c, 0xfe, 0xff], 0x7fe, &[0x4c, 0x12]),
        // JMP FFFE, and LDA #&12 there
        "last" => (&[0x4c, 0xfe, 0xff], 0x7fe, &[0xa9, 0x12]),
        // INX, TXA, PHA, PLA, and JMP F800
        "pusher" => (&[0xe8, 0x8a, 0x48, 0x68, 0x4c, 0x00, 0xf8], 0, &[0xe8]),
        _ => (&[0x02], 0, &[0x02]),
    }
}

fn para(alloc: Global, name: &str) -> Result<ParaMachine, Fail> {
    let (code, start, other) = boot_of(name);
    let bytes = image(
        alloc,
        2_048,
        &[
            (0x40, &[0x4c, 0x40, 0xf8]),
            (0x7fa, &[0x20, 0xf8, 0x00, 0xf8, 0x40, 0xf8]),
            (0, code),
            (start, other),
        ],
    )?;
    Ok(ParaMachine::make(alloc, Clock::Three, bytes)?)
}

// LDA #&0E, STA FE30, LDA #&0F, STA FE30, LDA #&03, STA FE30, and JMP C00F
const PAGES: &[u8] = &[
    0xa9, 0x0e, 0x8d, 0x30, 0xfe, 0xa9, 0x0f, 0x8d, 0x30, 0xfe, 0xa9, 0x03, 0x8d, 0x30, 0xfe, 0x4c,
    0x0f, 0xc0,
];

// Returns the bytes at C000, and at another place of the operating system, of the host's program of
// a name.
fn os_of(name: &str) -> (&'static [u8], usize, &'static [u8]) {
    match name {
        "letters" => (TWO_LETTERS, 0, &[0xa2]),
        // An opcode that halts
        "halted" => (&[0x02], 0, &[0x02]),
        // JMP FBFF, and the opcode of LDA # there, below FRED
        "gate" => (&[0x4c, 0xff, 0xfb], 0x3bff, &[0xa9]),
        // JMP FFFE, and the first two bytes of a JMP there
        "end" => (&[0x4c, 0xfe, 0xff], 0x3ffe, &[0x4c, 0x12]),
        // JMP FFFE, and LDA #&12 there
        "last" => (&[0x4c, 0xfe, 0xff], 0x3ffe, &[0xa9, 0x12]),
        // INX, TXA, PHA, PLA, and JMP C000
        "pusher" => (&[0xe8, 0x8a, 0x48, 0x68, 0x4c, 0x00, 0xc0], 0, &[0xe8]),
        // The slots 14, 15 and 3, one after the other, and JMP C00F
        "pages" => (PAGES, 0, &[0xa9]),
        _ => (&[0x02], 0, &[0x02]),
    }
}

// Makes the ROMs: slot 14 has 8 KB that begin with 34, slot 15 has 16 KB that begin with 12, and
// the others nothing.
fn paged(alloc: Global) -> Result<Vec<(u8, Vec<u8>)>, Fail>
    ensures { IfOk result (λ roms. All (λ slot. slot.0 < 16) roms.items) }
{
    let short = image(alloc, 8_192, &[(0, &[0x34])])?;
    let long = image(alloc, 16_384, &[(0, &[0x12])])?;
    Ok(vec![in alloc; (14, short), (15, long)]?)
}

fn host(alloc: Global, name: &str) -> Result<HostMachine<RamCard>, Fail> {
    let (code, start, other) = os_of(name);
    let os = image(
        alloc,
        16_384,
        &[(0x3ffc, &[0x00, 0xc0]), (0, code), (start, other)],
    )?;
    let roms = RomSet::read(os, paged(alloc)?, None)?;
    let script = key_script::read(alloc, b"")?;
    let plugs: Vec<RamCard> = Vec::new(alloc);
    Ok(HostMachine::make(alloc, Clock::Three, roms, None, None, script, plugs)?)
}

// Returns `N of M` and the lines, each ended by `;`; or the first difference.
fn told(alloc: Global, listing: Result<Listing, FollowError>) -> Result<String, Fail> {
    match listing {
        Ok(listing) => {
            let mut text = format!(in alloc; "{} of {};", listing.listed, listing.chosen)?;
            for byte in &listing.text {
                text.push(if *byte == b'\n' {
                    ';'
                } else {
                    char::from(*byte)
                })?;
            }
            Ok(text)
        }
        Err(FollowError::Differs { line, doing }) => {
            let what = match doing {
                Some(
                    Doing {
                        tick,
                        side: Side::Host,
                        op: Op::Read(number),
                    },
                ) => format!(in alloc; "H {:X} R {number}", tick.0)?,
                _ => format!(in alloc; "-")?,
            };
            Ok(format!(in alloc; "differs {line} {what}")?)
        }
        Err(FollowError::NoMemory) => Ok(format!(in alloc; "no memory")?),
    }
}

fn address(digits: &str) -> Option<u16> {
    u16::from_str_radix(digits, 16).ok()
}

fn choice_of(at: Option<u16>, watch: Option<u16>) -> Choice {
    Choice {
        from: 0,
        at,
        points: None,
        watch,
        counts: false,
    }
}

// Returns the program, the ticks and the choice of a row.
fn head_of(row: &str) -> Option<(&str, u16, Choice)> {
    let mut words = row.split(' ');
    let name = words.next()?;
    let ticks = words.next()?.parse().ok()?;
    let at = address(words.next()?);
    let watch = address(words.next()?);
    Some((name, ticks, choice_of(at, watch)))
}

// A line is a program, the ticks, and the addresses of `--at` and of `--watch` or `-`; after `@`
// the expected text; and after another `@` the trace. `~` is eight zeros.
const PARA: &str = "\
# The first start is at tick 14, behind the reset; a start is listed where its own tick is below the end.
loop 14 - -@0 of 0;@
loop 15 - -@1 of 1;~0E F800 A=00 X=00 Y=00 S=FD P=24 JMP &F800;@
loop 30 - -@3 of 3;~0E F800 A=00 X=00 Y=00 S=FD P=24 JMP &F800;~14 F800 A=00 X=00 Y=00 S=FD P=24 JMP &F800;~1A F800 A=00 X=00 Y=00 S=FD P=24 JMP &F800;@
loop 20 F800 -@1 of 1;~0E F800 A=00 X=00 Y=00 S=FD P=24 JMP &F800;@
loop 2000 F801 -@0 of 0;@
# Two bytes that are none do not differ, and the first start has none before it.
loop 2000 - FEF8@0 of 0;@
loop 2000 - F800@0 of 0;@
# INC takes 5 cycles, PHA 3, STA 4 and JMP 3: what is written shows at the start behind it.
writer 60 - 0080@2 of 2;~18 F802 A=00 X=00 Y=00 S=FD P=24 PHA;~36 F802 A=00 X=00 Y=00 S=FC P=24 PHA;@
writer 60 F802 0080@2 of 2;~18 F802 A=00 X=00 Y=00 S=FD P=24 PHA;~36 F802 A=00 X=00 Y=00 S=FC P=24 PHA;@
writer 60 F803 0080@0 of 0;@
# Of the stack: INX and TXA take 2 cycles each, PHA 3, PLA 4 and JMP 3.
pusher 56 - 01FD@1 of 1;~1C F803 A=01 X=01 Y=00 S=FC P=24 PLA;@
pusher 57 - 01FD@2 of 2;~1C F803 A=01 X=01 Y=00 S=FC P=24 PLA;~38 F803 A=02 X=02 Y=00 S=FC P=24 PLA;@
pusher 2000 - 01FC@0 of 0;@
# An interrupt's sequence is no start.
open 70 - -@8 of 8;~0E F800 A=00 X=00 Y=00 S=FD P=24 CLI;~12 F801 A=00 X=00 Y=00 S=FD P=20 JMP &F801;~18 F801 A=00 X=00 Y=00 S=FD P=20 JMP &F801;~1E F801 A=00 X=00 Y=00 S=FD P=20 JMP &F801;\
~24 F801 A=00 X=00 Y=00 S=FD P=20 JMP &F801;~2A F801 A=00 X=00 Y=00 S=FD P=20 JMP &F801;~3E F840 A=00 X=00 Y=00 S=FA P=24 JMP &F840;~44 F840 A=00 X=00 Y=00 S=FA P=24 JMP &F840;@~28 H W 0 82;\
~2B H W 1 00;
# It pushes PC, F801, and the flags, 20.
open 62 - 01FD@0 of 0;@~28 H W 0 82;~2B H W 1 00;
open 63 - 01FD@1 of 1;~3E F840 A=00 X=00 Y=00 S=FA P=24 JMP &F840;@~28 H W 0 82;~2B H W 1 00;
open 2000 - 01FC@1 of 1;~3E F840 A=00 X=00 Y=00 S=FA P=24 JMP &F840;@~28 H W 0 82;~2B H W 1 00;
open 2000 - 01FB@1 of 1;~3E F840 A=00 X=00 Y=00 S=FA P=24 JMP &F840;@~28 H W 0 82;~2B H W 1 00;
open 2000 - 01FA@0 of 0;@~28 H W 0 82;~2B H W 1 00;
# Held from tick 103 to 129, and then a reset: no start until tick 144.
loop 104 - -@15 of 15;..;~62 F800 A=00 X=00 Y=00 S=FD P=24 JMP &F800;@~62 H W 0 A0;~80 H W 0 20;
loop 144 - -@15 of 15;..;~62 F800 A=00 X=00 Y=00 S=FD P=24 JMP &F800;@~62 H W 0 A0;~80 H W 0 20;
loop 145 - -@16 of 16;..;~62 F800 A=00 X=00 Y=00 S=FD P=24 JMP &F800;~90 F800 A=00 X=00 Y=00 S=FA P=24 JMP &F800;@~62 H W 0 A0;~80 H W 0 20;
# A reset takes three from S, and writes nothing.
loop 145 - 01FD@0 of 0;@~62 H W 0 A0;~80 H W 0 20;
# Bytes of the Tube are none: one byte is not all of LDA, and an opcode of the Tube is told as none.
gate 24 - -@2 of 2;~0E F800 A=00 X=00 Y=00 S=FD P=24 JMP &FEF7;~14 FEF7 A=00 X=00 Y=00 S=FD P=24 byte &A9;@~16 P R 0 40;~18 P R 1 00;
gate 25 FEF9 -@1 of 1;~18 FEF9 A=40 X=00 Y=00 S=FD P=24 ?;@~16 P R 0 40;~18 P R 1 00;
# No byte is past FFFF.
end 21 FFFE -@1 of 1;~14 FFFE A=00 X=00 Y=00 S=FD P=24 byte &4C;@
last 21 FFFE -@1 of 1;~14 FFFE A=00 X=00 Y=00 S=FD P=24 LDA #&12;@
";

const HOST: &str = "\
# A read of the Tube that the trace has not.
letters 2000 - 0070@differs 1 H 24 R 0@
# Halted: the opcode's own fetch is a start, and no later cycle is.
halted 100 - -@1 of 1;~15 C000 A=00 X=00 Y=00 S=FD P=24 byte &02;@
# Bytes of FRED are none.
gate 31 FBFF -@1 of 1;~1E FBFF A=00 X=00 Y=00 S=FD P=24 byte &A9;@
# No byte is past FFFF.
end 31 FFFE -@1 of 1;~1E FFFE A=00 X=00 Y=00 S=FD P=24 byte &4C;@
last 31 FFFE -@1 of 1;~1E FFFE A=00 X=00 Y=00 S=FD P=24 LDA #&12;@
# A byte of the stack.
pusher 84 - 01FD@1 of 1;~2A C003 A=01 X=01 Y=00 S=FC P=24 PLA;@
pusher 85 - 01FD@2 of 2;~2A C003 A=01 X=01 Y=00 S=FC P=24 PLA;~54 C003 A=02 X=02 Y=00 S=FC P=24 PLA;@
# Bytes of the slot in the latch: at 8000 FF, 34, 12, FF; at 8001 FF, 00, 00, FF; at A000 FF, 34, 00, FF.
pages 2000 - 8000@3 of 3;~27 C005 A=0E X=00 Y=00 S=FD P=24 LDA #&0F;~39 C00A A=0F X=00 Y=00 S=FD P=24 LDA #&03;~4B C00F A=03 X=00 Y=00 S=FD P=24 JMP &C00F;@
pages 2000 - 8001@2 of 2;~27 C005 A=0E X=00 Y=00 S=FD P=24 LDA #&0F;~4B C00F A=03 X=00 Y=00 S=FD P=24 JMP &C00F;@
pages 2000 C00A A000@1 of 1;~39 C00A A=0F X=00 Y=00 S=FD P=24 LDA #&03;@
pages 2000 - 7FFF@0 of 0;@
";

// Returns true if the text is the expected one. `..` is any lines.
fn is_told(told: &str, want: &str) -> bool {
    match want.split_once("..") {
        Some((head, tail)) => told.starts_with(head) && told.ends_with(tail),
        None => told == want,
    }
}

fn is_right<M: Seen>(
    alloc: Global,
    machine: M,
    part: Part,
    side: Side,
    ticks: u16,
    choice: Choice,
    row: (&str, &str),
) -> Result<bool, Fail>
    requires { IsTrue (M.plays side) }
{
    let (want, trace) = row;
    let entries = entries_of(alloc, trace)?;
    let n = Tick(u64::from(ticks));
    let listing = list(alloc, machine, part, side, &entries, n, choice);
    let want = want.replace(alloc, "~", "00000000")?;
    Ok(is_told(told(alloc, listing)?.as_str(), want.as_str()))
}

// Returns the first line that is wrong.
fn first_wrong(
    alloc: Global,
    side: Side,
    rows: &'static str,
) -> Result<Option<&'static str>, Fail> {
    for line in rows.lines() {
        if let Some((head, rest)) = line.split_once('@') {
            let told = rest.split_once('@').unwrap_or(("no trace", rest));
            let Some((name, ticks, choice)) = head_of(head) else {
                return Ok(Some(line));
            };
            let right = match side {
                Side::Host => {
                    let machine = host(alloc, name)?;
                    is_right(alloc, machine, Part::Nmos, Side::Host, ticks, choice, told)?
                }
                Side::Para => {
                    let machine = para(alloc, name)?;
                    is_right(alloc, machine, Part::Cmos, Side::Para, ticks, choice, told)?
                }
            };
            if !right {
                return Ok(Some(line));
            }
        }
    }
    Ok(None)
}

#[test]
fn the_second_processors_starts_are_listed(rt: HostRuntime) -> Result<(), Fail> {
    assert_eq!(rt; first_wrong(rt.alloc(), Side::Para, PARA)?, None);
    Ok(())
}

#[test]
fn the_hosts_starts_are_listed(rt: HostRuntime) -> Result<(), Fail> {
    assert_eq!(rt; first_wrong(rt.alloc(), Side::Host, HOST)?, None);
    Ok(())
}

// The host asks for a letter every 21 ticks, and gets two.
const LAST_LINES: &str = "\
000000039A P W 1 48;00000003A6 P W 1 49;00000003AB H R 0 C0;00000003BD H R 1 48;00000003EA H R 0 C0;00000003FC H R 1 49;";

#[test]
fn a_byte_is_watched_against_a_trace_of_both(rt: HostRuntime) -> Result<(), Fail> {
    let mut trace = String::new(rt.alloc());
    for time in 0_u64..43 {
        write!(trace, "{:010X} H R 0 40;", 36 + 21 * time)?;
    }
    trace.push_str(LAST_LINES)?;
    let machine = host(rt.alloc(), "letters")?;
    let choice = choice_of(None, Some(0x70));
    let want = "1 of 1;00000003CC C00C A=48 X=00 Y=00 S=FD P=24 INX;";
    let right = is_right(
        rt.alloc(),
        machine,
        Part::Nmos,
        Side::Host,
        2_000,
        choice,
        (want, trace.as_str()),
    )?;
    assert!(rt; right);
    Ok(())
}

// The part after the tick in a line of the loop.
const BEHIND_TICK: &[u8] = b" F800 A=00 X=00 Y=00 S=FD P=24 JMP &F800\n";

// Returns the first line that is not that of its tick. Each is 51 bytes, and 6 ticks after the one
// before it.
fn first_bad_line(text: &[u8]) -> Option<usize> {
    let mut tick = 14_u64;
    for (i, line) in text.chunks(51).enumerate() {
        let (digits, rest) = line.split_at_checked(10).unwrap_or((line, &[]));
        let digits = std::str::from_utf8(digits).unwrap_or("");
        if u64::from_str_radix(digits, 16).ok() != Some(tick) || rest != BEHIND_TICK {
            return Some(i);
        }
        tick = tick.wrapping_add(6);
    }
    None
}

// JMP takes 6 ticks, and the last of 1,048,577 starts is at tick 6,291,470.
#[test]
fn a_million_lines_are_written_and_the_next_is_counted(rt: HostRuntime) -> Result<(), Fail> {
    let machine = para(rt.alloc(), "loop")?;
    let choice = choice_of(None, None);
    let n = Tick(6_291_471);
    let listing = list(rt.alloc(), machine, Part::Cmos, Side::Para, &[], n, choice)?;
    assert_eq!(rt; listing.listed, 1_048_576);
    assert_eq!(rt; listing.chosen, 1_048_577);
    assert_eq!(rt; listing.text.len(), 53_477_376);
    assert_eq!(rt; first_bad_line(&listing.text), None);
    Ok(())
}

#[test]
fn a_refusal_is_told(rt: HostRuntime) -> Result<(), Fail> {
    let doing = None;
    let text = format!(in rt.alloc(); "{}", FollowError::Differs { line: 3, doing })?;
    assert_eq!(rt;
        text.as_str(),
        "the machine differs from line 3 of the trace"
    );
    let text = format!(in rt.alloc(); "{}", FollowError::NoMemory)?;
    assert_eq!(rt; text.as_str(), "no memory");
    Ok(())
}

// An address, and the byte that a machine reports for it.
type Peek = (u16, Option<u8>);

// Returns the first address at which a machine has another byte.
fn first_other<M: Seen>(machine: M, peeks: &[Peek]) -> Option<u16> {
    for (at, byte) in peeks {
        if machine.peek(*at) != *byte {
            return Some(*at);
        }
    }
    None
}

// The RAM is clear, and the slot of the latch empty.
const HOST_PEEKS: &[Peek] = &[
    (0x0000, Some(0x00)),
    (0x7fff, Some(0x00)),
    (0x8000, Some(0xff)),
    (0xbfff, Some(0xff)),
    (0xc000, Some(0x4c)),
    (0xfbff, Some(0xa9)),
    (0xfc00, None),
    (0xfdff, None),
    (0xfe40, None),
    (0xfeff, None),
    (0xff00, Some(0x00)),
    (0xfffd, Some(0xc0)),
];

// The boot ROM covers the clear RAM.
const PARA_PEEKS: &[Peek] = &[
    (0x0000, Some(0x00)),
    (0xf7ff, Some(0x00)),
    (0xf800, Some(0x4c)),
    (0xfef7, Some(0xa9)),
    (0xfef8, None),
    (0xfeff, None),
    (0xff00, Some(0x00)),
    (0xffff, Some(0xf8)),
];

// After the first access to the Tube it does not.
const LATER_PEEKS: &[Peek] = &[
    (0xf800, Some(0x00)),
    (0xfef7, Some(0x00)),
    (0xfef8, None),
    (0xffff, Some(0x00)),
];

#[test]
fn what_stands_in_memory_is_seen(rt: HostRuntime) -> Result<(), Fail> {
    let first = host(rt.alloc(), "gate")?;
    assert_eq!(rt; first_other(first, HOST_PEEKS), None);
    let second = para(rt.alloc(), "gate")?;
    assert_eq!(rt; first_other(second, PARA_PEEKS), None);
    let trace = entries_of(rt.alloc(), "0000000016 P R 0 40;")?;
    let second = para(rt.alloc(), "gate")?;
    let (later, place) = replay(second, Side::Para, &trace, Tick(24));
    assert_eq!(rt; place, None);
    assert!(rt; later.starting());
    assert_eq!(rt; first_other(later, LATER_PEEKS), None);
    Ok(())
}
