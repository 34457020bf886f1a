//! The statuses, and cases that no table of words has.
use super::scene::words_of;
use beeb_bits::{Side, Tick};
use beeb_files::{MemOutlet, MemShelf};
use cmd_top::{Name, Status, Which, plain};
use std::alloc::{AllocError, Global};
use std::test::Fail;
use tube_chip::Op;
use tube_party::Doing;

// The number and the text of each status below, in its order.
const TEXTS: &str = "\
0 
1 usage
2 cannot read os
2 too long keys
4 bad trace 18446744073709551615
4 bad source 7
5 cannot write -
7 no memory
8 
8 
8 
3 bad image os 16383
3 bad image tube 0
3 bad image rom15 16385
3 bad image font 1
3 bad image disc1 409601
3 bad image image 65537
4 bad script 258
6 no thread
4 bad state 18877
4 bad points 65536
";

fn image_status(at: usize) -> Status {
    let (which, len) = match at {
        11 => (Which::Os, 16_383),
        12 => (Which::Tube, 0),
        13 => (Which::Rom(15), 16_385),
        14 => (Which::Font, 1),
        15 => (Which::Disc(1), 409_601),
        _ => (Which::Image, 65_537),
    };
    Status::BadImage { which, len }
}

fn status(alloc: Global, at: usize) -> Result<Status, AllocError> {
    Ok(match at {
        0 => Status::Done,
        1 => Status::Usage,
        2 => Status::ReadFault {
            name: Name::of(alloc, "os")?,
        },
        3 => Status::TooLong {
            name: Name::of(alloc, "keys")?,
        },
        4 => Status::BadTrace {
            line: 18_446_744_073_709_551_615,
            kind: 1,
        },
        5 => Status::BadSource { line: 7, kind: 3 },
        6 => Status::WriteFault {
            name: Name::of(alloc, "-")?,
        },
        7 => Status::NoMemory,
        8 => Status::Wrong {
            line: 3,
            byte: 0x40,
        },
        9 => Status::Differs {
            line: 1,
            doing: None,
        },
        10 => Status::Differs {
            line: 2,
            doing: Some(Doing {
                tick: Tick(0x24),
                side: Side::Host,
                op: Op::Read(0),
            }),
        },
        17 => Status::BadScript { line: 258, kind: 3 },
        18 => Status::NoThread,
        19 => Status::BadState { at: 18_877 },
        20 => Status::BadPoints {
            line: 65_536,
            kind: 2,
        },
        _ => image_status(at),
    })
}

fn told(alloc: Global, status: &Status) -> Result<Vec<u8>, Fail> {
    let mut told = format!(in alloc; "{} ", status.number())?.into_bytes();
    told.extend_from_slice(&status.text(alloc)?)?;
    Ok(told)
}

#[test]
fn each_status_has_its_number_and_text(rt: HostRuntime) -> Result<(), Fail> {
    for (at, text) in TEXTS.lines().enumerate() {
        let told = told(rt.alloc(), &status(rt.alloc(), at)?)?;
        assert!(rt; told.as_slice() == text.as_bytes(), "{text}");
    }
    Ok(())
}

// Returns the status of a command over one file `in`, and the file `out` that it leaves.
fn made(alloc: Global, row: &str, bytes: &[u8]) -> Result<(u8, Vec<u8>), Fail> {
    let entry = (String::from_str(alloc, "in")?, bytes.to_vec(alloc)?);
    let mut shelf = MemShelf::make(vec![in alloc; entry]?, Vec::new(alloc));
    let mut out = MemOutlet::make(alloc, Vec::new(alloc));
    let words = words_of(alloc, row)?;
    let status = plain(alloc, &words, &mut shelf, &mut out, Vec::new(alloc));
    let file = out.file("out").unwrap_or(b"no file").to_vec(alloc)?;
    Ok((status.number(), file))
}

// Returns true if the bytes come back from their text. They are one instruction or three bytes.
fn comes_back(alloc: Global, part: &str, bytes: &[u8]) -> Result<bool, Fail> {
    let asm = format!(in alloc; "asm {part} in out")?;
    let dis = format!(in alloc; "dis {part} in 8000 out")?;
    let (number, text) = made(alloc, dis.as_str(), bytes)?;
    if number != 0 || !text.starts_with(b"org &8000\n") {
        return Ok(false);
    }
    let (number, back) = made(alloc, asm.as_str(), &text)?;
    Ok(number == 0 && back.as_slice() == bytes)
}

#[test]
fn each_opcode_comes_back(rt: HostRuntime) -> Result<(), Fail> {
    for op in 0..=255u8 {
        let bytes = [op, 0x12, 0x34];
        assert!(rt; comes_back(rt.alloc(), "6502", &bytes)?, "6502 {op}");
        assert!(rt; comes_back(rt.alloc(), "65c02", &bytes)?, "65c02 {op}");
    }
    Ok(())
}
