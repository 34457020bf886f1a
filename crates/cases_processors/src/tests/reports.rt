//! Reports of both machines and of one.
use beeb_bits::Tick;
use cpu_alu::Regs;
use report::{Line, text};
use std::alloc::Global;
use std::test::Fail;

fn line(pc: u16, a: u8, x: u8, y: u8, s: u8, p: u8, stopped: bool) -> Line {
    Line {
        regs: Regs { pc, a, x, y, s, p },
        stopped,
    }
}

/// The tick, both machines, the accesses of the Tube and those that a trace keeps, and the frames.
type Report = (
    Tick,
    Option<Line>,
    Option<Line>,
    u64,
    Option<u64>,
    Option<u64>,
);

fn reads(
    alloc: Global,
    (tick, host, para, tube, kept, frames): Report,
    want: &str,
) -> Result<bool, Fail> {
    let text = text(alloc, tick, host, para, tube, kept, frames)?;
    Ok(text.as_slice() == want.as_bytes())
}

#[test]
fn reports_have_their_lines(rt: HostRuntime) -> Result<(), Fail> {
    let alloc = rt.alloc();
    let host = line(0xc011, 0x49, 0x02, 0, 0xfd, 0x07, false);
    let para = line(0xf815, 0x49, 0xff, 0, 0xfd, 0x34, false);
    let both = reads(
        alloc,
        (Tick(2000), Some(host), Some(para), 49, Some(49), Some(0)),
        "ticks 2000\nhost PC=C011 A=49 X=02 Y=00 S=FD P=27\npara PC=F815 A=49 X=FF Y=00 S=FD P=24\ntube 49\nkept 49\nframes 0\n",
    )?;
    let held = line(0xf800, 0, 0, 0, 0xfa, 0x04, true);
    let para_alone = reads(
        alloc,
        (Tick(200), None, Some(held), 0, None, None),
        "ticks 200\npara PC=F800 A=00 X=00 Y=00 S=FA P=24 held\ntube 0\n",
    )?;
    let halted = line(0xc000, 0xab, 0xcd, 0xef, 0x01, 0xff, true);
    let host_alone = reads(
        alloc,
        (
            Tick(1_073_741_824),
            Some(halted),
            None,
            u64::MAX,
            None,
            Some(1000),
        ),
        "ticks 1073741824\nhost PC=C000 A=AB X=CD Y=EF S=01 P=EF halted\ntube 18446744073709551615\nframes 1000\n",
    )?;
    assert!(rt; [both, para_alone, host_alone] == [true, true, true]);
    Ok(())
}
