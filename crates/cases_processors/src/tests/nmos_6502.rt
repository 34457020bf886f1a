//! The NMOS 6502, by its manuals: each instruction's accesses, and the sequences between
//! instructions.
mod rows;

use super::words::{are, before, byte, leaves};
use cpu_alu::Cycle::{Read, Write};
use cpu_alu::Regs;
use cpu6502::{Cpu, cycles_of_the_table, part};
use digits::{four_digits, two_digits};
use op_table::{Part, nmos};
use rows::ROWS;

/// Gives the processor these bytes, one a cycle. It looks at the lines between, and none asks.
fn feed(cpu: &mut Cpu, bytes: &[u8]) {
    for byte in bytes {
        if cpu.last() {
            cpu.take_lines(false, false);
        }
        if !cpu.last() {
            cpu.give(*byte);
        }
    }
}

/// Returns a processor that has reached 040D with these registers, or `None`.
fn set_up(before: Regs) -> Option<Cpu> {
    let Regs { a, x, y, s, p, .. } = before;
    let mut cpu = Cpu::new();
    // the reset, with its vector
    feed(&mut cpu, &[0, 0, 0, 0, 0, 0x00, 0x04]);
    // LDX #s, TXS, LDA #p, PHA
    feed(&mut cpu, &[0xA2, s, 0x9A, 0, 0xA9, p, 0x48, 0, 0]);
    // LDX #x, LDY #y, LDA #a, PLP
    feed(&mut cpu, &[0xA2, x, 0xA0, y, 0xA9, a, 0x28, 0, 0, p]);
    if cpu.last() && cpu.at_end() == before {
        Some(cpu)
    } else {
        None
    }
}

/// Returns true if the next access is this one: a write, or a read, which gets the byte. An access
/// without an address is a read at `code`.
fn accesses(cpu: &mut Cpu, code: u16, access: &[u8]) -> bool {
    let (kind, address, high, low) = match access {
        [b'=', high, low] => (b'r', four_digits(code), *high, *low),
        [kind, a, b, c, d, b'=', high, low] => (*kind, [*a, *b, *c, *d], *high, *low),
        _ => return false,
    };
    if cpu.last() {
        return false;
    }
    let is_wanted = match cpu.want() {
        Read(at) => (kind == b'r') & (address == four_digits(at)),
        Write(at, byte) => {
            (kind == b'w') & (address == four_digits(at)) & ([high, low] == two_digits(byte))
        }
    };
    cpu.give(byte(high, low));
    is_wanted
}

/// Returns true if the next accesses are these.
fn makes(cpu: &mut Cpu, list: &str) -> bool {
    let mut code = 0x040Du16;
    for access in list.split(' ') {
        if !accesses(cpu, code, access.as_bytes()) {
            return false;
        }
        code = code.wrapping_add(1);
    }
    true
}

/// Returns true if the sequence that began makes these accesses and no more, and leaves these
/// registers.
fn goes(cpu: &mut Cpu, before: Regs, after: &str, list: &str) -> bool {
    let is_made = makes(cpu, list);
    if cpu.last() {
        is_made & !cpu.starting() & leaves(before, after.as_bytes(), cpu.at_end())
    } else {
        false
    }
}

/// Returns true if an instruction that begins with these registers does this.
fn goes_from(before: Regs, after: &str, list: &str) -> bool {
    let Some(mut cpu) = set_up(before) else {
        return false;
    };
    if cpu.last() {
        cpu.take_lines(false, false);
    }
    let starts = cpu.starting() & (cpu.at_start() == before);
    goes(&mut cpu, before, after, list) & starts
}

/// Returns true if an instruction does what its line says.
fn is_right(line: &str) -> Option<bool> {
    let (name, rest) = line.split_once('@')?;
    let (after, list) = rest.split_once('@')?;
    Some(goes_from(before(name)?, after, list))
}

#[test]
fn instructions_make_the_accesses_of_the_manual(rt: HostRuntime) {
    for line in ROWS.lines() {
        assert!(rt; is_right(line) == Some(true), "{line}");
    }
}

/// Returns true if an opcode is read again and again, with no other access, until a reset.
fn halts(op: u8) -> bool {
    let Some(low) = before("LOW") else {
        return false;
    };
    let Some(mut cpu) = set_up(low) else {
        return false;
    };
    let mut is_right = true;
    for cycle in 0..12u8 {
        is_right = is_right && cpu.halted() == (cycle > 0);
        if cpu.last() {
            cpu.take_lines(false, false);
        }
        is_right = is_right && cpu.starting() == (cycle == 0) && !cpu.last();
        if !cpu.last() {
            is_right = is_right && cpu.want() == Read(0x040D);
            cpu.give(op);
        }
    }
    is_right = is_right && cpu.at_start() == low && cpu.halted();
    if cpu.halted() {
        is_right = is_right && cpu.at_end() == low;
        cpu.begin_reset();
    }
    is_right && !cpu.halted()
}

/// Returns the number of opcodes without a row, and the number of those that halt.
fn counts() -> (u16, u16) {
    let mut counts = (0u16, 0u16);
    for op in 0..=255u8 {
        if nmos(op).is_none() {
            let is_halting = halts(op);
            counts.0 = counts.0.saturating_add(1);
            counts.1 = counts.1.saturating_add(u16::from(is_halting));
        }
    }
    counts
}

#[test]
fn all_other_opcodes_halt(rt: HostRuntime) {
    cycles_of_the_table();
    assert_eq!(rt; part(), Part::Nmos);
    assert_eq!(rt; counts(), (105, 105));
}

/// A line is the interrupts that are asked for at a look; after `@` PC, A, X, Y, S and P after the
/// sequence that begins; and after another `@` its accesses.
const LOOKS: &str = "\
# NMI comes before IRQ, and whatever I is.
nmi irq@1234 00 00 00 FA 04@rC000=00 rC000=00 w01FD=C0 w01FC=00 w01FB=24 rFFFA=34 rFFFB=12
# SED and CLI: I holds IRQ back until CLI is done.
- irq@1235 00 00 00 FA 0C@r1234=F8 r1235=58
- irq@1236 00 00 00 FA 08@r1235=58 r1236=00
# IRQ, after which D stands as before
- irq@5678 00 00 00 F7 0C@r1236=00 r1236=00 w01FA=12 w01F9=36 w01F8=28 rFFFE=78 rFFFF=56
# RTI leaves the bits 4 and 5 of the pulled flags out.
- -@1236 00 00 00 FA 08@r5678=40 r5679=00 r01F7=00 r01F8=38 r01F9=36 r01FA=12
# BRK pushes the address two above its own, and bit 4 beside the flags.
- -@C000 00 00 00 F7 0C@r1236=00 r1237=00 w01FA=12 w01F9=38 w01F8=38 rFFFE=00 rFFFF=C0
# JMP (&10FF) takes the high byte from 1000.
- -@1234 00 00 00 F7 0C@rC000=6C rC001=FF rC002=10 r10FF=34 r1000=12
# LDA #&99, CLC, SED, ADC #&01
- -@1236 99 00 00 F7 8C@r1234=A9 r1235=99
- -@1237 99 00 00 F7 8C@r1236=18 r1237=F8
- -@1238 99 00 00 F7 8C@r1237=F8 r1238=69
- -@123A 00 00 00 F7 8D@r1238=69 r1239=01
# A reset keeps the registers but S, which goes down by three, and I.
reset@C000 00 00 00 F4 8D@r123A=00 r123A=00 r01F7=00 r01F6=00 r01F5=00 rFFFC=00 rFFFD=C0
";

/// Begins the sequence of a line's beginning.
fn begin(cpu: &mut Cpu, head: &str) {
    if cpu.last() {
        match head {
            "reset" => cpu.begin_reset(),
            "nmi irq" => cpu.take_lines(true, true),
            _ => cpu.take_lines(false, head == "- irq"),
        }
    }
}

/// Returns true if a line of looks holds, or begins with `#`.
fn holds(cpu: &mut Cpu, line: &str) -> Option<bool> {
    if line.starts_with('#') {
        return Some(true);
    }
    let (head, rest) = line.split_once('@')?;
    let (after, list) = rest.split_once('@')?;
    begin(cpu, head);
    let before = cpu.at_start();
    Some(goes(cpu, before, after, list))
}

#[test]
fn nmi_comes_before_irq_and_a_reset_keeps_the_registers(rt: HostRuntime) {
    let mut cpu = Cpu::new();
    let start = cpu.at_start();
    assert!(rt; are(b"0000 00 00 00 00 00", start) & !cpu.starting());
    let reset = "r0000=00 r0000=00 r0100=00 r01FF=00 r01FE=00 rFFFC=00 rFFFD=C0";
    assert!(rt; goes(&mut cpu, start, "C000 00 00 00 FD 04", reset));
    for line in LOOKS.lines() {
        assert!(rt; holds(&mut cpu, line) == Some(true), "{line}");
    }
}
