//! The 65C02, by its data sheet: each instruction, its accesses, and the sequences between
//! instructions.
mod rows;

use super::words::{are, before, byte, leaves, registers};
use cpu_alu::Cycle::{Read, Write};
use cpu_alu::{Cycle, Regs};
use cpu65c02::{Cpu, cycles_of_the_table, part};
use digits::{four_digits, two_digits};
use op_table::Part;
use rows::ROWS;

/// A memory, with the accesses of the last sequence.
#[derive(Drop)]
struct Memory {
    bytes: [u8; 65536],
    accesses: [Cycle; 8],
    cycles: usize,
}

impl Memory {
    /// Makes a memory of zeroes.
    fn empty() -> Self {
        Memory {
            bytes: [0u8; 65536],
            accesses: [Read(0); 8],
            cycles: 0,
        }
    }

    /// Makes a memory in which each byte differs from those near it.
    fn filled() -> Self {
        let mut memory = Memory::empty();
        for i in 0..65536usize {
            memory.bytes[i] = ((i * 37 + i / 256 * 11 + 5) % 256) as u8;
        }
        memory
    }

    fn place(&mut self, at: u16, bytes: &[u8]) {
        let mut at = at;
        for byte in bytes {
            self.bytes[at as usize] = *byte;
            at = at.wrapping_add(1);
        }
    }

    fn access(&mut self, cycle: Cycle) -> u8 {
        if self.cycles < 8 {
            self.accesses[self.cycles] = cycle;
        }
        self.cycles = self.cycles.saturating_add(1);
        match cycle {
            Read(at) => self.bytes[at as usize],
            Write(at, byte) => {
                self.bytes[at as usize] = byte;
                0
            }
        }
    }
}

/// A finished sequence: the registers after it, its first accesses, and the number of its cycles.
#[derive(Clone, Copy)]
struct Sequence {
    after: Regs,
    accesses: [Cycle; 8],
    cycles: usize,
}

/// Returns true if a word is this access: a read's address, or a write's, `=` and the byte.
fn is_access(word: &[u8], access: Cycle) -> bool {
    match access {
        Read(at) => word == four_digits(at).as_slice(),
        Write(at, byte) => match word {
            [a, b, c, d, b'=', high, low] => {
                ([*a, *b, *c, *d] == four_digits(at)) & ([*high, *low] == two_digits(byte))
            }
            _ => false,
        },
    }
}

impl Sequence {
    /// Returns true if the sequence made these accesses.
    fn made(&self, list: &str) -> bool {
        let mut words = list.split(' ');
        for access in self.accesses.iter().take(self.cycles) {
            let is_next = match words.next() {
                Some(word) => is_access(word.as_bytes(), *access),
                None => false,
            };
            if !is_next {
                return false;
            }
        }
        words.next().is_none()
    }

    /// Returns true if the sequence made these writes, each an address and a byte.
    fn wrote(&self, list: &[u8]) -> bool {
        let mut list = list;
        for access in self.accesses.iter().take(self.cycles) {
            if let Write(at, byte) = *access {
                let [b' ', a, b, c, d, b' ', high, low, rest @ ..] = list else {
                    return false;
                };
                if [*a, *b, *c, *d] != four_digits(at) || [*high, *low] != two_digits(byte) {
                    return false;
                }
                list = rest;
            }
        }
        list.is_empty()
    }

    /// Returns true if the sequence took these cycles, left these registers and made these writes.
    fn came_to(&self, before: Regs, want: &[u8]) -> bool {
        let [cycles, b' ', rest @ ..] = want else {
            return false;
        };
        let mut is_so = false;
        for len in [10, 19] {
            let after = rest.get(..len).unwrap_or(&[]);
            let writes = rest.get(len..).unwrap_or(&[]);
            is_so |= leaves(before, after, self.after) & self.wrote(writes);
        }
        is_so & (usize::from(cycles.wrapping_sub(b'0')) == self.cycles)
    }
}

/// Does the rest of a sequence.
fn finish(cpu: &mut Cpu, memory: &mut Memory) {
    memory.cycles = 0;
    for _ in 0..9u8 {
        if !cpu.last() {
            let cycle = cpu.want();
            let byte = memory.access(cycle);
            cpu.give(byte);
        }
    }
}

/// Looks at the lines, and does the sequence that begins.
fn next(cpu: &mut Cpu, memory: &mut Memory, nmi: bool, irq: bool) {
    if cpu.last() {
        cpu.take_lines(nmi, irq);
    }
    finish(cpu, memory);
}

/// Returns the last sequence, if it has ended.
fn done(cpu: &Cpu, memory: &Memory) -> Option<Sequence> {
    if cpu.last() {
        Some(Sequence {
            after: cpu.at_end(),
            accesses: memory.accesses,
            cycles: memory.cycles,
        })
    } else {
        None
    }
}

/// Starts at 0400, and reaches 040D with these registers.
fn set_up(memory: &mut Memory, before: Regs) -> Cpu {
    let Regs { a, x, y, s, p, .. } = before;
    memory.place(0xFFFC, &[0x00, 0x04]);
    // LDX #s, TXS, LDA #p, PHA, LDX #x, LDY #y, LDA #a, PLP
    memory.place(0x0400, &[0xA2, s, 0x9A, 0xA9, p, 0x48]);
    memory.place(0x0406, &[0xA2, x, 0xA0, y, 0xA9, a, 0x28]);
    let mut cpu = Cpu::new();
    finish(&mut cpu, memory);
    for _ in 0..8u8 {
        next(&mut cpu, memory, false, false);
    }
    cpu
}

/// Does an instruction of three bytes at 040D. Returns `None` if the registers before it are not
/// `before`.
fn run(code: &[u8], before: Regs) -> Option<Sequence> {
    let mut memory = Memory::filled();
    memory.place(0x040D, code);
    let mut cpu = set_up(&mut memory, before);
    let is_before = cpu.last() && cpu.at_end() == before;
    next(&mut cpu, &mut memory, false, false);
    if is_before { done(&cpu, &memory) } else { None }
}

/// Does the instruction of a line's beginning: its bytes and the registers before it. Returns these
/// registers too.
fn done_of(head: &str) -> Option<(Regs, Sequence)> {
    let (code, name) = head.rsplit_once(' ')?;
    let code = match code.as_bytes() {
        [a, b] => [byte(*a, *b), 0, 0],
        [a, b, b' ', c, d] => [byte(*a, *b), byte(*c, *d), 0],
        [a, b, b' ', c, d, b' ', e, f] => [byte(*a, *b), byte(*c, *d), byte(*e, *f)],
        _ => return None,
    };
    let before = before(name)?;
    Some((before, run(&code, before)?))
}

/// Returns true if an instruction ends as its line says: with these cycles, registers and writes,
/// or, if `by_access` is set, with these accesses.
fn ends_so(line: &str, by_access: bool) -> bool {
    let Some((head, want)) = line.split_once('@') else {
        return false;
    };
    match done_of(head) {
        Some((_, done)) if by_access => done.made(want),
        Some((before, done)) => done.came_to(before, want.as_bytes()),
        None => false,
    }
}

#[test]
fn documented_instructions_do_what_the_data_sheet_says(rt: HostRuntime) {
    for line in ROWS.lines() {
        assert!(rt; ends_so(line, false), "{line}");
    }
}

/// A line is an instruction: its bytes without 00 at the end, and the registers before it. After
/// `@` come its accesses, a write with its byte.
const ACCESSES: &str = "\
# LDA zp,X
B5 42 LOW@040D 040E 040E 0065
# LDA abs,X without a page crossed, and with one
BD 10 32 LOW@040D 040E 040F 3233
BD F0 32 LOW@040D 040E 040F 040F 3313
# STA abs,X
9D 10 32 LOW@040D 040E 040F 040F 3233=5A
# INC zp and abs,X
E6 42 LOW@040D 040E 0042 0042 0042=90
FE 10 32 LOW@040D 040E 040F 040F 3233 3233 3233=8B
# ASL abs,X without a page crossed, and with one
1E 10 32 LOW@040D 040E 040F 3233 3233 3233=14
1E F0 32 LOW@040D 040E 040F 040F 3313 3313 3313=EA
# LDA (zp), (zp,X) and (zp),Y
B2 52 LOW@040D 040E 0052 0053 04DF
A1 31 LOW@040D 040E 040E 0054 0055 4E29
B1 52 LOW@040D 040E 0052 0053 04F3
# STA (zp),Y
91 52 LOW@040D 040E 0052 0053 040E 04F3=5A
# BRA, in its page and into another, and BEQ
80 17 LOW@040D 040E 040E
80 E0 LOW@040D 040E 040E 040E
F0 17 LOW@040D 040E
# JMP (abs,X)
7C 10 32 LOW@040D 040E 040F 040F 3233 3234
# JSR, RTS, RTI, PHA and PLA
20 34 12 LOW@040D 040E 01FD 01FD=04 01FC=0F 040F
60 LOW@040D 040E 01FD 01FE 01FF EBC6
40 LOW@040D 040E 01FD 01FE 01FF 0100
48 LOW@040D 040E 01FD=5A
68 LOW@040D 040E 01FD 01FE
# ADC # and abs in decimal mode
69 46 DECIMAL@040D 040E 040E
6D 10 32 DECIMAL@040D 040E 040F 3210 040F
# an opcode that does nothing, of three bytes and of one
5C 10 32 LOW@040D 040E 040F 040F 040F 040F 040F 040F
03 LOW@040D
";

#[test]
fn accesses_come_in_their_order(rt: HostRuntime) {
    for line in ACCESSES.lines() {
        if !line.starts_with('#') {
            assert!(rt; ends_so(line, true), "{line}");
        }
    }
}

/// Returns true if an opcode does nothing in `bytes` bytes and `cycles` cycles.
fn is_spare(op: u8, bytes: u16, cycles: usize) -> bool {
    let before = registers(0xC3, 0x23, 0xE4, 0x00, 0xC7);
    let Some(done) = run(&[op, 0, 0], before) else {
        return false;
    };
    let after = Regs {
        pc: before.pc.wrapping_add(bytes),
        ..before
    };
    let mut writes = false;
    for access in done.accesses.iter().take(done.cycles) {
        writes |= matches!(access, Write(_, _));
    }
    (done.after == after) & (done.cycles == cycles) & !writes
}

/// The opcodes that do nothing, except those of the columns 3, 7, B and F: opcode, bytes, cycles.
const SPARE: [(u8, u16, usize); 14] = [
    (0x02, 2, 2),
    (0x22, 2, 2),
    (0x42, 2, 2),
    (0x62, 2, 2),
    (0x82, 2, 2),
    (0xC2, 2, 2),
    (0xE2, 2, 2),
    (0x44, 2, 3),
    (0x54, 2, 4),
    (0xD4, 2, 4),
    (0xF4, 2, 4),
    (0x5C, 3, 8),
    (0xDC, 3, 4),
    (0xFC, 3, 4),
];

#[test]
fn other_opcodes_do_nothing(rt: HostRuntime) {
    cycles_of_the_table();
    assert_eq!(rt; part(), Part::Cmos);
    for column in 0..64u8 {
        let op = 4 * column + 3;
        assert!(rt; is_spare(op, 1, 1), "{op}");
    }
    for (op, bytes, cycles) in &SPARE {
        assert!(rt; is_spare(*op, *bytes, *cycles), "{op}");
    }
}

/// Cycles, registers and writes of JMP (&10FF), LDA #&99, CLC, SED and ADC #&01.
const JUMP_AND_SUM: [&str; 5] = [
    "6 5634 00 00 00 FD 04",
    "2 5636 99 00 00 FD 84",
    "2 5637 99 00 00 FD 84",
    "2 5638 99 00 00 FD 8C",
    "3 563A 00 00 00 FD 0F",
];

/// Returns true if the next instruction begins at a look, and ends as `want` says.
fn comes_to(cpu: &mut Cpu, memory: &mut Memory, want: &str) -> bool {
    if !cpu.last() {
        return false;
    }
    cpu.take_lines(false, false);
    let starts = cpu.starting();
    finish(cpu, memory);
    match done(cpu, memory) {
        Some(done) => starts & done.came_to(done.after, want.as_bytes()),
        None => false,
    }
}

#[test]
fn an_indirect_jump_crosses_a_page_and_a_decimal_sum_takes_a_cycle_more(rt: HostRuntime) {
    let mut memory = Memory::empty();
    memory.place(0xFFFD, &[0xC0]);
    memory.place(0x10FF, &[0x34, 0x56]);
    memory.place(0x1000, &[0x12]);
    memory.place(0xC000, &[0x6C, 0xFF, 0x10]);
    memory.place(0x5634, &[0xA9, 0x99, 0x18, 0xF8, 0x69, 0x01]);
    let mut cpu = Cpu::new();
    assert!(rt; !cpu.starting());
    finish(&mut cpu, &mut memory);
    for want in JUMP_AND_SUM {
        assert!(rt; comes_to(&mut cpu, &mut memory, want), "{want}");
    }
}

/// A line is the interrupts that are asked for at a look; after `@` the accesses of the sequence
/// that begins, a write with its byte; and after another `@` PC, A, X, Y, S and P after it. SED,
/// CLI and BRK are at 1234, and RTI is at 5678.
const LOOKS: &str = "\
# NMI comes before IRQ, and whatever I is.
nmi irq@C000 C000 01FD=C0 01FC=00 01FB=24 FFFA FFFB@1234 00 00 00 FA 04
# I holds IRQ back until CLI is done; D is pushed, and then clear.
irq@1234 1235@1235 00 00 00 FA 0C
irq@1235 1236@1236 00 00 00 FA 08
irq@1236 1236 01FA=12 01F9=36 01F8=28 FFFE FFFF@5678 00 00 00 F7 04
# RTI leaves the bits 4 and 5 of the pulled flags out.
@5678 5679 01F7 01F8 01F9 01FA@1236 00 00 00 FA 08
# BRK pushes the address two above its own, and bit 4 beside the flags.
@1236 1237 01FA=12 01F9=38 01F8=38 FFFE FFFF@5678 00 00 00 F7 04
# A reset keeps the registers, and S goes down by three.
reset@5678 5678 01F7 01F6 01F5 FFFC FFFD@C000 00 00 00 F4 04
";

/// Does the sequence of a line's beginning.
fn begin(cpu: &mut Cpu, memory: &mut Memory, head: &str) {
    match head {
        "reset" => {
            if cpu.last() {
                cpu.begin_reset();
            }
            finish(cpu, memory);
        }
        "nmi irq" => next(cpu, memory, true, true),
        _ => next(cpu, memory, false, head == "irq"),
    }
}

/// Returns true if the last sequence made these accesses and left these registers.
fn was(cpu: &Cpu, memory: &Memory, want: &str) -> bool {
    let (accesses, after) = want.split_once('@').unwrap_or(("", ""));
    match done(cpu, memory) {
        Some(done) => done.made(accesses) & are(after.as_bytes(), done.after),
        None => false,
    }
}

/// Returns true if a line of looks holds, or begins with `#`.
fn holds(cpu: &mut Cpu, memory: &mut Memory, line: &str) -> bool {
    match line.split_once('@') {
        Some((head, want)) => {
            begin(cpu, memory, head);
            was(cpu, memory, want)
        }
        None => line.starts_with('#'),
    }
}

#[test]
fn nmi_comes_before_irq_and_a_reset_keeps_the_registers(rt: HostRuntime) {
    let mut memory = Memory::empty();
    memory.place(0xFFFA, &[0x34, 0x12, 0x00, 0xC0, 0x78, 0x56]);
    memory.place(0x1234, &[0xF8, 0x58, 0x00]);
    memory.place(0x5678, &[0x40]);
    let mut cpu = Cpu::new();
    assert!(rt; are(b"0000 00 00 00 00 00", cpu.at_start()));
    finish(&mut cpu, &mut memory);
    let reset = "0000 0000 0100 01FF 01FE FFFC FFFD@C000 00 00 00 FD 04";
    assert!(rt; was(&cpu, &memory, reset));
    for line in LOOKS.lines() {
        assert!(rt; holds(&mut cpu, &mut memory, line), "{line}");
    }
}
