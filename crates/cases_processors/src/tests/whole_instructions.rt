//! The instructions that are done whole: each opcode of both parts, and those with an access that
//! is not of plain memory.
use cpu_alu::{DECIMAL, Regs};
use cpu_whole::{Plain, whole};
use op_table::{Mnemonic, Mode, Part, Row, cmos, nmos};

/// A context without notes.
#[derive(Drop)]
struct Unnoted;

/// A memory that is plain below `wall`.
#[derive(Drop)]
struct Ram {
    bytes: [u8; 65536],
    wall: u16,
}

impl Ram {
    fn walled(wall: u16) -> Self {
        Ram {
            bytes: [0u8; 65536],
            wall,
        }
    }

    fn place(&mut self, at: u16, bytes: &[u8]) {
        let mut at = at;
        for byte in bytes {
            self.bytes[at as usize] = *byte;
            at = at.wrapping_add(1);
        }
    }
}

impl Plain<Unnoted> for Ram {
    ghost use Rattle.std.specs.Prelude.{ℕ, List};
    ghost use Rattle.cases_processors.specs.Ram.{ram, ram_plain};

    ghost State = { List ℕ };

    ghost state = { λ s. s.bytes };

    ghost reach = { ram };

    ghost is_plain = { ram_plain };

    ghost may_come = { λ s t n. Unit {0} };

    ghost later = { λ s t n k may low. tt };

    ghost Kept = { Unit {0} };

    ghost before = { λ notes s. tt };

    ghost room = { λ notes. 2 };

    fn runs(&self, pc: u16) -> bool {
        pc < self.wall
    }

    fn reads(&self, at: u16) -> bool {
        at < self.wall
    }

    fn writes(&self, at: u16, _notes: &Unnoted) -> bool {
        at < self.wall
    }

    fn byte(&self, at: u16) -> u8 {
        self.bytes[at as usize]
    }

    fn put(&mut self, _t: u64, _cycle: u64, at: u16, byte: u8, _notes: &mut Unnoted) {
        self.bytes[at as usize] = byte;
    }
}

fn row_at(part: Part, op: u8) -> Option<Row> {
    match part {
        Part::Nmos => nmos(op),
        Part::Cmos => Some(cmos(op)),
    }
}

/// Returns true if an instruction is left to single cycles: it may change I, is a sum in decimal
/// mode, or does nothing.
fn is_left(part: Part, op: u8, p: u8) -> bool {
    let Some(row) = row_at(part, op) else {
        return true;
    };
    match row.mnemonic {
        Mnemonic::Brk | Mnemonic::Rti | Mnemonic::Plp | Mnemonic::Cli | Mnemonic::Sei => true,
        Mnemonic::Adc | Mnemonic::Sbc => p & DECIMAL != 0,
        _ => row.mode == Mode::Spare,
    }
}

/// Returns the registers of each row, with these flags.
fn registers(p: u8) -> Regs {
    Regs {
        pc: 0x040D,
        a: 0x12,
        x: 0x01,
        y: 0x01,
        s: 0x80,
        p,
    }
}

/// Returns true if an opcode is done whole, or left to single cycles, as expected with these flags.
fn is_as_listed(ram: &mut Ram, part: Part, op: u8, p: u8) -> bool {
    ram.place(0x040D, &[op, 0x10, 0x32]);
    let mut now = registers(p);
    let cycles = whole::<Unnoted, Ram, ()>(part, &mut now, ram, 0, &mut Unnoted);
    (cycles == 0) == is_left(part, op, p)
}

/// Returns the first opcode of a part that is not as listed.
fn first_other(ram: &mut Ram, part: Part) -> Option<u8> {
    for op in 0..=255u8 {
        if !is_as_listed(ram, part, op, 0) | !is_as_listed(ram, part, op, DECIMAL) {
            return Some(op);
        }
    }
    None
}

/// Below address FC00 memory is plain. A row is three bytes of code with X 1 and Y 1, and the
/// cycles at once, or 0 if an access is not plain.
const WALLED: [(u8, u8, u8, u64); 12] = [
    // LDA and STA at the last plain address, and at the next one
    (0xAD, 0xFF, 0xFB, 4),
    (0xAD, 0x00, 0xFC, 0),
    (0x8D, 0xFF, 0xFB, 4),
    (0x8D, 0x00, 0xFC, 0),
    // LDA and INC abs,X that reach it by the index
    (0xBD, 0xFE, 0xFB, 4),
    (0xBD, 0xFF, 0xFB, 0),
    (0xFE, 0xFE, 0xFB, 7),
    (0xFE, 0xFF, 0xFB, 0),
    // STA abs,X that reads there before it writes to another address
    (0x9D, 0xFF, 0xFF, 0),
    // JMP through a pointer whose second byte is there, and one to there
    (0x6C, 0xFE, 0xFB, 5),
    (0x6C, 0x00, 0xFC, 0),
    (0x4C, 0x00, 0xFC, 3),
];

/// Returns the cycles of an instruction of three bytes. If it is not done, PC stays.
fn cycles_of(ram: &mut Ram, code: &[u8]) -> Option<u64> {
    let mut now = registers(0);
    ram.place(0x040D, code);
    let cycles = whole::<Unnoted, Ram, ()>(Part::Nmos, &mut now, ram, 0, &mut Unnoted);
    if cycles != 0 || now.pc == 0x040D {
        Some(cycles)
    } else {
        None
    }
}

#[test]
fn what_is_not_plain_is_left(rt: HostRuntime) {
    let mut ram = Ram::walled(0xFFFF);
    assert_eq!(rt; first_other(&mut ram, Part::Cmos), None);
    let mut ram = Ram::walled(0xFFFF);
    assert_eq!(rt; first_other(&mut ram, Part::Nmos), None);
    let mut ram = Ram::walled(0xFC00);
    for (op, low, high, want) in &WALLED {
        let cycles = cycles_of(&mut ram, &[*op, *low, *high]);
        assert!(rt; cycles == Some(*want), "{op} {low} {high}");
    }
}
