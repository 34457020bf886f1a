use op_table::Mnemonic::{
    Adc, Asl, Bcc, Beq, Bit, Bne, Bra, Brk, Clc, Cpy, Dec, Inc, Jmp, Jsr, Lda, Ldx, Lsr, Nop, Pha,
    Phx, Phy, Plp, Plx, Ply, Rol, Ror, Rti, Rts, Sta, Stx, Sty, Stz, Trb, Tsb, Txs,
};
use op_table::Mode::{
    Abs, AbsX, AbsY, Acc, Imm, Imp, Ind, IndAbsX, IndX, IndY, IndZp, Rel, Spare, Zp, ZpX, ZpY,
};
use op_table::{
    Mnemonic, Mode, Part, Row, cmos, documented, find, forms_and_rows_agree, names_lead_back, nmos,
};

// Opcode, mnemonic, mode, bytes and cycles.
type Entry = (u8, Mnemonic, Mode, u8, u8);

// From the MCS6500 Programming Manual.
const NMOS_ROWS: [Entry; 42] = [
    (0x69, Adc, Imm, 2, 2),
    (0x65, Adc, Zp, 2, 3),
    (0x75, Adc, ZpX, 2, 4),
    (0x6D, Adc, Abs, 3, 4),
    (0x7D, Adc, AbsX, 3, 4),
    (0x79, Adc, AbsY, 3, 4),
    (0x61, Adc, IndX, 2, 6),
    (0x71, Adc, IndY, 2, 5),
    (0x0A, Asl, Acc, 1, 2),
    (0x06, Asl, Zp, 2, 5),
    (0x16, Asl, ZpX, 2, 6),
    (0x0E, Asl, Abs, 3, 6),
    (0x1E, Asl, AbsX, 3, 7),
    (0x90, Bcc, Rel, 2, 2),
    (0xF0, Beq, Rel, 2, 2),
    (0x24, Bit, Zp, 2, 3),
    (0x00, Brk, Imp, 1, 7),
    (0x18, Clc, Imp, 1, 2),
    (0xCC, Cpy, Abs, 3, 4),
    (0xC6, Dec, Zp, 2, 5),
    (0xDE, Dec, AbsX, 3, 7),
    (0x4C, Jmp, Abs, 3, 3),
    (0x6C, Jmp, Ind, 3, 5),
    (0x20, Jsr, Abs, 3, 6),
    (0xB1, Lda, IndY, 2, 5),
    (0xA2, Ldx, Imm, 2, 2),
    (0xB6, Ldx, ZpY, 2, 4),
    (0xBE, Ldx, AbsY, 3, 4),
    (0xEA, Nop, Imp, 1, 2),
    (0x48, Pha, Imp, 1, 3),
    (0x28, Plp, Imp, 1, 4),
    (0x3E, Rol, AbsX, 3, 7),
    (0x66, Ror, Zp, 2, 5),
    (0x40, Rti, Imp, 1, 6),
    (0x60, Rts, Imp, 1, 6),
    (0x81, Sta, IndX, 2, 6),
    (0x91, Sta, IndY, 2, 6),
    (0x99, Sta, AbsY, 3, 5),
    (0x9D, Sta, AbsX, 3, 5),
    (0x96, Stx, ZpY, 2, 4),
    (0x94, Sty, ZpX, 2, 4),
    (0x9A, Txs, Imp, 1, 2),
];

// The same from the W65C02S data sheet.
const CMOS_ROWS: [Entry; 47] = [
    (0x69, Adc, Imm, 2, 2),
    (0x72, Adc, IndZp, 2, 5),
    (0x1E, Asl, AbsX, 3, 6),
    (0x5E, Lsr, AbsX, 3, 6),
    (0x3E, Rol, AbsX, 3, 6),
    (0x7E, Ror, AbsX, 3, 6),
    (0xFE, Inc, AbsX, 3, 7),
    (0xDE, Dec, AbsX, 3, 7),
    (0x89, Bit, Imm, 2, 2),
    (0x34, Bit, ZpX, 2, 4),
    (0x3C, Bit, AbsX, 3, 4),
    (0x80, Bra, Rel, 2, 3),
    (0xD0, Bne, Rel, 2, 2),
    (0x00, Brk, Imp, 1, 7),
    (0x3A, Dec, Acc, 1, 2),
    (0x1A, Inc, Acc, 1, 2),
    (0x4C, Jmp, Abs, 3, 3),
    (0x6C, Jmp, Ind, 3, 6),
    (0x7C, Jmp, IndAbsX, 3, 6),
    (0x20, Jsr, Abs, 3, 6),
    (0xB2, Lda, IndZp, 2, 5),
    (0xA1, Lda, IndX, 2, 6),
    (0xDA, Phx, Imp, 1, 3),
    (0x5A, Phy, Imp, 1, 3),
    (0xFA, Plx, Imp, 1, 4),
    (0x7A, Ply, Imp, 1, 4),
    (0x60, Rts, Imp, 1, 6),
    (0x92, Sta, IndZp, 2, 5),
    (0x91, Sta, IndY, 2, 6),
    (0x9D, Sta, AbsX, 3, 5),
    (0x64, Stz, Zp, 2, 3),
    (0x74, Stz, ZpX, 2, 4),
    (0x9C, Stz, Abs, 3, 4),
    (0x9E, Stz, AbsX, 3, 5),
    (0x14, Trb, Zp, 2, 5),
    (0x1C, Trb, Abs, 3, 6),
    (0x04, Tsb, Zp, 2, 5),
    (0x0C, Tsb, Abs, 3, 6),
    (0xEA, Nop, Imp, 1, 2),
    (0x03, Nop, Spare, 1, 1),
    (0xCB, Nop, Spare, 1, 1),
    (0x82, Nop, Spare, 2, 2),
    (0x44, Nop, Spare, 2, 3),
    (0xD4, Nop, Spare, 2, 4),
    (0x5C, Nop, Spare, 3, 8),
    (0xDC, Nop, Spare, 3, 4),
    (0xFC, Nop, Spare, 3, 4),
];

/// Returns true if the row of an opcode is that of a manual, and has the bytes of its mode.
fn is_row(part: Part, (op, mnemonic, mode, bytes, cycles): Entry) -> bool {
    let row = Row {
        mnemonic,
        mode,
        bytes,
        cycles,
    };
    let found = match part {
        Part::Nmos => nmos(op),
        Part::Cmos => Some(cmos(op)),
    };
    (found == Some(row)) & (mode == Spare || mode.length() == bytes)
}

/// Returns the first opcode whose row differs.
fn first_other(part: Part, rows: &[Entry]) -> Option<u8> {
    for row in rows {
        if !is_row(part, *row) {
            return Some(row.0);
        }
    }
    None
}

#[test]
fn rows_are_those_of_the_manuals(rt: HostRuntime) {
    assert_eq!(rt; first_other(Part::Nmos, &NMOS_ROWS), None);
    assert_eq!(rt; first_other(Part::Cmos, &CMOS_ROWS), None);
}

/// Returns true if a documented row is found by its mnemonic and mode, and has the bytes of its
/// mode.
fn leads_back(part: Part, op: u8, row: Row) -> bool {
    (find(part, row.mnemonic, row.mode) == Some(op)) & (row.mode.length() == row.bytes)
}

/// Returns the number of documented opcodes of a part, and the number of those that lead back.
fn counts(part: Part) -> (u16, u16) {
    let mut counts = (0u16, 0u16);
    for op in 0..=255u8 {
        if let Some(row) = documented(part, op) {
            let is_found = leads_back(part, op, row);
            counts.0 = counts.0.saturating_add(1);
            counts.1 = counts.1.saturating_add(u16::from(is_found));
        }
    }
    counts
}

#[test]
fn documented_instructions_are_those_of_the_manuals(rt: HostRuntime) {
    forms_and_rows_agree();
    assert_eq!(rt; counts(Part::Nmos), (151, 151));
    assert_eq!(rt; counts(Part::Cmos), (178, 178));
    let of_opcodes = [
        documented(Part::Nmos, 0x80),
        documented(Part::Cmos, 0x80),
        documented(Part::Cmos, 0x5C),
    ];
    assert!(rt; of_opcodes == [None, Some(cmos(0x80)), None]);
    let missing = [
        find(Part::Nmos, Bra, Rel),
        find(Part::Nmos, Lda, IndZp),
        find(Part::Nmos, Inc, Acc),
        find(Part::Nmos, Sta, Imm),
        find(Part::Cmos, Sta, Imm),
        find(Part::Cmos, Ldx, ZpX),
    ];
    assert_eq!(rt; missing, [None; 6]);
}

/// Returns the first opcode whose mnemonic is not found by its name.
fn first_lost() -> Option<u8> {
    for op in 0..=255u8 {
        let mnemonic = cmos(op).mnemonic;
        if Mnemonic::of_name(&mnemonic.name()) != Some(mnemonic) {
            return Some(op);
        }
    }
    None
}

/// Names in either case, and others that are no names.
const NAMES: [(&str, Option<Mnemonic>); 9] = [
    ("LDA", Some(Lda)),
    ("lda", Some(Lda)),
    ("Tsb", Some(Tsb)),
    ("bRk", Some(Brk)),
    ("LDB", None),
    ("LD", None),
    ("LDAX", None),
    ("LD ", None),
    ("", None),
];

#[test]
fn names_go_both_ways(rt: HostRuntime) {
    names_lead_back();
    assert!(rt; Jsr.name() == *b"JSR");
    assert_eq!(rt; first_lost(), None);
    for (text, want) in &NAMES {
        assert!(rt; Mnemonic::of_name(text.as_bytes()) == *want, "{text}");
    }
}
