//! Texts of disassemblies.
use dis65::{decode_means_its_bytes, disassemble};
use op_table::Part::{self, Cmos, Nmos};
use std::alloc::Global;
use std::test::Fail;

// A part, an origin, bytes from there on, and the lines after `org`.
type Row = (Part, u16, &'static [u8], &'static str);

// Returns true if bytes have their text.
fn is_right(alloc: Global, (part, origin, bytes, lines): Row) -> Result<bool, Fail> {
    if usize::from(origin) + bytes.len() > 65_536 {
        return Ok(false);
    }
    let text = disassemble(alloc, part, bytes, origin)?;
    let want = format!(in alloc; "org &{origin:04X}\n{lines}")?;
    Ok(text.as_slice() == want.as_bytes())
}

const ROWS: [Row; 32] = [
    (
        Nmos,
        0xC000,
        &[0xA9, 0x41, 0x8D, 0x70, 0x00, 0xD0, 0xF9],
        "LDA #&41\nSTA &0070\nBNE &C000\n",
    ),
    // Each mode.
    (Nmos, 0, &[0x60], "RTS\n"),
    (Nmos, 0, &[0x0A], "ASL A\n"),
    (Nmos, 0, &[0xA9, 0x12], "LDA #&12\n"),
    (Nmos, 0, &[0xA5, 0xAF], "LDA &AF\n"),
    (Nmos, 0, &[0xB5, 0x12], "LDA &12,X\n"),
    (Nmos, 0, &[0xB6, 0x12], "LDX &12,Y\n"),
    (Nmos, 0, &[0xAD, 0x34, 0x12], "LDA &1234\n"),
    (Nmos, 0, &[0xBD, 0x34, 0x12], "LDA &1234,X\n"),
    (Nmos, 0, &[0xB9, 0x34, 0x00], "LDA &0034,Y\n"),
    (Nmos, 0, &[0xA1, 0x12], "LDA (&12,X)\n"),
    (Nmos, 0, &[0xB1, 0x12], "LDA (&12),Y\n"),
    (Nmos, 0x1234, &[0xD0, 0xFE], "BNE &1234\n"),
    (Nmos, 0, &[0x6C, 0x34, 0x12], "JMP (&1234)\n"),
    (Cmos, 0, &[0xB2, 0x12], "LDA (&12)\n"),
    (Cmos, 0, &[0x7C, 0x34, 0x12], "JMP (&1234,X)\n"),
    (Cmos, 0, &[0x3A], "DEC A\n"),
    (Cmos, 0, &[0x9C, 0x00, 0xFE], "STZ &FE00\n"),
    // No byte, and opcodes that only the 65C02 has.
    (Nmos, 0, &[], ""),
    (Nmos, 0, &[0xB2, 0x12], "byte &B2\nbyte &12\n"),
    (Nmos, 0, &[0x3A, 0xEA], "byte &3A\nNOP\n"),
    // Opcodes that do nothing on the 65C02.
    (Cmos, 0, &[0x44, 0x60], "byte &44\nRTS\n"),
    (Cmos, 0, &[0x5C, 0xEA, 0xEA], "byte &5C\nNOP\nNOP\n"),
    // Instructions that pass the end.
    (Nmos, 0, &[0xA9], "byte &A9\n"),
    (Nmos, 0, &[0x8D, 0xEA], "byte &8D\nNOP\n"),
    (Cmos, 0, &[0x20, 0x80], "byte &20\nbyte &80\n"),
    // Addresses wrap at the end of memory.
    (Nmos, 0xFFFF, &[0x60], "RTS\n"),
    (Nmos, 0xFFFF, &[0x4C], "byte &4C\n"),
    (Nmos, 0xFFF0, &[0xF0, 0x7F], "BEQ &0071\n"),
    (Nmos, 0xFFFE, &[0x90, 0x00], "BCC &0000\n"),
    (Nmos, 0x0000, &[0x30, 0x80], "BMI &FF82\n"),
    (Cmos, 0x0002, &[0xEA, 0x80, 0xFA], "NOP\nBRA &FFFF\n"),
];

#[test]
fn bytes_have_their_text(rt: HostRuntime) -> Result<(), Fail> {
    decode_means_its_bytes();
    for row in &ROWS {
        let is_right = is_right(rt.alloc(), *row)?;
        assert!(rt; is_right, "{}", row.3);
    }
    Ok(())
}
