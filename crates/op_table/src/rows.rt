//! The row of each opcode in the instruction tables.
ghost use Rattle.std.specs.Prelude.{◌≡◌, ◌↔◌, ◌<◌, ◌≤◌, IsSome, IfSome, option_map};
ghost use Rattle.op_table.specs.declared.names.Part.TheVariants.{Nmos, Cmos};
ghost use Rattle.op_table.specs.Forms.{IsDocumented, forms, form_at};
ghost use Rattle.op_table.specs.Rows.{cmos_row, nmos_row, row_of, documented_row};

use crate::names::{Mnemonic, Mode, Part};

/// The entry of the instruction table for one opcode.
#[derive(Clone, Copy, Debug, PartialEq, Eq)]
pub struct Row {
    /// The instruction.
    pub mnemonic: Mnemonic,
    /// The place of its operand.
    pub mode: Mode,
    /// The bytes of the instruction, its opcode included.
    pub bytes: u8,
    /// The bus cycles of every execution: without those of a taken branch, of a crossed page or of
    /// decimal arithmetic.
    pub cycles: u8,
}

macro_rules! row {
    ($mnemonic:ident $mode:ident $bytes:literal $cycles:literal $uses:ident) => {
        Row {
            mnemonic: Mnemonic::$mnemonic,
            mode: Mode::$mode,
            bytes: $bytes,
            cycles: $cycles,
        }
    };
}

macro_rules! rows {
    ($([$($row:tt)+])*) => { [$(row!($($row)+)),*] };
}

macro_rules! row_or_none {
    () => { None };
    ($($row:tt)+) => { Some(row!($($row)+)) };
}

// Like `rows`, for a table in which an opcode may have no row.
macro_rules! rows_or_none {
    ($([$($row:tt)*])*) => { [$(row_or_none!($($row)*)),*] };
}

static NMOS: [Option<Row>; 256] = crate::nmos_listing!(rows_or_none);

static CMOS: [Row; 256] = crate::cmos_listing!(rows);

/// Returns the row of an opcode of the NMOS 6502. Returns `None` if no documented instruction has
/// it.
/// Source: the MCS6500 Programming Manual.
pub fn nmos(op: u8) -> Option<Row>
    ensures row { result ≡ nmos_row op }
    ensures documented { IsSome result ↔ IsDocumented Nmos op }
    ensures within { IfSome result (λ row. (0 < row.bytes) × (row.bytes ≤ 3) × (0 < row.cycles) × (row.cycles ≤ 7)) }
{
    NMOS[op as usize]
}

/// Returns the row of an opcode of the 65C02. An opcode that does nothing is a `Nop` of mode
/// `Spare`.
/// Source: the W65C02S data sheet, without its instructions for single bits, WAI and STP.
pub fn cmos(op: u8) -> Row
    ensures row { result ≡ cmos_row op }
    ensures spare { (result.mode ≡ Mode.Spare) ↔ (¬ IsDocumented Cmos op) }
    ensures within { (0 < result.bytes) × (result.bytes ≤ 3) × (0 < result.cycles) × (result.cycles ≤ 8) }
{
    CMOS[op as usize]
}

/// Returns the row of an opcode if the part documents it. Returns `None` for an opcode of the NMOS
/// 6502 outside its 151, and for one of the 65C02 that does nothing.
pub fn documented(part: Part, op: u8) -> Option<Row>
    ensures row { result ≡ documented_row part op }
    ensures form { result ≡ option_map (row_of part) (form_at (forms part) op) }
    ensures documented { IsSome result ↔ IsDocumented part op }
{
    match part {
        Part::Nmos => nmos(op),
        Part::Cmos => {
            let row = cmos(op);
            if row.mode == Mode::Spare {
                None
            } else {
                Some(row)
            }
        }
    }
}
