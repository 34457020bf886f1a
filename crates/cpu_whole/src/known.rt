//! The facts known of each opcode, as a table of each part.
ghost use Rattle.std.specs.Prelude.{◌≡◌};
ghost use Rattle.op_table.specs.declared.names.Part.TheVariants.{Nmos, Cmos};
ghost use Rattle.cpu_whole.specs.CodeWays.{known_at};

use cpu_alu::BusUse;
use op_table::{Mnemonic, Mode, Part};

/// The facts known of an opcode: its use of the bus, and its row without the cycles, which are
/// counted up to the operand. The struct has four bytes, so that a shift finds it in the table.
#[derive(Clone, Copy, Debug, PartialEq, Eq)]
pub(crate) struct Known {
    pub(crate) uses: BusUse,
    pub(crate) mnemonic: Mnemonic,
    pub(crate) mode: Mode,
    pub(crate) bytes: u8,
}

macro_rules! known {
    () => {
        Known {
            uses: BusUse::Breaks,
            mnemonic: Mnemonic::Nop,
            mode: Mode::Spare,
            bytes: 1,
        }
    };
    ($mnemonic:ident $mode:ident $bytes:literal $cycles:literal $uses:ident) => {
        Known {
            uses: BusUse::$uses,
            mnemonic: Mnemonic::$mnemonic,
            mode: Mode::$mode,
            bytes: $bytes,
        }
    };
}

macro_rules! table {
    ($([$($entry:tt)*])*) => { [$(known!($($entry)*)),*] };
}

static NMOS: [Known; 256] = op_table::nmos_listing!(table);

static CMOS: [Known; 256] = op_table::cmos_listing!(table);

/// Returns the facts known of an opcode. One without an instruction counts as BRK, which is not
/// carried out whole. The facts are borrowed and not copied, so that each field is read only if
/// needed.
#[inline(always)]
pub(crate) fn known_at(part: Part, op: u8) -> &'static Known
    ensures { result.now ≡ known_at part op }
{
    match part {
        Part::Nmos => &NMOS[op as usize],
        Part::Cmos => &CMOS[op as usize],
    }
}
