//! The part of a processor, as a type.
ghost use Rattle.std.specs.Prelude.{◌≡◌};
ghost use Rattle.op_table.specs.declared.Part.{Part};

use op_table::Part;

/// The part of a processor.
pub trait Which: Drop {
    ghost part: { Part };

    /// Returns the part.
    fn kind() -> Part
        ensures { result ≡ part };
}

/// The NMOS 6502.
#[derive(Drop)]
pub struct Nmos;

impl Which for Nmos {
    ghost use Rattle.op_table.specs.declared.Part.TheVariants.{Nmos};

    ghost part = { Nmos };

    #[inline(always)]
    fn kind() -> Part {
        Part::Nmos
    }
}

/// The 65C02.
#[derive(Drop)]
pub struct Cmos;

impl Which for Cmos {
    ghost use Rattle.op_table.specs.declared.Part.TheVariants.{Cmos};

    ghost part = { Cmos };

    #[inline(always)]
    fn kind() -> Part {
        Part::Cmos
    }
}
