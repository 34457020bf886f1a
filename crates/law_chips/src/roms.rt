//! Paged ROMs.
ghost use Rattle.law_chips.specs.Roms.{HalfRomStandsTwice};

/// A ROM of 8,192 bytes reads alike in both halves of its slot.
pub fn a_half_rom_stands_twice()
    ensures { HalfRomStandsTwice }
{}
