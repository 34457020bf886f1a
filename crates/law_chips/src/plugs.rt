//! Devices on the 1 MHz bus.
ghost use Rattle.law_chips.specs.Cards.{CardRemembers};

/// A byte of the RAM card is the one last written to it, or 00 if none was written.
pub fn a_ram_card_remembers()
    ensures { CardRemembers }
{}
