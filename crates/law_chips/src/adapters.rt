//! The 6522.
ghost use Rattle.law_chips.specs.Edges.{Ca1Sees, Ca2Sees, Cb1Sees, Cb2Sees};
ghost use Rattle.law_chips.specs.ViaBytes.{LatchesAreBytes};
ghost use Rattle.law_chips.specs.ViaFlags.{FlagsAreCleared, FlagsAreShown};
ghost use Rattle.law_chips.specs.ViaPorts.{PortsShowTheirBits};

/// In each run of steps, a control line's flag is set exactly if the line has the edge that PCR
/// selects as active.
pub fn active_edges_set_flags()
    ensures ca1 { Ca1Sees }
    ensures ca2 { Ca2Sees }
    ensures cb1 { Cb1Sees }
    ensures cb2 { Cb2Sees }
{}

/// Each run from power-on leaves bytes in the low latches of a 6522's timers. The laws of the
/// timers need this.
pub fn latches_are_bytes()
    ensures { LatchesAreBytes }
{}

/// An IFR flag is cleared by the accesses that the data sheet names for it, and by no others.
pub fn flags_are_cleared()
    ensures { FlagsAreCleared }
{}

/// IFR shows the flags. Its bit 7 is set if an enabled flag is set. IER shows the enabled flags.
pub fn flags_are_shown()
    ensures { FlagsAreShown }
{}

/// A read of a port returns the output register for output bits, and the pins for input bits.
pub fn ports_show_their_bits()
    ensures { PortsShowTheirBits }
{}
