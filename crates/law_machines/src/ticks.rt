//! The durations of the sequences of both processors.
ghost use Rattle.law_machines.specs.HostTicks.{HostTakes, HostKeepsCycles, HostTakesTheTable};
ghost use Rattle.law_machines.specs.ParaTicks.{ParaTakes, ParaTakesTheTable};

/// A sequence of the host takes the ticks of its cycles, and of one or two more for each access
/// that waits.
pub fn host_sequences_take_their_ticks()
    ensures { HostTakes }
{}

/// Each access of the host is at the first tick of a cycle, and each look and each break step at
/// the last one.
pub fn the_host_keeps_to_its_cycles()
    ensures { HostKeepsCycles }
{}

/// An instruction of the host has exactly the cycles that the instruction table has for it, one more
/// for a crossed page and for a taken branch, and two for a branch to another page.
pub fn host_cycles_of_the_table()
    ensures { HostTakesTheTable }
{}

/// A sequence of the second processor takes two ticks for each of its cycles at 3 MHz, and three at
/// 4 MHz.
pub fn para_sequences_take_their_ticks()
    ensures { ParaTakes }
{}

/// An instruction of the second processor has exactly the table's cycles and the same further ones,
/// and one more for a sum in decimal mode.
pub fn para_cycles_of_the_table()
    ensures { ParaTakesTheTable }
{}
