//! Resets, interrupts, BREAK, and the boot ROM.
ghost use Rattle.law_machines.specs.BootRom.{RomIsIn};
ghost use Rattle.law_machines.specs.Breaks.{BreaksBegin};
ghost use Rattle.law_machines.specs.Interrupts.{ParaInterrupts, HostInterrupts};
ghost use Rattle.law_machines.specs.Resets.{BreakResets};

use crate::ticks::the_host_keeps_to_its_cycles;

/// The second processor's boot ROM is in exactly if no step since the last reset has reached the
/// Tube.
pub fn the_boot_rom_is_in()
    ensures { RomIsIn }
{}

/// Over runs of the second processor, each new count of resets begins a reset, and each new count
/// of NMIs one NMI. An IRQ begins only if its line is asserted and flag I is clear. Each begins at
/// the first look that sees it.
pub fn para_interrupts_begin()
    ensures { ParaInterrupts }
{}

/// Over runs of the host, an NMI begins only at the first look after a rise of its line. An IRQ
/// begins only if a line is asserted and flag I is clear.
pub fn host_interrupts_begin()
    ensures { HostInterrupts }
{}

/// Over runs of the host, BREAK begins only at or after its tick. It begins at the first look, or
/// at the last tick of an access of a halted processor.
pub fn break_begins()
    ensures { BreaksBegin }
{
    the_host_keeps_to_its_cycles();
}

/// BREAK resets the processor, the user's 6522, the disc controller's latch and the Tube. All else
/// of the host stays as it was.
pub fn break_resets()
    ensures { BreakResets }
{}
