//! The trace of a run, read by a later call.
ghost use Rattle.law_sessions.specs.TraceOfRun.{RunIsChecked, RunIsReplayed, RunIsFollowed};

use bus_plug::RamCard;
use follow::{host_listing_is_reference, para_listing_is_reference};
use host_mach::HostMachine;
use para_mach::ParaMachine;
use tube_party::{reference_is_replayed, reference_is_trace};
use tube_trace::text_reads_back;

/// If `check` reads the trace that `solo` or `run` wrote, it finds each answer right, and says the
/// number of the accesses that were kept.
pub fn run_is_checked()
    ensures { RunIsChecked }
{
    reference_is_trace::<HostMachine<RamCard>, ParaMachine>();
    text_reads_back();
}

/// If `replay` of either side reads a trace with all accesses of the run, it meets no difference. It
/// writes the memory, the discs, the frames and the sound of that side at the end of the run.
pub fn run_is_replayed()
    ensures { RunIsReplayed }
{
    reference_is_trace::<HostMachine<RamCard>, ParaMachine>();
    reference_is_replayed::<HostMachine<RamCard>, ParaMachine>();
    text_reads_back();
}

/// If `follow` of either side reads a trace with all accesses of the run, it lists the instructions
/// that the side starts in the run.
pub fn run_is_followed()
    ensures { RunIsFollowed }
{
    reference_is_trace::<HostMachine<RamCard>, ParaMachine>();
    reference_is_replayed::<HostMachine<RamCard>, ParaMachine>();
    host_listing_is_reference::<HostMachine<RamCard>, ParaMachine>();
    para_listing_is_reference::<HostMachine<RamCard>, ParaMachine>();
    text_reads_back();
}
