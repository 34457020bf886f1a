//! Laws over the definitions: the file of a session is read as that session, and no other bytes
//! are; a run that was saved can be resumed.
ghost use Rattle.tube_party.specs.OneThread.{TakeSides};
ghost use Rattle.save_state.specs.Laws.{FileReadsBack, OnlyFileReads};
ghost use Rattle.save_state.specs.Resume.{SavedRunIsResumed};

use tube_party::{Party, reference_is_replayed, reference_is_trace, shorter_run_is_beginning};

/// The file of a session that keeps the rules is read as that session, and no other bytes are. What
/// is read keeps the rules.
pub fn file_reads_back()
    ensures back { FileReadsBack }
    ensures only { OnlyFileReads }
{}

/// The stored accesses of a run, those below the moment of its session, are a trace below that
/// moment. The replays of both parties against them meet no difference, up to that moment or to an
/// earlier tick.
pub fn saved_run_is_resumed<H: Party, P: Party>()
    requires sides { TakeSides H.plays P.plays }
    ensures { SavedRunIsResumed H.transitions P.transitions }
{
    reference_is_trace::<H, P>();
    reference_is_replayed::<H, P>();
    shorter_run_is_beginning::<H, P>();
}
