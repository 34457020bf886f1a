//! A run that is saved, and resumed. A run of more ticks goes on from the run of fewer ticks.
ghost use Rattle.law_sessions.specs.OneRun.{SavedRunIsRead, SessionIsWritten, SavedRunIsOneRun, WordsGoOn, SessionBegins, ResumedRunIsOneRun};
ghost use Rattle.law_sessions.specs.LongerRun.{LongerRunGoesOn};

use crate::machines::machines_are_made_again;
use crate::words::words_begin;
use bus_plug::RamCard;
use cmd_machines::begun_is_session;
use host_mach::HostMachine;
use para_mach::ParaMachine;
use save_state::{file_reads_back, saved_run_is_resumed};
use tube_party::{
    brought_back_is_reference, reference_is_replayed, reference_is_trace, shorter_run_is_beginning,
};

/// The session of a run keeps the rules of a session, and its file reads as that session.
pub fn saved_run_is_read()
    ensures { SavedRunIsRead }
{
    begun_is_session();
    file_reads_back();
    saved_run_is_resumed::<HostMachine<RamCard>, ParaMachine>();
}

/// The last file of a run with `--save` is its session file, under the given name.
pub fn session_is_written()
    ensures { SessionIsWritten }
{}

/// A run resumed from the session file of a run, with the same devices, yields what an
/// uninterrupted run of the same number of ticks yields.
pub fn saved_run_is_one_run()
    ensures { SavedRunIsOneRun }
{
    machines_are_made_again();
    saved_run_is_read();
    saved_run_is_resumed::<HostMachine<RamCard>, ParaMachine>();
}

/// For the words of `solo` and `run` and the files that they name: the run resumed from what the
/// first run saved is one run with it.
pub fn words_go_on()
    ensures { WordsGoOn }
{
    words_begin();
    saved_run_is_one_run();
}

/// A session that a file holds is the beginning of a run, whoever wrote the file, if its machines
/// can be made.
pub fn session_begins()
    ensures { SessionBegins }
{
    file_reads_back();
}

/// A run resumed from any session file and saved again is the run of that session's machines from
/// power-on. So is a run resumed from the file that it wrote.
pub fn resumed_run_is_one_run()
    ensures { ResumedRunIsOneRun }
{
    session_begins();
    session_is_written();
    saved_run_is_one_run();
}

/// The run of more ticks goes on from the machines and the accesses of the run of fewer ticks. Its
/// trace begins with the trace of that run, if both keep the same number of accesses.
pub fn longer_run_goes_on()
    ensures { LongerRunGoesOn }
{
    reference_is_trace::<HostMachine<RamCard>, ParaMachine>();
    reference_is_replayed::<HostMachine<RamCard>, ParaMachine>();
    brought_back_is_reference::<HostMachine<RamCard>, ParaMachine>();
    shorter_run_is_beginning::<HostMachine<RamCard>, ParaMachine>();
}
