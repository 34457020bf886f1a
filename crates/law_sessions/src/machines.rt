//! The machines of a session.
ghost use Rattle.law_sessions.specs.OneRun.{MachinesAreMadeAgain};

/// The machines made from the session of a run, with the same devices, are the machines with which
/// the run began. A session of these machines begins as a session of the run does.
pub fn machines_are_made_again()
    ensures { MachinesAreMadeAgain }
{}
