//! Laws over the definitions.
ghost use Rattle.cmd_machines.specs.Lengths.{LengthsComeFirst};
ghost use Rattle.cmd_machines.specs.Sessions.{BegunIsSession};

/// Proves that the first image, in order of reading, whose length is outside its set is refused.
/// The refusal comes before that of any trace or script.
#[tactic(auto, using(crate::proofs::LengthLemmas::lengths_come_first))]
pub fn lengths_come_first()
    ensures { LengthsComeFirst }
{}

/// Proves that a run whose machines can be made, and whose script is within a session's limit,
/// begins as a session that keeps the rules.
#[tactic(auto, using(crate::proofs::BegunLemmas::begun_is))]
pub fn begun_is_session()
    ensures { BegunIsSession }
{}
