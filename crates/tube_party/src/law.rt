//! Laws over the definitions of parties, of the reference run and of a replay.
ghost use Rattle.tube_party.specs.CodeClosing.{MayBeShut, FollowsOn};
ghost use Rattle.tube_party.specs.Reference.{LegalMergeIsReference, ReferenceIsFollowed, ReferenceIsTrace};
ghost use Rattle.tube_party.specs.OneThread.{TakeSides};
ghost use Rattle.tube_party.specs.GoingOn.{BroughtBackIsReference, ShorterRunIsBeginning};
ghost use Rattle.tube_party.specs.ReplayLaws.{ReplayIsFollowing, ReplayTellsDifference, ReferenceIsReplayed};

use crate::party::Party;

/// A party that was closed continues as it would have before. What it follows up to one tick and
/// then up to another it follows up to the second at once.
pub fn party_goes_on<M: Party>()
    ensures shut { MayBeShut M.transitions }
    ensures follows { FollowsOn M.transitions }
{}

/// If two parties each follow a list of events of their side, and the merge of the two lists is
/// legal, the reference run ends with both as they end, and its list is that merge.
pub fn legal_merge_is_reference<H: Party, P: Party>()
    ensures { LegalMergeIsReference H.transitions P.transitions }
{}

/// In the reference run each party follows its side of the list, whose answers are the chip's.
pub fn reference_is_followed<H: Party, P: Party>()
    ensures { ReferenceIsFollowed H.transitions P.transitions }
{}

/// The accesses of the reference run's list are operations that their sides may do. They rise, lie
/// below the end of the run, and have the chip's answers.
pub fn reference_is_trace<H: Party, P: Party>()
    requires sides { TakeSides H.plays P.plays }
    ensures { ReferenceIsTrace H.transitions P.transitions }
{}

/// A replay ends without a difference, with the party in some state, exactly if the party follows a
/// list of events to that state. The accesses of the list are the side's entries below the end of
/// the replay, and its looks see the chip after the trace's entries before them. A replay ends at a
/// place exactly if the party and the entries differ there for the first time.
pub fn replay_is_following<M: Party>()
    ensures follows { ReplayIsFollowing M.transitions }
    ensures differs { ReplayTellsDifference M.transitions }
{}

/// A replay of either party against the accesses of the reference run's list ends without a
/// difference, with the party as the reference run leaves it.
pub fn reference_is_replayed<H: Party, P: Party>()
    ensures { ReferenceIsReplayed H.transitions P.transitions }
{}

/// Two parties that were brought back to a tick, each by its replay against a trace below it, with
/// the chip after that trace and its accesses, are the reference run at that tick, but for the
/// looks in its list. The reference run that continues from there is the reference run, but for
/// these looks.
pub fn brought_back_is_reference<H: Party, P: Party>()
    ensures { BroughtBackIsReference H.transitions P.transitions }
{}

/// The reference run to a tick makes the accesses that a longer one makes below it.
pub fn shorter_run_is_beginning<H: Party, P: Party>()
    ensures { ShorterRunIsBeginning H.transitions P.transitions }
{}
