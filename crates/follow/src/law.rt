//! Laws about listings.
ghost use Rattle.follow.specs.Steps.{RunIsFollowed};
ghost use Rattle.follow.specs.Adding.{CountsAddUp};
ghost use Rattle.follow.specs.Reference.{HostListingIsReference, ParaListingIsReference};

use crate::seen::Seen;
use crate::watcher::Watcher;
use tube_party::{Party, reference_is_replayed};

/// If a party follows a trace up to a tick, the run of its replay is the list of states from which
/// it does the steps that use up the events.
pub fn run_is_followed<M: Party>()
    ensures { RunIsFollowed M.transitions }
{}

/// If the host is replayed against the accesses of the reference run, its listing is that of its
/// starts in the reference run, for each choice.
pub fn host_listing_is_reference<H: Seen, P: Party>()
    ensures { HostListingIsReference H.steps H.sights P.transitions }
{
    reference_is_replayed::<Watcher<H>, P>();
}

/// If the second processor is replayed against the accesses of the reference run, its listing is
/// that of its starts in the reference run, for each choice.
pub fn para_listing_is_reference<H: Party, P: Seen>()
    ensures { ParaListingIsReference H.transitions P.steps P.sights }
{
    reference_is_replayed::<H, Watcher<P>>();
}

/// The counts of a replay add up: the starts to those that a listing without a filter chooses, and
/// the ticks to the time from the first of these starts to the end.
pub fn counts_add_up<M: Seen>()
    ensures { CountsAddUp M.steps M.sights }
{}
