//! A listing of the instructions that a machine carries out in a replay.
#![tactic(auto)]

mod choice;
mod count;
mod law;
mod line;
mod listing;
mod machines;
mod notes;
mod points;
mod seen;
mod start;
mod tally;
mod trail;
mod watcher;

pub use choice::Choice;
pub use count::Count;
pub use law::{
    counts_add_up, host_listing_is_reference, para_listing_is_reference, run_is_followed,
};
pub use listing::{FollowError, Listing, list};
pub use points::{Points, PointsError};
pub use seen::Seen;
