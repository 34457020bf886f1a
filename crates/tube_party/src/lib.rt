//! Parties at the Tube: a machine with a clock, two of them at one chip, and one against a trace.
#![tactic(auto)]

mod chip_port;
mod cursor;
mod forward;
mod law;
mod log;
mod noting;
mod one_thread;
mod party;
mod port;
mod replaying;
mod rewinds;
mod stride;

pub use forward::Forward;
pub use law::{
    brought_back_is_reference, legal_merge_is_reference, party_goes_on, reference_is_followed,
    reference_is_replayed, reference_is_trace, replay_is_following, shorter_run_is_beginning,
};
pub use log::{Log, LogMark};
pub use noting::Room;
pub use one_thread::{Done, go_on_from, solo};
pub use party::{Ask, MOST, NO_LINES, Party};
pub use port::{NoPort, TubePort};
pub use replaying::{Doing, replay};
pub use rewinds::Rewinds;
pub use tube_chip::Answer;
