//! The outcome of a replay: `replay host` and `replay para`.
#![tactic(auto)]

mod counting;
mod parts;
mod replayed;

pub use replayed::replay_outcome;
