//! The outcome of listing instructions: `follow host` and `follow para`.
#![tactic(auto)]

mod listed;

pub use listed::follow_outcome;
