//! The outcomes of running both machines: `solo`, `run` and `gen`.
#![tactic(auto)]

mod alone;
mod demo;
mod run;
mod solo;

pub use demo::gen_outcome;
pub use run::run_outcome;
pub use solo::solo_outcome;
