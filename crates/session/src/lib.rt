//! Both machines at once, each in its own thread, with the Tube chip in the cell that both share.
//! The parasite's machine speculates ahead of the host.
#![tactic(auto)]

mod ahead;
mod half;
mod lookahead;
mod observe;
mod pair;
mod port;
mod side_job;
mod sight;
mod speculation;
mod stride;

pub use ahead::drive_ahead;
pub use half::{Half, drive};
pub use pair::{PairError, run_pair, run_pair_by};
pub use stride::{Strides, USUAL};
