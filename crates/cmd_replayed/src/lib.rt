//! The parts that `replay`, `follow` and `resume` share to replay a machine against a trace: the
//! machines with the entries that were read, and the text if one differs.
#![tactic(auto)]

mod differing;
mod made;

pub use differing::differs_outcome;
pub use made::{host_made, para_made};
