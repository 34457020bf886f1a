//! One side at the shared cell: its waits for the other side, and the parasite's speculation.
#![tactic(auto)]

mod at_cell;
mod mark;
mod pause;
mod spec_horizon;

pub use at_cell::{finish, wait_until_admitted};
pub use mark::{GhostSpeculation, Mark};
pub use pause::SpinThenPark;
pub use spec_horizon::{speculate_first, speculate_more, wait_for_host};
