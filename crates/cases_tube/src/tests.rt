//! Tables of cases, by the public calls of each crate.
mod chip;
mod parties;
mod sessions;
mod shared_cell;
mod spec_horizon;
mod steady;
mod strides;
mod traces;
mod two_threads;
