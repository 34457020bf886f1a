//! Tables of cases, by the public calls of each crate.
mod bus;
mod held;
mod listings;
mod second_processor;
