//! The Tube chip shared by two threads: a cell of nine words that each side loads and exchanges as
//! a whole.
#![tactic(auto)]

mod cell;
mod local;
mod rule;
mod waker;
mod words;

use beeb_bits::Crosses;
pub use cell::{Pass, TubeCell, Whole};
pub use local::Readings;
pub use rule::GhostEvents;
pub use waker::Waker;

impl Crosses for TubeCell {}

impl Crosses for Pass {}

/// What threads can share.
pub trait Shared: Sync {}

impl Shared for TubeCell {}
