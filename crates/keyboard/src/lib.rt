//! The keyboard, and the addressable latch that controls it.
#![tactic(auto)]

mod keys;
mod latch;

pub use keys::Keys;
pub use latch::Latch;
