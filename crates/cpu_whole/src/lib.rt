//! A whole instruction of either part at once, on the registers alone, if all its accesses are of
//! plain memory.
#![tactic(auto)]

mod alone;
mod at_once;
mod branch;
mod known;
mod operate;
mod operations;
mod outside;
mod plain;
mod ways;

pub use at_once::whole;
pub use branch::branch_to;
pub use outside::{LastAccess, last_access, take_in};
pub use plain::Plain;
