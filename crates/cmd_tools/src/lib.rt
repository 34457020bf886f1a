//! The outcomes of the tools: `check`, `asm` and `dis`.
#![tactic(auto)]

mod asm;
mod check;

pub use asm::{asm_outcome, dis_outcome};
pub use check::check_outcome;
