//! The instruction tables of the NMOS 6502 and of the plain 65C02.
#![tactic(auto)]

mod listings;
mod names;
mod opcodes;
mod rows;

pub use names::{Mnemonic, Mode, Part, names_lead_back};
pub use opcodes::{find, forms_and_rows_agree};
pub use rows::{Row, cmos, documented, nmos};
