//! The inputs of a command by their purpose, and the machines at power-on that are made from them
//! and from the plugged devices.
#![tactic(auto)]

mod discs;
mod inputs;
mod law;
mod machines;
mod roms;
mod script;
mod sessions;
mod setup;
mod starting;

pub use discs::discs_of;
pub use inputs::Inputs;
pub use law::{begun_is_session, lengths_come_first};
pub use machines::{machine_of, machines_of};
pub use roms::roms_of;
pub use script::script_of;
pub use sessions::{inputs_in, setup_in};
pub use setup::Setup;
pub use starting::started;
