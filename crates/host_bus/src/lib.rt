//! The host's bus: its memory, the devices as the processor reaches them, and the plugged devices
//! on FRED and JIM.
#![tactic(auto)]

mod board;
mod bus;
mod plugged;

pub use bus::Bus;
