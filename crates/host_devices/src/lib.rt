//! The host's devices that advance by microseconds, their wiring, the memory map with SHEILA, and
//! the playback of a key script.
#![tactic(auto)]

mod breaks;
mod devices;
mod law;
mod map;
mod playback;
mod shots;
mod sound;

pub use breaks::Breaks;
pub use devices::Devices;
pub use law::devices_go_on_apart;
pub use map::{Device, device_at, stretch};
pub use playback::Playback;
pub use shots::Shots;
pub use sound::SoundLog;
