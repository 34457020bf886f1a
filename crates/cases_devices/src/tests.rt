//! Tables of cases, by the public calls of each crate.
mod adapter_6522;
mod controller_1770;
mod converter_7002;
mod discs;
mod key_scripts;
mod keys;
mod plugged_devices;
mod roms;
mod sound_76489;
mod words;
