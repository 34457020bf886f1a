//! The SN76489AN, the sound chip, one clock at a time, and its samples (SN76489AN data sheet).
#![tactic(auto)]

mod chip;
mod law;
mod noise;
mod riff;
mod samples;
mod tone;

pub use chip::Sound;
pub use law::{noise_repeats, noise_shifts_in_time, tones_turn_over, volume_15_is_silence};
pub use riff::wav;
pub use samples::render;

/// A byte that is written to the chip at a moment, in steps of a microsecond.
#[derive(Clone, Copy, Debug, PartialEq, Eq)]
pub struct SoundWrite {
    pub moment: u64,
    pub byte: u8,
}
