//! The video ULA: the colours of a byte's dots (BBC Microcomputer Advanced User Guide, The Video
//! ULA).
#![tactic(auto)]

mod dots;
mod entries;
mod ready;
mod ula;

pub use ula::Ula;
