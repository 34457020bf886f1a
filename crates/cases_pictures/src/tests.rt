//! Tables of cases, by the public calls of each crate.
mod crtc_6845;
mod frames;
mod pixmaps;
mod teletext_5050;
mod ula;
