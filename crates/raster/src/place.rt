//! The place of the beam.
ghost use Rattle.std.specs.Prelude.{◌≡◌, ◌+◌, ◌*◌, ◌≤◌, ◌==◌, min, if◌then◌else◌};
ghost use Rattle.raster.specs.Beam.{place_at, place_past};
ghost use Rattle.raster.specs.State.{first_place};
ghost use Rattle.raster.specs.CodeSteps.{place_in_span};

use crtc6845::{Beam, Finished};
use std::marker::Model;

/// The largest number of lines that the beam counts.
const MOST_LINES: u16 = 1023;

/// The largest number of eights of dots that the beam counts.
const MOST_EIGHTS: u16 = 512;

/// The largest number of dots in the beam's place.
const MOST_DOTS: u16 = 4095;

#[derive(Drop)]
pub(crate) struct Place {
    // The dots since the beginning of horizontal sync, in eights: each character has 8 or 16.
    pub(crate) eights: u16,
    // The lines since the beginning of vertical sync.
    pub(crate) y: u16,
}

impl Model for Place {
    ghost use Rattle.std.specs.Prelude.{◌*◌, ◌≤◌, min};
    ghost use Rattle.raster.specs.Beam.{Place};

    ghost Value = { Place };

    ghost view = { λ p. record { x = min (8 * p.eights) 4095; y = p.y } };

    ghost invariant = { λ p. (p.eights ≤ 512) × (p.y ≤ 1023) };
}

impl Place {
    pub(crate) fn first() -> Place
        ensures { result ≡ first_place }
    {
        Place { eights: 0, y: 0 }
    }

    /// Returns the dots since the beginning of horizontal sync, at most 4,095.
    #[inline(always)]
    pub(crate) fn x(&self) -> u16
        ensures value { result ≡ self.now.x }
        ensures bound { result ≤ MOST_DOTS }
    {
        (8 * self.eights).min(MOST_DOTS)
    }

    /// Moves to a character. A line or a frame may start with it, and horizontal sync may begin.
    pub(crate) fn meet(&mut self, beam: &Beam)
        ensures { self.new ≡ place_at beam.now self.old }
    {
        if beam.frame_end {
            self.y = 0;
        } else if beam.line_start && self.y < MOST_LINES {
            self.y += 1;
        }
        if beam.sync_start {
            self.start_sync();
        }
    }

    /// Moves down `n` lines of one character each. Some of them may begin vertical sync.
    pub(crate) fn rest(&mut self, n: u64, done: Finished)
        ensures place { self.new ≡ record self.old {
          y = min (if done.frames == 0 then self.old.y + n else done.past) 1023;
        } }
        ensures bound { self.old.y ≤ 1023 }
    {
        if done.frames == 0 {
            self.y = u64::from(self.y).saturating_add(n).min(1023) as u16;
            return;
        }
        let _ = &self.y;
        self.y = done.past.min(1023) as u16;
    }

    /// Begins horizontal sync.
    #[inline(always)]
    pub(crate) fn start_sync(&mut self)
        ensures { self.new ≡ record self.old { x = 0 } }
    {
        self.eights = 0;
    }

    /// Moves past a character of 8 or 16 dots.
    #[inline(always)]
    pub(crate) fn pass(&mut self, narrow: bool)
        ensures { self.new ≡ place_past (if narrow then 8 else 16) self.old }
    {
        let eights = if narrow { 1 } else { 2 };
        self.eights = (self.eights + eights).min(MOST_EIGHTS);
    }

    /// Moves past `n` characters of 8 or 16 dots. Horizontal sync begins after `to_sync` of them,
    /// if `n` is above that.
    #[inline(always)]
    pub(crate) fn pass_span(&mut self, narrow: bool, to_sync: u16, n: u16)
        ensures { self.new ≡ place_in_span to_sync n (if narrow then 8 else 16) self.old }
    {
        if to_sync < n {
            self.start_sync();
            self.pass_many(narrow, n - to_sync);
        } else {
            self.pass_many(narrow, n);
        }
    }

    /// Moves past `n` characters of 8 or 16 dots.
    #[inline(always)]
    pub(crate) fn pass_many(&mut self, narrow: bool, n: u16)
        ensures { self.new ≡ place_past (n * (if narrow then 8 else 16)) self.old }
    {
        let eights = if narrow { 1 } else { 2 };
        let all = u32::from(self.eights) + eights * u32::from(n);
        self.eights = all.min(u32::from(MOST_EIGHTS)) as u16;
    }
}
