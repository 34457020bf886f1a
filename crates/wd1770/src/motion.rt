//! Type I commands.
ghost use Rattle.std.specs.Prelude.{◌≡◌, ◌≤◌, ◌<◌};
ghost use Rattle.wd1770.specs.Motion.{step_time, head_motion, restore, difference, seek, step_once, motion_of, head_after, track_after, move_leaves, motion_step};

use crate::command::{Command, Motion, TrackChange};
use crate::controller::Controller;
use crate::drive::{drive_or_0, drive_selected};
use beeb_bits::bit;

/// The innermost track that a head can reach.
const LAST_TRACK: u8 = 83;

/// Returns the microseconds of a step, by bits 1 and 0 of the command.
fn step_time(v: u8) -> u32
    ensures value { result ≡ step_time v }
    ensures bound { result ≤ 30000 }
{
    match v % 4 {
        0 => 6_000,
        1 => 12_000,
        2 => 20_000,
        _ => 30_000,
    }
}

/// Returns the difference of two numbers.
fn difference(a: u8, b: u8) -> u8
    ensures { result ≡ difference a b }
{
    a.max(b) - a.min(b)
}

impl Controller {
    /// Returns the type I command of the byte `v`.
    pub(crate) fn motion_of(&self, v: u8) -> Command
        ensures { result ≡ motion_of v self.now }
    {
        if v < 0x10 {
            self.restore(v)
        } else if v < 0x20 {
            self.seek(v)
        } else if v < 0x40 {
            self.step_once(v, self.last_inward)
        } else if v < 0x60 {
            self.step_once(v, true)
        } else {
            self.step_once(v, false)
        }
    }

    // Returns a command of `steps` steps of the selected head.
    fn moving(&self, v: u8, steps: u8, inward: bool, track: TrackChange) -> Command
        ensures { result ≡ head_motion v steps inward track self.now }
    {
        let motion = Motion {
            drive: drive_or_0(drive_selected(self.latch)),
            steps,
            inward,
            track,
            verifies: bit(v, 2),
        };
        let time = u32::from(steps) * step_time(v);
        Command::Moving(motion, time.max(1))
    }

    fn restore(&self, v: u8) -> Command
        ensures { result ≡ restore v self.now }
    {
        self.moving(v, self.head_selected(), false, TrackChange::Becomes(0))
    }

    fn seek(&self, v: u8) -> Command
        ensures { result ≡ seek v self.now }
    {
        let to = self.byte;
        let steps = difference(to, self.track);
        self.moving(v, steps, self.track < to, TrackChange::Becomes(to))
    }

    fn step_once(&self, v: u8, inward: bool) -> Command
        ensures { result ≡ step_once v inward self.now }
    {
        let track = if bit(v, 4) {
            TrackChange::Follows
        } else {
            TrackChange::Stays
        };
        self.moving(v, 1, inward, track)
    }

    /// Does a step of a type I command.
    pub(crate) fn step_motion(&mut self, motion: Motion, left: u32)
        ensures { self.new ≡ motion_step motion left self.old }
    {
        if left > 1 {
            self.command = Command::Moving(motion, left - 1);
        } else {
            self.finish_motion(motion);
        }
    }

    // Returns the head's track at the end of the motion.
    fn head_after(&self, motion: Motion) -> u8
        ensures { result ≡ head_after motion self.now }
    {
        let head = self.head_of(motion.drive);
        if motion.inward {
            head.saturating_add(motion.steps).min(LAST_TRACK)
        } else {
            head.saturating_sub(motion.steps)
        }
    }

    // Returns the track register at the end of the motion.
    fn track_after(&self, motion: Motion) -> u8
        ensures { result ≡ track_after motion self.now }
    {
        match motion.track {
            TrackChange::Stays => self.track,
            TrackChange::Becomes(v) => v,
            TrackChange::Follows => {
                if motion.inward {
                    self.track.wrapping_add(1)
                } else {
                    self.track.wrapping_sub(1)
                }
            }
        }
    }

    // Ends a type I command.
    fn finish_motion(&mut self, motion: Motion)
        ensures { self.new ≡ move_leaves motion self.old }
    {
        let head = self.head_after(motion);
        let track = self.track_after(motion);
        self.move_head(motion.drive, head);
        self.track = track;
        if motion.steps != 0 {
            self.last_inward = motion.inward;
        }
        self.record_not_found = self.record_not_found || (motion.verifies && track != head);
        self.finish();
    }
}
