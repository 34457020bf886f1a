//! Many character clocks of a quiet chip.
ghost use Rattle.std.specs.Prelude.{ℕ, ◌≡◌, ◌+◌, ◌-◌, ◌/◌, ◌%◌, ◌<◌, ◌==◌, true, if◌then◌else◌};
ghost use Rattle.crtc6845.specs.Calm.{StaysInSync};
ghost use Rattle.crtc6845.specs.CodeSteps.{is_quiet};
ghost use Rattle.crtc6845.specs.Clock.{sync_height};
ghost use Rattle.crtc6845.specs.Laws.{clocks};
ghost use Rattle.crtc6845.specs.Rests.{frames_in, clocks_past_frame, sync_after};

use crate::Finished;
use crate::crtc::Crtc;

impl Crtc {
    fn sync_row(&self) -> u8
        ensures { result ≡ self.now.registers.vertical_sync_position }
    {
        self.registers.vertical_sync_position
    }

    fn sync_left(&self) -> u64
        ensures value { result ≡ self.now.sync_lines }
        ensures bound { result < 256 }
    {
        u64::from(self.sync_lines)
    }

    // Counts `n` lines of vertical sync.
    fn count_sync(&mut self, n: u64)
        ensures { self.new ≡ record self.old { sync_lines = self.old.sync_lines - n } }
    {
        self.sync_lines = u64::from(self.sync_lines).saturating_sub(n) as u8;
    }

    // Begins vertical sync and does `past` further clocks. Sync begins again whenever it is over.
    fn turn_sync(&mut self, past: u64) -> Finished
        requires { past < 18446744073709551615 }
        ensures state { self.new ≡ sync_after past self.old }
        ensures frames { result.frames ≡ 1 + past / sync_height self.old.registers }
        ensures past { result.past ≡ past % sync_height self.old.registers }
    {
        let height = u64::from(self.registers.sync_height());
        let turns = past / height;
        self.sync_lines = (height - past % height) as u8;
        self.fields = ((u64::from(self.fields) + 1 + turns % 0x1_0000_0000) % 0x1_0000_0000) as u32;
        Finished {
            frames: 1 + turns,
            past: past % height,
        }
    }

    /// Does `n` character clocks of a quiet chip, and returns the frames that they finish.
    pub fn rest(&mut self, n: u64) -> Finished
        requires { is_quiet self.old ≡ true }
        ensures state { self.new ≡ clocks n self.old }
        ensures frames { result.frames ≡ frames_in n self.old }
        ensures past { result.past ≡ clocks_past_frame n 0 self.old }
        ensures from { (y : ℕ) → clocks_past_frame n y self.old ≡ (if result.frames == 0 then y + n else result.past) }
        ensures rest { is_quiet self.new ≡ true }
    {
        self.rest_by_turns(n)
    }

    fn rest_by_turns(&mut self, n: u64) -> Finished
        requires { is_quiet self.old ≡ true }
        ensures state { self.new ≡ clocks n self.old }
        ensures frames { result.frames ≡ frames_in n self.old }
        ensures past { result.past ≡ clocks_past_frame n 0 self.old }
        ensures rest { is_quiet self.new ≡ true }
    {
        let left = self.sync_left();
        if self.sync_row() != 0 {
            self.count_sync(n);
            return Finished { frames: 0, past: n };
        }
        if n == 0 {
            return Finished { frames: 0, past: 0 };
        }
        if n < left {
            self.count_sync(n);
            return Finished { frames: 0, past: n };
        }
        let first = if left == 0 { 1 } else { left };
        self.turn_sync(n - first)
    }

    // Returns a number of character clocks of a quiet chip during which vertical sync does not
    // change.
    pub(crate) fn calm_at_rest(&self) -> u64
        requires { is_quiet self.now ≡ true }
        ensures { StaysInSync result self.now }
    {
        let left = self.sync_left();
        if self.sync_row() == 0 {
            if left > 0 { u64::MAX } else { 0 }
        } else if left > 0 {
            left - 1
        } else {
            u64::MAX
        }
    }
}
