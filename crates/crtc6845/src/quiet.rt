//! A number of clocks during which vertical sync does not change.
ghost use Rattle.std.specs.Prelude.{◌≡◌, ◌<◌, ◌≤◌};
ghost use Rattle.crtc6845.specs.Calm.{clocks_to_line, meets_last, lines_left, is_sync_line, lines_before_sync, quiet_lines, calm_of, Fits, StaysInSync};

use crate::crtc::Crtc;

impl Crtc {
    // Returns the number of clocks before the next one that starts a line.
    fn clocks_to_line(&self) -> u64
        ensures value { result ≡ clocks_to_line self.now }
        ensures character { self.now.character < 256 }
        ensures bound { result ≤ 256 }
    {
        let total = u64::from(self.registers.horizontal_total);
        let at = u64::from(self.character);
        if at == 0 {
            0
        } else if at <= total {
            total + 1 - at
        } else {
            256 - at
        }
    }

    // Returns a lower bound on the lines that are left of the row, with the current one.
    fn lines_left(&self) -> u64
        ensures value { result ≡ lines_left self.now.registers self.now.raster }
        ensures bound { result ≤ 256 }
    {
        if self.meets_last() {
            u64::from((self.registers.last_raster() - self.raster) / self.registers.raster_step())
                + 1
        } else {
            1
        }
    }

    // Reports if the rasters from the current one on reach the last of the row.
    fn meets_last(&self) -> bool
        ensures { result ≡ meets_last self.now.registers self.now.raster }
    {
        let last = self.registers.last_raster();
        self.raster <= last && (last - self.raster) % self.registers.raster_step() == 0
    }

    // Reports if vertical sync begins with the current line, provided that the sync before it is
    // over.
    fn is_sync_line(&self) -> bool
        ensures { result ≡ is_sync_line self.now }
    {
        self.adjust.is_none()
            && self.row == self.registers.vertical_sync_position
            && self.raster == 0
    }

    // Returns a lower bound, at least 1, on the line ends up to the first line of row R7.
    fn lines_before_sync(&self) -> u64
        ensures value { result ≡ lines_before_sync self.now }
        ensures bound { result ≤ 200000 }
    {
        let lines = self.registers.row_lines();
        let sync = self.registers.vertical_sync_position;
        let total = self.registers.vertical_total;
        match self.adjust {
            Some(_) => u64::from(sync) * lines + 1,
            None => {
                if self.row < sync {
                    self.lines_left() + u64::from(sync - self.row - 1) * lines
                } else if self.row <= total && (self.row != sync || self.meets_last()) {
                    self.lines_left()
                        + u64::from(total - self.row) * lines
                        + u64::from(sync) * lines
                } else {
                    1
                }
            }
        }
    }

    // Returns a number of lines, from the next start of a line on, before sync begins. Sync must be
    // off.
    fn quiet_lines(&self) -> u64
        ensures value { result ≡ quiet_lines self.now }
        ensures bound { result ≤ 200000 }
    {
        if self.starts_line() || self.registers.horizontal_total < self.character {
            if self.is_sync_line() {
                0
            } else {
                self.lines_before_sync()
            }
        } else {
            self.lines_before_sync().saturating_sub(1)
        }
    }

    /// Returns a number of character clocks during which vertical sync does not change.
    pub fn calm(&self) -> u64
        ensures { StaysInSync result self.now }
    {
        if self.is_quiet() {
            self.calm_at_rest()
        } else {
            self.calm_number()
        }
    }

    fn calm_number(&self) -> u64
        ensures value { result ≡ calm_of self.now }
        ensures fits { Fits self.now }
    {
        let lines = if self.vsync() {
            u64::from(self.sync_lines) - 1
        } else {
            self.quiet_lines()
        };
        self.clocks_to_line() + lines * self.registers.line_characters()
    }
}
