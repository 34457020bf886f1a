//! The addresses that are shown from now on.
ghost use Rattle.std.specs.Prelude.{◌≡◌, ◌<◌};
ghost use Rattle.crtc6845.specs.Registers.{start_address};
ghost use Rattle.crtc6845.specs.Laws.{HaveTheirBits};
ghost use Rattle.crtc6845.specs.Windows.{ShowsWindows, now_count, shown_count};

use crate::Windows;
use crate::crtc::Crtc;

impl Crtc {
    // Returns the number of characters that the current frame may still show.
    fn now_count(&self) -> u16
        ensures { result ≡ now_count self.now }
    {
        if self.adjust.is_some() {
            0
        } else if self.registers.vertical_total < self.row {
            16384
        } else {
            self.registers.shown_count(self.row)
        }
    }

    fn row_base(&self) -> u16
        ensures value { result ≡ self.now.base }
        ensures bound { result < 16384 }
    {
        self.base
    }

    fn frame_count(&self) -> u16
        ensures value { result ≡ shown_count self.now.registers 0 }
        ensures bits { HaveTheirBits self.now.registers }
    {
        self.registers.shown_count(0)
    }

    fn frame_start(&self) -> u16
        ensures value { result ≡ start_address self.now.registers }
        ensures bound { result < 16384 }
    {
        self.registers.start_address()
    }

    /// Returns windows of all addresses that are shown from now on, until a register is written.
    pub fn windows(&self) -> Windows
        ensures shown { ShowsWindows result.base result.count result.start result.frame self.now }
        ensures base { result.base < 16384 }
        ensures start { result.start < 16384 }
    {
        Windows {
            base: self.row_base(),
            count: self.now_count(),
            start: self.frame_start(),
            frame: self.frame_count(),
        }
    }
}
