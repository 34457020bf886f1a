//! Several character clocks inside a line.
ghost use Rattle.std.specs.Prelude.{◌≡◌, ◌+◌, ◌%◌, ◌<◌, ◌≤◌, false, true};
ghost use Rattle.crtc6845.specs.Registers.{cursor_address};
ghost use Rattle.crtc6845.specs.Calm.{Fits};
ghost use Rattle.crtc6845.specs.Clock.{starts_line, is_shown, address, ends_line};
ghost use Rattle.crtc6845.specs.Laws.{clocks};
ghost use Rattle.crtc6845.specs.Spans.{inside_clocks, TellsSpan, CursorIsFirst, to_cursor};

use crate::Span;
use crate::crtc::Crtc;

impl Crtc {
    // Returns the number of characters before the last of the line, or before the count wraps to 0.
    #[inline(always)]
    fn inside_clocks(&self) -> u16
        requires start { starts_line self.now ≡ false }
        requires end { ends_line self.now ≡ false }
        ensures value { result ≡ inside_clocks self.now }
        ensures some { 0 < result }
        ensures bound { result ≤ 256 }
        ensures fits { Fits self.now }
        ensures cursor { cursor_address self.now.registers < 16384 }
    {
        let total = self.registers.total();
        let at = u16::from(self.character);
        if at <= total { total - at } else { 256 - at }
    }

    // Returns the number of characters before the one that begins horizontal sync, or 256 if that
    // one is past.
    #[inline(always)]
    fn to_sync(&self) -> u16
        ensures here { self.now.character ≤ self.now.registers.horizontal_sync_position
            → self.now.character + result ≡ self.now.registers.horizontal_sync_position }
        ensures past { self.now.registers.horizontal_sync_position < self.now.character → result ≡ 256 }
    {
        let at = u16::from(self.character);
        let sync = u16::from(self.registers.horizontal_sync_position);
        if at <= sync { sync - at } else { 256 }
    }

    // Returns a number, at most `n`, of next characters that are all shown. The first must be
    // shown.
    #[inline(always)]
    fn before_hidden(&self, n: u16) -> u16
        requires some { 0 < n }
        requires shown { is_shown self.now ≡ true }
        ensures some { 0 < result }
        ensures most { result ≤ n }
        ensures within { self.now.character + result ≤ self.now.registers.horizontal_displayed }
    {
        let to = u16::from(self.registers.horizontal_displayed).saturating_sub(u16::from(
            self.character,
        ));
        if to == 0 || n < to { n } else { to }
    }

    // Returns a number, at most `n`, of next characters in one block of 1,024 addresses.
    #[inline(always)]
    fn before_page(&self, n: u16) -> u16
        requires some { 0 < n }
        ensures some { 0 < result }
        ensures most { result ≤ n }
        ensures page { address self.now % 1024 + result ≤ 1024 }
    {
        n.min(1024 - self.address() % 1024)
    }

    #[inline(always)]
    fn raster_now(&self) -> u8
        ensures { result ≡ self.now.raster }
    {
        self.raster
    }

    #[inline(always)]
    fn fields_now(&self) -> u32
        ensures { result ≡ self.now.fields }
    {
        self.fields
    }

    // Returns the number of addresses from the next character to the cursor.
    #[inline(always)]
    fn to_cursor(&self) -> u16
        requires { cursor_address self.now.registers < 16384 }
        ensures { result ≡ to_cursor self.now }
    {
        (self.registers.cursor_address() + 16384 - self.address()) % 16384
    }

    // Returns a number, at most `n`, of next characters. Only the first may have the cursor.
    #[inline(always)]
    fn before_cursor(&self, n: u16) -> u16
        requires some { 0 < n }
        requires bound { n ≤ 256 }
        requires cursor { cursor_address self.now.registers < 16384 }
        ensures some { 0 < result }
        ensures most { result ≤ n }
        ensures first { CursorIsFirst result self.now }
    {
        let to = self.to_cursor();
        if to == 0 || n <= to || !self.cursor_is_on() {
            return n;
        }
        to
    }

    // Returns a number, at most `n`, of next characters that are shown if the first is. Only the
    // first may have the cursor or begin horizontal sync. Returns `n` if the first is not shown.
    #[inline(always)]
    fn before_other(&self, shown: bool, to_sync: u16, n: u16) -> u16
        requires some { 0 < n }
        requires bound { n ≤ 256 }
        requires cursor { cursor_address self.now.registers < 16384 }
        requires shown { shown ≡ is_shown self.now }
        ensures some { 0 < result }
        ensures most { result ≤ n }
        ensures sync { is_shown self.now ≡ true → 0 < to_sync → result ≤ to_sync }
        ensures within { is_shown self.now ≡ true
            → self.now.character + result ≤ self.now.registers.horizontal_displayed }
        ensures page { is_shown self.now ≡ true → address self.now % 1024 + result ≤ 1024 }
        ensures first { CursorIsFirst result self.now }
    {
        if !shown {
            return n;
        }
        let n = if to_sync == 0 { n } else { n.min(to_sync) };
        let n = self.before_hidden(n);
        let n = self.before_page(n);
        self.before_cursor(n)
    }

    /// Returns the next characters, all alike and inside the line, if `is_edge` is false. If they
    /// are shown, they are in one block of 1,024 addresses, and only the first may begin horizontal
    /// sync.
    #[inline(always)]
    pub fn span(&self) -> Span
        requires start { starts_line self.now ≡ false }
        requires end { ends_line self.now ≡ false }
        ensures some { 0 < result.clocks }
        ensures inside { result.clocks ≤ inside_clocks self.now }
        ensures told { TellsSpan result self.now }
        ensures page { result.shown ≡ true → result.ma % 1024 + result.clocks ≤ 1024 }
        ensures sync { result.shown ≡ true → 0 < result.to_sync → result.clocks ≤ result.to_sync }
    {
        let shown = self.is_shown();
        let to_sync = self.to_sync();
        let n = self.inside_clocks();
        Span {
            clocks: self.before_other(shown, to_sync, n),
            shown,
            ma: self.address(),
            ra: self.raster_now(),
            cursor: self.has_cursor(),
            to_sync,
            fields: self.fields_now(),
        }
    }

    /// Does `n` character clocks inside the line. `span` has their outputs.
    #[inline(always)]
    pub fn pass(&mut self, n: u16)
        requires start { starts_line self.old ≡ false }
        requires inside { n ≤ inside_clocks self.old }
        ensures { self.new ≡ clocks n self.old }
    {
        self.move_on(n);
    }

    #[inline(always)]
    fn move_on(&mut self, n: u16)
        ensures value { self.new ≡ record self.old { character = (self.old.character + n) % 256 } }
        ensures fits { Fits self.old }
    {
        let _total = self.registers.total();
        self.character = ((u32::from(self.character) + u32::from(n)) % 256) as u8;
    }
}
