//! The next of a script's breaks.
ghost use Rattle.std.specs.Prelude.{◌≡◌, ◌≤◌, ◌<◌, ◌^◌, None, Some, MatchOption, length, drop};
ghost use Rattle.key_script.specs.Events.{IsScript};
ghost use Rattle.host_devices.specs.Breaks.{is_break, breaks_until, break_number};
ghost use Rattle.host_devices.specs.CodeBreaks.{IsNextBreak, breaks_before, break_tick};

use beeb_bits::Tick;
use key_script::{Event, What};

/// A place in a script, and the tick of the first break from there on, or 2^64 - 1 if there is
/// none. All breaks before the place are taken.
#[derive(Clone, Copy)]
pub struct Breaks {
    pub place: usize,
    pub next: u64,
}

fn is_break(event: Event) -> bool
    ensures { result ≡ is_break event }
{
    event.what == What::Break
}

// Returns the tick of the first break from `from` on.
fn break_tick(events: &[Event], from: usize) -> u64
    requires { from ≤ length events.now }
    ensures { result ≡ break_tick (drop from events.now) }
{
    let mut place = from;
    while place < events.len() {
        if is_break(events[place]) {
            return events[place].tick.0;
        }
        place += 1;
    }
    u64::MAX
}

// Returns the place after the events up to tick `t`, which is at least `from`.
fn place_behind(events: &[Event], from: usize, t: u64) -> usize
    requires rules { IsScript events.now }
    requires within { from ≤ length events.now }
    requires due { break_tick (drop from events.now) ≤ t }
    requires room { t < 2 ^ 63 }
    ensures within { result ≤ length events.now }
    ensures taken { breaks_until t events.now ≡ breaks_before result events.now }
{
    let mut place = from;
    while place < events.len() && events[place].tick.0 <= t {
        place += 1;
    }
    place
}

impl Breaks {
    /// Returns the state with none of the script's breaks taken.
    pub fn new(events: &[Event]) -> Breaks
        requires { IsScript events.now }
        ensures none { result.place ≡ 0 }
        ensures next { IsNextBreak result events.now }
    {
        Breaks {
            place: 0,
            next: break_tick(events, 0),
        }
    }

    /// Returns the tick of the next break. Returns `None` if there is none.
    pub fn next_tick(&self, events: &[Event]) -> Option<Tick>
        requires { IsNextBreak self.now events.now }
        ensures { let next = break_number (breaks_before self.now.place events.now) events.now in
            MatchOption result (next ≡ None) (λ t. next ≡ Some t.0) }
    {
        if self.next < u64::MAX {
            Some(Tick(self.next))
        } else {
            None
        }
    }

    /// Takes all breaks up to tick `t`. There must be at least one.
    pub fn take(&mut self, events: &[Event], t: u64)
        requires next { IsNextBreak self.old events.now }
        requires due { self.old.next ≤ t }
        requires room { t < 2 ^ 63 }
        ensures taken { breaks_until t events.now ≡ breaks_before self.new.place events.now }
        ensures next { IsNextBreak self.new events.now }
    {
        self.place = place_behind(events, self.place, t);
        self.next = break_tick(events, self.place);
    }
}
