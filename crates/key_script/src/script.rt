//! Scripts.
ghost use Rattle.std.specs.Prelude.{◌≡◌};
ghost use Rattle.key_script.specs.Events.{IsScript};
ghost use Rattle.key_script.specs.Keys.{made_of, made_by, is_down};

use crate::{Event, What};
use beeb_bits::Tick;
use std::marker::Model;

/// The events of a script: their ticks never fall and are at most 1,073,741,824, their keys are
/// below 80 hexadecimal, their channels below 4, and at most 256 of them are shots.
#[derive(Drop)]
pub struct Script {
    events: Vec<Event>,
}

impl Model for Script {
    ghost use Rattle.std.specs.Prelude.{List};
    ghost use Rattle.key_script.specs.declared.Event.{Event};
    ghost use Rattle.key_script.specs.Events.{IsScript};

    ghost Value = { List Event };

    ghost view = { λ s. s.events.items };

    ghost invariant = { λ s. IsScript s.events.items };
}

// Returns the state of a key after an event for it.
fn made_of(key: u8, what: What) -> Option<bool>
    ensures { result ≡ made_of key what }
{
    match what {
        What::Down(k) if k == key => Some(true),
        What::Up(k) if k == key => Some(false),
        _ => None,
    }
}

// Returns the state of a key after an event for it, if the event has a tick at most `t`.
fn made_by(key: u8, t: Tick, event: Event) -> Option<bool>
    ensures { result ≡ made_by key t.0 event }
{
    if event.tick <= t {
        made_of(key, event.what)
    } else {
        None
    }
}

// Returns the state of a key at a tick, by `events`.
fn is_down(events: &[Event], key: u8, t: Tick) -> bool
    ensures { result ≡ is_down key t.0 events.now }
{
    let mut down = false;
    for event in events {
        down = made_by(key, t, *event).unwrap_or(down);
    }
    down
}

impl Script {
    /// Makes a script of `events`.
    pub fn make(events: Vec<Event>) -> Script
        requires { IsScript events.items }
        ensures { result ≡ events.items }
    {
        Script { events }
    }

    /// Returns the events, in the order of the lines.
    pub fn events(&self) -> &[Event]
        ensures events { result.now ≡ self.now }
        ensures rules { IsScript self.now }
    {
        let events = &self.events;
        events
    }

    /// Reports if a key is down at tick `t`: the last event for it with a tick at most `t` decides.
    /// It is up if there is none.
    pub fn is_down(&self, key: u8, t: Tick) -> bool
        ensures { result ≡ is_down key t.0 self.now }
    {
        is_down(&self.events, key, t)
    }
}
