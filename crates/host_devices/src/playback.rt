//! The playback of a key script.
ghost use Rattle.std.specs.Prelude.{◌≡◌, ◌≤◌, ◌<◌, ◌+◌, ◌++◌, ◌^◌, ℕ, false, [], ◌∷◌, length, drop, All, IfOk, if◌then◌else◌};
ghost use Rattle.keyboard.specs.Keys.{keys_of};
ghost use Rattle.key_script.specs.Events.{IsEvent, IsInRange, NeverFallsFrom, is_shot, shots};
ghost use Rattle.key_script.specs.Keys.{made_of};
ghost use Rattle.key_script.specs.Levels.{level_given};
ghost use Rattle.host_devices.specs.Shots.{shot_at};
ghost use Rattle.host_devices.specs.CodePlayback.{IsLeft, HasLeft, IsPlayed, keys_after, level_turned, level_of};

use crate::shots::Shots;
use beeb_bits::NoMemory;
use key_script::{Event, Script, What};
use keyboard::Keys;
use raster::Frame;
use std::alloc::Global;

/// A script, the keys, the converter's levels and the shots after the events that are done, and the
/// place of the next event.
#[derive(Drop)]
pub struct Playback {
    pub script: Script,
    pub keys: Keys,
    pub levels: [u16; 4],
    pub shots: Shots,
    pub place: usize,
    /// No further event comes before this tick.
    pub event: u64,
}

// Does an event: changes the keys or levels, or stores `frame` as a shot.
fn turn(keys: &mut Keys, levels: &mut [u16; 4], taken: &mut Shots, frame: &Frame, event: Event)
    requires ranged { IsInRange event.what }
    requires four { length levels.old ≡ 4 }
    requires room { shots (event ∷ []) ≤ (taken.old).room }
    ensures keys { keys_of keys.new ≡ keys_after event.what (keys_of keys.old) }
    ensures levels { levels.new ≡ level_turned event.what levels.old }
    ensures four { length levels.new ≡ 4 }
    ensures frames { let before = (taken.old).frames in
        (taken.new).frames ≡ (if is_shot event then before ++ frame.now ∷ [] else before) }
    ensures room { (taken.new).room + shots (event ∷ []) ≡ (taken.old).room }
{
    match event.what {
        What::Down(key) => keys.set(key, true),
        What::Up(key) => keys.set(key, false),
        What::Shot => taken.take(frame),
        What::Break => {}
        What::Level(channel, level) => levels[usize::from(channel)] = level,
    }
}

// Does the events of tick `k`, with `frame` as the last finished frame.
fn happen(
    events: &[Event],
    place: &mut usize,
    keys: &mut Keys,
    levels: &mut [u16; 4],
    taken: &mut Shots,
    frame: &Frame,
    k: u64,
)
    requires rules { All IsEvent events.now }
    requires within { place.old ≤ length events.now }
    requires room { shots (drop place.old events.now) ≤ (taken.old).room }
    requires is_left { IsLeft made_of false events.now (drop place.old events.now) (keys_of keys.old) k }
    requires at_level { IsLeft level_given 0 events.now (drop place.old events.now) (level_of levels.old) k }
    requires has_left { HasLeft events.now (drop place.old events.now) k }
    requires later { NeverFallsFrom k (drop place.old events.now) }
    requires four { length levels.old ≡ 4 }
    ensures within { place.new ≤ length events.now }
    ensures room { shots (drop place.new events.now) ≤ (taken.new).room }
    ensures is_left { IsLeft made_of false events.now (drop place.new events.now) (keys_of keys.new) (k + 1) }
    ensures at_level { IsLeft level_given 0 events.now (drop place.new events.now) (level_of levels.new) (k + 1) }
    ensures four { length levels.new ≡ 4 }
    ensures has_left { HasLeft events.now (drop place.new events.now) (k + 1) }
    ensures later { NeverFallsFrom (k + 1) (drop place.new events.now) }
    ensures taken { (taken.new).frames ≡ shot_at k events.now frame.now (taken.old).frames }
{
    while *place < events.len() && events[*place].tick.0 == k {
        turn(keys, levels, taken, frame, events[*place]);
        *place += 1;
    }
}

// Returns a tick before which no event from `place` on comes.
fn event_tick(events: &[Event], place: usize) -> u64
    requires { place ≤ length events.now }
    ensures later { let left = drop place events.now in
        (from : ℕ) → NeverFallsFrom from left → NeverFallsFrom result left }
    ensures above { let left = drop place events.now in
        (from : ℕ) → from < 2 ^ 63 → NeverFallsFrom from left → from ≤ result }
{
    if place < events.len() {
        events[place].tick.0
    } else {
        u64::MAX
    }
}

impl Playback {
    // Returns a script before its first event.
    fn new(script: Script, taken: Shots) -> Playback
        requires none { taken.frames ≡ [] }
        requires room { taken.room ≡ shots script }
        ensures script { result.script ≡ script }
        ensures shots { result.shots.frames ≡ [] }
        ensures played { IsPlayed result 0 }
    {
        let event = event_tick(script.events(), 0);
        Playback {
            script,
            keys: Keys::new(),
            levels: [0; 4],
            shots: taken,
            place: 0,
            event,
        }
    }

    /// Makes a script before its first event, with memory for all of its shots.
    pub fn make(alloc: Global, script: Script) -> Result<Playback, NoMemory>
        ensures script { IfOk result (λ p. p.script ≡ script) }
        ensures shots { IfOk result (λ p. p.shots.frames ≡ []) }
        ensures played { IfOk result (λ p. IsPlayed p 0) }
    {
        let taken = Shots::make(alloc, script.events())?;
        Ok(Playback::new(script, taken))
    }

    /// Does the events of tick `k`, with `frame` as the last finished frame, and finds the tick of
    /// the next event.
    pub fn play(&mut self, frame: &Frame, k: u64)
        requires room { k < 2 ^ 48 }
        requires played { IsPlayed self.old k }
        ensures script { self.new.script ≡ self.old.script }
        ensures shots { self.new.shots.frames ≡ shot_at k self.old.script frame.now self.old.shots.frames }
        ensures played { IsPlayed self.new (k + 1) }
    {
        let events = self.script.events();
        happen(
            events,
            &mut self.place,
            &mut self.keys,
            &mut self.levels,
            &mut self.shots,
            frame,
            k,
        );
        self.event = event_tick(events, self.place);
    }
}
