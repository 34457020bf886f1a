//! Options among the words.
ghost use Rattle.std.specs.Prelude.{◌≡◌, ◌<◌, ◌≤◌, map, length, option_map, option_and_then, option_copied, IfSome};
ghost use Rattle.std.specs.Prelude.{string_bytes};
ghost use Rattle.cmd_words.specs.Given.{options_of, closed_options, value_at, value_of, put_at, put_option};
ghost use Rattle.cmd_words.specs.Given.{keep_in, keep_of, plugs_in, plugs_of, clock_in, clock_of, wav_of, save_of, at_of, watch_of};
ghost use Rattle.cmd_words.specs.Given.{from_in, from_of, tube_of, counts_of, has_os, has_tube, has_images, has_both};
ghost use Rattle.cmd_words.specs.Keys.{address_of};
ghost use Rattle.cmd_words.specs.View.{seen_given, word_at};

use crate::alone::{is_flag, takes_value};
use crate::keys::{COUNT, CommandKind, MOST_KEEP, MOST_TICKS, address_of, fits, place_of};
use beeb_bits::Clock;
use digits::decimal_number;

/// The number of accesses to keep if no other is given.
const DEFAULT_KEEP: u32 = 1_048_576;

// Returns the number of accesses to keep, by the value of its key.
fn keep_in(value: Option<&str>) -> u32
    ensures number { result ≡ keep_in (option_copied value.entry) }
    ensures bound { result ≤ MOST_KEEP }
{
    let Some(word) = value else {
        return DEFAULT_KEEP;
    };
    match decimal_number(word.as_bytes(), MOST_KEEP) {
        Some(keep) => keep as u32,
        None => DEFAULT_KEEP,
    }
}

/// The most devices that can be plugged.
const MOST_PLUGS: u64 = 8;

// Returns the number of plugged devices, by the value of its key.
fn plugs_in(value: Option<&str>) -> usize
    ensures number { result ≡ plugs_in (option_copied value.entry) }
    ensures bound { result ≤ 8 }
{
    let Some(word) = value else {
        return 0;
    };
    match decimal_number(word.as_bytes(), MOST_PLUGS) {
        Some(plugs) => plugs as usize,
        None => 0,
    }
}

// Returns the clock of the machines, by the value of its key.
fn clock_in(value: Option<&str>) -> Clock
    ensures { result ≡ clock_in (option_copied value.entry) }
{
    match value {
        Some("4") => Clock::Four,
        _ => Clock::Three,
    }
}

// Returns the address that is the value of a key.
fn address_in(value: Option<&str>) -> Option<u16>
    ensures { result ≡ option_and_then address_of (option_copied value.entry) }
{
    match value {
        Some(word) => address_of(word),
        None => None,
    }
}

// Returns the first tick of the listing, by the value of its key.
fn from_in(value: Option<&str>) -> u64
    ensures number { result ≡ from_in (option_copied value.entry) }
    ensures bound { result ≤ MOST_TICKS }
{
    let Some(word) = value else {
        return 0;
    };
    match decimal_number(word.as_bytes(), MOST_TICKS) {
        Some(from) => from,
        None => 0,
    }
}

/// The options among the words: for each key the place of its value among the words.
#[derive(Clone, Copy)]
pub struct Given<'a> {
    pub(crate) words: &'a [String],
    pub(crate) places: [Option<usize>; COUNT],
}

impl<'a> Given<'a> {
    /// Returns the value of the key at a place.
    pub(crate) fn value(&self, place: usize) -> Option<&'a str>
        requires { place < COUNT }
        ensures value { option_copied result ≡ value_at (seen_given self.now) place }
        ensures many { length (seen_given self.now) ≡ COUNT }
    {
        let at = self.places[place]?;
        let word = self.words.get(at)?;
        Some(word.as_str())
    }

    /// Returns the value of a key, by its word.
    pub(crate) fn value_of(&self, key: &str) -> Option<&'a str>
        ensures { option_copied result ≡ value_of (seen_given self.now) key.now }
    {
        match place_of(key) {
            Some(place) => self.value(place),
            None => None,
        }
    }

    /// Returns the number of accesses to keep.
    pub(crate) fn keep(&self) -> u32
        ensures number { result ≡ keep_of (seen_given self.now) }
        ensures bound { result ≤ MOST_KEEP }
    {
        keep_in(self.value_of("--keep"))
    }

    /// Returns the number of devices to plug, 0 if it is not given. If fewer devices are handed in,
    /// all of them are plugged.
    pub fn plugs(&self) -> usize
        ensures number { result ≡ plugs_of (seen_given self.now) }
        ensures bound { result ≤ 8 }
    {
        plugs_in(self.value_of("--plugs"))
    }

    /// Returns the clock of the machines: that of a second processor at 3 MHz if no speed is given.
    pub fn clock(&self) -> Clock
        ensures { result ≡ clock_of (seen_given self.now) }
    {
        clock_in(self.value_of("--speed"))
    }

    /// Returns the name of the sound file, if given.
    pub fn wav(&self) -> Option<&'a str>
        ensures { option_copied result ≡ wav_of (seen_given self.now) }
    {
        self.value_of("--wav")
    }

    /// Returns the name of the session file to save, if given.
    pub fn save(&self) -> Option<&'a str>
        ensures { option_copied result ≡ save_of (seen_given self.now) }
    {
        self.value_of("--save")
    }

    /// Returns the address whose instructions are listed, if given.
    pub fn at(&self) -> Option<u16>
        ensures { result ≡ at_of (seen_given self.now) }
    {
        address_in(self.value_of("--at"))
    }

    /// Returns the address to watch, if given: only instructions before which its byte changed are
    /// listed.
    pub fn watch(&self) -> Option<u16>
        ensures { result ≡ watch_of (seen_given self.now) }
    {
        address_in(self.value_of("--watch"))
    }

    /// Returns the first tick of the listing, 0 if it is not given. Instructions that start earlier
    /// are not listed.
    pub fn from(&self) -> u64
        ensures number { result ≡ from_of (seen_given self.now) }
        ensures bound { result ≤ 1073741824 }
    {
        from_in(self.value_of("--from"))
    }

    /// Returns true if the host has a Tube: `--no-tube` is not given.
    pub fn tube(&self) -> bool
        ensures { result ≡ tube_of (seen_given self.now) }
    {
        self.value_of("--no-tube").is_none()
    }

    /// Returns true if the starts of each address are counted: `--counts` is given.
    pub fn counts(&self) -> bool
        ensures { result ≡ counts_of (seen_given self.now) }
    {
        self.value_of("--counts").is_some()
    }

    fn has_os(&self) -> bool
        ensures { result ≡ has_os (seen_given self.now) }
    {
        self.value_of("--os").is_some()
    }

    fn has_tube(&self) -> bool
        ensures { result ≡ has_tube (seen_given self.now) }
    {
        self.value_of("--tube").is_some()
    }

    // Returns true if both an address and a file of addresses are given.
    fn has_both(&self) -> bool
        ensures { result ≡ has_both (seen_given self.now) }
    {
        self.value_of("--at").is_some() && self.value_of("--points").is_some()
    }

    // Returns true if the machines of a command have their image.
    fn has_images(&self, command_kind: CommandKind) -> bool
        ensures { result ≡ has_images command_kind (seen_given self.now) }
    {
        match command_kind {
            CommandKind::ReplayHost | CommandKind::FollowHost => self.has_os(),
            CommandKind::ReplayPara | CommandKind::FollowPara => self.has_tube(),
            CommandKind::Solo | CommandKind::Run => self.has_os() && self.has_tube(),
            CommandKind::Resume => true,
        }
    }

    // Adds an option at a place, with the word `at` as its value. Returns `None` if the place is
    // taken or the value does not fit.
    #[tactic(auto, using(crate::proofs::GivenLemmas::places_set, crate::proofs::GivenLemmas::word_read, crate::proofs::GivenLemmas::copied_none))]
    fn put_at(self, command_kind: CommandKind, place: usize, at: usize) -> Option<Given<'a>>
        requires place { place < COUNT }
        requires at { at < length self.words.now }
        ensures values { let word = word_at self.entry.words.now at in
            option_map seen_given result ≡ put_at command_kind word (seen_given self.entry) place }
        ensures words { IfSome result (λ g. g.words.now ≡ self.entry.words.now) }
    {
        if fits(command_kind, place, self.words[at].as_str()) && self.value(place).is_none() {
            let mut places = self.places;
            places[place] = Some(at);
            Some(Given {
                words: self.words,
                places,
            })
        } else {
            None
        }
    }

    // Adds an option of the given key, with the word `at` as its value.
    fn put(self, command_kind: CommandKind, key: &str, at: usize) -> Option<Given<'a>>
        requires { at < length self.words.now }
        ensures values { let word = word_at self.entry.words.now at in
            option_map seen_given result ≡ put_option command_kind (key.now, word) (seen_given self.entry) }
        ensures words { IfSome result (λ g. g.words.now ≡ self.entry.words.now) }
    {
        match place_of(key) {
            Some(place) => self.put_at(command_kind, place, at),
            None => None,
        }
    }
}

#[tactic(auto, unfolding(crate::specs::Given::closed_options, crate::specs::Given::no_values))]
// Returns the options among the words, each in its place.
fn put_options(words: &[String], command_kind: CommandKind) -> Option<Given<'_>>
    ensures { option_map seen_given result ≡ closed_options command_kind (map string_bytes words.now) }
{
    let mut given = Given {
        words,
        places: [None; COUNT],
    };
    let mut key: Option<&str> = None;
    for (i, word) in words.iter().enumerate() {
        match key {
            Some(held) => {
                match given.put(command_kind, held, i) {
                    Some(more) => given = more,
                    None => return None,
                }
                key = None;
            }
            None => {
                if takes_value(word.as_str()) {
                    key = Some(word.as_str());
                } else if is_flag(word.as_str()) {
                    match given.put(command_kind, word.as_str(), i) {
                        Some(more) => given = more,
                        None => return None,
                    }
                }
            }
        }
    }
    if key.is_none() { Some(given) } else { None }
}

#[tactic(auto, unfolding(crate::specs::Given::options_of))]
/// Returns the options among the words, if the command accepts them and its machines have their
/// images.
pub(crate) fn options_among(words: &[String], command_kind: CommandKind) -> Option<Given<'_>>
    ensures { option_map seen_given result ≡ options_of command_kind (map string_bytes words.now) }
{
    match put_options(words, command_kind) {
        Some(given) if given.has_images(command_kind) && !given.has_both() => Some(given),
        _ => None,
    }
}
