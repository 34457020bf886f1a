//! One line of a script.
ghost use Rattle.std.specs.Prelude.{◌≡◌, ◌≤◌, ◌<◌, ◌∷◌, [], ◌++◌, All, ◌≢◌, IfSome, MatchOption};
ghost use Rattle.std.specs.Str.{bytes_eq};
ghost use Rattle.key_script.specs.Words.{words_of};
ghost use Rattle.key_script.specs.Events.{IsEvent, IsInRange};
ghost use Rattle.key_script.specs.Line.{number_of, key_of, channel_of, level_of, what_alone, what_with, what_of_level, what_of, event_of_words, event_of};

use crate::{Event, What};
use beeb_bits::Tick;
use digits::{all_hex, decimal_number, hex_number};

/// The tick of the longest run.
const LAST_TICK: u64 = 1_073_741_824;

// Returns the bytes before the first space, and those after it. Returns `None` if there is no
// space.
fn split_at_space(line: &[u8]) -> Option<(&[u8], &[u8])>
    ensures none { MatchOption result (All (λ b. b ≢ 32) line.now) (λ parts. All (λ b. b ≢ 32) parts.0.now) }
    ensures parts { IfSome result (λ parts. line.now ≡ parts.0.now ++ 32 ∷ parts.1.now) }
{
    let place = line.iter().position(|b| *b == b' ')?;
    Some((&line[..place], &line[place + 1..]))
}

// Returns the first word of a line and the bytes after its space. Returns `None` if the line is one
// word.
fn split_word(line: &[u8]) -> Option<(&[u8], &[u8])>
    ensures { MatchOption result (words_of line.now ≡ line.now ∷ []) (λ parts. words_of line.now ≡ parts.0.now ∷ words_of parts.1.now) }
{
    split_at_space(line)
}

fn is_word(word: &[u8], want: &[u8]) -> bool
    ensures { result ≡ bytes_eq word.now want.now }
{
    word == want
}

// Returns the number of a word of `digits` digits, if it is below `bound`.
fn number_of(word: &[u8], digits: usize, bound: u64) -> Option<u64>
    requires { digits ≤ 16 }
    ensures value { result ≡ number_of digits bound word.now }
    ensures bound { IfSome result (λ n. n < bound) }
{
    if word.len() == digits && all_hex(word) {
        let number = hex_number(word);
        if number < bound {
            return Some(number);
        }
    }
    None
}

fn key_of(word: &[u8]) -> Option<u8>
    ensures value { result ≡ key_of word.now }
    ensures bound { IfSome result (λ key. key < 128) }
{
    Some(number_of(word, 2, 128)? as u8)
}

fn channel_of(word: &[u8]) -> Option<u8>
    ensures value { result ≡ channel_of word.now }
    ensures bound { IfSome result (λ channel. channel < 4) }
{
    Some(number_of(word, 1, 4)? as u8)
}

fn level_of(word: &[u8]) -> Option<u16>
    ensures { result ≡ level_of word.now }
{
    Some(number_of(word, 4, 65_536)? as u16)
}

fn what_alone(word: &[u8]) -> Option<What>
    ensures value { result ≡ what_alone word.now }
    ensures ranged { IfSome result IsInRange }
{
    if is_word(word, b"shot") {
        Some(What::Shot)
    } else if is_word(word, b"break") {
        Some(What::Break)
    } else {
        None
    }
}

fn what_with(word: &[u8], key: &[u8]) -> Option<What>
    ensures value { result ≡ what_with word.now key.now }
    ensures ranged { IfSome result IsInRange }
{
    if is_word(word, b"down") {
        Some(What::Down(key_of(key)?))
    } else if is_word(word, b"up") {
        Some(What::Up(key_of(key)?))
    } else {
        None
    }
}

fn what_of_level(word: &[u8], channel: &[u8], level: &[u8]) -> Option<What>
    ensures value { result ≡ what_of_level word.now channel.now level.now }
    ensures ranged { IfSome result IsInRange }
{
    if is_word(word, b"adc") {
        Some(What::Level(channel_of(channel)?, level_of(level)?))
    } else {
        None
    }
}

// Returns the meaning of the words after the tick: `word`, and those in `words`.
fn what_of_more(word: &[u8], words: &[u8]) -> Option<What>
    ensures value { result ≡ what_of (word.now ∷ words_of words.now) }
    ensures ranged { IfSome result IsInRange }
{
    match split_word(words) {
        None => what_with(word, words),
        Some((second, rest)) => match split_word(rest) {
            None => what_of_level(word, second, rest),
            Some(_) => None,
        },
    }
}

// Returns the meaning of the words after the tick.
fn what_of(words: &[u8]) -> Option<What>
    ensures value { result ≡ what_of (words_of words.now) }
    ensures ranged { IfSome result IsInRange }
{
    match split_word(words) {
        None => what_alone(words),
        Some((word, rest)) => what_of_more(word, rest),
    }
}

// Returns the event of a line without its line feed. Returns `None` if the bytes are outside the
// form.
fn event_of_words(line: &[u8]) -> Option<Event>
    ensures value { result ≡ event_of_words (words_of line.now) }
    ensures event { IfSome result IsEvent }
{
    let (first, rest) = split_word(line)?;
    let (tick, words) = split_word(rest)?;
    if !is_word(first, b"at") {
        return None;
    }
    let tick = decimal_number(tick, LAST_TICK)?;
    let what = what_of(words)?;
    Some(Event {
        tick: Tick(tick),
        what,
    })
}

/// Returns the event of a line with its line feed. Returns `None` if the bytes are outside the
/// form.
pub(crate) fn event_of(line: &[u8]) -> Option<Event>
    ensures value { result ≡ event_of line.now }
    ensures event { IfSome result IsEvent }
{
    event_of_words(line.strip_suffix(b"\n")?)
}
