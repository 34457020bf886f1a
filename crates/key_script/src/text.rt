//! The reader of scripts.
ghost use Rattle.std.specs.Prelude.{◌≡◌, ◌<◌, ◌⊎◌, ◌∷◌, Ok, Err, IfSome, MatchResult, MatchOption, length, Some};
ghost use Rattle.key_script.specs.declared.ScriptError.TheVariants.{NoMemory};
ghost use Rattle.key_script.specs.Events.{IsEvent, is_shot};
ghost use Rattle.key_script.specs.Text.{BeginsBadly, events_of, fault, script};

use crate::line::event_of;
use crate::{Event, Script, ScriptError, What};
use beeb_bits::Tick;
use digits::first_line;
use std::alloc::Global;

/// The largest number of shots of a script.
const MOST_SHOTS: usize = 256;

// Returns the event of a text's first line and the text after it. Returns `None` if the line is
// outside the form.
fn next_event(text: &[u8]) -> Option<(Event, &[u8])>
    requires { 0 < length text.now }
    ensures lines { MatchOption result (BeginsBadly text.now) (λ next. events_of text.now ≡ Some next.0 ∷ events_of next.1.now) }
    ensures shorter { IfSome result (λ next. length next.1.now < length text.now) }
    ensures event { IfSome result (λ next. IsEvent next.0) }
{
    let (line, rest) = first_line(text);
    let event = event_of(line)?;
    Some((event, rest))
}

fn is_shot(event: Event) -> bool
    ensures { result ≡ is_shot event }
{
    event.what == What::Shot
}

// Returns the fault of an event after others, if it has one.
fn fault(line: u64, last: Tick, shots: usize, event: Event) -> Option<ScriptError>
    ensures { result ≡ fault line last.0 shots event }
{
    if event.tick < last {
        Some(ScriptError::BadOrder { line })
    } else if is_shot(event) && shots == MOST_SHOTS {
        Some(ScriptError::TooManyShots { line })
    } else {
        None
    }
}

/// Reads a script. Each line is `at T down KK`, `at T up KK`, `at T shot`, `at T break` or
/// `at T adc C VVVV` and a line feed. T is the tick in decimal, without leading zeros and at most
/// 1,073,741,824. KK is the number of a key in two upper-case hexadecimal digits from 00 to 7F. C
/// is a channel from 0 to 3, and VVVV its level in four such digits. T never falls from line to
/// line, and there are at most 256 shots.
///
/// # Errors
/// The first line that is outside this form, or has a tick below that of the line before it, or has
/// the 257th shot. If a line has several faults, the first in this list is returned. A last line
/// without its line feed is outside the form.
#[tactic(auto, unfolding(crate::specs::Text::script))]
pub fn read(alloc: Global, bytes: &[u8]) -> Result<Script, ScriptError>
    ensures value { MatchResult result (λ s. script bytes.now ≡ Ok s) (λ e. (e ≡ NoMemory) ⊎ (script bytes.now ≡ Err e)) }
{
    let mut events = Vec::new(alloc);
    let mut last = Tick(0);
    let mut shots = 0;
    let mut rest = bytes;
    while !rest.is_empty() {
        let line = events.len() as u64 + 1;
        let Some((event, others)) = next_event(rest) else {
            return Err(ScriptError::BadLine { line });
        };
        if let Some(error) = fault(line, last, shots, event) {
            return Err(error);
        }
        if events.push(event).is_err() {
            return Err(ScriptError::NoMemory);
        }
        last = event.tick;
        shots += usize::from(is_shot(event));
        rest = others;
    }
    Ok(Script::make(events))
}
