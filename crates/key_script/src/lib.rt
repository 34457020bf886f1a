//! The text of a key script: the ticks of keys that go down and up, of BREAK, of shots, and of
//! levels for the channels of the analogue converter.
#![tactic(auto)]

mod line;
mod script;
mod text;

use beeb_bits::Tick;
pub use script::Script;
pub use text::read;
use thiserror::Error;

/// The action of an event.
#[derive(Clone, Copy, Debug, PartialEq, Eq)]
pub enum What {
    /// A key goes down. Its number is 16 times its row plus its column, below 80 hexadecimal.
    Down(u8),
    /// A key goes up.
    Up(u8),
    /// The last finished frame is taken.
    Shot,
    /// The BREAK key is pressed. It resets the machine and is no key of the keyboard's matrix, so
    /// it has no number.
    Break,
    /// A channel of the analogue converter, 0 to 3, gets a level.
    Level(u8, u16),
}

/// One line of a script.
#[derive(Clone, Copy, Debug, PartialEq, Eq)]
pub struct Event {
    pub tick: Tick,
    pub what: What,
}

/// The reason for which a text is no script. Lines count from 1.
#[derive(Clone, Copy, Debug, PartialEq, Eq, Error)]
pub enum ScriptError {
    #[error("line {line} is outside the form of a script")]
    BadLine { line: u64 },
    #[error("line {line} has a tick below that of the line before it")]
    BadOrder { line: u64 },
    #[error("line {line} has the 257th shot")]
    TooManyShots { line: u64 },
    #[error("no memory")]
    NoMemory,
}
