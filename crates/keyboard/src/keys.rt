//! The keys.
ghost use Rattle.std.specs.Prelude.{◌≡◌, ◌<◌, length, None, Some};
ghost use Rattle.std.specs.Option.{ForSome};
ghost use Rattle.std.specs.List.{list_any};
ghost use Rattle.keyboard.specs.Keys.{keys_of, no_key, with_key, any};
ghost use Rattle.keyboard.specs.Latch.{port_a_bit_7, ca2};

use crate::Latch;
use std::marker::Model;

/// The number of keys.
const KEYS: usize = 128;

/// The keys that are down. A key has the number 16 times its row plus its column, below 80
/// hexadecimal.
#[derive(Drop)]
pub struct Keys {
    down: [bool; 128],
    // A key of rows 1 to 7 is down, in each column and in any. Each microsecond reads one of the
    // flags.
    columns: [bool; 16],
    is_any_down: bool,
}

impl Model for Keys {
    ghost use Rattle.std.specs.Prelude.{◌≡◌, Bool, List, None};
    ghost use Rattle.keyboard.specs.Keys.{keys_of, any};
    ghost use Rattle.keyboard.specs.Columns.{AreColumns};

    ghost Value = { List Bool };

    ghost view = { λ s. s.down };

    ghost invariant = { λ s. (s.is_any_down ≡ any None (keys_of s.down)) × AreColumns s.columns (keys_of s.down) };
}

// Reports if a key of rows 1 to 7 is down in `column`.
#[tactic(auto, unfolding(crate::specs::Keys::any))]
fn is_any_in(down: &[bool], column: u8) -> bool
    requires keys { length down.now ≡ KEYS }
    requires column { column < 16 }
    ensures { result ≡ any (Some column) (keys_of down.now) }
{
    (1..8u8).any(|row| down[usize::from(16 * row + column)])
}

fn is_one(states: &[bool]) -> bool
    ensures { result ≡ list_any (λ b. b) states.now }
{
    states.iter().any(|down| *down)
}

// Reports if a key of rows 1 to 7 is down.
fn is_any(down: &[bool]) -> bool
    requires { length down.now ≡ KEYS }
    ensures { result ≡ any None (keys_of down.now) }
{
    is_one(&down[16..])
}

impl Keys {
    /// Returns a keyboard with all keys up.
    pub fn new() -> Keys
        ensures { keys_of result ≡ no_key }
    {
        Keys {
            down: [false; 128],
            columns: [false; 16],
            is_any_down: false,
        }
    }

    /// Changes a key to down or up.
    pub fn set(&mut self, key: u8, down: bool)
        requires { key < KEYS }
        ensures { keys_of self.new ≡ with_key key down (keys_of self.old) }
    {
        self.down[usize::from(key)] = down;
        let column = key % 16;
        self.columns[usize::from(column)] = is_any_in(&self.down, column);
        self.is_any_down = is_any(&self.down);
    }

    /// Reports if a key is down.
    pub fn is_down(&self, key: u8) -> bool
        requires { key < KEYS }
        ensures { result ≡ keys_of self.now key }
    {
        self.down[usize::from(key)]
    }

    /// Reports if a key of rows 1 to 7 is down: in `column`, below 16, or in any.
    pub fn any(&self, column: Option<u8>) -> bool
        requires { ForSome column (λ c. c < 16) }
        ensures { result ≡ any column (keys_of self.now) }
    {
        match column {
            Some(column) => self.columns[usize::from(column)],
            None => self.is_any_down,
        }
    }

    /// Returns bit 7 of the system VIA's port A, by the latch and the output bits of port A: the
    /// state of the key whose number is in bits 0 to 6, or 0 while the keyboard scans by itself.
    pub fn port_a_bit_7(&self, latch: &Latch, port_a: u8) -> bool
        ensures { result ≡ port_a_bit_7 latch.now.bits port_a (keys_of self.now) }
    {
        !latch.scans_itself() && self.is_down(port_a % 128)
    }

    /// Returns the system VIA's CA2, by the latch and the output bits of port A. It is 1 if a key
    /// of rows 1 to 7 is down in the column of bits 0 to 3. While the keyboard scans by itself, the
    /// key may be in any column.
    pub fn ca2(&self, latch: &Latch, port_a: u8) -> bool
        ensures { result ≡ ca2 latch.now.bits port_a (keys_of self.now) }
    {
        if !self.is_any_down {
            return false;
        }
        if latch.scans_itself() {
            self.any(None)
        } else {
            self.any(Some(port_a % 16))
        }
    }
}
