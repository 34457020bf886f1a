//! One direction of a register of the Tube: a FIFO.
ghost use Rattle.std.specs.Prelude.{◌≡◌, ◌+◌, ◌<◌, ◌≤◌, []};
ghost use Rattle.std.specs.List.{All};
ghost use Rattle.tube_chip.specs.Register.{holds, empty, count, front_of, take_leaves, add_leaves};
ghost use Rattle.tube_chip.specs.State.{is_empty};
ghost use Rattle.tube_chip.specs.Packing.{IsRegister, place, places, word, register_from};

use std::marker::Model;

/// A list of at most `ROOM` bytes, the oldest at place 0. If it is empty, place 0 has the byte last
/// taken.
#[derive(Drop)]
pub(crate) struct Register<const ROOM: usize> {
    bytes: [u8; ROOM],
    held: usize,
}

impl<const ROOM: usize> Model for Register<ROOM> {
    ghost use Rattle.std.specs.Prelude.{◌≤◌, ◌<◌, take, slice_index};
    ghost use Rattle.tube_chip.specs.Register.{Register, register_of};

    ghost Value = { Register };

    ghost view = { λ r. register_of (take r.held r.bytes) (slice_index r.bytes 0) };

    ghost invariant = { λ r. (0 < ROOM) × (r.held ≤ ROOM) };
}

// Returns a count of bytes as a byte.
fn short(_bytes: &[u8], held: usize) -> u8
    requires { held < 256 }
    ensures count { result ≡ held }
    ensures bytes { All (λ b. b < 256) _bytes.now }
{
    held as u8
}

impl<const ROOM: usize> Register<ROOM> {
    pub(crate) fn new() -> Register<ROOM>
        requires { 0 < ROOM }
        ensures { result ≡ empty 0 }
    {
        Register {
            bytes: [0; ROOM],
            held: 0,
        }
    }

    pub(crate) fn count(&self) -> usize
        ensures { result ≡ count self.now }
    {
        self.held
    }

    /// Returns the number of bytes held, as a byte. Its contract also states the register's bounds.
    pub(crate) fn short_count(&self) -> u8
        requires { ROOM < 256 }
        ensures count { result ≡ count self.now }
        ensures bounds { IsRegister ROOM self.now }
    {
        short(&self.bytes, self.held)
    }

    /// Returns the byte at a place: 00 after those held, or after the remembered one.
    pub(crate) fn place(&self, index: usize) -> u8
        requires { index < ROOM }
        ensures { result ≡ place self.now index }
    {
        if index == 0 || index < self.held {
            self.bytes[index]
        } else {
            0
        }
    }

    /// Returns eight places as a word, the first in its lowest bits.
    pub(crate) fn word(&self, first: usize) -> u64
        requires { first + 8 ≤ ROOM }
        ensures { result ≡ word (places self.now first) }
    {
        u64::from_le_bytes([
            self.place(first),
            self.place(first + 1),
            self.place(first + 2),
            self.place(first + 3),
            self.place(first + 4),
            self.place(first + 5),
            self.place(first + 6),
            self.place(first + 7),
        ])
    }

    /// Returns the register with these places, of which it holds the first `held`.
    pub(crate) fn of(bytes: [u8; ROOM], held: u8) -> Register<ROOM>
        requires { 0 < ROOM }
        ensures { result ≡ register_from bytes.entry held }
    {
        Register {
            bytes,
            held: ROOM.min(held as usize),
        }
    }

    pub(crate) fn is_empty(&self) -> bool
        ensures { result ≡ is_empty self.now }
    {
        self.held == 0
    }

    /// Takes the front byte and returns it, or returns the byte last taken if there is none.
    pub(crate) fn take(&mut self) -> u8
        ensures byte { result ≡ front_of self.old }
        ensures rest { self.new ≡ take_leaves self.old }
    {
        let byte = self.bytes[0];
        if self.held > 1 {
            self.bytes.rotate_left(1);
        }
        if self.held > 0 {
            self.held -= 1;
        }
        byte
    }

    /// Replaces the list by this one byte.
    pub(crate) fn replace(&mut self, byte: u8)
        ensures { self.new ≡ holds byte [] }
    {
        self.bytes[0] = byte;
        self.held = 1;
    }

    /// Adds a byte at the end, if there is room.
    pub(crate) fn add(&mut self, byte: u8)
        ensures { self.new ≡ add_leaves ROOM byte self.old }
    {
        if self.held < ROOM {
            self.bytes[self.held] = byte;
            self.held += 1;
        }
    }
}
