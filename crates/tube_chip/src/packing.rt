//! A chip as six words of 64 bits, for a cell that is loaded and exchanged as a whole.
//!
//! Word 0 has the count of NMIs in its low half and that of resets in its high half. Words 1 to 3
//! have the 24 places of register 1 to the host. Word 4 has the flags and the registers to the
//! host, word 5 those to the parasite: first the number of bytes in each, then their places. In
//! each word the first byte is in the lowest bits.
ghost use Rattle.std.specs.Prelude.{◌≡◌, ◌<◌, ◌≤◌, ◌+◌, ◌*◌, ◌^◌, IfSome, Some, ◌++◌};
ghost use Rattle.std.specs.Int.{w64, to_le_bytes};
ghost use Rattle.tube_chip.specs.Code.{flags_of};
ghost use Rattle.tube_chip.specs.State.{State};
ghost use Rattle.tube_chip.specs.Packing.{IsBank, IsChip, packed_words, unpacked_chip, counts, word, host_bytes, para_bytes, flags_from, host_from, para_from};

use crate::chip::{Chip, ToHost, ToPara};
use crate::flags::{Flags, flags_byte};
use crate::register::Register;
use beeb_bits::bit;

// Returns the numbers of bytes in registers 1 to 4, in two bits each.
fn counts(r1: u8, r2: u8, r3: u8, r4: u8) -> u8
    requires { (r1 ≤ 3) × (r2 ≤ 3) × (r3 ≤ 3) × (r4 ≤ 3) }
    ensures { result ≡ counts r1 r2 r3 r4 }
{
    r1 + 4 * r2 + 16 * r3 + 64 * r4
}

// Returns a word with the count of NMIs in the low half and that of resets in the high half.
fn counts_word(nmis: u32, resets: u32) -> u64
    ensures word { result ≡ nmis + 2 ^ 32 * resets }
    ensures bounds { (nmis < 2 ^ 32) × (resets < 2 ^ 32) }
{
    nmis as u64 + (1 << 32) * resets as u64
}

fn host_word(flags: Flags, bank: &ToHost) -> u64
    ensures bounds { IsBank 24 (record { r1 = bank.now.r1; r2 = bank.now.r2; r3 = bank.now.r3; r4 = bank.now.r4 }) }
    ensures word { result ≡ word (host_bytes (flags_of flags) (record { r1 = bank.now.r1; r2 = bank.now.r2; r3 = bank.now.r3; r4 = bank.now.r4 })) }
{
    u64::from_le_bytes([
        flags_byte(flags),
        bank.r1.short_count(),
        counts(
            0,
            bank.r2.short_count(),
            bank.r3.short_count(),
            bank.r4.short_count(),
        ),
        bank.r2.place(0),
        bank.r3.place(0),
        bank.r3.place(1),
        bank.r4.place(0),
        0,
    ])
}

fn para_word(bank: &ToPara) -> u64
    ensures bounds { IsBank 1 (record { r1 = bank.now.r1; r2 = bank.now.r2; r3 = bank.now.r3; r4 = bank.now.r4 }) }
    ensures word { result ≡ word (para_bytes (record { r1 = bank.now.r1; r2 = bank.now.r2; r3 = bank.now.r3; r4 = bank.now.r4 })) }
{
    u64::from_le_bytes([
        counts(
            bank.r1.short_count(),
            bank.r2.short_count(),
            bank.r3.short_count(),
            bank.r4.short_count(),
        ),
        bank.r1.place(0),
        bank.r2.place(0),
        bank.r3.place(0),
        bank.r3.place(1),
        bank.r4.place(0),
        0,
        0,
    ])
}

fn flags_from(byte: u8) -> Flags
    ensures { flags_of result ≡ flags_from byte }
{
    Flags {
        p: bit(byte, 5),
        v: bit(byte, 4),
        m: bit(byte, 3),
        j: bit(byte, 2),
        i: bit(byte, 1),
        q: bit(byte, 0),
    }
}

// Returns the 24 places in three words.
fn queue_from(a: u64, b: u64, c: u64) -> [u8; 24]
    ensures { result ≡ to_le_bytes w64 a ++ to_le_bytes w64 b ++ to_le_bytes w64 c }
{
    let a = a.to_le_bytes();
    let b = b.to_le_bytes();
    let c = c.to_le_bytes();
    [
        a[0], a[1], a[2], a[3], a[4], a[5], a[6], a[7], b[0], b[1], b[2], b[3], b[4], b[5], b[6],
        b[7], c[0], c[1], c[2], c[3], c[4], c[5], c[6], c[7],
    ]
}

fn host_from(queue: [u8; 24], bytes: [u8; 8]) -> ToHost
    ensures { record { r1 = result.r1; r2 = result.r2; r3 = result.r3; r4 = result.r4 } ≡ host_from queue bytes }
{
    ToHost {
        r1: Register::of(queue, bytes[1]),
        r2: Register::of([bytes[3]], bytes[2] / 4 % 4),
        r3: Register::of([bytes[4], bytes[5]], bytes[2] / 16 % 4),
        r4: Register::of([bytes[6]], bytes[2] / 64),
    }
}

fn para_from(bytes: [u8; 8]) -> ToPara
    ensures { record { r1 = result.r1; r2 = result.r2; r3 = result.r3; r4 = result.r4 } ≡ para_from bytes }
{
    ToPara {
        r1: Register::of([bytes[1]], bytes[0] % 4),
        r2: Register::of([bytes[2]], bytes[0] / 4 % 4),
        r3: Register::of([bytes[3], bytes[4]], bytes[0] / 16 % 4),
        r4: Register::of([bytes[5]], bytes[0] / 64),
    }
}

// Returns some chip for any six words: for those of a chip, that chip.
#[tactic(auto, unfolding(crate::specs::Packing::unpacked_chip))]
fn read_back(words: &[u64; 6]) -> Chip
    ensures { result ≡ unpacked_chip words.now }
{
    let bytes = words[4].to_le_bytes();
    let queue = queue_from(words[1], words[2], words[3]);
    Chip {
        flags: flags_from(bytes[0]),
        to_host: host_from(queue, bytes),
        to_para: para_from(words[5].to_le_bytes()),
        nmis: (words[0] % (1 << 32)) as u32,
        resets: (words[0] / (1 << 32)) as u32,
    }
}

impl Chip {
    /// Returns the six words of the chip. Two chips with the same words are the same.
    #[tactic(auto, unfolding(crate::specs::Packing::packed_words))]
    pub fn pack(&self) -> [u64; 6]
        ensures words { result ≡ packed_words self.now }
        ensures bounds { IsChip self.now }
    {
        [
            counts_word(self.nmis, self.resets),
            self.to_host.r1.word(0),
            self.to_host.r1.word(8),
            self.to_host.r1.word(16),
            host_word(self.flags, &self.to_host),
            para_word(&self.to_para),
        ]
    }

    /// Returns the chip of these words, or `None` if they are those of no chip.
    pub fn unpack(words: [u64; 6]) -> Option<Chip>
        ensures packed { IfSome result (λ c. IsChip c × (words ≡ packed_words c)) }
        ensures each { (c : State) → IsChip c → words ≡ packed_words c → result ≡ Some c }
    {
        let chip = read_back(&words);
        if chip.pack() == words {
            Some(chip)
        } else {
            None
        }
    }
}
