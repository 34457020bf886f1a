//! The nine words of the cell: six for the chip, the host's horizon, the parasite's horizon and the
//! parasite's speculative horizon.
ghost use Rattle.std.specs.Prelude.{◌≡◌, ◌<◌, ◌^◌};
ghost use Rattle.tube_chip.specs.State.{State};
ghost use Rattle.tube_chip.specs.Packing.{IsChip, packed_words};
ghost use Rattle.tube_cell.specs.Views.{CellSnapshot, words_of, new_snapshot, word_of_other, bound_at, known_with, admits};
ghost use Rattle.tube_cell.specs.Steps.{LocalAfter};

use beeb_bits::Side;
use tube_chip::{Chip, packing_is_one_to_one};

/// Returns the words for this chip, a side's own horizon, the other side's, and the speculative
/// horizon.
pub(crate) fn next_words(
    side: Side,
    chip: &Chip,
    mine: u64,
    theirs: u64,
    spec_horizon: u64,
) -> [u64; 9]
    ensures words { result ≡ words_of (known_with side chip.now mine theirs spec_horizon) }
    ensures bounds { IsChip chip.now }
{
    let chip = chip.pack();
    let (host, para) = match side {
        Side::Host => (mine, theirs),
        Side::Para => (theirs, mine),
    };
    [
        chip[0],
        chip[1],
        chip[2],
        chip[3],
        chip[4],
        chip[5],
        host,
        para,
        spec_horizon,
    ]
}

/// Returns the words at power-on.
pub(crate) fn power_on() -> [u64; 9]
    ensures { result ≡ words_of new_snapshot }
{
    next_words(Side::Host, &Chip::new(), 0, 0, 0)
}

/// Returns the horizon of the side other than `side`.
pub(crate) fn word_of(side: Side, words: &[u64; 9]) -> u64
    ensures { (k : CellSnapshot) → words.now ≡ words_of k → result ≡ word_of_other side k }
{
    match side {
        Side::Host => words[7],
        Side::Para => words[6],
    }
}

/// Returns the parasite's speculative horizon.
pub(crate) fn spec_horizon_of(words: &[u64; 9]) -> u64
    ensures is { (k : CellSnapshot) → words.now ≡ words_of k → result ≡ k.spec_horizon }
    ensures bounded { result < 2 ^ 64 }
{
    words[8]
}

/// Returns the words with another speculative horizon.
pub(crate) fn with_spec_horizon(words: &[u64; 9], spec_horizon: u64) -> [u64; 9]
    ensures { (k : CellSnapshot) → words.now ≡ words_of k → result ≡ words_of (record k { spec_horizon = spec_horizon }) }
{
    [
        words[0],
        words[1],
        words[2],
        words[3],
        words[4],
        words[5],
        words[6],
        words[7],
        spec_horizon,
    ]
}

/// Returns the other side's bound: its horizon; for the parasite, the later of its two horizons.
pub(crate) fn bound_of(side: Side, words: &[u64; 9], spec_horizon: u64) -> u64
    ensures { (k : CellSnapshot) → words.now ≡ words_of k → result ≡ bound_at side (word_of_other side k) spec_horizon }
{
    match side {
        Side::Host => words[7].max(spec_horizon),
        Side::Para => words[6],
    }
}

/// Returns `true` if the bound `word` of the other side admits `side` at `tick`: the host up to and
/// including the bound, the parasite below it.
pub(crate) fn is_admitted(side: Side, word: u64, tick: u64) -> bool
    ensures { result ≡ admits side word tick }
{
    match side {
        Side::Host => tick <= word,
        Side::Para => tick < word,
    }
}

// Returns the six words of the chip.
fn chip_words(words: &[u64; 9]) -> [u64; 6]
    ensures { (k : CellSnapshot) → words.now ≡ words_of k → result ≡ packed_words k.chip }
{
    [words[0], words[1], words[2], words[3], words[4], words[5]]
}

fn unpacked(words: [u64; 6]) -> Chip
    requires { (c : State) × IsChip c × (words ≡ packed_words c) }
    ensures { (c : State) → IsChip c → words ≡ packed_words c → result ≡ c }
{
    match Chip::unpack(words) {
        Some(chip) => chip,
        None => unreachable!(),
    }
}

/// Returns the chip in these words.
pub(crate) fn chip_of(words: &[u64; 9]) -> Chip
    requires { (k : CellSnapshot) × IsChip k.chip × (words.now ≡ words_of k) }
    ensures { (k : CellSnapshot) → IsChip k.chip → words.now ≡ words_of k → result ≡ k.chip }
{
    unpacked(chip_words(words))
}

/// Replaces the known words by those found, and the local chip by their chip.
pub(crate) fn renew(words: &mut [u64; 9], local: &mut Chip, found: [u64; 9])
    requires { (k : CellSnapshot) × IsChip k.chip × (found ≡ words_of k) }
    ensures words { words.new ≡ found }
    ensures local { (k : CellSnapshot) → IsChip k.chip → found ≡ words_of k → local.new ≡ k.chip }
{
    *local = chip_of(&found);
    *words = found;
}

/// Replaces the known words by those found. The local chip changes only if the chip's words differ.
pub(crate) fn settle(words: &mut [u64; 9], local: &mut Chip, found: [u64; 9])
    requires { (k : CellSnapshot) × IsChip k.chip × (found ≡ words_of k) }
    ensures words { words.new ≡ found }
    ensures local { LocalAfter words.old local.old found local.new }
{
    packing_is_one_to_one();
    let chip = chip_words(&found);
    if chip != chip_words(words) {
        *local = unpacked(chip);
    }
    *words = found;
}
