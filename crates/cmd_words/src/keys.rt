//! The keys of the options.
ghost use Rattle.std.specs.Prelude.{◌≡◌, ◌<◌, map, IfSome};
ghost use Rattle.digits.specs.Decimal.{decimal_number};
ghost use Rattle.cmd_words.specs.View.{seen_word, seen_value, seen_key};
ghost use Rattle.cmd_words.specs.Keys.{key_at, place_of, fits, takes, is_from, is_among, is_four_digits, address_of, is_value};
ghost use Rattle.cmd_words.specs.Keys as keys;

use crate::alone::is_name;
use digits::{all_hex, decimal_number, hex_number};

/// The purpose of a file in a command.
#[derive(Clone, Copy, Debug, PartialEq, Eq)]
pub enum InputKind {
    /// A trace.
    Trace,
    /// A source text.
    Source,
    /// An image to disassemble.
    Image,
    /// A session file.
    State,
    /// The host's operating system.
    Os,
    /// The second processor's boot ROM.
    Tube,
    /// The paged ROM of a slot from 0 to 15.
    Rom(u8),
    /// The teletext font.
    Font,
    /// The disc of drive 0 or 1.
    Disc(u8),
    /// The key script.
    Keys,
    /// The addresses whose instructions are listed.
    Points,
}

/// A command that takes options.
#[derive(Clone, Copy, Debug, PartialEq, Eq)]
pub(crate) enum CommandKind {
    /// `replay host`
    ReplayHost,
    /// `replay para`
    ReplayPara,
    /// `solo`
    Solo,
    /// `run`
    Run,
    /// `resume`
    Resume,
    /// `follow host`
    FollowHost,
    /// `follow para`
    FollowPara,
}

/// The commands that take an option.
#[derive(Clone, Copy)]
pub(crate) struct CommandSet {
    pub(crate) replay_host: bool,
    pub(crate) replay_para: bool,
    pub(crate) solo: bool,
    pub(crate) run: bool,
    pub(crate) resume: bool,
    pub(crate) follow_host: bool,
    pub(crate) follow_para: bool,
}

/// The commands that make a host from the options.
const HOSTS: CommandSet = CommandSet {
    replay_host: true,
    replay_para: false,
    solo: true,
    run: true,
    resume: false,
    follow_host: true,
    follow_para: false,
};

/// The commands that make a second processor from the options.
const PARAS: CommandSet = CommandSet {
    replay_host: false,
    replay_para: true,
    solo: true,
    run: true,
    resume: false,
    follow_host: false,
    follow_para: true,
};

/// The commands that make a host or a second processor from the options.
const MACHINES: CommandSet = CommandSet {
    replay_host: true,
    replay_para: true,
    solo: true,
    run: true,
    resume: false,
    follow_host: true,
    follow_para: true,
};

/// The commands that run both machines, from the options or from a session file.
const RUNS: CommandSet = CommandSet {
    replay_host: false,
    replay_para: false,
    solo: true,
    run: true,
    resume: true,
    follow_host: false,
    follow_para: false,
};

/// The commands with a host in their final state.
const HEARD: CommandSet = CommandSet {
    replay_host: true,
    replay_para: false,
    solo: true,
    run: true,
    resume: true,
    follow_host: false,
    follow_para: false,
};

/// The commands that list instructions.
const LISTS: CommandSet = CommandSet {
    replay_host: false,
    replay_para: false,
    solo: false,
    run: false,
    resume: false,
    follow_host: true,
    follow_para: true,
};

/// The commands that run only a host.
const HOST_ALONE: CommandSet = CommandSet {
    replay_host: true,
    replay_para: false,
    solo: false,
    run: false,
    resume: false,
    follow_host: true,
    follow_para: false,
};

/// The kind of an option's value.
#[derive(Clone, Copy)]
pub(crate) enum Value {
    /// The name of a file that is read.
    File(InputKind),
    /// The name of an output.
    Output,
    /// A decimal number from `least` to `most`.
    Number { least: u64, most: u64 },
    /// One of the given words.
    OneOf(&'static [&'static str]),
    /// Four upper-case hexadecimal digits.
    FourDigits,
}

/// A key: its word, the commands that take it, and the kind of its value.
#[derive(Clone, Copy)]
struct Key {
    word: &'static str,
    command_set: CommandSet,
    value: Value,
}

/// The most accesses that can be kept.
pub const MOST_KEEP: u64 = 4_194_304;

/// The most ticks of a run.
pub(crate) const MOST_TICKS: u64 = 1_073_741_824;

/// The number of keys.
pub(crate) const COUNT: usize = 33;

/// The speeds of the second processor, in MHz.
const SPEEDS: &[&str] = &["3", "4"];

/// A flag is its own value.
const NO_TUBE: &[&str] = &["--no-tube"];

const COUNTS: &[&str] = &["--counts"];

// Makes a row of the table.
fn row(word: &'static str, command_set: CommandSet, value: Value) -> Key
    ensures { seen_key result ≡ keys.key word.now command_set (seen_value value) }
{
    Key {
        word,
        command_set,
        value,
    }
}

// Returns the table of the keys. The keys of files are in the order of reading.
#[tactic(auto, unfolding(crate::specs::Keys::keys))]
fn table() -> [Key; COUNT]
    ensures { map seen_key result ≡ keys.keys }
{
    [
        row("--os", HOSTS, Value::File(InputKind::Os)),
        row("--tube", PARAS, Value::File(InputKind::Tube)),
        row("--rom0", HOSTS, Value::File(InputKind::Rom(0))),
        row("--rom1", HOSTS, Value::File(InputKind::Rom(1))),
        row("--rom2", HOSTS, Value::File(InputKind::Rom(2))),
        row("--rom3", HOSTS, Value::File(InputKind::Rom(3))),
        row("--rom4", HOSTS, Value::File(InputKind::Rom(4))),
        row("--rom5", HOSTS, Value::File(InputKind::Rom(5))),
        row("--rom6", HOSTS, Value::File(InputKind::Rom(6))),
        row("--rom7", HOSTS, Value::File(InputKind::Rom(7))),
        row("--rom8", HOSTS, Value::File(InputKind::Rom(8))),
        row("--rom9", HOSTS, Value::File(InputKind::Rom(9))),
        row("--rom10", HOSTS, Value::File(InputKind::Rom(10))),
        row("--rom11", HOSTS, Value::File(InputKind::Rom(11))),
        row("--rom12", HOSTS, Value::File(InputKind::Rom(12))),
        row("--rom13", HOSTS, Value::File(InputKind::Rom(13))),
        row("--rom14", HOSTS, Value::File(InputKind::Rom(14))),
        row("--rom15", HOSTS, Value::File(InputKind::Rom(15))),
        row("--font", HOSTS, Value::File(InputKind::Font)),
        row("--disc0", HOSTS, Value::File(InputKind::Disc(0))),
        row("--disc1", HOSTS, Value::File(InputKind::Disc(1))),
        row("--keys", HOSTS, Value::File(InputKind::Keys)),
        row("--points", LISTS, Value::File(InputKind::Points)),
        row("--plugs", HOSTS, Value::Number { least: 0, most: 8 }),
        row(
            "--keep",
            RUNS,
            Value::Number {
                least: 0,
                most: MOST_KEEP,
            },
        ),
        row("--speed", MACHINES, Value::OneOf(SPEEDS)),
        row("--wav", HEARD, Value::Output),
        row("--save", RUNS, Value::Output),
        row("--at", LISTS, Value::FourDigits),
        row("--watch", LISTS, Value::FourDigits),
        row(
            "--from",
            LISTS,
            Value::Number {
                least: 0,
                most: MOST_TICKS,
            },
        ),
        row("--no-tube", HOST_ALONE, Value::OneOf(NO_TUBE)),
        row("--counts", LISTS, Value::OneOf(COUNTS)),
    ]
}

// Returns the key at a place.
fn key_at(place: usize) -> Key
    requires { place < COUNT }
    ensures { seen_key result ≡ key_at place }
{
    table()[place]
}

/// Returns the kind of the value of the key at a place.
pub(crate) fn kind_of(place: usize) -> Value
    requires { place < COUNT }
    ensures { seen_value result ≡ (key_at place).value }
{
    key_at(place).value
}

/// Returns the place of a key among all.
#[tactic(auto, using(crate::proofs::KeyLemmas::key_split, crate::proofs::KeyLemmas::no_keys, crate::proofs::KeyLemmas::place_begin, crate::proofs::KeyLemmas::shifted))]
pub(crate) fn place_of(word: &str) -> Option<usize>
    ensures place { result ≡ place_of word.now }
    ensures bound { IfSome result (λ i. i < COUNT) }
{
    for i in 0..COUNT {
        if key_at(i).word == word {
            return Some(i);
        }
    }
    None
}

// Returns true if the command is among those that take an option.
fn takes(command_kind: CommandKind, command_set: CommandSet) -> bool
    ensures { result ≡ takes command_kind command_set }
{
    match command_kind {
        CommandKind::ReplayHost => command_set.replay_host,
        CommandKind::ReplayPara => command_set.replay_para,
        CommandKind::Solo => command_set.solo,
        CommandKind::Run => command_set.run,
        CommandKind::Resume => command_set.resume,
        CommandKind::FollowHost => command_set.follow_host,
        CommandKind::FollowPara => command_set.follow_para,
    }
}

// Returns true if the word is in the list.
fn is_among(words: &[&str], word: &str) -> bool
    ensures { result ≡ is_among (map seen_word words.now) word.now }
{
    for one in words {
        if *one == word {
            return true;
        }
    }
    false
}

// Returns true for a decimal number from `least` to `most`.
fn is_number(word: &str, least: u64, most: u64) -> bool
    ensures { result ≡ is_from least (decimal_number most word.now) }
{
    match decimal_number(word.as_bytes(), most) {
        Some(n) => n >= least,
        None => false,
    }
}

// Returns true for four upper-case hexadecimal digits.
fn is_four_digits(word: &str) -> bool
    ensures { result ≡ is_four_digits word.now }
{
    let digits = word.as_bytes();
    digits.len() == 4 && all_hex(digits)
}

/// Returns the number of four upper-case hexadecimal digits. Returns `None` for any other word.
pub(crate) fn address_of(word: &str) -> Option<u16>
    ensures { result ≡ address_of word.now }
{
    let digits = word.as_bytes();
    if digits.len() == 4 && all_hex(digits) {
        Some(hex_number(digits) as u16)
    } else {
        None
    }
}

// Returns true if the word is a value of the given kind.
fn is_value(kind: Value, word: &str) -> bool
    ensures { result ≡ is_value (seen_value kind) word.now }
{
    match kind {
        Value::File(_) | Value::Output => is_name(word),
        Value::Number { least, most } => is_number(word, least, most),
        Value::OneOf(words) => is_among(words, word),
        Value::FourDigits => is_four_digits(word),
    }
}

/// Returns true if the command takes the key at a place, and with this value.
pub(crate) fn fits(command_kind: CommandKind, place: usize, value: &str) -> bool
    requires { place < COUNT }
    ensures { result ≡ fits command_kind place value.now }
{
    let key = key_at(place);
    takes(command_kind, key.command_set) && is_value(key.value, value)
}
