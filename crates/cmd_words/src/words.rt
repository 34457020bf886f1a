//! The grammar of the words on the command line.
ghost use Rattle.std.specs.Prelude.{◌≡◌, ◌≤◌, map, option_map, string_bytes, IsTrue, IfSome};
ghost use Rattle.cmd_words.specs.Words.{part_of, side_of, by_side, sided_words, command};
ghost use Rattle.cmd_words.specs.Words.{check_words, asm_words, dis_words, replay_words, both_words};
ghost use Rattle.cmd_words.specs.Words.{solo_words, run_words, resume_words, follow_words, gen_words};
ghost use Rattle.cmd_words.specs.Reads.{IsLimited, IsWithin};
ghost use Rattle.cmd_words.specs.View.{seen_command, seen_sided, seen_both};

use crate::alone::{four_alone, is_name, three_alone, two_alone};
use crate::command::Command;
use crate::given::{Given, options_among};
use crate::keys::{CommandKind, MOST_KEEP, MOST_TICKS, address_of};
use beeb_bits::Side;
use digits::decimal_number;
use op_table::Part;

fn check_words(words: &[String]) -> Option<Command<'_>>
    ensures command { option_map seen_command result ≡ check_words (map string_bytes words.now) }
    ensures limits { IfSome result (λ c. IsLimited (seen_command c)) }
{
    match words {
        [trace] if is_name(trace.as_str()) => Some(Command::Check {
            trace: trace.as_str(),
        }),
        _ => None,
    }
}

fn part_of(word: &str) -> Option<Part>
    ensures { result ≡ part_of word.now }
{
    if word == "6502" {
        Some(Part::Nmos)
    } else if word == "65c02" {
        Some(Part::Cmos)
    } else {
        None
    }
}

fn asm_words(words: &[String]) -> Option<Command<'_>>
    ensures command { option_map seen_command result ≡ asm_words (map string_bytes words.now) }
    ensures limits { IfSome result (λ c. IsLimited (seen_command c)) }
{
    match words {
        [part, source, out] => {
            let part = part_of(part.as_str())?;
            if is_name(source.as_str()) && is_name(out.as_str()) {
                Some(Command::Asm {
                    part,
                    source: source.as_str(),
                    out: out.as_str(),
                })
            } else {
                None
            }
        }
        _ => None,
    }
}

fn dis_words(words: &[String]) -> Option<Command<'_>>
    ensures command { option_map seen_command result ≡ dis_words (map string_bytes words.now) }
    ensures limits { IfSome result (λ c. IsLimited (seen_command c)) }
{
    match words {
        [part, image, origin, out] => {
            let part = part_of(part.as_str())?;
            let origin = address_of(origin.as_str())?;
            if is_name(image.as_str()) && is_name(out.as_str()) {
                Some(Command::Dis {
                    part,
                    image: image.as_str(),
                    origin,
                    out: out.as_str(),
                })
            } else {
                None
            }
        }
        _ => None,
    }
}

fn side_of(word: &str) -> Option<Side>
    ensures { result ≡ side_of word.now }
{
    if word == "host" {
        Some(Side::Host)
    } else if word == "para" {
        Some(Side::Para)
    } else {
        None
    }
}

// Returns `host` or `para`, by the side.
fn by_side(host: CommandKind, para: CommandKind, side: Side) -> CommandKind
    ensures { result ≡ by_side host para side }
{
    match side {
        Side::Host => host,
        Side::Para => para,
    }
}

// The arguments of `replay` and `follow`.
#[derive(Clone, Copy)]
struct Sided<'a> {
    side: Side,
    trace: &'a str,
    ticks: u64,
    out: &'a str,
    given: Given<'a>,
}

fn sided_words(words: &[String], host: CommandKind, para: CommandKind) -> Option<Sided<'_>>
    ensures told { option_map seen_sided result ≡ sided_words host para (map string_bytes words.now) }
    ensures ticks { IfSome result (λ s. s.ticks ≤ MOST_TICKS) }
{
    let (side, trace, ticks, out) = four_alone(words)?;
    let side = side_of(side)?;
    let ticks = decimal_number(ticks.as_bytes(), MOST_TICKS)?;
    if !is_name(trace) || !is_name(out) {
        return None;
    }
    let given = options_among(words, by_side(host, para, side))?;
    Some(Sided {
        side,
        trace,
        ticks,
        out,
        given,
    })
}

fn replay_words(words: &[String]) -> Option<Command<'_>>
    ensures command { option_map seen_command result ≡ replay_words (map string_bytes words.now) }
    ensures limits { IfSome result (λ c. IsLimited (seen_command c)) }
{
    let told = sided_words(words, CommandKind::ReplayHost, CommandKind::ReplayPara)?;
    Some(Command::Replay {
        side: told.side,
        trace: told.trace,
        ticks: told.ticks,
        out: told.out,
        given: told.given,
    })
}

fn follow_words(words: &[String]) -> Option<Command<'_>>
    ensures command { option_map seen_command result ≡ follow_words (map string_bytes words.now) }
    ensures limits { IfSome result (λ c. IsLimited (seen_command c)) }
{
    let told = sided_words(words, CommandKind::FollowHost, CommandKind::FollowPara)?;
    Some(Command::Follow {
        side: told.side,
        trace: told.trace,
        ticks: told.ticks,
        out: told.out,
        given: told.given,
    })
}

// The arguments of `solo` and `run`.
#[derive(Clone, Copy)]
struct Both<'a> {
    ticks: u64,
    out: &'a str,
    keep: u32,
    given: Given<'a>,
}

fn both_words(words: &[String], command_kind: CommandKind) -> Option<Both<'_>>
    ensures told { option_map seen_both result ≡ both_words command_kind (map string_bytes words.now) }
    ensures ticks { IfSome result (λ b. b.ticks ≤ MOST_TICKS) }
    ensures keep { IfSome result (λ b. b.keep ≤ MOST_KEEP) }
{
    let (ticks, out) = two_alone(words)?;
    let ticks = decimal_number(ticks.as_bytes(), MOST_TICKS)?;
    if !is_name(out) {
        return None;
    }
    let given = options_among(words, command_kind)?;
    Some(Both {
        ticks,
        out,
        keep: given.keep(),
        given,
    })
}

fn solo_words(words: &[String]) -> Option<Command<'_>>
    ensures command { option_map seen_command result ≡ solo_words (map string_bytes words.now) }
    ensures limits { IfSome result (λ c. IsLimited (seen_command c)) }
{
    let told = both_words(words, CommandKind::Solo)?;
    Some(Command::Solo {
        ticks: told.ticks,
        out: told.out,
        keep: told.keep,
        given: told.given,
    })
}

fn run_words(words: &[String]) -> Option<Command<'_>>
    ensures command { option_map seen_command result ≡ run_words (map string_bytes words.now) }
    ensures limits { IfSome result (λ c. IsLimited (seen_command c)) }
{
    let told = both_words(words, CommandKind::Run)?;
    Some(Command::Run {
        ticks: told.ticks,
        out: told.out,
        keep: told.keep,
        given: told.given,
    })
}

fn resume_words(words: &[String]) -> Option<Command<'_>>
    ensures command { option_map seen_command result ≡ resume_words (map string_bytes words.now) }
    ensures limits { IfSome result (λ c. IsLimited (seen_command c)) }
{
    let (state, ticks, out) = three_alone(words)?;
    let ticks = decimal_number(ticks.as_bytes(), MOST_TICKS)?;
    if !is_name(state) || !is_name(out) {
        return None;
    }
    let given = options_among(words, CommandKind::Resume)?;
    Some(Command::Resume {
        state,
        ticks,
        out,
        keep: given.keep(),
        given,
    })
}

fn gen_words(words: &[String]) -> Option<Command<'_>>
    ensures command { option_map seen_command result ≡ gen_words (map string_bytes words.now) }
    ensures limits { IfSome result (λ c. IsLimited (seen_command c)) }
{
    match words {
        [seed] => {
            let seed = decimal_number(seed.as_bytes(), u64::MAX)?;
            Some(Command::Gen { seed })
        }
        _ => None,
    }
}

#[tactic(auto, unfolding(crate::specs::Words::command))]
fn command_within(words: &[String]) -> Option<Command<'_>>
    ensures command { option_map seen_command result ≡ command (map string_bytes words.now) }
    ensures limits { IfSome result (λ c. IsLimited (seen_command c)) }
{
    let (word, rest) = words.split_first()?;
    if word.as_str() == "check" {
        check_words(rest)
    } else if word.as_str() == "asm" {
        asm_words(rest)
    } else if word.as_str() == "dis" {
        dis_words(rest)
    } else if word.as_str() == "replay" {
        replay_words(rest)
    } else if word.as_str() == "solo" {
        solo_words(rest)
    } else if word.as_str() == "run" {
        run_words(rest)
    } else if word.as_str() == "resume" {
        resume_words(rest)
    } else if word.as_str() == "follow" {
        follow_words(rest)
    } else if word.as_str() == "gen" {
        gen_words(rest)
    } else {
        None
    }
}

/// Returns the command that the words spell. The command's numbers are within their limits.
#[tactic(auto, using(crate::proofs::InputKindLemmas::is_within))]
pub fn command_of(words: &[String]) -> Option<Command<'_>>
    ensures command { option_map seen_command result ≡ command (map string_bytes words.now) }
    ensures within { IfSome result (λ c. IsWithin (seen_command c)) }
{
    command_within(words)
}
