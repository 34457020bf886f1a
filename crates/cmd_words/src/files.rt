//! The files that a command reads.
ghost use Rattle.std.specs.Prelude.{◌≡◌, ◌∷◌, ◌++◌, [], map, IfOk, option_copied};
ghost use Rattle.cmd_words.specs.Keys.{keys};
ghost use Rattle.cmd_words.specs.Reads.{reads, cap_of, file_of, files_of};
ghost use Rattle.cmd_words.specs.View.{seen_command, seen_given, seen_value, seen_want};

use crate::command::Command;
use crate::given::Given;
use crate::keys::{COUNT, InputKind, Value, kind_of};
use std::alloc::{AllocError, Global};

/// The most bytes of a trace's file.
const TRACE_CAP: u64 = 100_663_296;

/// The most bytes of a source text.
const SOURCE_CAP: u64 = 4_194_304;

/// The most bytes of a session file.
const STATE_CAP: u64 = 33_554_432;

/// The most bytes of a file of addresses: a line for each.
const POINTS_CAP: u64 = 327_680;

/// The most bytes of every other file.
const FILE_CAP: u64 = 1_048_576;

/// The slot of a file, its name, and the most bytes that it may have.
type Want<'a> = (InputKind, &'a str, u64);

// Makes a list of one file.
fn one<'a>(alloc: Global, want: Want<'a>) -> Result<Vec<Want<'a>>, AllocError>
    ensures { IfOk result (λ v. map seen_want v.items ≡ seen_want want.entry ∷ []) }
{
    let mut wants = Vec::new(alloc);
    wants.push(want)?;
    Ok(wants)
}

// Returns the most bytes of a file that an option names.
fn cap_of(slot: InputKind) -> u64
    ensures { result ≡ cap_of slot }
{
    match slot {
        InputKind::Points => POINTS_CAP,
        _ => FILE_CAP,
    }
}

// Appends the file of one option, if it names one.
fn with_option<'a>(
    wants: Vec<Want<'a>>,
    kind: Value,
    name: Option<&'a str>,
) -> Result<Vec<Want<'a>>, AllocError>
    ensures { let more = file_of (seen_value kind) (option_copied name.entry) in
        IfOk result (λ v. map seen_want v.items ≡ map seen_want wants.entry.items ++ more) }
{
    match (kind, name) {
        (Value::File(slot), Some(name)) => {
            let mut wants = wants;
            wants.push((slot, name, cap_of(slot)))?;
            Ok(wants)
        }
        _ => Ok(wants),
    }
}

// Appends the files that the options name.
#[tactic(auto, using(crate::proofs::GivenLemmas::files_more, crate::proofs::GivenLemmas::files_end))]
fn with_options<'a>(files: Vec<Want<'a>>, given: Given<'a>) -> Result<Vec<Want<'a>>, AllocError>
    ensures { let more = files_of keys (seen_given given.entry) in
        IfOk result (λ v. map seen_want v.items ≡ map seen_want files.entry.items ++ more) }
{
    let mut wants = files;
    for i in 0..COUNT {
        match with_option(wants, kind_of(i), given.value(i)) {
            Ok(more) => wants = more,
            Err(error) => return Err(error),
        }
    }
    Ok(wants)
}

impl<'a> Command<'a> {
    /// Returns the files that the command reads, in order: the slot, the name and the largest size
    /// of each.
    pub fn reads(&self, alloc: Global) -> Result<Vec<(InputKind, &'a str, u64)>, AllocError>
        ensures { IfOk result (λ v. map seen_want v.items ≡ reads (seen_command self.now)) }
    {
        match self {
            Command::Check { trace } => one(alloc, (InputKind::Trace, *trace, TRACE_CAP)),
            Command::Asm { source, .. } => one(alloc, (InputKind::Source, *source, SOURCE_CAP)),
            Command::Dis { image, .. } => one(alloc, (InputKind::Image, *image, FILE_CAP)),
            Command::Replay { trace, given, .. } | Command::Follow { trace, given, .. } => {
                with_options(one(alloc, (InputKind::Trace, *trace, TRACE_CAP))?, *given)
            }
            Command::Solo { given, .. } | Command::Run { given, .. } => {
                with_options(Vec::new(alloc), *given)
            }
            Command::Resume { state, .. } => one(alloc, (InputKind::State, *state, STATE_CAP)),
            Command::Gen { .. } => Ok(Vec::new(alloc)),
        }
    }
}
