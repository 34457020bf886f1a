//! Random trials: fast execution is compared with execution step by step, on random programs and
//! acts.
//!
//! `trials 65c02 SEED COUNT`: COUNT programs of the second processor, by whole instructions and
//! cycle by cycle. `trials 6502 SEED COUNT`: the same for the host. `trials edges SEED COUNT`:
//! instructions of both at edges, with lines that change near them. `trials acts SEED COUNT`: COUNT
//! acts on the host's bus, whose devices lag, and on one that is closed at each tick. `trials all
//! SEED COUNT`: all four, with ten times as many edges and acts. The status is 0 if nothing
//! differs, otherwise 1.
#![tactic(auto)]

mod acts;
mod chance;
mod code;
mod edges;
mod host;
mod roads;
mod second;
mod setting;
mod twins;

use beeb_bits::NoMemory;
use std::alloc::Global;
use std::env;
use std::process::ExitCode;
use std::rt::Env;

// The kind of a trial.
#[derive(Clone, Copy)]
enum Kind {
    Second,
    Host,
    Edges,
    Acts,
}

fn name_of(kind: Kind) -> &'static str {
    match kind {
        Kind::Second => "65c02",
        Kind::Host => "6502",
        Kind::Edges => "edges",
        Kind::Acts => "acts",
    }
}

// The result of several trials.
#[derive(Clone, Copy)]
enum Ended {
    Same,
    Differs(u64),
    NoMemory,
}

const LISTS: acts::Lists<'static> = acts::Lists {
    script: acts::EVENTS,
    settings: &acts::SETTINGS,
    screen: &acts::SMALL_SCREEN,
    sector: &acts::SECTOR,
    size: 16_384,
};

// Returns true if the runs of a seed agree.
fn agrees(alloc: Global, kind: Kind, seed: u64, left: u64) -> Result<bool, NoMemory> {
    match kind {
        Kind::Second => second::agrees(alloc, seed),
        Kind::Host => host::agrees(alloc, seed),
        Kind::Edges => edges::agrees(alloc, seed),
        Kind::Acts => acts::agrees(alloc, seed, left.min(acts::ACTS), LISTS),
    }
}

// Does `count` trials, from `seed` on.
fn trials(alloc: Global, kind: Kind, seed: u64, count: u64) -> Ended {
    let mut left = count;
    for i in 0..count {
        if left == 0 {
            break;
        }
        let seed = seed.wrapping_add(i);
        match agrees(alloc, kind, seed, left) {
            Ok(true) => match kind {
                Kind::Acts => left = left.saturating_sub(acts::ACTS),
                _ => left = left.saturating_sub(1),
            },
            Ok(false) => return Ended::Differs(seed),
            Err(_) => return Ended::NoMemory,
        }
    }
    Ended::Same
}

// Does the trials and prints their result. Returns true if nothing differs.
fn tried<R: Print>(rt: &R, alloc: Global, kind: Kind, seed: u64, count: u64) -> bool {
    let name = name_of(kind);
    let ended = trials(alloc, kind, seed, count);
    let said = match ended {
        Ended::Same => println!(rt; "{name}: {count} tried, 0 differ"),
        Ended::Differs(seed) => println!(rt; "{name}: seed {seed} differs"),
        Ended::NoMemory => println!(rt; "{name}: no memory"),
    };
    said.is_ok() && matches!(ended, Ended::Same)
}

// The request of the command's words.
#[derive(Clone, Copy)]
struct Request {
    // `None` for all.
    kind: Option<Kind>,
    seed: u64,
    count: u64,
}

fn read_words<R: Env + AllocGlobal>(rt: &R) -> Option<Request> {
    let mut args = env::args(rt).ok()?;
    let _ = args.next();
    let what = args.next()?;
    let kind = match what.as_str() {
        "65c02" => Some(Kind::Second),
        "6502" => Some(Kind::Host),
        "edges" => Some(Kind::Edges),
        "acts" => Some(Kind::Acts),
        "all" => None,
        _ => return None,
    };
    let seed = args.next()?.as_str().parse::<u64>().ok()?;
    let count = args.next()?.as_str().parse::<u64>().ok()?;
    Some(Request { kind, seed, count })
}

// Carries out a request. Returns true if nothing differs.
fn carried_out<R: Print>(rt: &R, alloc: Global, request: Request) -> bool {
    let Request { kind, seed, count } = request;
    if let Some(kind) = kind {
        return tried(rt, alloc, kind, seed, count);
    }
    let second = tried(rt, alloc, Kind::Second, seed, count);
    let host = tried(rt, alloc, Kind::Host, seed, count);
    let more = count.saturating_mul(10);
    let edges = tried(rt, alloc, Kind::Edges, seed, more);
    let acts = tried(rt, alloc, Kind::Acts, seed, more);
    second && host && edges && acts
}

fn main(rt: HostRuntime) -> ExitCode {
    let alloc = rt.alloc();
    let is_same = match read_words(&rt) {
        Some(request) => carried_out(&rt, alloc, request),
        None => {
            let _ = eprintln!(rt; "usage: trials 65c02|6502|edges|acts|all SEED COUNT");
            false
        }
    };
    ExitCode::from(if is_same { 0 } else { 1 })
}
