//! `gen SEED`: the demonstration pair.
ghost use Rattle.std.specs.Prelude.{◌≡◌, ◌≤◌, ◌++◌, IfOk, slice_index};
ghost use Rattle.cmd_stages.specs.View.{Gives};
ghost use Rattle.cmd_pair.specs.Gen.{pair_inputs, before_sum, behind_sum, summary, gen_ticks, gen_after};
ghost use Rattle.cmd_machines.specs.View.{seen_inputs};
ghost use Rattle.cmd_outcome.specs.View.{verdict_of};

use crate::alone::run_alone;
use beeb_bits::{Clock, Tick};
use bus_plug::BusDevice;
use cmd_machines::{Inputs, Setup, machines_of};
use cmd_outcome::{Outcome, said_outcome};
use cmd_stages::Refusal;
use cmd_status::{Cause, Ending};
use demo_gen::{Demo, pair};
use digits::two_digits;
use disc_image::Kind;
use std::alloc::{AllocError, Global};
use tube_party::MOST;

/// The addresses of the low byte and the high byte of the sum in the host.
const SUM: (usize, usize) = (0x70, 0x71);

// Returns the ticks of the run. As the result of a call, the number is not unfolded in proofs.
#[tactic(auto, unfolding(crate::specs::Gen::gen_ticks))]
fn gen_ticks() -> u64
    ensures ticks { result ≡ gen_ticks }
    ensures most { result ≤ MOST }
{
    1_000_000
}

// Makes the inputs of a command from the images.
fn pair_inputs(alloc: Global, demo: Demo) -> Inputs
    ensures { seen_inputs result ≡ pair_inputs demo.os.items demo.tube.items }
{
    Inputs {
        os: demo.os,
        tube: demo.tube,
        ..Inputs::none(alloc)
    }
}

fn byte_at(ram: &[u8], at: usize) -> u8
    ensures { result ≡ slice_index ram.now at }
{
    match ram.get(at) {
        Some(byte) => *byte,
        None => 0,
    }
}

#[tactic(auto, unfolding(crate::specs::Gen::before_sum))]
fn before_sum(alloc: Global, seed: u64) -> Result<Vec<u8>, AllocError>
    ensures { IfOk result (λ v. v.items ≡ before_sum seed) }
{
    let text = format!(in alloc; "seed {seed}\nbytes 4096\nsum ")?;
    text.as_bytes().to_vec(alloc)
}

#[tactic(auto, unfolding(crate::specs::Gen::behind_sum))]
fn push_behind_sum(text: &mut Vec<u8>) -> Result<(), AllocError>
    ensures { IfOk result (λ _. text.new.items ≡ text.old.items ++ behind_sum) }
{
    text.extend_from_slice(b"\nticks 1000000\n")
}

// Makes the four lines of the summary from the host's memory.
fn summary(alloc: Global, seed: u64, ram: &[u8]) -> Result<Vec<u8>, AllocError>
    ensures { IfOk result (λ v. v.items ≡ summary seed ram.now) }
{
    let mut text = before_sum(alloc, seed)?;
    text.extend_from_slice(&two_digits(byte_at(ram, SUM.1)))?;
    text.extend_from_slice(&two_digits(byte_at(ram, SUM.0)))?;
    push_behind_sum(&mut text)?;
    Ok(text)
}

/// Makes the outcome of running the pair of a seed on one thread.
#[tactic(auto, unfolding(crate::specs::Gen::gen_after))]
pub fn gen_outcome<'a, D: BusDevice>(
    alloc: Global,
    seed: u64,
) -> Result<Outcome<'a, D>, Refusal<Cause>>
    ensures { Gives (verdict_of D.plug) result (gen_after seed) }
{
    let inputs = pair_inputs(alloc, pair(alloc, seed)?);
    let plugs: Vec<D> = Vec::new(alloc);
    let setup = Setup {
        clock: Clock::Three,
        kinds: (Kind::Ssd, Kind::Ssd),
        number: 0,
        plugs,
        tube: true,
    };
    let (host, para) = machines_of(alloc, setup, inputs)?;
    let done = run_alone(alloc, host, para, Tick(gen_ticks()), 0)?;
    let text = summary(alloc, seed, done.host.ram());
    // An explicit drop, so that both machines are dropped in one place.
    drop(done);
    Ok(said_outcome(alloc, Ending::Done, text?))
}
