//! `follow SIDE TRACE TICKS OUT` and options: a machine replayed against a trace, with its
//! instructions listed.
ghost use Rattle.std.specs.Prelude.{◌≡◌, ◌<◌, ◌≤◌, All, Bool, IfOk, IsTrue, List, Option, Result, option_map};
ghost use Rattle.tube_trace.specs.Entries.{IsEntry};
ghost use Rattle.tube_trace.specs.FirstWrong.{wrong};
ghost use Rattle.cmd_stages.specs.View.{Gives};
ghost use Rattle.cmd_machines.specs.View.{seen_inputs, seen_setup};
ghost use Rattle.cmd_outcome.specs.View.{verdict_of};
ghost use Rattle.cmd_replayed.specs.Replay.{unless_wrong};
ghost use Rattle.follow.specs.Listing.{replay_listing};
ghost use Rattle.tube_party.specs.Replay.{replay_of};
ghost use Rattle.cmd_machines.specs.View.{items};
ghost use Rattle.cmd_follow.specs.Follow.{listed_text, listed_by, follow_after, points_refusal, points_read, points_of, with_points, chosen_with, verdict_of_choice, host_verdict, para_verdict};
ghost use Rattle.cmd_replayed.specs.Made.{host_of, para_of};
ghost use Rattle.follow.specs.declared.Choice.{Choice};
ghost use Rattle.cmd_stages.specs.declared.stop.Refusal.{Refusal};
ghost use Rattle.cmd_status.specs.declared.status.Cause.{Cause};
ghost use Rattle.follow.specs.Points.{points};

use beeb_bits::{Side, Tick};
use bus_plug::BusDevice;
use cmd_machines::{Inputs, Setup};
use cmd_outcome::{Outcome, listing_outcome, wrong_outcome};
use cmd_replayed::{differs_outcome, host_made, para_made};
use cmd_stages::Refusal;
use cmd_status::Cause;
use follow::{Choice, FollowError, Points, PointsError, Seen, list};
use op_table::Part;
use std::alloc::{AllocError, Global};
use tube_party::MOST;
use tube_trace::{Entry, first_wrong};

// Makes the text with the numbers of instructions listed and chosen.
#[tactic(auto, unfolding(crate::specs::Follow::listed_text))]
fn listed_text(alloc: Global, listed: u64, chosen: u64) -> Result<Vec<u8>, AllocError>
    ensures { IfOk result (λ v. v.items ≡ listed_text listed chosen) }
{
    let text = format!(in alloc; "listed {listed} of {chosen}\n")?;
    text.as_bytes().to_vec(alloc)
}

// Makes the outcome of a machine and the entries that were read with it. The answers of the trace
// are checked first, as in `check`. The function is generic over the machine, so that its proof
// does not unfold one.
#[tactic(auto, unfolding(crate::specs::Follow::listed_by))]
fn listed<'a, D: BusDevice, M: Seen>(
    alloc: Global,
    machine: M,
    part: Part,
    side: Side,
    ticks: u64,
    choice: Choice,
    out: &'a str,
    trace: &[Entry],
) -> Result<Outcome<'a, D>, AllocError>
    requires ticks { ticks ≤ MOST }
    requires plays { IsTrue (M.plays side) }
    requires trace { All IsEntry trace.now }
    ensures { let place = (replay_of M.transitions side trace.now ticks (M.state machine)).place in
        let there = replay_listing M.steps M.sights part side trace.now ticks choice (M.inside machine) in
        let ended = listed_by out.now place there in
        IfOk result (λ outcome. verdict_of D.plug outcome ≡ unless_wrong (wrong trace.now) ended) }
{
    if let Some((at, byte)) = first_wrong(trace) {
        return wrong_outcome(alloc, at as u64 + 1, byte);
    }
    match list(alloc, machine, part, side, trace, Tick(ticks), choice) {
        Ok(listing) => {
            let text = listed_text(alloc, listing.listed, listing.chosen)?;
            listing_outcome(alloc, out, listing.text, listing.counts, text)
        }
        Err(FollowError::Differs { line, doing }) => differs_outcome(alloc, line, doing),
        Err(FollowError::NoMemory) => Err(AllocError),
    }
}

// Returns the refusal for an error in a file of addresses.
fn points_refusal(error: PointsError) -> Refusal<Cause>
    ensures { result ≡ points_refusal error }
{
    match error {
        PointsError::BadLine { line } => Refusal::Cause(Cause::BadPoints { line, kind: 1 }),
        PointsError::BadOrder { line } => Refusal::Cause(Cause::BadPoints { line, kind: 2 }),
        PointsError::NoMemory => Refusal::NoMemory,
    }
}

// Reads the addresses of a file.
fn read_points(alloc: Global, bytes: &[u8]) -> Result<Option<Points>, Refusal<Cause>>
    ensures { Gives (λ (points : Option (List Bool)). points) result (points_read (points bytes.now)) }
{
    match Points::read(alloc, bytes) {
        Ok(points) => Ok(Some(points)),
        Err(error) => Err(points_refusal(error)),
    }
}

// Reads the addresses of a file, if one is given.
fn points_of(alloc: Global, bytes: &Option<Vec<u8>>) -> Result<Option<Points>, Refusal<Cause>>
    ensures { Gives (λ (points : Option (List Bool)). points) result (points_of (option_map items bytes.now)) }
{
    match bytes {
        None => Ok(None),
        Some(bytes) => read_points(alloc, bytes),
    }
}

// Returns a choice with the given addresses.
fn with_points(choice: Choice, points: Option<Points>) -> Choice
    ensures { result ≡ with_points choice points }
{
    Choice {
        from: choice.from,
        at: choice.at,
        points,
        watch: choice.watch,
        counts: choice.counts,
    }
}

// Returns a choice with the addresses of a file, if one is given.
#[tactic(auto, unfolding(crate::specs::Follow::chosen_with))]
fn chosen_with(
    alloc: Global,
    choice: Choice,
    bytes: &Option<Vec<u8>>,
) -> Result<Choice, Refusal<Cause>>
    ensures { Gives (λ (chosen : Choice). chosen) result (chosen_with choice (option_map items bytes.now)) }
{
    match points_of(alloc, bytes) {
        Ok(points) => Ok(with_points(choice, points)),
        Err(refusal) => Err(refusal),
    }
}

// Makes the outcome of a machine and the entries that were read with it, unless the choice is
// refused. The function is generic over the machine too.
fn listed_if<'a, D: BusDevice, M: Seen>(
    alloc: Global,
    machine: M,
    part: Part,
    side: Side,
    ticks: u64,
    chosen: Result<Choice, Refusal<Cause>>,
    out: &'a str,
    trace: &[Entry],
) -> Result<Outcome<'a, D>, Refusal<Cause>>
    requires ticks { ticks ≤ MOST }
    requires plays { IsTrue (M.plays side) }
    requires trace { All IsEntry trace.now }
    ensures { (stage : Result Choice (Refusal Cause)) → Gives (λ (c : Choice). c) chosen stage →
        let place = (replay_of M.transitions side trace.now ticks (M.state machine)).place in
        let there = replay_listing M.steps M.sights part side trace.now ticks in
        Gives (verdict_of D.plug) result (verdict_of_choice stage (λ c. unless_wrong (wrong trace.now) (listed_by out.now place (there c (M.inside machine))))) }
{
    match chosen {
        Ok(choice) => match listed(alloc, machine, part, side, ticks, choice, out, trace) {
            Ok(outcome) => Ok(outcome),
            Err(AllocError) => Err(Refusal::NoMemory),
        },
        Err(refusal) => Err(refusal),
    }
}

// Makes the outcome of the host replayed against the trace that was read, unless the choice is
// refused.
fn host_listed<'a, D: BusDevice>(
    alloc: Global,
    setup: Setup<D>,
    ticks: u64,
    chosen: Result<Choice, Refusal<Cause>>,
    out: &'a str,
    inputs: Inputs,
) -> Result<Outcome<'a, D>, Refusal<Cause>>
    requires ticks { ticks ≤ MOST }
    requires slots { All (λ slot. slot.0 < 16) inputs.roms.items }
    ensures { (stage : Result Choice (Refusal Cause)) → Gives (λ (c : Choice). c) chosen stage →
        let made = host_of (seen_setup D.plug setup) (seen_inputs inputs) in
        Gives (verdict_of D.plug) result (host_verdict made stage ticks out.now) }
{
    let (trace, machine) = host_made(alloc, setup, inputs)?;
    listed_if(
        alloc,
        machine,
        Part::Nmos,
        Side::Host,
        ticks,
        chosen,
        out,
        &trace,
    )
}

// Makes the outcome of the second processor replayed against the trace that was read, unless the
// choice is refused.
fn para_listed<'a, D: BusDevice>(
    alloc: Global,
    setup: Setup<D>,
    ticks: u64,
    chosen: Result<Choice, Refusal<Cause>>,
    out: &'a str,
    inputs: Inputs,
) -> Result<Outcome<'a, D>, Refusal<Cause>>
    requires ticks { ticks ≤ MOST }
    ensures { (stage : Result Choice (Refusal Cause)) → Gives (λ (c : Choice). c) chosen stage →
        let made = para_of (seen_setup D.plug setup).clock (seen_inputs inputs) in
        Gives (verdict_of D.plug) result (para_verdict made stage ticks out.now) }
{
    let (trace, machine) = para_made(alloc, setup.clock, inputs)?;
    listed_if(
        alloc,
        machine,
        Part::Cmos,
        Side::Para,
        ticks,
        chosen,
        out,
        &trace,
    )
}

/// Makes the outcome of a side's machine replayed against the trace that was read, with its
/// instructions listed.
#[tactic(auto, unfolding(crate::specs::Follow::follow_after))]
pub fn follow_outcome<'a, D: BusDevice>(
    alloc: Global,
    setup: Setup<D>,
    side: Side,
    ticks: u64,
    choice: Choice,
    out: &'a str,
    inputs: Inputs,
) -> Result<Outcome<'a, D>, Refusal<Cause>>
    requires ticks { ticks ≤ MOST }
    requires slots { All (λ slot. slot.0 < 16) inputs.roms.items }
    ensures { let after = follow_after (seen_setup D.plug setup) side ticks choice out.now (seen_inputs inputs) in
        Gives (verdict_of D.plug) result after }
{
    let chosen = chosen_with(alloc, choice, &inputs.points);
    match side {
        Side::Host => host_listed(alloc, setup, ticks, chosen, out, inputs),
        Side::Para => para_listed(alloc, setup, ticks, chosen, out, inputs),
    }
}
