//! The work of each command on what it read.
ghost use Rattle.std.specs.Prelude.{◌≡◌, map, true, false};
ghost use Rattle.cmd_stages.specs.Plan.{AreWithin};
ghost use Rattle.cmd_stages.specs.Promise.{IsCrewAfter};
ghost use Rattle.cmd_stages.specs.View.{Gives, seen_input};
ghost use Rattle.cmd_stages.specs.Stages.{Works};
ghost use Rattle.cmd_words.specs.Command.{is_paired};
ghost use Rattle.cmd_words.specs.Reads.{IsWithin, reads};
ghost use Rattle.cmd_words.specs.View.{seen_command, seen_given};
ghost use Rattle.cmd_machines.specs.Inputs.{inputs_of};
ghost use Rattle.cmd_machines.specs.Setup.{setup_of};
ghost use Rattle.cmd_outcome.specs.View.{verdict_of};
ghost use Rattle.cmd_top.specs.Plans.{choice_of, after};

use beeb_files::Crew;
use bus_plug::BusDevice;
use cmd_follow::follow_outcome;
use cmd_machines::{Inputs, Setup};
use cmd_outcome::{Names, Outcome};
use cmd_pair::{gen_outcome, run_outcome, solo_outcome};
use cmd_replay::replay_outcome;
use cmd_session::session_outcome;
use cmd_stages::{Refusal, Stop};
use cmd_status::Cause;
use cmd_tools::{asm_outcome, check_outcome, dis_outcome};
use cmd_words::{Command, Given, InputKind};
use follow::Choice;
use std::alloc::Global;
use std::sync::Wait;
use std::thread::Threads;

// Returns the choice of the instructions to list, without the addresses of a file, and of counting
// them.
fn choice_of(given: &Given<'_>) -> Choice
    ensures { result ≡ choice_of (seen_given given.now) }
{
    Choice {
        from: given.from(),
        at: given.at(),
        points: None,
        watch: given.watch(),
        counts: given.counts(),
    }
}

/// Makes the outcome of a command without a pair of jobs, with the given devices.
pub(crate) fn single_outcome<'a, D: BusDevice>(
    alloc: Global,
    command: Command<'a>,
    inputs: Vec<(InputKind, Vec<u8>)>,
    plugs: Vec<D>,
) -> Result<Outcome<'a, D>, Refusal<Cause>>
    requires within { IsWithin (seen_command command) }
    requires unpaired { is_paired (seen_command command) ≡ false }
    requires inputs { AreWithin (reads (seen_command command)) (map seen_input inputs.items) }
    ensures { let read = inputs_of (map seen_input inputs.items) in
        Gives (verdict_of D.plug) result (after (map D.plug plugs.items) (seen_command command.entry) read) }
{
    let inputs = Inputs::of(alloc, inputs)?;
    match command {
        Command::Check { .. } => check_outcome(alloc, &inputs.trace),
        Command::Asm { part, out, .. } => asm_outcome(alloc, part, out, &inputs.source),
        Command::Dis {
            part,
            origin,
            out,
            ..
        } => dis_outcome(alloc, part, origin, out, &inputs.image),
        Command::Replay {
            side,
            ticks,
            out,
            given,
            ..
        } => {
            let setup = Setup::of(&given, plugs);
            let names = Names::of(out, &given);
            replay_outcome(alloc, setup, side, ticks, names, inputs)
        }
        Command::Solo {
            ticks,
            out,
            keep,
            given,
        } => {
            let setup = Setup::of(&given, plugs);
            let names = Names::of(out, &given);
            solo_outcome(alloc, setup, ticks, keep, names, inputs)
        }
        Command::Resume {
            ticks,
            out,
            keep,
            given,
            ..
        } => {
            let names = Names::of(out, &given);
            session_outcome(alloc, ticks, keep, names, plugs, inputs)
        }
        Command::Follow {
            side,
            ticks,
            out,
            given,
            ..
        } => {
            let choice = choice_of(&given);
            let setup = Setup::of(&given, plugs);
            follow_outcome(alloc, setup, side, ticks, choice, out, inputs)
        }
        Command::Gen { seed } => gen_outcome(alloc, seed),
        Command::Run { .. } => unreachable!(),
    }
}

/// Makes the outcome of a command whose pair of jobs the crew works, with the given devices.
pub(crate) fn paired_outcome<'a, D: BusDevice + Send, C: Crew, R: Threads + Wait + Sync>(
    rt: &R,
    alloc: Global,
    crew: &mut C,
    command: Command<'a>,
    inputs: Vec<(InputKind, Vec<u8>)>,
    plugs: Vec<D>,
) -> Result<Outcome<'a, D>, Stop<Cause>>
    requires within { IsWithin (seen_command command) }
    requires paired { is_paired (seen_command command) ≡ true }
    requires inputs { AreWithin (reads (seen_command command)) (map seen_input inputs.items) }
    ensures works { let read = inputs_of (map seen_input inputs.items) in
        let after = after (map D.plug plugs.items) (seen_command command.entry) read in
        Works (verdict_of D.plug) true (C.counts crew.old) (C.counts crew.new) result after }
    ensures crew { IsCrewAfter true (C.counts crew.old) (C.counts crew.new) }
{
    let Command::Run {
        ticks,
        out,
        keep,
        given,
    } = command
    else {
        unreachable!()
    };
    let inputs = Inputs::of(alloc, inputs)?;
    let setup = Setup::of(&given, plugs);
    let names = Names::of(out, &given);
    run_outcome(rt, alloc, crew, setup, ticks, keep, names, inputs)
}
