//! The stages of every command: its files are read, its outcome is made, and that is written.
ghost use Rattle.std.specs.Prelude.{◌≡◌, map, true, false};
ghost use Rattle.beeb_files.specs.Crew.{Counts};
ghost use Rattle.cmd_stages.specs.Promise.{CarriesOut, world};
ghost use Rattle.cmd_words.specs.Command.{is_paired};
ghost use Rattle.cmd_words.specs.Reads.{IsWithin};
ghost use Rattle.cmd_words.specs.View.{seen_command};
ghost use Rattle.cmd_top.specs.Plans.{plan};

use crate::work::{paired_outcome, single_outcome};
use beeb_files::{Crew, Outlet, Shelf};
use bus_plug::BusDevice;
use cmd_stages::{Stop, read_all, stages_carry_out, write_outcome};
use cmd_status::{Cause, Ending};
use cmd_words::{Command, InputKind};
use std::alloc::Global;
use std::sync::Wait;
use std::thread::Threads;

/// Carries out a command without a pair of jobs on this thread, and leaves any crew unchanged.
pub(crate) fn single<S: Shelf, O: Outlet, D: BusDevice>(
    alloc: Global,
    command: Command<'_>,
    plugs: Vec<D>,
    shelf: &mut S,
    out: &mut O,
) -> Result<Ending, Stop<Cause>>
    requires within { IsWithin (seen_command command) }
    requires unpaired { is_paired (seen_command command) ≡ false }
    ensures { (crew : Counts) → let old = world (S.shelf shelf.old) (O.outlet out.old) crew in
        let new = world (S.shelf shelf.new) (O.outlet out.new) crew in
        CarriesOut (plan (map D.plug plugs.items) (seen_command command.entry)) old new result }
{
    stages_carry_out::<InputKind, Ending, Cause>();
    let wants = command.reads(alloc)?;
    let inputs = read_all(alloc, shelf, &wants)?;
    let outcome = single_outcome(alloc, command, inputs, plugs)?;
    write_outcome(alloc, outcome, out)
}

/// Carries out a command whose pair of jobs the crew works.
pub(crate) fn paired<S: Shelf, O: Outlet, D: BusDevice + Send, C: Crew, R: Threads + Wait + Sync>(
    rt: &R,
    alloc: Global,
    command: Command<'_>,
    plugs: Vec<D>,
    shelf: &mut S,
    out: &mut O,
    crew: &mut C,
) -> Result<Ending, Stop<Cause>>
    requires within { IsWithin (seen_command command) }
    requires paired { is_paired (seen_command command) ≡ true }
    ensures { let old = world (S.shelf shelf.old) (O.outlet out.old) (C.counts crew.old) in
        let new = world (S.shelf shelf.new) (O.outlet out.new) (C.counts crew.new) in
        CarriesOut (plan (map D.plug plugs.items) (seen_command command.entry)) old new result }
{
    stages_carry_out::<InputKind, Ending, Cause>();
    let wants = command.reads(alloc)?;
    let inputs = read_all(alloc, shelf, &wants)?;
    let outcome = paired_outcome(rt, alloc, crew, command, inputs, plugs)?;
    write_outcome(alloc, outcome, out)
}
