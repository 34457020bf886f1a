//! The top calls.
ghost use Rattle.std.specs.Prelude.{◌≡◌, ◌↔◌, None, IfSome, IfNone, map};
ghost use Rattle.cmd_stages.specs.Promise.{world, nobody};
ghost use Rattle.cmd_top.specs.Commands.{EndsWith, command_of_words, if_unpaired};
ghost use Rattle.cmd_top.specs.Headline.{Headline};
ghost use Rattle.cmd_top.specs.ResumeAndFollow.{ResumeAndFollow};
ghost use Rattle.cmd_top.specs.SoundFile.{SoundFile};

use crate::road::{paired, single};
use beeb_files::{Crew, Outlet, Shelf};
use bus_plug::BusDevice;
use cmd_status::{Status, status_of};
use cmd_words::command_of;
use std::alloc::Global;
use std::sync::Wait;
use std::thread::Threads;

/// Carries out the command that the words spell, on the files of the shelf, and writes its outcome
/// to the outlet. `run` is refused, since there is no crew. A host gets the first of the devices,
/// in the number that the words or the session give. All devices are dropped at the return.
#[tactic(auto, unfolding(crate::specs::Commands::EndsWith))]
pub fn plain<S: Shelf, O: Outlet>(
    alloc: Global,
    words: &[String],
    shelf: &mut S,
    out: &mut O,
    plugs: Vec<Box<dyn BusDevice + Send>>,
) -> Status
    // `Usage` comes if and only if the words are outside the grammar or spell `run`. Shelf and
    // outlet are then unchanged.
    ensures usage { (result ≡ Status.Usage) ↔ (if_unpaired (command_of_words words.now) ≡ None) }
    ensures refused { let old = world (S.shelf shelf.old) (O.outlet out.old) nobody in
        let new = world (S.shelf shelf.new) (O.outlet out.new) nobody in
        IfNone (if_unpaired (command_of_words words.now)) (new ≡ old) }
    // The theorem of the sound file, for `--wav` with `solo`, `resume` or `replay host` that ends
    // with `Done`. The file of that name is made from the sound writes of the host, of the
    // reference run or the replay, unless `--save` gives the same name.
    ensures sound { let devices = map ⟦<Box<dyn BusDevice + Send> as BusDevice>⟧.plug plugs.items in
        let old = world (S.shelf shelf.old) (O.outlet out.old) nobody in
        let new = world (S.shelf shelf.new) (O.outlet out.new) nobody in
        result ≡ Status.Done → SoundFile devices (if_unpaired (command_of_words words.now)) old new }
    // The theorems of sessions and of listings. If `resume` ends with `Done`, the written files are
    // those of the reference run of the session's machines. If `follow` does, they are the listing
    // of the machine's replay, and the text with its numbers was said.
    ensures gone { let devices = map ⟦<Box<dyn BusDevice + Send> as BusDevice>⟧.plug plugs.items in
        let old = world (S.shelf shelf.old) (O.outlet out.old) nobody in
        let new = world (S.shelf shelf.new) (O.outlet out.new) nobody in
        result ≡ Status.Done → ResumeAndFollow devices (if_unpaired (command_of_words words.now)) old new }
    // Otherwise the command is carried out, with the devices as they were handed in.
    ensures ran { let devices = map ⟦<Box<dyn BusDevice + Send> as BusDevice>⟧.plug plugs.items in
        let old = world (S.shelf shelf.old) (O.outlet out.old) nobody in
        let new = world (S.shelf shelf.new) (O.outlet out.new) nobody in
        IfSome (if_unpaired (command_of_words words.now)) (λ c. EndsWith devices c old new result) }
{
    let Some(command) = command_of(words) else {
        return Status::Usage;
    };
    if command.is_paired() {
        return Status::Usage;
    }
    status_of(single(alloc, command, plugs, shelf, out))
}

/// Carries out the command that the words spell, on the files of the shelf, and writes its outcome
/// to the outlet. The crew works the two machines of `run`. Every other command is carried out as
/// by `plain`. A host gets the first of the devices, in the number that the words or the session
/// give. All devices are dropped at the return.
#[tactic(auto, unfolding(crate::specs::Commands::EndsWith, crate::specs::Headline::Headline))]
pub fn top<S: Shelf, O: Outlet, C: Crew, R: Threads + Wait + Sync>(
    rt: &R,
    alloc: Global,
    words: &[String],
    shelf: &mut S,
    out: &mut O,
    crew: &mut C,
    plugs: Vec<Box<dyn BusDevice + Send>>,
) -> Status
    // `Usage` comes if and only if the words are outside the grammar. Shelf, outlet and the crew's
    // counts are then unchanged.
    ensures usage { (result ≡ Status.Usage) ↔ (command_of_words words.now ≡ None) }
    ensures refused { let old = world (S.shelf shelf.old) (O.outlet out.old) (C.counts crew.old) in
        let new = world (S.shelf shelf.new) (O.outlet out.new) (C.counts crew.new) in
        IfNone (command_of_words words.now) (new ≡ old) }
    // The headline: if `run` ends with `Done`, the written files are those of the reference run of
    // both machines.
    ensures headline { let devices = map ⟦<Box<dyn BusDevice + Send> as BusDevice>⟧.plug plugs.items in
        let old = world (S.shelf shelf.old) (O.outlet out.old) (C.counts crew.old) in
        let new = world (S.shelf shelf.new) (O.outlet out.new) (C.counts crew.new) in
        result ≡ Status.Done → Headline devices (command_of_words words.now) old new }
    // The theorem of the sound file, for `--wav` with `solo`, `run`, `resume` or `replay host` that
    // ends with `Done`. The file of that name is made from the sound writes of the host, of the
    // reference run or the replay, unless `--save` gives the same name.
    ensures sound { let devices = map ⟦<Box<dyn BusDevice + Send> as BusDevice>⟧.plug plugs.items in
        let old = world (S.shelf shelf.old) (O.outlet out.old) (C.counts crew.old) in
        let new = world (S.shelf shelf.new) (O.outlet out.new) (C.counts crew.new) in
        result ≡ Status.Done → SoundFile devices (command_of_words words.now) old new }
    // The theorems of sessions and of listings. If `resume` ends with `Done`, the written files are
    // those of the reference run of the session's machines. If `follow` does, they are the listing
    // of the machine's replay, and the text with its numbers was said.
    ensures gone { let devices = map ⟦<Box<dyn BusDevice + Send> as BusDevice>⟧.plug plugs.items in
        let old = world (S.shelf shelf.old) (O.outlet out.old) (C.counts crew.old) in
        let new = world (S.shelf shelf.new) (O.outlet out.new) (C.counts crew.new) in
        result ≡ Status.Done → ResumeAndFollow devices (command_of_words words.now) old new }
    // Each command is carried out, `run` as `solo` with a crew. No clause names an order of the
    // steps of the two threads.
    ensures ran { let devices = map ⟦<Box<dyn BusDevice + Send> as BusDevice>⟧.plug plugs.items in
        let old = world (S.shelf shelf.old) (O.outlet out.old) (C.counts crew.old) in
        let new = world (S.shelf shelf.new) (O.outlet out.new) (C.counts crew.new) in
        IfSome (command_of_words words.now) (λ c. EndsWith devices c old new result) }
{
    let Some(command) = command_of(words) else {
        return Status::Usage;
    };
    if command.is_paired() {
        status_of(paired(rt, alloc, command, plugs, shelf, out, crew))
    } else {
        status_of(single(alloc, command, plugs, shelf, out))
    }
}
