//! Writing the outcome of a command, in order.
ghost use Rattle.std.specs.Prelude.{◌≡◌, map};
ghost use Rattle.beeb_files.specs.Outlet.{NoCountFell};
ghost use Rattle.cmd_stages.specs.View.{verdict_of};
ghost use Rattle.cmd_stages.specs.Stages.{PutsOne, PutsAll, Says, Writes};

use crate::name::Name;
use crate::outcome::{Leaves, Outcome};
use crate::stop::Stop;
use beeb_files::{Outlet, PutError};
use std::alloc::Global;

// Puts one file.
fn put<C: Drop, O: Outlet>(
    alloc: Global,
    name: &str,
    bytes: &[u8],
    out: &mut O,
) -> Result<(), Stop<C>>
    ensures puts { PutsOne name.now bytes.now (O.outlet out.old) (O.outlet out.new) result }
    ensures counts { NoCountFell (O.outlet out.old) (O.outlet out.new) }
{
    match out.put(name, bytes) {
        Ok(()) => Ok(()),
        Err(PutError::Failed) => Err(Stop::WriteFault(Name::of(alloc, name)?)),
        Err(PutError::NoMemory) => Err(Stop::NoMemory),
    }
}

// Puts the files of the outputs in order, and makes each just before it is written.
fn put_all<C: Drop, L: Leaves, O: Outlet>(
    alloc: Global,
    left: &L,
    outputs: &[L::Output],
    out: &mut O,
) -> Result<(), Stop<C>>
    ensures puts { PutsAll (map (L.file_of left.now) outputs.now) (O.outlet out.old) (O.outlet out.new) result }
    ensures counts { NoCountFell (O.outlet out.old) (O.outlet out.new) }
{
    for output in outputs {
        let (name, bytes) = left.file(alloc, *output)?;
        put(alloc, name.as_str(), bytes.as_slice(), out)?;
    }
    Ok(())
}

// Says the text, if there is one.
fn say<C: Drop, O: Outlet>(alloc: Global, text: &[u8], out: &mut O) -> Result<(), Stop<C>>
    ensures says { Says text.now (O.outlet out.old) (O.outlet out.new) result }
    ensures counts { NoCountFell (O.outlet out.old) (O.outlet out.new) }
{
    if text.is_empty() {
        return Ok(());
    }
    match out.say(text) {
        Ok(()) => Ok(()),
        Err(PutError::Failed) => Err(Stop::WriteFault(Name::of(alloc, "-")?)),
        Err(PutError::NoMemory) => Err(Stop::NoMemory),
    }
}

/// Puts the files of the outputs, says the text, and returns the ending of the command.
pub fn write_outcome<C: Drop, E: Drop, L: Leaves, O: Outlet>(
    alloc: Global,
    outcome: Outcome<E, L::Output, L>,
    out: &mut O,
) -> Result<E, Stop<C>>
    ensures writes { Writes (verdict_of L.file_of outcome) (O.outlet out.old) (O.outlet out.new) result }
    ensures counts { NoCountFell (O.outlet out.old) (O.outlet out.new) }
{
    let Outcome {
        ending,
        outputs,
        said,
        left,
    } = outcome;
    put_all(alloc, &left, &outputs, out)?;
    say(alloc, &said, out)?;
    Ok(ending)
}
