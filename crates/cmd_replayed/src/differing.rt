//! The text of the place where a machine differs from a trace.
ghost use Rattle.std.specs.Prelude.{◌≡◌, ◌++◌, IfOk};
ghost use Rattle.cmd_status.specs.declared.status.Ending.TheVariants.{Differs};
ghost use Rattle.cmd_outcome.specs.Verdicts.{said_verdict};
ghost use Rattle.cmd_outcome.specs.View.{verdict_of};
ghost use Rattle.cmd_replayed.specs.Replay.{doing_text, differs_text};

use bus_plug::BusDevice;
use cmd_outcome::{Outcome, said_outcome};
use cmd_status::Ending;
use std::alloc::{AllocError, Global};
use tube_party::Doing;
use tube_trace::push_access;

// Appends the access of a machine at a place.
#[tactic(auto, unfolding(crate::specs::Replay::doing_text))]
fn push_doing(text: &mut Vec<u8>, doing: Option<Doing>) -> Result<(), AllocError>
    ensures { IfOk result (λ _. text.new.items ≡ text.old.items ++ doing_text doing) }
{
    match doing {
        None => text.push(b'-')?,
        Some(doing) => push_access(text, doing.tick, doing.side, doing.op)?,
    }
    Ok(())
}

// Makes the text of a place.
#[tactic(auto, unfolding(crate::specs::Replay::differs_text))]
fn differs_text(alloc: Global, line: u64, doing: Option<Doing>) -> Result<Vec<u8>, AllocError>
    ensures { IfOk result (λ v. v.items ≡ differs_text line doing) }
{
    let front = format!(in alloc; "differs {line} ")?;
    let mut text = front.as_bytes().to_vec(alloc)?;
    push_doing(&mut text, doing)?;
    text.push(b'\n')?;
    Ok(text)
}

/// Makes the outcome of a machine that differs from a trace.
pub fn differs_outcome<'a, D: BusDevice>(
    alloc: Global,
    line: u64,
    doing: Option<Doing>,
) -> Result<Outcome<'a, D>, AllocError>
    ensures { let there = said_verdict (Differs line doing) (differs_text line doing) in
        IfOk result (λ outcome. verdict_of D.plug outcome ≡ there) }
{
    let text = differs_text(alloc, line, doing)?;
    Ok(said_outcome(alloc, Ending::Differs { line, doing }, text))
}
