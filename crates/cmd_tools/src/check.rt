//! `check TRACE`.
ghost use Rattle.std.specs.Prelude.{◌≡◌, All, IfOk};
ghost use Rattle.tube_trace.specs.Entries.{IsEntry};
ghost use Rattle.tube_trace.specs.FirstWrong.{wrong};
ghost use Rattle.cmd_stages.specs.View.{Gives};
ghost use Rattle.cmd_outcome.specs.View.{verdict_of};
ghost use Rattle.cmd_tools.specs.Check.{check_after, check_verdict, ok_text};

use bus_plug::BusDevice;
use cmd_outcome::{Outcome, said_outcome, trace_of, wrong_outcome};
use cmd_stages::Refusal;
use cmd_status::{Cause, Ending};
use std::alloc::{AllocError, Global};
use tube_trace::{Entry, first_wrong};

#[tactic(auto, unfolding(crate::specs::Check::ok_text))]
fn ok_text(alloc: Global, n: usize) -> Result<Vec<u8>, AllocError>
    ensures { IfOk result (λ v. v.items ≡ ok_text n) }
{
    let text = format!(in alloc; "ok {n}\n")?;
    text.as_bytes().to_vec(alloc)
}

// Makes the outcome of comparing the entries with the chip.
fn judged<'a, D: BusDevice>(alloc: Global, entries: &[Entry]) -> Result<Outcome<'a, D>, AllocError>
    requires { All IsEntry entries.now }
    ensures { IfOk result (λ outcome. verdict_of D.plug outcome ≡ check_verdict entries.now (wrong entries.now)) }
{
    match first_wrong(entries) {
        None => {
            let text = ok_text(alloc, entries.len())?;
            Ok(said_outcome(alloc, Ending::Done, text))
        }
        Some((i, byte)) => wrong_outcome(alloc, i as u64 + 1, byte),
    }
}

/// Makes the outcome of checking the bytes of a trace.
#[tactic(auto, unfolding(crate::specs::Check::check_after))]
pub fn check_outcome<'a, D: BusDevice>(
    alloc: Global,
    bytes: &[u8],
) -> Result<Outcome<'a, D>, Refusal<Cause>>
    ensures told { Gives (verdict_of D.plug) result (check_after bytes.now) }
{
    let trace = trace_of(alloc, bytes)?;
    Ok(judged(alloc, &trace.entries)?)
}
