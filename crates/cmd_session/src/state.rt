//! The session file that a command reads.
ghost use Rattle.std.specs.Prelude.{IfOk};
ghost use Rattle.save_state.specs.Saved.{session};
ghost use Rattle.save_state.specs.File.{IsSession};
ghost use Rattle.cmd_stages.specs.View.{Gives};
ghost use Rattle.cmd_session.specs.Session.{state_of};

use cmd_stages::Refusal;
use cmd_status::Cause;
use save_state::{Saved, StateError, decode};
use std::alloc::Global;

/// Returns the session in a file.
#[tactic(auto, unfolding(crate::specs::Session::state_of))]
pub(crate) fn state_of(alloc: Global, bytes: &[u8]) -> Result<Saved, Refusal<Cause>>
    ensures told { Gives session result (state_of bytes.now) }
    ensures keeps { IfOk result (λ s. IsSession (session s)) }
{
    match decode(alloc, bytes) {
        Ok(saved) => Ok(saved),
        Err(StateError::BadField { at }) => Err(Refusal::Cause(Cause::BadState { at })),
        Err(StateError::NoMemory) => Err(Refusal::NoMemory),
    }
}
