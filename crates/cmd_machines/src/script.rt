//! The key script of a command.
ghost use Rattle.std.specs.Prelude.{◌≡◌, List, option_map};
ghost use Rattle.key_script.specs.declared.Event.{Event};
ghost use Rattle.cmd_stages.specs.View.{Gives};
ghost use Rattle.cmd_machines.specs.Script.{script_refusal, script_of};
ghost use Rattle.cmd_machines.specs.View.{items};

use cmd_stages::Refusal;
use cmd_status::Cause;
use key_script::{Script, ScriptError, read};
use std::alloc::Global;

// Returns the refusal for an error in a script.
fn script_refusal(error: ScriptError) -> Refusal<Cause>
    ensures { result ≡ script_refusal error }
{
    match error {
        ScriptError::BadLine { line } => Refusal::Cause(Cause::BadScript { line, kind: 1 }),
        ScriptError::BadOrder { line } => Refusal::Cause(Cause::BadScript { line, kind: 2 }),
        ScriptError::TooManyShots { line } => Refusal::Cause(Cause::BadScript { line, kind: 3 }),
        ScriptError::NoMemory => Refusal::NoMemory,
    }
}

/// Returns the script of the bytes. Returns an empty script if there are none.
#[tactic(auto, unfolding(crate::specs::Script::script_of))]
pub fn script_of(alloc: Global, bytes: Option<Vec<u8>>) -> Result<Script, Refusal<Cause>>
    ensures { Gives (λ (events : List Event). events) result (script_of (option_map items bytes)) }
{
    let Some(bytes) = bytes else {
        return Ok(Script::make(Vec::new(alloc)));
    };
    read(alloc, &bytes).map_err(script_refusal)
}
