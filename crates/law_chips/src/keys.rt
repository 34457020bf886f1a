//! Key scripts and the keyboard.
ghost use Rattle.law_chips.specs.Typing.{ScriptIsTyped};

/// The keys that a key script holds down at a tick are those that its events up to that tick leave
/// down, applied in order.
pub fn a_script_is_its_keys_set_in_turn()
    ensures { ScriptIsTyped }
{}
