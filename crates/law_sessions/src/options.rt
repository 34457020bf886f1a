//! Where options may be among the arguments, and what those for outputs change.
ghost use Rattle.law_sessions.specs.Arguments.{OptionsMove};
ghost use Rattle.law_sessions.specs.OutputOptions.{OutputOptions};

use cmd_words::options_stand_anywhere;

/// An option with its value, or a flag, may be anywhere after the command word. The arguments are a
/// list of items: positional arguments, options with their values, and flags.
pub fn options_move()
    ensures { OptionsMove }
{
    options_stand_anywhere();
}

/// `--wav` and `--save` add one file each. `--keep` changes the report and the trace of a run, and
/// the trace of fewer accesses is the beginning of the trace of more. `--from` leaves out of a
/// listing the starts before its tick.
pub fn output_options()
    ensures { OutputOptions }
{}
