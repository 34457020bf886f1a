//! The names given for outputs.
ghost use Rattle.std.specs.Prelude.{◌≡◌};
ghost use Rattle.cmd_words.specs.View.{seen_given};
ghost use Rattle.cmd_outcome.specs.Names.{names_of};
ghost use Rattle.cmd_outcome.specs.View.{names_seen};

use cmd_words::Given;

/// The names of a command's outputs.
#[derive(Clone, Copy)]
pub struct Names<'a> {
    /// The name of all outputs without one of their own.
    pub out: &'a str,
    /// The name of the sound file, if given.
    pub wav: Option<&'a str>,
    /// The name of the session file, if given.
    pub save: Option<&'a str>,
}

impl<'a> Names<'a> {
    /// Makes the names from the options.
    pub fn of(out: &'a str, given: &Given<'a>) -> Names<'a>
        ensures { names_seen result ≡ names_of out.now (seen_given given.now) }
    {
        Names {
            out,
            wav: given.wav(),
            save: given.save(),
        }
    }
}
