//! The commands.
ghost use Rattle.std.specs.Prelude.{◌≡◌};
ghost use Rattle.cmd_words.specs.Command.{is_paired};
ghost use Rattle.cmd_words.specs.View.{seen_command};

use crate::given::Given;
use beeb_bits::Side;
use op_table::Part;

/// A command, with the words that spell it.
#[derive(Clone, Copy)]
pub enum Command<'a> {
    /// `check TRACE`
    Check {
        trace: &'a str,
    },
    /// `asm PART SOURCE OUT`
    Asm {
        part: Part,
        source: &'a str,
        out: &'a str,
    },
    /// `dis PART IMAGE ORIGIN OUT`
    Dis {
        part: Part,
        image: &'a str,
        origin: u16,
        out: &'a str,
    },
    /// `replay SIDE TRACE TICKS OUT` and options
    Replay {
        side: Side,
        trace: &'a str,
        ticks: u64,
        out: &'a str,
        given: Given<'a>,
    },
    /// `solo TICKS OUT` and options, with the number of accesses to keep
    Solo {
        ticks: u64,
        out: &'a str,
        keep: u32,
        given: Given<'a>,
    },
    /// `run TICKS OUT` and options, with the number of accesses to keep
    Run {
        ticks: u64,
        out: &'a str,
        keep: u32,
        given: Given<'a>,
    },
    /// `resume STATE TICKS OUT` and options, with the number of accesses to keep
    Resume {
        state: &'a str,
        ticks: u64,
        out: &'a str,
        keep: u32,
        given: Given<'a>,
    },
    /// `follow SIDE TRACE TICKS OUT` and options
    Follow {
        side: Side,
        trace: &'a str,
        ticks: u64,
        out: &'a str,
        given: Given<'a>,
    },
    /// `gen SEED`
    Gen {
        seed: u64,
    },
}

impl<'a> Command<'a> {
    /// Returns true if a crew works a pair of jobs for the command.
    pub fn is_paired(&self) -> bool
        ensures { result ≡ is_paired (seen_command self.now) }
    {
        matches!(self, Command::Run { .. })
    }
}
