//! The test of a trace's answers by the chip.
ghost use Rattle.std.specs.Prelude.{◌≡◌, ◌<◌, ◌↔◌, length, All, IsNone, IfSome};
ghost use Rattle.tube_chip.specs.State.{power_on};
ghost use Rattle.tube_chip.specs.Events.{IsAnsweredFrom};
ghost use Rattle.tube_trace.specs.Entries.{IsEntry, events_of};
ghost use Rattle.tube_trace.specs.FirstWrong.{wrong, IsFirstWrong};

use crate::Entry;
use tube_chip::Chip;

/// Returns the index of the first entry whose answer the chip would not give, and the byte that it
/// would give. The entries are done in their order from power-on.
#[tactic(auto, unfolding(crate::specs::FirstWrong::wrong))]
pub fn first_wrong(entries: &[Entry]) -> Option<(usize, u8)>
    requires { All IsEntry entries.now }
    ensures value { result ≡ wrong entries.now }
    // In words: `None` if each answer is the chip's; otherwise the first index whose answer is not,
    // with the chip's byte.
    ensures none { IsNone result ↔ IsAnsweredFrom power_on (events_of entries.now) }
    ensures first { IfSome result (λ w. IsFirstWrong entries.now w.0 w.1) }
{
    let mut chip = Chip::new();
    for (place, entry) in entries.iter().enumerate() {
        let answer = chip.apply(entry.side, entry.op);
        if answer != entry.answer {
            return Some((place, answer));
        }
    }
    None
}
