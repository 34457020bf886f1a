//! The refusal that is reported.
ghost use Rattle.law_sessions.specs.Refusals.{RefusalsInOrder};

use cmd_machines::lengths_come_first;

/// If several causes hold at once, the status of a top call is that of the first of them in one
/// list: the words; each file that cannot be read or is too long; each image of a wrong length; the
/// trace, its clock, the script; a wrong answer; a difference. A fault of reading takes the place
/// of its file. A fault of a thread or of writing comes after all of them.
pub fn refusals_in_order()
    ensures { RefusalsInOrder }
{
    lengths_come_first();
}
