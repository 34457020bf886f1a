//! The words of `solo` and `run`.
ghost use Rattle.law_sessions.specs.Words.{WordsBegin};

/// The words of `solo` and `run`, with the files that they name, are the beginning of a run, if its
/// machines can be made.
pub fn words_begin()
    ensures { WordsBegin }
{}
