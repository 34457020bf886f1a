//! A job: work that is done once.
use std::sync::Wait;

/// Work that is done once, in any thread.
pub trait Job: Drop {
    /// The result of the work.
    type Done: Drop + Send;

    /// The condition of working the job.
    ghost may_work: { Self → Type 0 };

    /// The promise of the job about its result.
    ghost gives: { Self → Self.Done → Type 0 };

    /// Does the work, which may wait for another thread. The promise holds if the call returns.
    fn work<R: Wait>(self, rt: &R) -> Self::Done
        requires { may_work self }
        ensures { gives self result };
}
