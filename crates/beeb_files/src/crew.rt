//! A crew, which works two jobs at a time.
ghost use Rattle.std.specs.Prelude.{◌≡◌, Bool, true, false, not, IsNone, IfSome, IfNone};
ghost use Rattle.beeb_files.specs.Counts.{Rose};
ghost use Rattle.beeb_files.specs.Crew.{Counts, Grows};

use crate::job::Job;
use std::snapshot::Snapshot;
use std::sync::Wait;
use std::sync::atomic::{AtomicBool, Ordering};
use std::thread;
use std::thread::{Promise, Threads};

/// Shows that `Crew::pair` calls a hook: nothing else makes a `Pairing`, so nothing else counts.
#[derive(Drop)]
pub struct Pairing {
    _made_here: (),
}

/// A crew, which works pairs of jobs, and counts the pairs and the faults. No count falls, and each
/// stays at its last value, 2^64 - 1.
///
/// A crew consists of its counts and its hooks. `pair`, which starts the thread, is the same for
/// every crew.
pub trait Crew {
    /// The counts of faults and of pairs worked.
    ghost counts: { Self → Counts };

    /// The crew refuses every pair before a thread is tried.
    ghost refuses: { Self → Bool };

    /// Returns true if a thread must be started for this pair. At `false` the pair is refused.
    fn starts(&mut self, call: &Pairing) -> bool
        ensures asked { result ≡ not (refuses self.old) }
        ensures refused { result ≡ false → Rose (counts self.old).faults (counts self.new).faults }
        ensures grows { Grows (counts self.old) (counts self.new) };

    /// Is called after a thread has taken the first job, and before the second job is worked.
    /// `ended` becomes true when the first has ended.
    fn between(&self, _call: &Pairing, _ended: &AtomicBool) {}

    /// Counts a thread that could not be started.
    fn count_fault(&mut self, call: &Pairing)
        ensures rose { Rose (counts self.old).faults (counts self.new).faults }
        ensures grows { Grows (counts self.old) (counts self.new) };

    /// Counts a pair that was worked.
    fn count_pair(&mut self, call: &Pairing)
        ensures rose { Rose (counts self.old).pairs (counts self.new).pairs }
        ensures grows { Grows (counts self.old) (counts self.new) };

    /// Works the first job in a thread of its own and the second in the caller's. Returns both
    /// results after both jobs have ended. Returns `None` if the pair was refused: both jobs were
    /// dropped unworked, and a fault was counted. Takes no memory from the caller.
    final fn pair<A: Job + Send, B: Job + Send, R: Threads + Wait + Sync>(
        &mut self,
        rt: &R,
        a: A,
        b: B,
    ) -> Option<(A::Done, B::Done)>
        requires first { A.may_work a }
        requires second { B.may_work b }
        ensures first { IfSome result (λ r. A.gives a r.0) }
        ensures second { IfSome result (λ r. B.gives b r.1) }
        ensures worked { IfSome result (λ _. Rose (counts self.old).pairs (counts self.new).pairs) }
        ensures refused { IfNone result (Rose (counts self.old).faults (counts self.new).faults) }
        ensures refusing { refuses self.old ≡ true → IsNone result }
        ensures grows { Grows (counts self.old) (counts self.new) }
    {
        let call = Pairing { _made_here: () };
        if !self.starts(&call) {
            return None;
        }
        match work_both(rt, &*self, &call, a, b) {
            Some(done) => {
                self.count_pair(&call);
                Some(done)
            }
            None => {
                self.count_fault(&call);
                None
            }
        }
    }
}

// The result of a thread fulfils the promise of its job.
#[derive(Drop)]
struct WorkOf<A: Job>(Snapshot<A>);

impl<A: Job> Promise<A::Done> for WorkOf<A> {
    ghost kept_by = { λ p r. A.gives p.0.value r };
}

// Works both jobs, each in its thread. Works neither if no thread can be started.
fn work_both<C: Crew, A: Job + Send, B: Job + Send, R: Threads + Wait + Sync>(
    rt: &R,
    crew: &C,
    call: &Pairing,
    a: A,
    b: B,
) -> Option<(A::Done, B::Done)>
    requires first { A.may_work a }
    requires second { B.may_work b }
    ensures first { IfSome result (λ r. A.gives a r.0) }
    ensures second { IfSome result (λ r. B.gives b r.1) }
{
    let ended = AtomicBool::new(false);
    let flag = &ended;
    thread::scope(
        thread::scope_env(),
        rt,
        move |scope| -> Option<(A::Done, B::Done)>
            requires { A.may_work a × B.may_work b }
            ensures { IfSome result (λ r. A.gives a r.0 × B.gives b r.1) }
        {
            let promise = WorkOf(Snapshot::of(&a));
            let first = move || -> A::Done
                requires { A.may_work a }
                ensures { A.gives a result }
            { work_and_tell(rt, a, flag) };
            match scope.spawn_with(promise, first) {
                Ok(child) => {
                    crew.between(call, flag);
                    let second = b.work(rt);
                    Some((child.join(rt), second))
                }
                Err(_) => None,
            }
        },
    )
}

// Works the job, and sets the flag after it has ended.
fn work_and_tell<A: Job, R: Wait>(rt: &R, a: A, ended: &AtomicBool) -> A::Done
    requires { A.may_work a }
    ensures { A.gives a result }
{
    let done = a.work(rt);
    ended.store(true, Ordering::SeqCst);
    done
}
