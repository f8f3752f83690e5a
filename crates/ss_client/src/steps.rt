//! What comes next in a run.

ghost use Rattle.std.specs.Prelude.{◌≡◌, true, length, nat_lt, IfOk, OnErr};
ghost use Rattle.ss_client.specs.Machine.{count_after_one, onward, posting, fetching, unread, again, falls_back};
ghost use Rattle.ss_client.specs.Told.{next_of_step};

use crate::runs::{Run, Stage, Upload};
use crate::summaries::{Summary, SyncFault};
use crate::synced::Synced;
use ss_plan::Limits;
use ss_text::Stamp;
use std::alloc::AllocError;

/// A request, the end, or a stop.
#[derive(Drop)]
pub(crate) enum Step {
    Send(Run, Stage),
    Done(Synced, Summary),
    Stop(SyncFault),
}

/// One more; a count stands still at its type's end.
fn counted(count: u64) -> u64
    ensures { result ≡ count_after_one count }
{
    count.saturating_add(1)
}

impl Run {
    /// Goes on with a further request.
    pub(crate) fn onward(self, stage: Stage) -> Step
        ensures { next_of_step result ≡ onward self stage }
    {
        Step::Send(
            Run {
                newer: self.newer,
                changes: self.changes,
                limits: self.limits,
                number: counted(self.number),
                posts: self.posts,
                fetches: self.fetches,
            },
            stage,
        )
    }

    /// Goes on with a POST.
    pub(crate) fn posting(self, upload: Upload) -> Step
        ensures { next_of_step result ≡ posting self upload }
    {
        Step::Send(
            Run {
                newer: self.newer,
                changes: self.changes,
                limits: self.limits,
                number: counted(self.number),
                posts: counted(self.posts),
                fetches: self.fetches,
            },
            Stage::Uploads(upload),
        )
    }

    /// Begins the first fetch, with the server's limits.
    pub(crate) fn opening(self, limits: Limits) -> Step
        ensures { next_of_step result ≡ fetching self self.newer self.changes limits }
    {
        Step::Send(
            Run {
                newer: self.newer,
                changes: self.changes,
                limits,
                number: counted(self.number),
                posts: self.posts,
                fetches: counted(self.fetches),
            },
            Stage::Opens,
        )
    }

    /// Begins the whole fetch in place of the newer one.
    pub(crate) fn falling_back(self) -> Step
        ensures { next_of_step result ≡ falls_back self }
    {
        Step::Send(
            Run {
                newer: false,
                changes: self.changes,
                limits: self.limits,
                number: counted(self.number),
                posts: self.posts,
                fetches: counted(self.fetches),
            },
            Stage::Opens,
        )
    }

    /// Stops since a reply isn't in form.
    pub(crate) fn unread(self) -> Step
        ensures { next_of_step result ≡ unread self }
    {
        Step::Stop(SyncFault::BadReply {
            number: self.number,
        })
    }

    /// Begins the fetch again, since something has changed; the fourth time it stops.
    pub(crate) fn again(self, time: Stamp) -> Result<Step, AllocError>
        ensures follows { IfOk result (λ step. next_of_step step ≡ again self time) }
        ensures wanting { OnErr result (nat_lt (length self.changes) 3 ≡ true) }
    {
        if let [first, second, third, ..] = self.changes.as_slice() {
            return Ok(Step::Stop(SyncFault::Changing {
                first: *first,
                second: *second,
                third: *third,
                fourth: time,
            }));
        }
        Ok(Step::Send(
            Run {
                newer: self.newer,
                changes: self.changes.and(time)?,
                limits: self.limits,
                number: counted(self.number),
                posts: self.posts,
                fetches: counted(self.fetches),
            },
            Stage::Opens,
        ))
    }
}
