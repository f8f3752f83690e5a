//! What reads are told.

ghost use Rattle.std.specs.Prelude.{◌≡◌, IfOk, false};
ghost use Rattle.ss_bso.specs.Limits.{row_bytes};
ghost use Rattle.ss_bso.specs.Validity.{IsWithinLimits};
ghost use Rattle.ss_query.specs.Refused.{target_time};
ghost use Rattle.ss_query.specs.Effect.{is_write};
ghost use Rattle.ss_query.specs.Told.{info_body, per_collection, picked_rows};
ghost use Rattle.ss_query.specs.Api.{done_outcome};
ghost use Rattle.ss_account.specs.Steps.{list_reply, number_of};
ghost use Rattle.ss_account.specs.Kinds.{request_read};

use crate::infos::{Measure, by_name, per_collection};
use crate::kinds::ReadRequest;
use crate::state::State;
use crate::telling::{Page, page_of, posted, told_of};
use ss_bso::Times;
use ss_query::{Body, Info, Numbers, Query, Reply};
use ss_text::{Name, Stamp};
use std::alloc::{AllocError, Global};

impl State {
    /// What a read is told.
    pub(crate) fn read(
        &self,
        alloc: Global,
        request: ReadRequest<'_>,
        time: Stamp,
    ) -> Result<Reply, AllocError>
        requires time { time ≡ target_time self.now (request_read request) }
        requires quiet { is_write self.now (request_read request) ≡ false }
        requires limits { IsWithinLimits self.now }
        ensures { IfOk result (λ reply. reply ≡ (done_outcome self.now (request_read request.entry)).reply) }
    {
        let body = match request {
            ReadRequest::List { collection, query } => {
                return self.list(alloc, collection, query, time);
            }
            ReadRequest::Info(what) => self.info(alloc, what)?,
            ReadRequest::Get { collection, id } => match self.shelf.get(collection, id) {
                Some(row) => Body::One(row.copy(alloc)?),
                None => Body::Empty,
            },
            ReadRequest::Post { records, .. } => posted(time, told_of(alloc, records)?),
            ReadRequest::DeleteIds { .. } => Body::Gone(time),
        };
        Ok(Reply {
            status: 200,
            moment: self.moment,
            modified: Some(time),
            count: None,
            next: None,
            body,
        })
    }

    fn numbers(&self, alloc: Global, measure: Measure) -> Result<Numbers, AllocError>
        requires { IsWithinLimits self.now }
        ensures { IfOk result (λ numbers. numbers ≡ per_collection (number_of measure) self.now) }
    {
        let numbers = per_collection(alloc, &self.shelf, self.collections.as_slice(), measure)?;
        Ok(Numbers::new(numbers))
    }

    /// The payload bytes of all rows.
    fn used(&self) -> u64
        requires { IsWithinLimits self.now }
        ensures { result ≡ row_bytes self.now.rows }
    {
        self.shelf.total()
    }

    fn info(&self, alloc: Global, what: Info) -> Result<Body, AllocError>
        requires { IsWithinLimits self.now }
        ensures { IfOk result (λ body. body ≡ info_body self.now what) }
    {
        Ok(match what {
            Info::Collections => Body::Times(Times::new(by_name(
                alloc,
                self.collections.as_slice(),
            )?)),
            Info::Counts => Body::Counts(self.numbers(alloc, Measure::Records)?),
            Info::Usage => Body::Usage(self.numbers(alloc, Measure::Bytes)?),
            Info::Quota => Body::Quota { used: self.used() },
            Info::Configuration => Body::Limits,
        })
    }

    fn list(
        &self,
        alloc: Global,
        collection: &Name,
        query: &Query,
        time: Stamp,
    ) -> Result<Reply, AllocError>
        ensures { IfOk result (λ reply. reply ≡ list_reply self.now.moment time
            (picked_rows self.now collection.now query.now) query.now.full) }
    {
        let Page { body, count, next } = page_of(alloc, &self.shelf, collection, query)?;
        Ok(Reply {
            status: 200,
            moment: self.moment,
            modified: Some(time),
            count: Some(count),
            next,
            body,
        })
    }
}
