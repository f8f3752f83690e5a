//! The machine, and what it does with a response.

ghost use Rattle.std.specs.Prelude.{◌≡◌, true, false, not, ◌&&◌, ◌==◌, IfOk, OnErr};
ghost use Rattle.ss_hearing.specs.declared.answer.Answer.TheVariants.{Paged, Listed, Held, Written};
ghost use Rattle.ss_hearing.specs.Hearing.{answer_of};
ghost use Rattle.ss_client.specs.Runs.{first_run, is_newer};
ghost use Rattle.ss_client.specs.Asking.{ask, awaits};
ghost use Rattle.ss_client.specs.Machine.{Follows, limits_at, page_at, ids_at, held_at, written_at};
ghost use Rattle.ss_client.specs.Sound.{TellsOurs};
ghost use Rattle.ss_client.specs.Told.{next_of_step, leads_on, Says, CanSend, OnSend, OnWant, ComesNearer, TakesMemory};
ghost use Rattle.ss_client.specs.declared.runs.Stage.TheVariants.{Asks};

use crate::asking::asked;
use crate::fetching::{list_all, open_with, page_on};
use crate::runs::{Run, Stage, Times};
use crate::steps::Step;
use crate::summaries::{Fetch, Summary, SyncFault};
use crate::uploading::{hold, write};
use ss_device::Device;
use ss_hearing::{Answer, Awaited, Sheets, hear};
use ss_http::Heard;
use ss_plan::Limits;
use ss_query::{Info, Request};
use ss_text::{Cond, Ids, Stamp};
use std::alloc::{AllocError, Global};
use std::marker::Model;

/// A device's sync under way: what it is about to send, with what it knows. The device is as it was started.
#[derive(Drop)]
pub struct Machine {
    device: Device,
    run: Run,
    stage: Stage,
}

impl Model for Machine {
    ghost use Rattle.ss_client.specs.Runs.{MachineView};
    ghost use Rattle.ss_client.specs.Sound.{IsSound};
    ghost use Rattle.ss_client.specs.Bounds.{IsWithin};

    ghost Value = { MachineView };

    ghost view = { λ m. record { device = m.device; run = m.run; stage = m.stage } };

    ghost invariant = { λ m. IsSound m.run m.stage × IsWithin m.run m.stage };
}

/// What comes next: a request, the end with the device after the sync, or a stop with the device as it was started.
#[derive(Drop)]
pub enum Do {
    Send(Machine, Request),
    Done(Device, Summary),
    Stop(Device, SyncFault),
}

/// The limits come.
fn configured(run: Run, stage: Stage, limits: Limits) -> Step
    ensures { limits_at run stage limits (next_of_step result) }
{
    match stage {
        Stage::Asks => run.opening(limits),
        _ => run.unread(),
    }
}

/// A page comes.
#[tactic(auto, unfolding(crate::specs::Asking::awaits))]
fn paged(
    alloc: Global,
    device: &Device,
    run: Run,
    stage: Stage,
    rows: Sheets,
    offset: Option<u32>,
    time: Stamp,
) -> Result<Step, AllocError>
    ensures follows { IfOk result (λ step. page_at device.now run stage rows offset time (next_of_step step)) }
    ensures wanting { OnErr result (leads_on run stage (Paged rows offset time) ≡ true) }
{
    match stage {
        Stage::Opens => open_with(alloc, device, run, rows, offset, time),
        Stage::Pages(paging) => page_on(
            alloc,
            device,
            run,
            (paging.time, paging.pages + 1, paging.rows),
            rows,
            offset,
        ),
        _ => Ok(run.unread()),
    }
}

/// The ids come.
#[tactic(auto, unfolding(crate::specs::Asking::awaits))]
fn listed(
    alloc: Global,
    device: &Device,
    run: Run,
    stage: Stage,
    ids: &Ids,
) -> Result<Step, AllocError>
    ensures follows { IfOk result (λ step. ids_at device.now run stage ids.now (next_of_step step)) }
    ensures wanting { OnErr result (leads_on run stage (Listed ids.now) ≡ true) }
{
    match stage {
        Stage::Lists(listing) => list_all(alloc, device, run, listing, ids),
        _ => Ok(run.unread()),
    }
}

/// A POST is in a batch.
#[tactic(auto, unfolding(crate::specs::Asking::awaits))]
fn held(alloc: Global, run: Run, stage: Stage, batch: u64) -> Result<Step, AllocError>
    ensures follows { IfOk result (λ step. held_at run stage batch (next_of_step step)) }
    ensures wanting { OnErr result (leads_on run stage (Held batch) ≡ true) }
{
    match stage {
        Stage::Uploads(upload) => hold(alloc, run, upload, batch),
        _ => Ok(run.unread()),
    }
}

/// A POST is written.
#[tactic(auto, unfolding(crate::specs::Asking::awaits))]
fn written(alloc: Global, run: Run, stage: Stage, stamp: Stamp) -> Result<Step, AllocError>
    ensures follows { IfOk result (λ step. written_at run stage stamp (next_of_step step)) }
    ensures wanting { OnErr result (leads_on run stage (Written stamp) ≡ true) }
{
    match stage {
        Stage::Uploads(upload) => write(alloc, run, upload, stamp),
        _ => Ok(run.unread()),
    }
}

/// What a run does after an answer.
#[tactic(auto, unfolding(crate::specs::Machine::Follows))]
fn step(
    alloc: Global,
    device: &Device,
    run: Run,
    stage: Stage,
    answer: Answer,
) -> Result<Step, AllocError>
    ensures follows { IfOk result (λ step. Follows device.now run stage answer (next_of_step step)) }
    ensures wanting { OnErr result (leads_on run stage answer ≡ true) }
{
    match answer {
        Answer::Configured(limits) => Ok(configured(run, stage, limits)),
        Answer::Paged { rows, next, time } => paged(alloc, device, run, stage, rows, next, time),
        Answer::Listed(ids) => listed(alloc, device, run, stage, &ids),
        Answer::Held(batch) => held(alloc, run, stage, batch),
        Answer::Written(stamp) => written(alloc, run, stage, stamp),
        Answer::Failed { status, id } => Ok(Step::Stop(SyncFault::Refused {
            status,
            id: Some(id),
        })),
        Answer::Changed(time) => run.again(time),
        Answer::Refused(status) => Ok(Step::Stop(SyncFault::Refused { status, id: None })),
        Answer::Unread => Ok(run.unread()),
    }
}

impl Machine {
    /// Begins a sync of a device; the machine comes with its first request. It takes no memory.
    pub fn start(alloc: Global, device: Device, fetch: Fetch) -> (Machine, Request)
        ensures machine { result.0 ≡ record { device = device; run = first_run (is_newer device fetch); stage = Asks } }
        ensures request { result.1 ≡ ask result.0 }
        ensures sent { CanSend result.1 }
    {
        let newer = fetch == Fetch::Newer && device.stamp().get() != 0;
        let run = Run {
            newer,
            changes: Times::new(alloc),
            limits: Limits {
                max_request_bytes: 0,
                max_post_records: 0,
                max_post_bytes: 0,
                max_total_records: 0,
                max_total_bytes: 0,
                max_record_payload_bytes: 0,
            },
            number: 1,
            posts: 0,
            fetches: 0,
        };
        let machine = Machine {
            device,
            run,
            stage: Stage::Asks,
        };
        let request = Request::Info {
            what: Info::Configuration,
            cond: Cond::Free,
        };
        (machine, request)
    }

    /// What the machine does with an answer to its request: exactly what the definition has it do. A request that is
    /// sent can be written, and fewer may follow it than before, so a run ends. A stop for want of memory comes only
    /// where the run might go on or be done: never in place of a refusal, of a fourth change or of a bad reply that the
    /// answer itself is.
    pub fn hear(self, alloc: Global, answer: Answer) -> Do
        requires { TellsOurs answer }
        ensures says { Says self.device (Follows self.device self.run self.stage answer) result }
        ensures wanting { OnWant result (leads_on self.run self.stage answer ≡ true) }
        ensures sent { OnSend result CanSend }
        ensures nearer { ComesNearer self result }
    {
        let Machine { device, run, stage } = self;
        let (run, stage) = match step(alloc, &device, run, stage, answer) {
            Ok(Step::Send(run, stage)) => (run, stage),
            Ok(Step::Done(synced, summary)) => {
                return Do::Done(synced.into_device(alloc), summary);
            }
            Ok(Step::Stop(fault)) => return Do::Stop(device, fault),
            Err(AllocError) => return Do::Stop(device, SyncFault::Memory),
        };
        match asked(alloc, &device, &run, &stage) {
            Ok(request) => Do::Send(Machine { device, run, stage }, request),
            Err(AllocError) => Do::Stop(device, SyncFault::Memory),
        }
    }

    /// What the machine does with the response to its request: exactly what the definition has it do with the answer
    /// that the response is. A request that is sent can be written, and fewer may follow it than before, so a run ends.
    /// A stop for want of memory comes only where the response's body is read or the run might go on: never in place of
    /// another status than the awaited one, or of a fourth change.
    pub fn next(self, alloc: Global, heard: &Heard) -> Do
        ensures says { Says self.device (Follows self.device self.run self.stage
            (answer_of (awaits self.stage) heard.now)) result }
        ensures wanting { OnWant result (TakesMemory self heard.now.status (answer_of (awaits self.stage) heard.now)) }
        ensures sent { OnSend result CanSend }
        ensures nearer { ComesNearer self result }
    {
        match hear(alloc, self.stage.awaits(), heard) {
            Ok(answer) => self.hear(alloc, answer),
            Err(AllocError) => Do::Stop(self.device, SyncFault::Memory),
        }
    }

    /// What the machine asks; it can be written, and a server takes it.
    pub fn request(&self, alloc: Global) -> Result<Request, AllocError>
        ensures asked { IfOk result (λ request. request ≡ ask self.now) }
        ensures sent { IfOk result CanSend }
    {
        asked(alloc, &self.device, &self.run, &self.stage)
    }

    /// The kind of reply that the machine awaits.
    pub fn awaits(&self) -> Awaited
        ensures { result ≡ awaits self.now.stage }
    {
        self.stage.awaits()
    }

    /// The number of the request under way, from 1. This request can be written.
    pub fn number(&self) -> u64
        ensures number { result ≡ self.now.run.number }
        ensures sent { CanSend (ask self.now) }
    {
        self.run.number
    }

    /// The device as it was started. It takes no memory.
    pub fn give_up(self) -> Device
        ensures { result ≡ self.device }
    {
        self.device
    }

    /// The device as it was started.
    pub fn device(&self) -> &Device
        ensures { result.now ≡ self.now.device }
    {
        &self.device
    }
}
