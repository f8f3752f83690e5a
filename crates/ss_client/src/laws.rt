//! What can be said of all runs.

ghost use Rattle.std.specs.Prelude.{◌≡◌, Bool};
ghost use Rattle.ss_http.specs.declared.heard.Heard.{Heard};
ghost use Rattle.ss_query.specs.Fit.{IsFitRequest};
ghost use Rattle.ss_route.specs.Sending.{IsSentRequest};
ghost use Rattle.ss_hearing.specs.declared.answer.Awaited.{Awaited};
ghost use Rattle.ss_hearing.specs.declared.answer.Answer.{Answer};
ghost use Rattle.ss_hearing.specs.Hearing.{answer_of};
ghost use Rattle.ss_device.specs.Device.{DeviceView};
ghost use Rattle.ss_client.specs.declared.runs.Run.{Run};
ghost use Rattle.ss_client.specs.declared.runs.Stage.{Stage};
ghost use Rattle.ss_client.specs.declared.runs.Stage.TheVariants.{Asks};
ghost use Rattle.ss_client.specs.Runs.{MachineView, first_run};
ghost use Rattle.ss_client.specs.Asking.{ask};
ghost use Rattle.ss_client.specs.Machine.{Next, Follows};
ghost use Rattle.ss_client.specs.Sound.{IsSound, IsSoundNext, TellsOurs};

/// Each request of a machine is one that is written: from the first one on, whatever the answers are, a machine's run
/// is sound (its limits are no greater than ours, and its POST is within the limits of one), and what a sound machine
/// asks is among the requests that a client writes, and fit.
pub fn requests_can_be_sent()
    ensures first { (newer : Bool) → IsSound (first_run newer) Asks }
    ensures heard { (awaited : Awaited) (heard : Heard) → TellsOurs (answer_of awaited heard) }
    ensures kept { (device : DeviceView) (run : Run) (stage : Stage) (answer : Answer) (next : Next) → IsSound run stage
        → TellsOurs answer → Follows device run stage answer next → IsSoundNext next }
    ensures sent { (machine : MachineView) → IsSound machine.run machine.stage → IsSentRequest (ask machine)
        × IsFitRequest (ask machine) }
{}
