//! Runs: their requests are within what a server reads, and their exchanges are a run of a world.

ghost use Rattle.std.specs.Prelude.{ℕ, Bool, List};
ghost use Rattle.ss_http.specs.declared.heard.Heard.{Heard};
ghost use Rattle.ss_route.specs.declared.manner.Manner.{Manner};
ghost use Rattle.ss_route.specs.Sending.{IsReadable};
ghost use Rattle.ss_hearing.specs.declared.answer.Answer.{Answer};
ghost use Rattle.ss_hearing.specs.declared.answer.Awaited.{Awaited};
ghost use Rattle.ss_hearing.specs.Hearing.{answer_of};
ghost use Rattle.ss_device.specs.Device.{DeviceView};
ghost use Rattle.ss_client.specs.declared.runs.Run.{Run};
ghost use Rattle.ss_client.specs.declared.runs.Stage.{Stage};
ghost use Rattle.ss_client.specs.declared.runs.Stage.TheVariants.{Asks};
ghost use Rattle.ss_client.specs.Asking.{ask, awaits};
ghost use Rattle.ss_client.specs.Machine.{Follows, Next, Send};
ghost use Rattle.ss_client.specs.Runs.{MachineView, first_run};
ghost use Rattle.ss_client.specs.Sound.{IsSound};
ghost use Rattle.ss_world.specs.Happening.{Runs, Step};
ghost use Rattle.ss_world.specs.Reaching.{IsReachedWorld};
ghost use Rattle.ss_world.specs.Worlds.{WorldView};
ghost use Rattle.ss_promises.specs.Courses.{AreReady, AreTurns};
ghost use Rattle.ss_promises.specs.Exchanges.{Address, IsAddress};
ghost use Rattle.ss_promises.specs.Readable.{IsReadableNext, IsReadableRun, TellsReadable};

use crate::exchanges::exchanges_are_deliveries;
use ss_client::requests_can_be_sent;

/// Each request of a run can be read by a server: from the first one on, whatever is heard, a POST's body is within one
/// message, an offset has at most 9 digits, and a batch's number is one that is given out.
pub fn requests_stay_readable()
    ensures first { (newer : Bool) → IsReadableRun (first_run newer) Asks }
    ensures heard { (awaited : Awaited) (heard : Heard) → TellsReadable (answer_of awaited heard) }
    ensures kept { (device : DeviceView) (run : Run) (stage : Stage) (answer : Answer) (next : Next)
        → IsReadableRun run stage → TellsReadable answer → Follows device run stage answer next → IsReadableNext next }
    ensures sent { (machine : MachineView) → IsReadableRun machine.run machine.stage → IsReadable (ask machine) }
{}

/// From its first request on, whatever is heard, a machine can send its requests, and a server can read them.
pub fn machines_stay_ready()
    ensures starts { (newer : Bool) → IsSound (first_run newer) Asks × IsReadableRun (first_run newer) Asks }
    ensures goes_on { (machine : MachineView) (heard : Heard) (run : Run) (stage : Stage)
        → IsSound machine.run machine.stage → IsReadableRun machine.run machine.stage
        → Follows machine.device machine.run machine.stage (answer_of (awaits machine.stage) heard) (Send run stage)
        → IsSound run stage × IsReadableRun run stage }
{
    requests_can_be_sent();
    requests_stay_readable();
}

/// So it is of each machine of a world that was reached: it can send its request, and a server can read it.
pub fn machines_of_worlds_are_ready()
    ensures { (trusts : ℕ → Bool) (world : WorldView) → IsReachedWorld trusts world → AreReady world }
{}

/// Exchanges in bytes, of however many devices with servers of one account, and whatever else happens between them, are
/// a run of the world of this account and these devices, where each machine that is there at the beginning is ready. So
/// all that is promised of such runs is promised of them.
pub fn exchanges_are_runs()
    ensures { (manner : Manner) (address : Address) (world : WorldView) (steps : List Step) → IsAddress address
        → AreReady world → AreTurns manner address world steps → Runs world steps }
{
    exchanges_are_deliveries();
}
