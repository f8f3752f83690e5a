//! What is promised of every run of a world.

ghost use Rattle.std.specs.Prelude.{◌≡◌, ℕ, List, [], ◌∷◌, ◌++◌, slice_get, Some, Bool, true};
ghost use Rattle.ss_record.specs.declared.readings.Sheet.{Sheet};
ghost use Rattle.ss_tree.specs.Trees.{PlacedItem, IsValidTree};
ghost use Rattle.ss_build.specs.Rows.{rows_of};
ghost use Rattle.ss_build.specs.Stand.{IsSameUntimed, StandFor};
ghost use Rattle.ss_bso.specs.Changes.{fresh_kept, account_at_opening};
ghost use Rattle.ss_bso.specs.Validity.{SameAccount};
ghost use Rattle.ss_query.specs.Api.{api};
ghost use Rattle.ss_hearing.specs.declared.answer.Answer.{Answer};
ghost use Rattle.ss_device.specs.Device.{DeviceView, IsDevice};
ghost use Rattle.ss_client.specs.declared.runs.Run.{Run};
ghost use Rattle.ss_client.specs.declared.runs.Stage.{Stage};
ghost use Rattle.ss_client.specs.Machine.{Follows, Next};
ghost use Rattle.ss_client.specs.Runs.{MachineView};
ghost use Rattle.ss_client.specs.Asking.{ask, awaits};
ghost use Rattle.ss_serving.specs.Bookmarks.{Server, sheets_of};
ghost use Rattle.ss_serving.specs.Asking.{told_by};
ghost use Rattle.ss_world.specs.declared.events.Event.{Event};
ghost use Rattle.ss_world.specs.declared.events.Event.TheVariants.{Deliver, LoseRequest, Anew, Reopen};
ghost use Rattle.ss_world.specs.Ending.{GoesOnForEver, IsAwaitedAnswer, IsDoneOrPlanned, ComesBelow, rank};
ghost use Rattle.ss_world.specs.Seats.{device_of};
ghost use Rattle.ss_world.specs.Worlds.{Seat, Idle, Syncs, WorldView};
ghost use Rattle.ss_world.specs.Happening.{Happens, Delivers, Step, Runs, last};
ghost use Rattle.ss_world.specs.Reaching.{IsOpenable};
ghost use Rattle.ss_world.specs.Promises.{AreAll, AreTrustedSteps, EndsWell, IsFaithful, IsOpening, IsLastUpload};
ghost use Rattle.ss_world.specs.Promises.{OneTree};
ghost use Rattle.ss_world.specs.Promises.{StandsForOne, fetched_at, first_rows};

/// One tree: after every run from an opening the bookmarks stand for a valid tree, and for no other one. Each event
/// leaves them, or it is the last POST of an upload that comes to the account, and they stand for the merged tree then,
/// whole.
pub fn bookmarks_are_one_tree()
    ensures stands { (trusts : ℕ → Bool) (w : WorldView) (steps : List Step) → IsOpening trusts w → Runs w steps
        → AreTrustedSteps trusts steps
        → StandsForOne (sheets_of (last w steps).server.account.rows) }
    ensures only { (trusts : ℕ → Bool) (w : WorldView) (steps : List Step) → IsOpening trusts w → Runs w steps
        → AreTrustedSteps trusts steps
        → (t u : List PlacedItem) → IsValidTree t → IsValidTree u → StandFor t
        (rows_of (sheets_of (last w steps).server.account.rows))
        → StandFor u (rows_of (sheets_of (last w steps).server.account.rows)) → IsSameUntimed t u }
    ensures turns { (trusts : ℕ → Bool) (w : WorldView) (steps : List Step) (event : Event) (v : WorldView)
        → IsOpening trusts w → Runs w steps
        → AreTrustedSteps trusts steps → Happens (last w steps) event v → OneTree (last w steps) event v }
{}

/// A fetch: the rows of a finished fetch are all bookmarks that were there at its first page, and are there at its
/// last.
pub fn fetches_are_whole()
    ensures { (trusts : ℕ → Bool) (w : WorldView) (steps : List Step) (n now : ℕ) (m : MachineView) (v : WorldView)
        (rows : List Sheet) → IsOpening trusts w
        → Runs w steps → AreTrustedSteps trusts steps → slice_get (last w steps).seats n ≡ Some (Syncs m)
        → Happens (last w steps) (Deliver n now) v
        → fetched_at m (told_by (awaits m.stage) (api (last w steps).server.account now (ask m)).reply) m.stage
        ≡ Some rows
        → AreAll rows (sheets_of v.server.account.rows)
        × (first_rows n w (steps ++ record { event = Deliver n now; world = v } ∷ []) []
        ≡ sheets_of v.server.account.rows) }
{}

/// Replies are understood: no machine of a world stops since it doesn't understand a reply, or since a record failed;
/// and after a sync that is done the device is valid and faithful, and the bookmarks stand for its tree, the merged
/// one. Where the reply has the awaited status the run goes on, is done, or stops since its plan is beyond the server's
/// limits.
pub fn replies_are_understood()
    ensures ends { (trusts : ℕ → Bool) (w : WorldView) (steps : List Step) (n now : ℕ) (m : MachineView) (v : WorldView)
        → IsOpening trusts w → Runs w steps
        → AreTrustedSteps trusts steps → slice_get (last w steps).seats n ≡ Some (Syncs m)
        → (e : Delivers (last w steps) n now m v)
        → EndsWell (last w steps) m e.next v }
    ensures awaited { (trusts : ℕ → Bool) (w : WorldView) (steps : List Step) (n now : ℕ) (m : MachineView)
        (v : WorldView) → IsOpening trusts w → Runs w steps
        → AreTrustedSteps trusts steps → slice_get (last w steps).seats n ≡ Some (Syncs m)
        → (e : Delivers (last w steps) n now m v)
        → IsAwaitedAnswer (told_by (awaits m.stage) (api (last w steps).server.account now (ask m)).reply)
        → IsDoneOrPlanned e.next }
{}

/// A machine that gets the awaited status each time ends: each such answer ends its run, or leads nearer to its end;
/// and so no run goes on for ever.
pub fn machines_end()
    ensures nears { (device : DeviceView) (run : Run) (stage : Stage) (answer : Answer) (next : Next) → IsAwaitedAnswer answer
        → Follows device run stage answer next
        → ComesBelow (rank run.newer stage) next }
    ensures ends { (device : DeviceView) → GoesOnForEver device → ⊥ }
{}

/// Every device of a world is valid, and a trusted one faithful: the bookmarks that are no newer than its last sync are
/// rows of its mirror.
pub fn devices_stay_faithful()
    ensures { (trusts : ℕ → Bool) (w : WorldView) (steps : List Step) (n : ℕ) (s : Seat) → IsOpening trusts w
        → Runs w steps → AreTrustedSteps trusts steps
        → slice_get (last w steps).seats n ≡ Some s
        → IsDevice (device_of s) × (trusts n ≡ true → IsFaithful (device_of s) (last w steps).server) }
{}

/// Interruption: an event that is no last POST leaves the bookmarks; a lost request and a new start leave the account,
/// and where the server is started anew the machines stand, and so do the batches that the keeper tells.
pub fn interruptions_leave_the_tree()
    ensures quiet { (trusts : ℕ → Bool) (w : WorldView) (steps : List Step) (event : Event) (v : WorldView)
        → IsOpening trusts w → Runs w steps
        → AreTrustedSteps trusts steps → Happens (last w steps) event v → (IsLastUpload (last w steps) event v → ⊥)
        → sheets_of v.server.account.rows ≡ sheets_of (last w steps).server.account.rows }
    ensures lost { (w v : WorldView) (n : ℕ) → Happens w (LoseRequest n) v → v.server ≡ w.server }
    ensures anew { (w v : WorldView) (n : ℕ) → Happens w (Anew n) v → v.server ≡ w.server }
    ensures reopened { (w v : WorldView) → Happens w Reopen v → (v.seats ≡ w.seats) × (v.server.kept ≡ w.server.kept) }
{}

/// A fresh account with devices that were never synced meets the premises on a world that was opened, whichever devices
/// are trusted: nothing is there, which stands for the four empty roots. So every list of events keeps what is promised
/// from there on.
pub fn fresh_worlds_can_be_opened()
    ensures { (trusts : ℕ → Bool) (w : WorldView) → SameAccount (account_at_opening fresh_kept) w.server.account
        → ((n : ℕ) (d : DeviceView) → slice_get w.seats n ≡ Some (Idle d) → d.stamp ≡ 0) → IsOpenable trusts w }
{}
