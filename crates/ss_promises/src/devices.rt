//! Devices while others ask too, and while the server is started anew.

ghost use Rattle.std.specs.Prelude.{◌≡◌, ℕ, slice_get, Some, Bool, true};
ghost use Rattle.ss_bso.specs.declared.account.Staged.{Staged};
ghost use Rattle.ss_bso.specs.Account.{is_open};
ghost use Rattle.ss_bso.specs.Batches.{batch_in};
ghost use Rattle.ss_bso.specs.Validity.{IsValid};
ghost use Rattle.ss_query.specs.declared.requests.Request.{Request};
ghost use Rattle.ss_device.specs.Device.{DeviceView};
ghost use Rattle.ss_client.specs.declared.runs.Stage.TheVariants.{Uploads};
ghost use Rattle.ss_client.specs.Leaves.{UploadView};
ghost use Rattle.ss_client.specs.Runs.{MachineView, sent_of};
ghost use Rattle.ss_serving.specs.Bookmarks.{Server, bookmarks, shown_by};
ghost use Rattle.ss_serving.specs.Good.{IsSteady};
ghost use Rattle.ss_serving.specs.Serving.{Ages};
ghost use Rattle.ss_serving.specs.Steps.{Answers, Reopens, Ticks};
ghost use Rattle.ss_world.specs.declared.events.Event.TheVariants.{Reopen};
ghost use Rattle.ss_world.specs.declared.seats.Seat.TheVariants.{Syncs};
ghost use Rattle.ss_world.specs.Happening.{Happens};
ghost use Rattle.ss_world.specs.Promises.{IsFaithful};
ghost use Rattle.ss_world.specs.Reaching.{IsReachedWorld};
ghost use Rattle.ss_world.specs.Worlds.{WorldView};

/// A faithful device stays faithful, whoever asks whatever of the account, also one who writes or deletes bookmarks,
/// and whatever the clock reads: a bookmark that wasn't there before, or not so, is later than the store's time was. Of
/// a steady account it stays so where the account is opened anew.
pub fn devices_stay_faithful_to_all()
    ensures ages { (before after : Server) (now : ℕ) (request : Request) → IsValid before.account
        → Answers before now request after → Ages (shown_by before) (shown_by after) }
    ensures asked { (device : DeviceView) (before after : Server) (now : ℕ) (request : Request) → IsValid before.account
        → Answers before now request after → IsFaithful device before → IsFaithful device after }
    ensures read { (device : DeviceView) (before after : Server) (now : ℕ) → IsValid before.account
        → Ticks before now after → IsFaithful device before → IsFaithful device after }
    ensures reopened { (first : ℕ) (device : DeviceView) (before after : Server) → IsSteady first before
        → Reopens before after → IsFaithful device before → IsFaithful device after }
{}

/// An upload goes on where the server is started anew: of each machine of a world that was reached, the batch that is
/// live is among those that the keeper tells, has just the parts that the machine has sent, and is live after the new
/// opening. The machine stands.
pub fn uploads_go_on()
    ensures { (trusts : ℕ → Bool) (world new : WorldView) (n number : ℕ) (machine : MachineView) (upload : UploadView)
        (batch : Staged) → IsReachedWorld trusts world → slice_get world.seats n ≡ Some (Syncs machine)
        → machine.stage ≡ Uploads upload → upload.batch ≡ Some number
        → batch_in bookmarks number world.server.account.batches ≡ Some batch
        → is_open world.server.account.moment batch ≡ true → Happens world Reopen new
        → (batch_in bookmarks number world.server.kept.batches ≡ Some batch) × (batch.parts ≡ sent_of upload)
        × (batch_in bookmarks number new.server.account.batches ≡ Some batch)
        × (slice_get new.seats n ≡ Some (Syncs machine)) }
{}
