//! What is kept of an id.

ghost use Rattle.std.specs.Prelude.{◌≡◌, ◌≤◌, length, IfOk, OnOk};
ghost use Rattle.std.specs.Option.{option_copied};
ghost use Rattle.ss_flat.specs.Joining.{Joins, Makes, later};
ghost use Rattle.ss_flat.specs.Told.{gone_unless, shown_face, shown_visits};

use crate::face::{Face, greater};
use crate::reading::{Reading, Said};
use crate::visits::{
    Times, Visit, copy_times, in_order, is_above, note_all, times_of, visits_above,
};
use indexmap::IndexMap;
use ss_text::Stamp;
use std::alloc::{AllocError, Global};
use std::marker::Model;

/// What is kept of an id: the time of its last tombstone, its greatest face, its visits with a time each, and whether a
/// row of it was skipped. Its contracts see these, and how many more visits fit without memory.
#[derive(Drop)]
pub(crate) struct Entry {
    gone: Option<Stamp>,
    face: Option<Face>,
    times: Times,
    skipped: bool,
}

impl Model for Entry {
    ghost use Rattle.ss_flat.specs.States.{RoomedId};
    ghost use Rattle.indexmap.specs.IndexMap.{spare};

    ghost Value = { RoomedId };

    ghost view = { λ e. record { heard = record { gone = e.gone; face = e.face; visits = e.times.entries; skipped = e.skipped }; room = spare e.times } };

    ghost use Rattle.ss_bso.specs.Lists.{Pairs};
    ghost use Rattle.ss_flat.specs.States.{OtherVisit};

    ghost invariant = { λ e. Pairs OtherVisit e.times.entries };
}

/// The later of two times, where there are two.
fn later(one: Option<Stamp>, other: Option<Stamp>) -> Option<Stamp>
    ensures { result ≡ later one other }
{
    match (one, other) {
        (None, other) => other,
        (Some(time), None) => Some(time),
        (Some(time), Some(other)) => if time.get() < other.get() {
            Some(other)
        } else {
            Some(time)
        },
    }
}

impl Entry {
    /// What a row of this time makes known of its id.
    pub(crate) fn of(alloc: Global, time: Stamp, reading: Reading) -> Result<Entry, AllocError>
        ensures { IfOk result (λ entry. Makes time reading entry.heard) }
    {
        let mut entry = Entry {
            gone: None,
            face: None,
            times: IndexMap::new(alloc),
            skipped: false,
        };
        match reading {
            Reading::Tombstone => entry.gone = Some(time),
            Reading::Skipped => entry.skipped = true,
            Reading::Record(
                Said {
                    first,
                    second,
                    visits,
                },
            ) => {
                entry.times = times_of(alloc, time, visits.as_slice())?;
                entry.face = Some(Face {
                    time,
                    first,
                    second,
                });
            }
        }
        Ok(entry)
    }

    /// How many visits are kept.
    pub(crate) fn visits(&self) -> usize
        ensures { result ≡ length self.now.heard.visits }
    {
        self.times.len()
    }

    pub(crate) fn copy(&self, alloc: Global) -> Result<Entry, AllocError>
        ensures { IfOk result (λ copied. copied.heard ≡ self.now.heard) }
    {
        let face = match &self.face {
            Some(face) => Some(face.copy(alloc)?),
            None => None,
        };
        Ok(Entry {
            gone: self.gone,
            face,
            times: copy_times(alloc, &self.times)?,
            skipped: self.skipped,
        })
    }

    /// Makes room for so many more visits. It alone takes memory.
    pub(crate) fn make_room(&mut self, count: usize) -> Result<(), AllocError>
        ensures same { self.new.heard ≡ self.old.heard }
        ensures room { OnOk result (count ≤ self.new.room) }
        ensures kept { self.old.room ≤ self.new.room }
    {
        self.times.reserve(count)
    }

    /// Joins it with what else is kept of the same id. It takes no memory.
    pub(crate) fn take_in(&mut self, other: Entry)
        requires { length other.heard.visits ≤ self.old.room }
        ensures { Joins self.old.heard other.heard self.new.heard }
    {
        let Entry {
            gone,
            face,
            times,
            skipped,
        } = other;
        self.gone = later(self.gone, gone);
        self.face = greater(self.face.take(), face);
        self.skipped = self.skipped || skipped;
        note_all(&mut self.times, &times);
    }

    /// The face that is shown: its time is above that of the last tombstone.
    pub(crate) fn shown_face(&self) -> Option<&Face>
        ensures { option_copied result ≡ shown_face self.now.heard }
    {
        match &self.face {
            Some(face) if is_above(&self.gone, face.time) => Some(face),
            _ => None,
        }
    }

    /// The visits that are shown, in order.
    pub(crate) fn shown_visits(&self, alloc: Global) -> Result<Vec<Visit>, AllocError>
        ensures { IfOk result (λ visits. visits.items ≡ shown_visits self.now.heard) }
    {
        in_order(visits_above(alloc, &self.gone, &self.times)?)
    }

    /// The time of the last tombstone, where no face is shown.
    pub(crate) fn gone_since(&self) -> Option<Stamp>
        ensures { result ≡ gone_unless (shown_face self.now.heard) self.now.heard.gone }
    {
        match self.shown_face() {
            Some(_) => None,
            None => self.gone,
        }
    }

    /// Whether a row was skipped.
    pub(crate) fn is_skipped(&self) -> bool
        ensures { result ≡ self.now.heard.skipped }
    {
        self.skipped
    }
}
