//! Visits of a page, and the times at which they were told.

ghost use Rattle.std.specs.Prelude.{◌≡◌, ◌+◌, ◌≤◌, ◌<◌, ◌++◌, Some, if◌then◌else◌, filter_map, slice_get, OnOk, OnErr};
ghost use Rattle.std.specs.Prelude.{IsOk, IfOk};
ghost use Rattle.std.specs.Option.{option_to_list};
ghost use Rattle.std.specs.Ordering.{is_lt};
ghost use Rattle.ss_bso.specs.Lists.{Pairs};
ghost use Rattle.ss_text.specs.Texts.{sorted};
ghost use Rattle.ss_flat.specs.Lists.{visit_cmp};
ghost use Rattle.indexmap.specs.IndexMap.{index_map_len, spare};
ghost use Rattle.ss_flat.specs.declared.visits.Visit.{Visit as VisitView};
ghost use Rattle.ss_flat.specs.Joining.{HasTimes, later};
ghost use Rattle.ss_flat.specs.States.{OtherVisit, same_visit, time_of};
ghost use Rattle.ss_flat.specs.Told.{is_above, shown_visit};

use indexmap::IndexMap;
use ss_text::Stamp;
use std::alloc::{AllocError, Global};
use std::cmp::Ordering;
use std::marker::Model;

/// A visit of a page: its date, as the record has it, and its type, a number below 256.
#[derive(Clone, Copy, Debug, PartialEq, Eq, Hash)]
pub struct Visit {
    pub date: u64,
    pub kind: u8,
}

impl Visit {
    /// By date downwards, then by type upwards.
    fn order(&self, other: &Visit) -> Ordering
        ensures { result ≡ visit_cmp self.now other.now }
    {
        other.date.cmp(&self.date).then(self.kind.cmp(&other.kind))
    }
}

/// A list of visits.
#[derive(Drop, Debug)]
pub struct Visits {
    visits: Vec<Visit>,
}

impl Model for Visits {
    ghost use Rattle.std.specs.Prelude.{List};
    ghost use Rattle.ss_flat.specs.declared.visits.Visit.{Visit};

    ghost Value = { List Visit };

    ghost view = { λ v. v.visits.items };
}

impl Visits {
    /// The visits of a vector, which are moved.
    pub fn new(visits: Vec<Visit>) -> Visits
        ensures { result ≡ visits.items }
    {
        Visits { visits }
    }

    pub fn as_slice(&self) -> &[Visit]
        ensures { result.now ≡ self.now }
    {
        self.visits.as_slice()
    }
}

/// For each visit the latest time of a record that has it.
pub(crate) type Times = IndexMap<Visit, Stamp>;

/// Notes that a record of this time has a visit. It takes memory only where there is no room.
pub(crate) fn note(times: &mut Times, visit: Visit, time: Stamp) -> Result<(), AllocError>
    ensures ok { OnOk result ((v : VisitView) → time_of v times.new.entries
        ≡ (if same_visit v visit then later (time_of v times.old.entries) (Some time) else time_of v times.old.entries)) }
    ensures err { OnErr result (times.new.entries ≡ times.old.entries) }
    ensures once { Pairs OtherVisit times.old.entries → Pairs OtherVisit times.new.entries }
    ensures room { spare times.old ≤ spare times.new + 1 }
    ensures succeeds { 0 < spare times.old → IsOk result }
{
    match times.get(&visit) {
        Some(noted) if time.get() <= noted.get() => Ok(()),
        _ => match times.insert(visit, time) {
            Ok(_) => Ok(()),
            Err(_) => Err(AllocError),
        },
    }
}

/// Notes the visits of a record of this time in no times.
pub(crate) fn times_of(alloc: Global, time: Stamp, visits: &[Visit]) -> Result<Times, AllocError>
    ensures times { IfOk result (λ times. HasTimes time visits.now times.entries) }
    ensures once { IfOk result (λ times. Pairs OtherVisit times.entries) }
{
    let mut times = IndexMap::new(alloc);
    for visit in visits {
        note(&mut times, *visit, time)?;
    }
    Ok(times)
}

/// Notes the visit at a place of some times. It takes no memory.
fn note_at(times: &mut Times, more: &Times, i: usize)
    requires { 0 < spare times.old }
    ensures times { (v : VisitView) → time_of v times.new.entries
        ≡ later (time_of v times.old.entries) (time_of v (option_to_list (slice_get more.now.entries i))) }
    ensures once { Pairs OtherVisit times.old.entries → Pairs OtherVisit times.new.entries }
    ensures room { spare times.old ≤ spare times.new + 1 }
{
    if let Some((visit, time)) = more.get_index(i) {
        note(times, *visit, *time).unwrap();
    }
}

/// Notes all of some times. It takes no memory.
pub(crate) fn note_all(times: &mut Times, more: &Times)
    requires room { index_map_len more.now ≤ spare times.old }
    requires once { Pairs OtherVisit times.old.entries }
    requires apart { Pairs OtherVisit more.now.entries }
    ensures times { (v : VisitView) → time_of v times.new.entries ≡ later (time_of v times.old.entries) (time_of v more.now.entries) }
    ensures once { Pairs OtherVisit times.new.entries }
{
    for i in 0..more.len() {
        note_at(times, more, i);
    }
}

/// A copy of some times.
pub(crate) fn copy_times(alloc: Global, times: &Times) -> Result<Times, AllocError>
    ensures { IfOk result (λ copied. copied.entries ≡ times.now.entries) }
{
    times.clone()
}

/// Whether a time is above that of a last tombstone.
pub(crate) fn is_above(gone: &Option<Stamp>, time: Stamp) -> bool
    ensures { result ≡ is_above gone.now time }
{
    match gone {
        Some(gone) => gone.get() < time.get(),
        None => true,
    }
}

/// Notes the visit at a place, where its time is above that of the last tombstone.
fn note_above(
    gone: &Option<Stamp>,
    times: &Times,
    i: usize,
    visits: &mut Vec<Visit>,
) -> Result<(), AllocError>
    ensures { OnOk result (visits.new.items ≡ visits.old.items
        ++ filter_map (shown_visit gone.now) (option_to_list (slice_get times.now.entries i))) }
{
    if let Some((visit, time)) = times.get_index(i) {
        if is_above(gone, *time) {
            visits.push(*visit)?;
        }
    }
    Ok(())
}

/// The visits whose times are above that of the last tombstone, in some order.
pub(crate) fn visits_above(
    alloc: Global,
    gone: &Option<Stamp>,
    times: &Times,
) -> Result<Vec<Visit>, AllocError>
    ensures { IfOk result (λ visits. visits.items ≡ filter_map (shown_visit gone.now) times.now.entries) }
{
    let mut visits = Vec::new(alloc);
    for i in 0..times.len() {
        note_above(gone, times, i, &mut visits)?;
    }
    Ok(visits)
}

/// The visits by date downwards, then by type upwards.
pub(crate) fn in_order(mut visits: Vec<Visit>) -> Result<Vec<Visit>, AllocError>
    ensures { IfOk result (λ ordered. ordered.items ≡ sorted (λ v w. is_lt (visit_cmp v w)) visits.items) }
{
    visits.sort_by(|visit, other| visit.order(other))?;
    Ok(visits)
}
