//! What a state tells.

ghost use Rattle.std.specs.Prelude.{◌≡◌, ◌++◌, List, ℕ, filter_map, slice_get, IfOk, OnOk};
ghost use Rattle.std.specs.Option.{option_to_list};
ghost use Rattle.std.specs.Ordering.{is_lt};
ghost use Rattle.ss_text.specs.Texts.{sorted, text_cmp};
ghost use Rattle.ss_bso.specs.declared.rows.Row.{Row as RowView};
ghost use Rattle.ss_bso.specs.Lists.{Pairs};
ghost use Rattle.ss_flat.specs.Joining.{OtherKey};
ghost use Rattle.ss_flat.specs.Lists.{AreGoneIds, AreShownRecords, AreSkippedIds};
ghost use Rattle.ss_flat.specs.States.{IsFlatState};
ghost use Rattle.ss_flat.specs.Told.{gone_of, shown_of, skipped_of};

use crate::flat::Flat;
use crate::texts::record_text;
use ss_text::{Id, Ids, Stamp, Word};
use std::alloc::{AllocError, Global};

/// An item that is shown: its id, and its record as compact JSON.
#[derive(Drop, Debug)]
pub struct Shown {
    pub id: Id,
    pub text: Word,
}

fn shown_by_id(mut shown: Vec<Shown>) -> Result<Vec<Shown>, AllocError>
    ensures { IfOk result (λ ordered. ordered.items ≡ sorted (λ a b. is_lt (text_cmp a.id b.id)) shown.items) }
{
    shown.sort_by(|one, other| one.id.cmp(&other.id))?;
    Ok(shown)
}

fn gone_by_id(mut gone: Vec<(Id, Stamp)>) -> Result<Vec<(Id, Stamp)>, AllocError>
    ensures { IfOk result (λ ordered. ordered.items ≡ sorted (λ a b. is_lt (text_cmp a.0 b.0)) gone.items) }
{
    gone.sort_by(|one, other| one.0.cmp(&other.0))?;
    Ok(gone)
}

fn skipped_by_id(mut skipped: Vec<Id>) -> Result<Vec<Id>, AllocError>
    ensures { IfOk result (λ ordered. ordered.items ≡ sorted (λ a b. is_lt (text_cmp a b)) skipped.items) }
{
    skipped.sort_by(|one, other| one.cmp(other))?;
    Ok(skipped)
}

impl Flat {
    /// Notes the item of one entry, where one is shown.
    #[tactic(auto, unfolding(crate::specs::Told::shown_of))]
    fn note_shown(&self, alloc: Global, i: usize, shown: &mut Vec<Shown>) -> Result<(), AllocError>
        ensures { OnOk result (shown.new.items ≡ shown.old.items
            ++ filter_map (shown_of self.now.kind) (option_to_list (slice_get self.now.entries i))) }
    {
        let Some((id, entry)) = self.entries.get_index(i) else {
            return Ok(());
        };
        let Some(face) = entry.shown_face() else {
            return Ok(());
        };
        let visits = entry.shown_visits(alloc)?;
        let text = record_text(alloc, self.kind(), id, face, visits.as_slice())?;
        shown.push(Shown {
            id: id.copy(alloc)?,
            text,
        })?;
        Ok(())
    }

    /// The items that are shown, in some order.
    fn all_shown(&self, alloc: Global) -> Result<Vec<Shown>, AllocError>
        ensures shown { IfOk result (λ shown. shown.items ≡ filter_map (shown_of self.now.kind) self.now.entries) }
        ensures apart { OnOk result (Pairs OtherKey self.now.entries) }
    {
        let mut shown = Vec::new(alloc);
        for i in 0..self.entries.len() {
            self.note_shown(alloc, i, &mut shown)?;
        }
        Ok(shown)
    }

    /// The items, by id.
    pub fn shown(&self, alloc: Global) -> Result<Vec<Shown>, AllocError>
        ensures { IfOk result (λ shown. (rows : List RowView) → IsFlatState rows self.now
            → AreShownRecords self.now.kind rows shown.items) }
    {
        shown_by_id(self.all_shown(alloc)?)
    }

    /// Notes the id of one entry, where it is gone.
    #[tactic(auto, unfolding(crate::specs::Told::gone_of))]
    fn note_gone(
        &self,
        alloc: Global,
        i: usize,
        gone: &mut Vec<(Id, Stamp)>,
    ) -> Result<(), AllocError>
        ensures { OnOk result (gone.new.items ≡ gone.old.items
            ++ filter_map gone_of (option_to_list (slice_get self.now.entries i))) }
    {
        let Some((id, entry)) = self.entries.get_index(i) else {
            return Ok(());
        };
        if let Some(time) = entry.gone_since() {
            gone.push((id.copy(alloc)?, time))?;
        }
        Ok(())
    }

    /// The ids that are gone, in some order.
    fn all_gone(&self, alloc: Global) -> Result<Vec<(Id, Stamp)>, AllocError>
        ensures gone { IfOk result (λ gone. gone.items ≡ filter_map gone_of self.now.entries) }
        ensures apart { OnOk result (Pairs OtherKey self.now.entries) }
    {
        let mut gone = Vec::new(alloc);
        for i in 0..self.entries.len() {
            self.note_gone(alloc, i, &mut gone)?;
        }
        Ok(gone)
    }

    /// The ids that are gone, each with the time of its last tombstone, by id.
    pub fn gone(&self, alloc: Global) -> Result<Vec<(Id, Stamp)>, AllocError>
        ensures { IfOk result (λ gone. (rows : List RowView) → IsFlatState rows self.now
            → AreGoneIds self.now.kind rows gone.items) }
    {
        gone_by_id(self.all_gone(alloc)?)
    }

    /// Notes the id of one entry, where a row of it was skipped.
    #[tactic(auto, unfolding(crate::specs::Told::skipped_of))]
    fn note_skipped(&self, alloc: Global, i: usize, skipped: &mut Vec<Id>) -> Result<(), AllocError>
        ensures { OnOk result (skipped.new.items ≡ skipped.old.items
            ++ filter_map skipped_of (option_to_list (slice_get self.now.entries i))) }
    {
        let Some((id, entry)) = self.entries.get_index(i) else {
            return Ok(());
        };
        if entry.is_skipped() {
            skipped.push(id.copy(alloc)?)?;
        }
        Ok(())
    }

    /// The ids of which a row was skipped, in some order.
    fn all_skipped(&self, alloc: Global) -> Result<Vec<Id>, AllocError>
        ensures skipped { IfOk result (λ skipped. skipped.items ≡ filter_map skipped_of self.now.entries) }
        ensures apart { OnOk result (Pairs OtherKey self.now.entries) }
    {
        let mut skipped = Vec::new(alloc);
        for i in 0..self.entries.len() {
            self.note_skipped(alloc, i, &mut skipped)?;
        }
        Ok(skipped)
    }

    /// The ids of which a row was skipped, by id.
    pub fn skipped(&self, alloc: Global) -> Result<Ids, AllocError>
        ensures { IfOk result (λ skipped. (rows : List RowView) → IsFlatState rows self.now
            → AreSkippedIds self.now.kind rows skipped) }
    {
        Ok(Ids::new(skipped_by_id(self.all_skipped(alloc)?)?))
    }
}
