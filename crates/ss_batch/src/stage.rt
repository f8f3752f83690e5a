//! The batches of one account.

ghost use Rattle.std.specs.Prelude.{All, AllPairs, option_copied, Ok, Err, ◌≡◌, ◌-◌, ◌+◌, ◌++◌, ◌≤◌, ◌==◌, ◌^◌, min};
ghost use Rattle.std.specs.Prelude.{Some, None, IfOk, OnOk, IfErr, OnErr, is_some, IsSome, IfSome, IsSomeAnd, []};
ghost use Rattle.std.specs.Prelude.{length, take, filter, position, bytes_eq, vec_len};
ghost use Rattle.ss_bso.specs.Account.{is_open};
ghost use Rattle.ss_bso.specs.Batches.{batches_elsewhere, batches_without};
ghost use Rattle.ss_bso.specs.Limits.{part_bytes, payload_size};
ghost use Rattle.ss_batch.specs.Stage.{FaultIs, HasGivenNumber, IsOther, append_fault, stage_after_append, begin_fault};
ghost use Rattle.ss_batch.specs.Stage.{stage_after_begin, has_number, has_room, most_counted, live_batch, live_parts};
ghost use Rattle.ss_batch.specs.Stage.{stage_after_cut, size_fault};

use crate::faults::StageFault;
use ss_bso::limits::{BATCH_LIFE, MOST_BATCH_BYTES, MOST_BATCH_RECORDS, MOST_LIVE_BATCHES};
use ss_bso::{Field, Part, Parts, Staged};
use ss_text::{LAST, Name, Stamp, Word};
use std::alloc::{AllocError, Global};
use std::marker::Model;

/// The live batches of one account, each new one at the end, and how many were begun.
#[derive(Drop)]
pub struct Stage {
    counter: u64,
    batches: Vec<Staged>,
}

impl Model for Stage {
    ghost use Rattle.ss_batch.specs.Stage.{HaveOwnNumbers, StageView};

    ghost Value = { StageView };

    ghost view = { λ s. record { counter = s.counter; batches = s.batches.items } };

    ghost invariant = { λ s. HaveOwnNumbers s.counter s.batches.items };
}

fn has_number(staged: &Staged, batch: u64) -> bool
    ensures { result ≡ has_number batch staged.now }
{
    staged.number == batch
}

fn is_open(staged: &Staged, moment: Stamp) -> bool
    ensures { result ≡ is_open moment staged.now }
{
    moment.get() < staged.begun.get() + BATCH_LIFE
}

fn is_of(staged: &Staged, collection: &Name) -> bool
    ensures { result ≡ bytes_eq staged.now.collection collection.now }
{
    staged.collection == *collection
}

/// The payload bytes that a field brings.
fn payload_size(payload: &Field<Word>) -> u64
    ensures { result ≡ payload_size payload.now }
{
    match payload {
        Field::Keep | Field::Clear => 0,
        Field::Set(text) => text.as_str().len() as u64,
    }
}

/// Bytes and the payload bytes of parts, up to the greatest u64.
fn added_bytes(bytes: u64, parts: &[Part]) -> u64
    ensures { result ≡ min (bytes + part_bytes parts.now) most_counted }
{
    let mut total = bytes;
    for part in parts {
        total = total.saturating_add(payload_size(&part.fields.payload));
    }
    total
}

/// The fault where the parts of a batch and further parts are too many for one.
fn check_size(old: &[Part], parts: &[Part]) -> Result<(), StageFault>
    ensures ok { OnOk result (size_fault (old.now ++ parts.now) ≡ None) }
    ensures err { IfErr result (λ fault. size_fault (old.now ++ parts.now) ≡ Some fault) }
{
    let records = old.len() as u64 + parts.len() as u64;
    if records > MOST_BATCH_RECORDS {
        return Err(StageFault::TooManyRecords { n: records });
    }
    let bytes = added_bytes(added_bytes(0, old), parts);
    if bytes > MOST_BATCH_BYTES {
        return Err(StageFault::TooManyBytes { n: bytes });
    }
    Ok(())
}

/// Moves parts to the end of a batch.
fn extend(staged: &mut Staged, parts: Vec<Part>) -> Result<(), AllocError>
    ensures ok { OnOk result (staged.new ≡ record staged.old { parts = staged.old.parts ++ parts.items }) }
    ensures err { OnErr result (staged.new ≡ staged.old) }
{
    staged.parts.append(parts)
}

/// Drops the last parts of a batch.
fn cut(staged: &mut Staged, parts: usize)
    requires { parts ≤ length staged.old.parts }
    ensures { staged.new ≡ record staged.old { parts = take (length staged.old.parts - parts) staged.old.parts } }
{
    let kept = staged.parts.as_slice().len() - parts;
    staged.parts.truncate(kept);
}

impl Stage {
    /// No batch, of so many that were begun.
    pub fn new(alloc: Global, counter: u64) -> Stage
        ensures { result ≡ record { counter = counter; batches = [] } }
    {
        Stage {
            counter,
            batches: Vec::new(alloc),
        }
    }

    /// These batches, of so many that were begun. Each number was given out, and no two batches have one number. It
    /// takes no memory.
    pub fn from_staged(counter: u64, batches: Vec<Staged>) -> Stage
        requires given { All (HasGivenNumber counter) batches.items }
        requires apart { AllPairs IsOther batches.items }
        ensures { result ≡ record { counter = counter; batches = batches.items } }
    {
        Stage { counter, batches }
    }

    /// How many batches were begun.
    pub fn counter(&self) -> u64
        ensures { result ≡ self.now.counter }
    {
        self.counter
    }

    /// The live batches, each that began here after those before it.
    pub fn batches(&self) -> &[Staged]
        ensures { result.now ≡ self.now.batches }
    {
        self.batches.as_slice()
    }

    /// Whether a further batch may begin: fewer than four are live, and fewer than 999,999,999,999 were begun.
    pub fn has_room(&self) -> bool
        ensures { result ≡ has_room self.now }
    {
        self.batches.len() < MOST_LIVE_BATCHES && self.counter < LAST
    }

    fn place(&self, batch: u64) -> Option<usize>
        ensures { result ≡ position (has_number batch) self.now.batches }
    {
        self.batches
            .iter()
            .position(|staged| has_number(staged, batch))
    }

    fn find(&self, batch: u64) -> Option<&Staged>
        ensures { option_copied result ≡ live_batch batch self.now.batches }
    {
        self.batches.iter().find(|staged| has_number(staged, batch))
    }

    /// Whether a batch is live.
    pub fn is_live(&self, batch: u64) -> bool
        ensures { result ≡ is_some (live_batch batch self.now.batches) }
    {
        self.find(batch).is_some()
    }

    /// The parts of a live batch. It takes no memory.
    pub fn peek(&self, batch: u64, collection: &Name) -> Result<&[Part], StageFault>
        ensures ok { IfOk result (λ parts. live_parts self.now batch collection.now ≡ Ok parts.now) }
        ensures err { IfErr result (λ fault. live_parts self.now batch collection.now ≡ Err fault) }
    {
        let Some(staged) = self.find(batch) else {
            return Err(StageFault::NotLive);
        };
        if !is_of(staged, collection) {
            return Err(StageFault::OtherCollection);
        }
        Ok(staged.parts.as_slice())
    }

    /// Whether parts may go to the end of a live batch, and why not. It takes no memory.
    pub fn fits(&self, batch: u64, collection: &Name, parts: &[Part]) -> Result<(), StageFault>
        ensures ok { OnOk result (append_fault self.now batch collection.now parts.now ≡ None) }
        ensures err { IfErr result (λ fault. append_fault self.now batch collection.now parts.now ≡ Some fault) }
    {
        let old = self.peek(batch, collection)?;
        check_size(old, parts)
    }

    /// Begins a batch at a moment, and gives its number. A refused call drops the parts and changes nothing.
    pub fn begin(
        &mut self,
        alloc: Global,
        now: Stamp,
        collection: &Name,
        parts: Vec<Part>,
    ) -> Result<u64, StageFault>
        ensures number { IfOk result (λ number. number ≡ self.new.counter) }
        ensures ok { OnOk result (self.new ≡ stage_after_begin self.old now collection.now parts.items) }
        ensures err { OnErr result (self.new ≡ self.old) }
        ensures cause { FaultIs (begin_fault self.old parts.items) result }
    {
        if !self.has_room() {
            return Err(StageFault::TooManyBatches);
        }
        check_size(&[], parts.as_slice())?;
        let collection = collection.copy(alloc)?;
        self.batches.reserve(1)?;
        self.counter += 1;
        self.batches.push_reserved(Staged {
            number: self.counter,
            collection,
            begun: now,
            parts: Parts::new(parts),
        });
        Ok(self.counter)
    }

    /// Moves parts to the end of a live batch. A refused call drops the parts and changes nothing.
    pub fn append(
        &mut self,
        batch: u64,
        collection: &Name,
        parts: Vec<Part>,
    ) -> Result<(), StageFault>
        ensures ok { OnOk result (self.new ≡ stage_after_append self.old batch parts.items) }
        ensures err { OnErr result (self.new ≡ self.old) }
        ensures cause { FaultIs (append_fault self.old batch collection.now parts.items) result }
    {
        self.fits(batch, collection, parts.as_slice())?;
        let Some(place) = self.place(batch) else {
            return Err(StageFault::NotLive);
        };
        extend(&mut self.batches[place], parts)?;
        Ok(())
    }

    /// Takes a live batch out. It takes no memory.
    pub fn take(&mut self, batch: u64) -> Vec<Part>
        requires { IsSome (live_batch batch self.old.batches) }
        ensures parts { IfSome (live_batch batch self.old.batches) (λ staged. result.items ≡ staged.parts) }
        ensures rest { self.new ≡ record self.old { batches = batches_without batch self.old.batches } }
    {
        match self.place(batch) {
            Some(place) => self.batches.remove(place).parts.into_vec(),
            None => unreachable!(),
        }
    }

    /// The batches of a collection go. It takes no memory.
    pub fn drop_collection(&mut self, collection: &Name)
        ensures { self.new ≡ record self.old { batches = batches_elsewhere collection.now self.old.batches } }
    {
        self.batches.retain(|staged| !is_of(staged, collection));
    }

    /// All batches go. It takes no memory.
    pub fn clear(&mut self)
        ensures { self.new ≡ record self.old { batches = [] } }
    {
        self.batches.clear();
    }

    /// The batches go whose life of 720,000 hundredths of a second has ended at a moment. It takes no memory.
    pub fn expire(&mut self, moment: Stamp)
        ensures { self.new ≡ record self.old { batches = filter (is_open moment) self.old.batches } }
    {
        self.batches.retain(|staged| is_open(staged, moment));
    }

    /// Takes back the last begin: the batch whose number is the counter goes, and the counter falls by 1. It takes no
    /// memory.
    pub fn unbegin(&mut self)
        requires { IsSome (live_batch self.old.counter self.old.batches) }
        ensures { self.new ≡ record {
          counter = self.old.counter - 1;
          batches = batches_without self.old.counter
              self.old.batches;
        } }
    {
        let last = self.counter;
        self.batches.retain(|staged| !has_number(staged, last));
        self.counter -= 1;
    }

    /// Takes back an append: the last parts of a batch go. It takes no memory.
    pub fn shorten(&mut self, batch: u64, parts: usize)
        requires { IsSomeAnd (live_batch batch self.old.batches) (λ staged. parts ≤ length staged.parts) }
        ensures { self.new ≡ stage_after_cut self.old batch parts }
    {
        match self.place(batch) {
            Some(place) => cut(&mut self.batches[place], parts),
            None => unreachable!(),
        }
    }
}
