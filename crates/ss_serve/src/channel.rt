//! How links go to workers: through a channel whose rule says that each link that was put is taken by one worker or is left.

use crossbeam_channel::protocol::{Join, Lesson, Outcome, Protocol, Split};
use ss_links::Closable;
use std::marker::PhantomData;

/// A link to serve, or the end of a worker's work.
#[derive(Drop)]
pub(crate) enum Job<L> {
    Link(L),
    Stop,
}

// What a pass to the channel has put and taken, in links, and its parts of the right to know the whole. No value of it is made.
pub(crate) struct Tally {
    pub(crate) parts: u64,
    pub(crate) put: u64,
    pub(crate) taken: u64,
}

pub(crate) struct Links<L> {
    marker: PhantomData<L>,
}

impl<L: Closable> Protocol<Job<L>, Tally> for Links<L> {
    ghost use Rattle.ss_serve.specs.Tallies.{IsBalancedChannel, tally};

    ghost holds = { IsBalancedChannel L.Told.told };

    ghost first = { tally 32 0 0 };
}

pub(crate) struct Put<L> {
    marker: PhantomData<L>,
}

impl<L: Closable> Outcome<Job<L>, Tally> for Put<L> {
    ghost use Rattle.std.specs.Prelude.{◌≡◌, ◌+◌};
    ghost use Rattle.ss_serve.specs.Tallies.{tally, links_in};

    ghost then = { λ v x w. w ≡ tally v.parts (v.put + links_in x) v.taken };
}

impl<L: Closable> Lesson<Job<L>, Tally> for Put<L> {
    ghost fact = { λ v items. Unit {0} };
}

pub(crate) struct Take<L> {
    marker: PhantomData<L>,
}

impl<L: Closable> Outcome<Job<L>, Tally> for Take<L> {
    ghost use Rattle.std.specs.Prelude.{◌≡◌, ◌+◌, ◌≤◌};
    ghost use Rattle.ss_serve.specs.Tallies.{tally, links_in, IsNew};

    ghost then = { λ v x w. (w ≡ tally v.parts v.put (v.taken + links_in x)) × IsNew L.Told.told x × (v.parts ≡ 32 → v.taken + links_in x ≤ v.put) };
}

impl<L: Closable> Lesson<Job<L>, Tally> for Take<L> {
    ghost use Rattle.ss_serve.specs.Tallies.{IsSettledTally};

    ghost fact = { λ v items. IsSettledTally v items };
}

pub(crate) struct Cut;

impl Split<Tally> for Cut {
    ghost use Rattle.std.specs.Prelude.{◌-◌};
    ghost use Rattle.ss_serve.specs.Tallies.{tally};

    ghost left = { λ v. tally (v.parts - 1) v.put v.taken };

    ghost right = { λ v. tally 1 0 0 };
}

impl Join<Tally> for Cut {
    ghost use Rattle.std.specs.Prelude.{◌+◌};
    ghost use Rattle.ss_serve.specs.Tallies.{tally};

    ghost both = { λ v w. tally (v.parts + w.parts) (v.put + w.put) (v.taken + w.taken) };

    ghost spent = { tally 0 0 0 };
}

// Leaves a pass that has no part.
pub(crate) struct Bare;

impl Split<Tally> for Bare {
    ghost use Rattle.ss_serve.specs.Tallies.{tally};

    ghost left = { λ v. v };

    ghost right = { λ v. tally 0 0 0 };
}
