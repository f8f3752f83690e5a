// What each kind of step on a desk's words tells the pass that makes it. These types are for the proofs alone.
ghost use Rattle.std.specs.Prelude.{◌≡◌, []};
ghost use Rattle.ss_desk.specs.declared.view.Stage.TheVariants.{Idle, Waits};
ghost use Rattle.ss_desk.specs.Views.{view_after_step, lower, upper, joined_view, spent};
ghost use Rattle.ss_desk.specs.Steps.{LooksAtTicket, held_entries};

use crate::journaled::Journaled;
use crate::view::View;
use atomic_table::{Join, Play, Split};
use std::marker::PhantomData;

// Draws a ticket: the number found is the pass's.
pub(crate) struct Draw;

impl<S, F, E> Play<S, View<F, E>> for Draw {
    ghost then = { λ _ m n m'. m' ≡ (view_after_step m.0 (Waits n) m.0.seen, []) };
}

// Looks whether the pass's ticket is served, and takes the slot where it is.
pub(crate) struct Look<T> {
    marker: PhantomData<T>,
}

impl<T: Journaled> Play<Option<T>, View<T::Fixed, T::Entry>> for Look<T> {
    ghost then = { λ _ m n m'. LooksAtTicket T.ticket_of T.pass_of T.fixed T.entries T.legal m n m' };
}

// The turn is done: the slot goes home, and the next ticket is served.
pub(crate) struct Finish<T> {
    marker: PhantomData<T>,
}

impl<T: Journaled> Play<Option<T>, View<T::Fixed, T::Entry>> for Finish<T> {
    ghost then = { λ _ m n m'. m' ≡ (view_after_step m.0 Idle (held_entries T.entries m.1), []) };
}

// A pass gives the upper half of its numbers to a new one.
pub(crate) struct Halve;

impl<F, E> Split<View<F, E>> for Halve {
    ghost left = { lower };

    ghost right = { upper };
}

// A pass takes another in.
pub(crate) struct TakeIn;

impl<F, E> Join<View<F, E>> for TakeIn {
    ghost both = { joined_view };

    ghost spent = { spent };
}
