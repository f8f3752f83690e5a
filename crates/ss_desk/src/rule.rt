// The desk's rule over its table.
ghost use Rattle.std.specs.Prelude.{◌≡◌};

use crate::journaled::Journaled;
use crate::view::View;
use atomic_table::{Seat, TableRule};
use std::marker::PhantomData;
use std::snapshot::Snapshot;

/// Holds at every moment of a desk: its tickets, its value and its passes fit one journal (`specs/Rule.antt`).
pub(crate) struct TurnsRule<T> {
    marker: PhantomData<T>,
}

impl<T: Journaled> TableRule<Option<T>, View<T::Fixed, T::Entry>, Snapshot<T>> for TurnsRule<T> {
    ghost use Rattle.ss_desk.specs.Rule.{TakesTurns};
    ghost use Rattle.ss_desk.specs.Views.{opening_view};

    ghost holds = { λ key. TakesTurns T.ticket_of T.pass_of T.fixed T.entries T.legal (T.fixed key.value) };

    ghost first = { λ key. opening_view (T.fixed key.value) };
}

pub(crate) type DeskSeat<T> = Seat<
    Option<T>,
    View<<T as Journaled>::Fixed, <T as Journaled>::Entry>,
>;
