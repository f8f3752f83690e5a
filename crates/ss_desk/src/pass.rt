// The passes to a desk.
ghost use Rattle.std.specs.Prelude.{◌≡◌, ◌≤◌};
ghost use Rattle.ss_desk.specs.Views.{numbers, lower, upper};
ghost use Rattle.ss_desk.specs.Calls.{Rests};

use crate::desk::Desk;
use crate::journaled::Journaled;
use crate::steps::Halve;
use crate::view::View;
use atomic_table::Seat;

/// A right to make calls at one desk, with what it has seen of the journal: a range of numbers, of which the least is
/// its own. It may go to another thread. A desk is closed with a pass that took every other in, so after a pass was
/// dropped its desk can't be closed.
#[derive(Drop)]
pub struct RawPass<T, F, E> {
    pub(crate) seat: Seat<Option<T>, View<F, E>>,
    pub(crate) first: u32,
    pub(crate) end: u64,
    ghost rests: { Rests first end seat.me },
}

/// A pass to a desk with a `T`. `RawPass` has no bound, so that a generic caller may keep passes in a `Vec`.
pub type Pass<T> = RawPass<T, <T as Journaled>::Fixed, <T as Journaled>::Entry>;

impl<T, F, E> RawPass<T, F, E> {
    ghost use Rattle.ss_desk.specs.Desks.{view};

    /// How many numbers the pass holds, at least 1: it can be split into as many passes.
    pub fn numbers(&self) -> u64
        ensures { result ≡ numbers (view self.now) }
    {
        self.end - u64::from(self.first)
    }
}

impl<T: Journaled> RawPass<T, T::Fixed, T::Entry> {
    ghost use Rattle.ss_desk.specs.Desks.{view, IsPassOf, SameDesk};

    /// Gives the upper half of the pass's numbers to a new pass, which has seen as much. It takes no memory.
    pub fn split(&mut self, desk: &Desk<T>) -> Pass<T>
        requires desk { IsPassOf desk.now self.old }
        requires many { 2 ≤ numbers (view self.old) }
        ensures same { SameDesk self.old self.new }
        ensures new { SameDesk self.old result }
        ensures lower { view self.new ≡ lower (view self.old) }
        ensures upper { view result ≡ upper (view self.old) }
    {
        let middle = (u64::from(self.first) + self.end) / 2;
        let seat = desk.table.shared.split_seat::<Halve>(&mut self.seat);
        let end = self.end;
        self.end = middle;
        RawPass {
            seat,
            first: middle as u32,
            end,
        }
    }
}
