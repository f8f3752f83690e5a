// The desk: a value, and the calls that are made at it in turn.
ghost use Rattle.std.specs.Prelude.{◌≡◌, [], IfOk, IfErr, MatchResult};
ghost use Rattle.ss_desk.specs.declared.view.Stage.TheVariants.{Idle, Waits};
ghost use Rattle.ss_desk.specs.Views.{Live, CoversAll, view_after_step, joined_view, opening_view};
ghost use Rattle.ss_desk.specs.Steps.{Took};
ghost use Rattle.ss_desk.specs.Calls.{EntersCall, DeniesCall, IsValueAtClose};

use crate::journaled::{Full, Journaled};
use crate::pass::{Pass, RawPass};
use crate::rule::{DeskSeat, TurnsRule};
use crate::steps::{Draw, Finish, Look, TakeIn};
use crate::view::View;
use crate::waiting::Bells;
use atomic_table::{Refused, Table};
use std::alloc::{AllocError, Global};
use std::snapshot::Snapshot;
use std::sync::Wait;

// The word with the ticket that is served.
const SERVING: usize = 0;

// The word with the next ticket to be drawn.
const TICKETS: usize = 1;

// A ticket from here on is never served, so that no ticket is ever drawn twice.
const LIMIT: u64 = 1 << 63;

/// A value on which passes take turns.
#[derive(Drop)]
pub struct Desk<T: Journaled> {
    pub(crate) table: Table<Option<T>, View<T::Fixed, T::Entry>, Snapshot<T>, TurnsRule<T>, Global>,
    bells: Bells,
    ghost sized: { (table.shared.table_id.words ≡ 2) × (table.shared.table_id.slots ≡ 1) },
}

impl<T: Journaled> Desk<T> {
    ghost use Rattle.ss_desk.specs.Desks.{view, IsPassOf, SameDesk};

    /// Lays a value without entries on a desk. The pass holds all numbers. Where memory runs out the value comes back.
    pub fn open(alloc: Global, value: T) -> Result<(Desk<T>, Pass<T>), (T, AllocError)>
        requires empty { T.entries value ≡ [] }
        ensures pass { IfOk result (λ r. IsPassOf r.0 r.1) }
        ensures view { IfOk result (λ r. view r.1 ≡ opening_view (T.fixed value)) }
        ensures returned { IfErr result (λ e. e.0 ≡ value) }
    {
        let key = Snapshot::of(&value);
        let mut slots = match Vec::with_capacity(alloc, 1) {
            Ok(slots) => slots,
            Err(error) => return Err((value, error)),
        };
        slots.push_reserved(Some(value));
        match Table::new(alloc, &[0, 0], slots, &key) {
            Ok((table, seat)) => Ok((
                Desk {
                    table,
                    bells: Bells::new(),
                },
                RawPass {
                    seat,
                    first: 0,
                    end: 1 << 32,
                },
            )),
            Err(Refused { mut slots }) => match slots.pop() {
                Some(Some(value)) => {
                    slots.destroy_empty();
                    Err((value, AllocError))
                }
                _ => unreachable!(),
            },
        }
    }

    /// Waits for the pass's turn and makes one call: the ticket, and the reply at the call's place in the journal. The
    /// journal then begins with all that the pass had seen and ends with this call. `Full` says that the journal had
    /// no room; then it has no entry of this call. Nothing is said of how long a caller waits.
    pub fn call<R: Wait>(
        &self,
        rt: &R,
        pass: &mut Pass<T>,
        ask: T::Ask,
    ) -> Result<(u64, T::Reply), Full>
        requires pass { IsPassOf self.now pass.old }
        requires fits { T.fits ask }
        ensures same { SameDesk pass.old pass.new }
        ensures entered { IfOk result (λ r. EntersCall T.ticket_of T.pass_of T.ask_of T.legal T.replies T.full (view pass.old) (view pass.new) r.0 ask r.1) }
        ensures full { IfErr result (λ f. DeniesCall T.ticket_of T.pass_of T.legal T.full (view pass.old) (view pass.new) f) }
    {
        let ticket = self.draw(&mut pass.seat);
        self.await_turn(rt, &mut pass.seat, ticket);
        match self.serve(&mut pass.seat, ticket, pass.first, ask) {
            Ok(reply) => Ok((ticket, reply)),
            Err(full) => Err(full),
        }
    }

    /// Gives a pass back to another: that covers its numbers from now on, and has a page with what it had seen.
    pub fn back(&self, into: &mut Pass<T>, other: Pass<T>)
        requires into { IsPassOf self.now into.old }
        requires other { IsPassOf self.now other }
        ensures same { SameDesk into.old into.new }
        ensures joined { view into.new ≡ joined_view (view into.old) (view other) }
    {
        let RawPass {
            seat,
            first: _,
            end: _,
        } = other;
        self.table.shared.join_seat::<TakeIn>(&mut into.seat, seat);
    }

    /// The value, once the pass covers all numbers, so that every other pass was given back.
    pub fn close(self, pass: Pass<T>) -> T
        requires pass { IsPassOf self pass }
        requires all { CoversAll (view pass) }
        ensures finished { IsValueAtClose T.ticket_of T.pass_of T.fixed T.entries T.legal (view pass) result }
    {
        let Desk { table, bells: _ } = self;
        let RawPass {
            seat,
            first: _,
            end: _,
        } = pass;
        let mut closed = table.close_with(seat);
        let slot = closed.take(0);
        closed.free();
        slot.unwrap()
    }

    // Draws a ticket.
    fn draw(&self, seat: &mut DeskSeat<T>) -> u64
        requires seat { seat.old.table_id ≡ self.now.table.shared.table_id }
        requires bare { seat.old.me.1 ≡ [] }
        requires idle { seat.old.me.0.stage ≡ Idle }
        requires live { Live seat.old.me.0 }
        ensures same { seat.new.table_id ≡ seat.old.table_id }
        ensures waits { seat.new.me ≡ (view_after_step seat.old.me.0 (Waits result) seat.old.me.0.seen, []) }
    {
        self.table.shared.fetch_add::<Draw>(seat, TICKETS, 1)
    }

    // Waits until the ticket is served, and takes the slot.
    fn await_turn<R: Wait>(&self, rt: &R, seat: &mut DeskSeat<T>, ticket: u64)
        requires seat { seat.old.table_id ≡ self.now.table.shared.table_id }
        requires bare { seat.old.me.1 ≡ [] }
        requires waits { seat.old.me.0.stage ≡ Waits ticket }
        requires live { Live seat.old.me.0 }
        ensures same { seat.new.table_id ≡ seat.old.table_id }
        ensures took { Took T.ticket_of T.pass_of T.fixed T.entries T.legal seat.old.me.0 ticket seat.new.me }
    {
        let mut waiter = self.bells.waiter(ticket);
        for _ in rt.forever() {
            let rings = waiter.rings();
            let serving = self.table.shared.load::<Look<T>>(seat, SERVING);
            if serving == ticket && ticket < LIMIT {
                break;
            }
            waiter.pause(rt, rings);
        }
        waiter.end();
    }

    // Takes the value out, makes the call, puts the value back and ends the turn.
    fn serve(
        &self,
        seat: &mut DeskSeat<T>,
        ticket: u64,
        number: u32,
        ask: T::Ask,
    ) -> Result<T::Reply, Full>
        requires seat { seat.old.table_id ≡ self.now.table.shared.table_id }
        requires live { Live seat.old.me.0 }
        requires number { seat.old.me.0.range.first ≡ number }
        requires took { (v : _) × Took T.ticket_of T.pass_of T.fixed T.entries T.legal v ticket seat.old.me }
        requires fits { T.fits ask }
        ensures same { seat.new.table_id ≡ seat.old.table_id }
        ensures done { MatchResult result (λ r. EntersCall T.ticket_of T.pass_of T.ask_of T.legal T.replies T.full seat.old.me.0 seat.new.me.0 ticket ask r) (λ f. DeniesCall T.ticket_of T.pass_of T.legal T.full seat.old.me.0 seat.new.me.0 f) }
        ensures rests { seat.new.me.1 ≡ [] }
    {
        let shared = &self.table.shared;
        let mut value = shared.exchange(seat, 0, None).unwrap();
        let answer = value.step(ticket, number, ask);
        match shared.exchange(seat, 0, Some(value)) {
            None => {}
            Some(_) => unreachable!(),
        }
        shared.fetch_add::<Finish<T>>(seat, SERVING, 1);
        self.bells.ring(ticket.wrapping_add(1));
        answer
    }
}
