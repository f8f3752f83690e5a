//! What is told of a counter's journal: of all its additions, and of those of each pass.

use crate::turns::counters::Replies;
use ss_desk::{Addition, Counter};
use std::alloc::{AllocError, Global};

/// How many additions have their place as their ticket.
fn at_their_tickets(additions: &[Addition]) -> u64 {
    let mut count: u64 = 0;
    for (place, addition) in additions.iter().enumerate() {
        if addition.ticket == place as u64 {
            count = count.saturating_add(1);
        }
    }
    count
}

/// The total, how many additions there are, and how many are at the places of their tickets.
pub fn counted(alloc: Global, counter: &Counter) -> Result<String, AllocError> {
    let additions = counter.additions.as_slice();
    format!(in alloc;
        "total {}, {} additions, {} at the places of their tickets",
        counter.total,
        additions.len(),
        at_their_tickets(additions)
    )
}

/// The additions of a pass: how many, what they come to, and how many have the ticket and the total that the pass was
/// replied.
#[derive(Clone, Copy)]
struct Tally {
    count: u64,
    amount: u64,
    as_replied: u64,
}

/// The additions of the pass with this number, beside its replies in their order.
fn tally_of(additions: &[Addition], number: u32, replies: &[(u64, u64)]) -> Tally {
    let mut replies = replies.iter();
    let mut tally = Tally {
        count: 0,
        amount: 0,
        as_replied: 0,
    };
    let mut total: u64 = 0;
    for addition in additions {
        let amount = u64::from(addition.amount);
        total = total.wrapping_add(amount);
        if addition.pass == number {
            tally.count = tally.count.saturating_add(1);
            tally.amount = tally.amount.saturating_add(amount);
            if replies.next() == Some(&(addition.ticket, total)) {
                tally.as_replied = tally.as_replied.saturating_add(1);
            }
        }
    }
    tally
}

/// A line on each pass, behind an end of a line.
pub fn passes(
    alloc: Global,
    counter: &Counter,
    numbers: &[u32],
    replies: &[Replies],
) -> Result<String, AllocError> {
    let mut text = String::new(alloc);
    for (number, made) in numbers.iter().zip(replies) {
        let tally = tally_of(counter.additions.as_slice(), *number, made.as_slice());
        text.push_str(format!(in alloc;
            "\n  pass {number}: {} replies; {} additions that come to {}, {} as replied",
            made.len(),
            tally.count,
            tally.amount,
            tally.as_replied
        )?
        .as_str())?;
    }
    Ok(text)
}
