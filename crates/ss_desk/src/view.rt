// What a pass knows of its desk. These types are for the proofs: no value of them is made.
use std::collections::LinkedList;

/// Where a pass is in a call. The number is its ticket.
pub enum Stage {
    /// It has drawn no ticket.
    Idle,
    /// It waits until its ticket is served.
    Waits(u64),
    /// Its ticket is served, and it has the value.
    Holds(u64),
}

/// The numbers from the first on that are below the end.
pub struct Range {
    pub first: u64,
    pub end: u64,
}

/// What a pass had seen of the journal when it was given back.
pub struct Page<E> {
    pub number: u64,
    pub seen: LinkedList<E>,
}

/// What a pass knows.
pub struct View<F, E> {
    /// The fixed part of the desk's value; none once the pass was given back.
    pub fixed: Option<F>,
    pub stage: Stage,
    /// The numbers that the pass holds, of which the first is its own; none once it was given back.
    pub range: Range,
    /// The numbers that the passes given back to it covered.
    pub taken: LinkedList<Range>,
    /// The beginning of the journal that it has seen.
    pub seen: LinkedList<E>,
    /// What it had seen at the last step of its own. To take another pass in adds to `seen`, and nothing to this.
    pub acted: LinkedList<E>,
    /// A page for each pass that was given back to it, or to one of those.
    pub book: LinkedList<Page<E>>,
}
