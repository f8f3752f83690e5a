//! A gate that ends links.

use ss_links::Gate;

/// Ends each link by the response to its message with this number, counted from 1, and by those behind it; 0 ends none.
#[derive(Clone, Copy)]
pub struct Ending {
    pub from: u64,
}

impl Gate for Ending {
    ghost use Rattle.std.specs.Prelude.{⊤};

    ghost says = { λ gate worker turn closes. ⊤ };

    fn pass(&self, _worker: u32, turn: u64) -> bool {
        self.from != 0 && turn.saturating_add(1) >= self.from
    }

    fn fills(&self) {}

    fn starves(&self) {}
}
