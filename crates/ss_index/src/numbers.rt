//! What is counted of collections.
ghost use Rattle.std.specs.Prelude.{◌≡◌, ◌++◌, IfOk, OnOk};
ghost use Rattle.ss_query.specs.Told.{by_name};
ghost use Rattle.ss_index.specs.Numbers.{capped_number, entry_of, measured_rows};

use crate::drawer::Drawer;
use ss_query::Numbers;
use ss_text::Name;
use std::alloc::{AllocError, Global};

/// What is counted of a collection's rows.
#[derive(Clone, Copy)]
pub(crate) enum Measure {
    /// Their number.
    Rows,

    /// Their payload bytes.
    Bytes,
}

impl Measure {
    fn of(self, drawer: &Drawer) -> u64
        ensures { result ≡ measured_rows self drawer.now.rows }
    {
        match self {
            Measure::Rows => u64::from(drawer.len()),
            Measure::Bytes => capped(drawer.bytes()),
        }
    }

    /// Notes a collection with what is counted of it, where it has a row.
    pub(crate) fn note(
        self,
        alloc: Global,
        numbers: &mut Vec<(Name, u64)>,
        name: &Name,
        drawer: &Drawer,
    ) -> Result<(), AllocError>
        ensures { OnOk result (numbers.new.items ≡ numbers.old.items ++ entry_of self (name.now, drawer.now)) }
    {
        if !drawer.has_rows() {
            return Ok(());
        }
        numbers.push((name.copy(alloc)?, self.of(drawer)))?;
        Ok(())
    }
}

/// A number, or the greatest u64 where it is more.
pub(crate) fn capped(number: u128) -> u64
    ensures { result ≡ capped_number number }
{
    number.min(u128::from(u64::MAX)) as u64
}

/// The numbers, upwards by name.
pub(crate) fn by_name(mut numbers: Vec<(Name, u64)>) -> Result<Numbers, AllocError>
    ensures { IfOk result (λ ordered. ordered ≡ by_name numbers.items) }
{
    numbers.sort_by(|entry, other| entry.0.cmp(&other.0))?;
    Ok(Numbers::new(numbers))
}
