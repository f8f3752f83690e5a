//! Stored records: rows, what a request says of them, an account as plain data, what is kept of it, and the limits.
//! It reads the bodies of PUT and POST, and says what a put makes of a row.
//! Its contracts: the readers give exactly what a body says or its first fault, and `put` is the definition's row.
#![tactic(auto)]

mod account;
mod bodies;
mod changes;
pub mod limits;
mod members;
mod parts;
mod puts;
mod rows;

pub use account::{Batches, Plain, Staged, Times};
pub use bodies::{BodyFault, read_parts};
pub use changes::{
    BatchChange, BatchChanges, Changes, CollectionChange, CollectionChanges, Kept, RowChange,
    RowChanges,
};
pub use members::{FieldsFault, read_fields};
pub use parts::{Failures, Field, Fields, Part, Parts, Reason, Records};
pub use puts::put;
pub use rows::{Row, Rows};
