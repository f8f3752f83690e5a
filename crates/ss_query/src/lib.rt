//! Requests and replies of one account as data, and the queries of a collection. It reads the text of a query and
//! answers a query over a list of rows. Its contracts: a query is read exactly or refused with its first fault, and its
//! answer is one expression over the list.
#![tactic(auto)]

mod answers;
mod fit;
mod queries;
mod reasons;
mod replies;
mod requests;

pub use answers::{answer_found, answer_query, asks_for, ids_found};
pub use fit::{are_within_post, is_fit};
pub use queries::{QueryFault, read_ids, read_parameter, read_query};
pub use reasons::reason_name;
pub use replies::{Body, Mark, Numbers, Picked, PickedIds, Reply, Said};
pub use requests::{Info, Mode, Query, Request, Sort};
pub use ss_text::Cond;
