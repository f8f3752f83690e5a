//! Logs: the text of a journal, and the journals that a text tells, one behind the other.
//! Its contracts: `write_log` writes the definition's text, and `read_logs` reads exactly the texts of logs, as what they
//! tell, and names the first line that isn't the next one of any other.
#![tactic(auto)]

mod calls;
mod faults;
mod fronts;
mod laws;
mod logs;
mod reading;
mod writing;

pub use faults::LogFault;
pub use laws::{
    a_log_tells_its_journal, journal_form, logs_are_not_refused, one_list_of_logs, read_written_log,
};
pub use logs::Log;
pub use reading::read_logs;
pub use writing::write_log;
