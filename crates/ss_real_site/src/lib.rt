//! The site of the system, the trusted edge of a server: links over TCP, a database of SQLite for each account, files for
//! logs, and the clock of the system. It stands above the terms that serve links, since it takes their reports. Its contract, on
//! `RealSite`: that of a site, where faults and links are counted, and no content is told.
#![tactic(auto)]

mod account_file;
mod log_files;
mod real_site;
mod trouble;

pub use account_file::AccountFile;
pub use log_files::LogFiles;
pub use real_site::{Folders, RealSite};
pub use trouble::Trouble;
