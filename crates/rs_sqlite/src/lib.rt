//! Rows kept in a database, a row of a table each.
#![tactic(auto)]

mod file_kind;
mod files;
mod limits;
mod reopening;
mod sql_keeper;
mod statements;
mod telling_keeper;
mod versions;

pub use file_kind::{FileKind, kind_laws};
pub use files::open_files;
pub use limits::{MAX_ROWS, RUN_BYTES, RUN_ROWS, limit_laws};
pub use reopening::reopen;
pub use sql_keeper::SqlKeeper;
pub use telling_keeper::{Steadfast, TellingKeeper};
