//! The top calls of `rs`: the commands, over objects of the outside.
#![tactic(auto)]

mod asking;
mod causes;
mod command;
mod forms;
mod granting;
mod laws;
mod note;
mod number;
mod printing;
mod reading;
mod request_fault;
mod run;
mod serving;
mod status;
mod texts;

pub use command::{Command, RowsFile, Serving, WordFault};
pub use laws::completeness_law;
pub use note::Note;
pub use printing::{print_count, print_line};
pub use reading::read_command;
pub use run::{rows_file, run_here};
pub use status::Status;
