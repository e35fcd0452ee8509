//! Folder descriptions: the items of a folder as JSON, written and read.
#![tactic(auto)]

mod describing;
mod folder_fault;
mod item;
mod laws;
mod reading;
mod writing;

pub use folder_fault::FolderFault;
pub use laws::{folder_laws, key_laws};
pub use reading::read_folder;
pub use writing::write_folder;
