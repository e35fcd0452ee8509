//! Rows: their fields with the places of faults, and the opening of rows, whatever they spell.
#![tactic(auto)]

mod field;
mod meaning;
mod meant_field;
mod open_fault;
mod opening;
mod refusal;
mod row_fault;
mod writing;

pub use field::{
    read_body, read_bytes, read_end, read_text_1, read_text_2, read_u16, read_u32, read_u64,
};
pub use meaning::{read_document, read_kind, read_optional_tag, read_path, read_scopes, read_tag};
pub use meant_field::{
    read_document_field, read_kind_field, read_optional_tag_field, read_path_field,
    read_scopes_field,
};
pub use open_fault::OpenFault;
pub use opening::{Replayed, open_rows};
pub use refusal::{Refusal, TakeFault};
pub use row_fault::RowFault;
pub use writing::{push_behind_1, push_behind_2};
