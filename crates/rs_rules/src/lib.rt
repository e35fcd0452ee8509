//! The model: histories of accepted records, what they show, the answer to a request, and the traits of trees and desks.
#![tactic(auto)]

mod call;
mod cond;
mod cond_fault;
mod desk;
mod doc;
mod entity_tag;
mod laws;
mod limits;
mod pass;
mod placed;
mod reading;
mod reply;
mod request;
mod tag_list;
mod tree;
mod turn;

pub use call::Call;
pub use cond::Cond;
pub use cond_fault::CondFault;
pub use desk::{Desk, DeskFault};
pub use doc::Doc;
pub use entity_tag::EntityTag;
pub use laws::{
    answer_laws, growth_laws, lawful_laws, listing_laws, live_laws, never_returns_law,
    same_version_law, settle_law, step_laws, taken_laws, version_bounds, version_law,
};
pub use limits::{MAX_ITEMS, MAX_LEN, limit_laws};
pub use pass::Pass;
pub use placed::Placed;
pub use reply::Reply;
pub use request::Request;
pub use rs_row::OpenFault;
pub use tag_list::TagList;
pub use tree::Tree;
pub use turn::Turn;
