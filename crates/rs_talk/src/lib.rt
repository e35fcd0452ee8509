//! What a client talks with: the root of an account, a token, documents and their changes; what it asks and is answered.
#![tactic(auto)]

mod answer;
mod answer_fault;
mod ask;
mod base;
mod bearer;
mod change;
mod encode;
mod judging;
mod laws;
mod limits;
mod link;
mod link_fault;
mod part;
mod places;
mod read;
mod root;
mod root_fault;
mod shown;

pub use answer::Answer;
pub use answer_fault::AnswerFault;
pub use ask::Ask;
pub use base::Base;
pub use bearer::Bearer;
pub use change::Change;
pub use encode::encode_request;
pub use laws::answer_laws;
pub use limits::{MAX_BEARER, MAX_REPLY, MAX_ROOT, limit_laws};
pub use link::Link;
pub use link_fault::LinkFault;
pub use read::read_answer;
pub use root::Root;
pub use root_fault::RootFault;
