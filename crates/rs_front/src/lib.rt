//! Serving one connection: messages in, replies out, over any desk.
#![tactic(auto)]

mod drawing;
mod granting;
mod input;
mod output;
mod sending;
mod serve;
mod settling;

pub use drawing::draw_token;
pub use granting::grant_law;
pub use output::one_output;
pub use rs_exchange::{
    Account, Accounts, Answer, Asked, Config, HEAD_ROOM, MAX_REPLIES, Manner, Methods, Refusal,
    RequestLine, Sheet, Target, Verb, Written, closing_lines, fault_status, head_room,
    interim_lines, manner_of, read_line, read_request, redirect_to, starved_lines, target_of,
    target_parts, verb_of, write_answer,
};
pub use serve::{End, serve_stream};
