//! Serving: many connections of many users over one hall, in as many threads as there are posts.
#![tactic(auto)]

mod meeting;
mod post;
mod returning;
mod serving;
mod staffing;
mod tally;
mod threads;
mod worker;

pub use post::Post;
pub use serving::serve_users;
pub use tally::Tally;
