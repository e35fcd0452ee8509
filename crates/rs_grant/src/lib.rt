//! Grants: how an app asks a user for a token, by the implicit grant of OAuth 2.0 (RFC 6749, section 4.2).
#![tactic(auto)]

mod ask;
mod asking;
mod choice;
mod consent;
mod escaping;
mod grant_fault;
mod grant_word;
mod laws;
mod outcome;
mod page;
mod password;
mod redirecting;

pub use ask::Ask;
pub use asking::read_ask;
pub use choice::Choice;
pub use consent::read_consent;
pub use grant_fault::GrantFault;
pub use grant_word::GrantWord;
pub use laws::{ask_laws, consent_laws, escape_laws, page_laws, redirect_laws};
pub use outcome::Outcome;
pub use page::consent_page;
pub use password::password_fits;
pub use redirecting::redirect;
