//! Tests of public calls on messages: requests and replies as they stand on the wire, and folder descriptions.
#![tactic(auto)]

#[cfg(test)]
mod folders;
#[cfg(test)]
mod replies;
#[cfg(test)]
mod requests;
#[cfg(test)]
mod rows;
#[cfg(test)]
mod writing;
