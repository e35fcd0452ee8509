//! Tests of public calls on one connection: what messages ask, and the bytes of replies.
#![tactic(auto)]

#[cfg(test)]
mod messages;
