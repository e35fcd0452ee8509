//! Tests of public calls on discovery and grants: queries, discovery answers, authorisation requests, consents, pages,
//! passwords and redirects.
#![tactic(auto)]

#[cfg(test)]
mod asks;
#[cfg(test)]
mod fingers;
#[cfg(test)]
mod grants;
#[cfg(test)]
mod pages;
#[cfg(test)]
mod redirects;
#[cfg(test)]
mod rows;
