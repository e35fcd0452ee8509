//! Tests of `rs_serve` and `rs_serve_cli`: the command `serve` over posts, keepers and a sink in memory.
#![tactic(auto)]

#[cfg(test)]
mod abreast;
#[cfg(test)]
mod held_listener;
#[cfg(test)]
mod latch;
#[cfg(test)]
mod objects;
#[cfg(test)]
mod running;
