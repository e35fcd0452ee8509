//! One user's state: it decides requests on a tree, and keeps a row for each accepted record.
#![tactic(auto)]

mod access;
mod applying;
mod conditions;
mod decision;
mod fronts;
mod granted;
mod keeping;
mod laws;
mod limits;
mod opening;
mod place;
mod preparation;
mod regrants;
mod sight;
mod solo_desk;
mod state;
mod turning;

pub use laws::turn_laws;
pub use preparation::PreparedRequest;
pub use rs_rules::OpenFault;
pub use solo_desk::SoloDesk;
pub use state::UserState;
