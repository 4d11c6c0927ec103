//! What the station is ordered to do, in fixed memory: actions, the row that is being filled, and what is owed to the mechanism.
#![tactic(auto)]

pub mod actions;
mod advances;
pub mod bars;
mod columns;
pub mod judging;
pub mod laws;
pub mod open_row;
pub mod owed;
pub mod row;
pub mod steps;
