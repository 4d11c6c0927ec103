//! The station: feeds pieces of a stream through an interpreter to a mechanism.
#![tactic(auto)]

pub mod feeding;
pub mod station;
pub mod whole;
