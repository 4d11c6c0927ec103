//! Runs of calls on a ticket station: what they have taken and owe, and the law that every run keeps.
//! The definitions stand in specs/; here are the faults of a feed, and the laws, each in the contract of a function.
#![tactic(auto)]

pub mod fault;
pub mod laws;
