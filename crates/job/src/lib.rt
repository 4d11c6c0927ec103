//! What job a stream orders, and what its normal text is.
//! The definitions stand in specs/; here are the types that they share with the code, and the laws that hold of them.
#![tactic(auto)]

pub mod bars;
pub mod cells;
pub mod laws;
pub mod settings;
