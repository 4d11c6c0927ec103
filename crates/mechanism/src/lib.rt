//! What carries actions out: one interface for every mechanism, and the parts that mechanisms share.
#![tactic(auto)]

pub mod admission;
pub mod buffers;
pub mod counts;
pub mod fault;
pub mod mechanism;
pub mod status;
