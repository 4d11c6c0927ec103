//! The text writer: the mechanism that writes each action's normal text into a buffer.
#![tactic(auto)]

pub mod writer;
