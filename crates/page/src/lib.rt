//! A page picture: the mechanism that writes each row into a buffer.
#![tactic(auto)]

pub mod page;
mod picture;
