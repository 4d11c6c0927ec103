//! A stream's job for people: the text of each action on a line of its own, and the commands that are refused.
#![tactic(auto)]

mod fault;
mod lines;
pub mod reporting;
pub mod whole_text;

pub use fault::TextFault;
