//! A recorder: the mechanism that writes its actions into a buffer, in a form of one's choice.
#![tactic(auto)]

mod appending;
pub mod form;
pub mod recorder;
