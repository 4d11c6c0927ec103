//! The reader of a ticket stream: what each byte means, by what is being read.
#![tactic(auto)]

pub mod command;
pub mod read_state;
pub mod text_byte;
