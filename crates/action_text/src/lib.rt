//! The normal text of an action, written into a buffer.
#![tactic(auto)]

mod fixed_texts;
pub mod needs;
mod pen;
mod row_text;
pub mod writing;
