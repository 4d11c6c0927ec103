//! The normal text of a stream: the one stream by which a plant releases a ticket.
#![tactic(auto)]

pub mod answer;
pub mod normalise;
