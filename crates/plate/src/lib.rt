//! The drive plate: the mechanism that moves paper and drawer and answers the host.
#![tactic(auto)]

pub mod plate;
mod replies;
