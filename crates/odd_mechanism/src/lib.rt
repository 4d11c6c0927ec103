//! A mechanism unlike any that is built, to try what holds of every mechanism.
#![tactic(auto)]

pub mod odd;
#[cfg(test)]
mod tests;
