//! The odd mechanism.
mod acts;

ghost use Rattle.std.specs.Prelude.{◌^◌, ◌<◌};

use mechanism::counts::Counts;

/// It starts stopped and at work, needs something for every action, and spends only half of it.
#[derive(Drop)]
pub struct OddMechanism {
    counts: Counts,
    /// What the actions taken needed, modulo 2^32.
    work: u32,
    reserve: u32,
    stopped: bool,
    ghost bounded: { reserve < 2 ^ 32 },
}
