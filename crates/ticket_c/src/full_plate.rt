//! A plate that never runs short of paper.
mod acts;
#[cfg(test)]
mod tests;

ghost use Rattle.std.specs.Prelude.{◌≤◌};
ghost use Rattle.mechanism.specs.Mechanisms.{need_limit};

use plate::plate::Plate;

/// A plate that is filled up when an action leaves less paper than the next one may need; whoever feeds it takes it for full.
#[derive(Drop)]
pub struct FullPlate {
    plate: Plate,
    ghost enough: { need_limit ≤ plate.reserve },
}
