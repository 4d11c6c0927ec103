//! Equal advances.
mod methods;

ghost use Rattle.std.specs.Prelude.{◌≤◌};

use crate::steps::Steps;

/// So many advances of so many steps each, at least one.
#[derive(Clone, Copy)]
pub struct Advances {
    count: u8,
    steps: Steps,
    ghost some: { 1 ≤ count },
}
