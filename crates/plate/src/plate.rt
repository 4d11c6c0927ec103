//! The drive plate.
mod access;
mod acts;

ghost use Rattle.std.specs.Prelude.{◌≤◌};
ghost use Rattle.plate.specs.Paper.{paper_limit};

use mechanism::counts::Counts;
use short::Short;

/// A mechanism that counts what it does; its reserve is the paper, in steps.
#[derive(Drop)]
pub struct Plate {
    counts: Counts,
    reserve: u32,
    stopped: bool,
    /// The bytes of the latest reply; none if there was no reply yet.
    // Empty and no Option: a reply has at least a byte, and all that is asked of the latest is its bytes.
    latest: Short<7>,
    ghost stored: { reserve ≤ paper_limit },
}
