//! A pen.
ghost use Rattle.std.specs.Prelude.{◌≡◌, ◌≤◌, length};

mod marks;

/// A buffer, and how far it is written.
// The caller's buffer, of a length not known here: bytes go in behind those written, and what lies behind the last stays as found.
#[derive(Drop)]
pub struct Pen<'a> {
    out: &'a mut [u8],
    at: usize,
    ghost within: { at ≤ length out.now },
}
