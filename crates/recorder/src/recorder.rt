//! The recorder.
mod access;
mod acts;

ghost use Rattle.std.specs.Prelude.{◌≤◌, length};

use mechanism::counts::Counts;
use std::marker::PhantomData;

/// A mechanism that writes its actions into a buffer, in the form F; its reserve is the room left.
// The caller's buffer and how far it is written: only the tail behind that is lent on, for one action's bytes at a time.
#[derive(Drop)]
pub struct Recorder<'a, F> {
    out: &'a mut [u8],
    len: usize,
    counts: Counts,
    stopped: bool,
    form: PhantomData<F>,
    ghost within: { len ≤ length out.now },
}
