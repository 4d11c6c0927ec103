//! Lists of bytes in fixed memory.
#![tactic(auto)]

ghost use Rattle.std.specs.Prelude.{◌≡◌, ◌≤◌, length};

mod methods;

/// A list of at most N bytes.
// Not the library's ArrayVec, which is not Copy, as what is read and what is set are.
// No Model: its view would forget the bytes behind the list, and such a type cannot be Copy.
#[derive(Clone, Copy)]
pub struct Short<const N: usize> {
    bytes: [u8; N],
    len: usize,
    ghost long: { length bytes ≡ N },
    ghost fits: { len ≤ N },
}

/// The list has no room for a byte more.
#[derive(Clone, Copy, PartialEq, Eq, Debug)]
pub struct Full;
