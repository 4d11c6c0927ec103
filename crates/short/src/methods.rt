//! How a list is made, filled and read.
ghost use Rattle.std.specs.Prelude.{◌≡◌, ◌<◌, ◌≤◌, [], ◌∷◌, ◌++◌, length, take, MatchResult};
ghost use Rattle.short.specs.Short.{listed};

use crate::{Full, Short};

impl<const N: usize> Short<N> {
    /// The empty list.
    pub fn new() -> Short<N>
        ensures { listed result ≡ [] }
    {
        Short {
            bytes: [0; N],
            len: 0,
        }
    }

    /// These bytes, or as many of the first ones as the list has room for.
    pub fn leading(bytes: &[u8]) -> Short<N>
        ensures { listed result ≡ take N bytes.now }
    {
        let len = bytes.len().min(N);
        let mut copy = [0; N];
        copy[..len].copy_from_slice(&bytes[..len]);
        Short { bytes: copy, len }
    }

    /// How many bytes there are.
    pub fn len(&self) -> usize
        ensures value { result ≡ length (listed self.now) }
        ensures most { result ≤ N }
    {
        self.as_slice().len()
    }

    /// Puts a byte behind the others; a full list stays as it is.
    pub fn push(&mut self, byte: u8) -> Result<(), Full>
        ensures { MatchResult result (λ _. (length (listed self.old) < N) × (listed self.new ≡ listed self.old ++ byte ∷ [])) (λ _. (length (listed self.old) ≡ N) × (listed self.new ≡ listed self.old)) }
    {
        if self.len == N {
            return Err(Full);
        }
        self.bytes[self.len] = byte;
        self.len += 1;
        Ok(())
    }

    /// The bytes, from the first to the last.
    pub fn as_slice(&self) -> &[u8]
        ensures { result.now ≡ listed self.now }
    {
        &self.bytes[..self.len]
    }
}
