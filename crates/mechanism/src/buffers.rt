//! A buffer that is lent to a mechanism, and the part of it that is written.
ghost use Rattle.std.specs.Prelude.{◌≡◌, take};
ghost use Rattle.mechanism.specs.Buffers.{room_left};

/// How many bytes of a buffer of this length may still be written behind so many; no more than 2^32 - 1 bytes of it are used.
pub fn room(length: usize, written: usize) -> u32
    ensures { result ≡ room_left length written }
{
    length.min(0xFFFF_FFFF).saturating_sub(written) as u32
}

/// So many bytes from the front, or all if there are fewer.
// Total, so that whoever keeps a length beside a buffer has nothing to promise.
pub fn front(bytes: &[u8], count: usize) -> &[u8]
    ensures { result.now ≡ take count bytes.now }
{
    let end = count.min(bytes.len());
    &bytes[..end]
}
