//! Bytes written in hexadecimal, as listings, tests and scripts have them: two digits each, 0 to 9 and A to F, nothing between them.
// Not the crate hex: it reads a to f too, and gives the digits A to F only in a String of their own; a line of a listing is written without a heap.
#![tactic(auto)]

ghost use Rattle.std.specs.Prelude.{◌≡◌, ◌<◌, ◌++◌, Some, MatchResult};
ghost use Rattle.hexadecimal.specs.Digits.{byte_value, digit_of, digit_value, decoded, encoded, two_digits, EncodesBack, Undecoded};
ghost use Rattle.hexadecimal.specs.declared.fault.HexFault.TheVariants.{OutOfMemory};

mod fault;

pub use fault::HexFault;
use std::alloc::{AllocError, AllocFailed, Global};

// By hand: a derived From has no contract, and the clause of decode names the fault.
impl<T: Drop> From<AllocFailed<T>> for HexFault {
    ghost from_gives = { λ _ r. r ≡ OutOfMemory };

    fn from(_refused: AllocFailed<T>) -> HexFault {
        HexFault::OutOfMemory
    }
}

/// The value of a digit. The standard parsers read a to f too, which are no digits here.
fn digit(c: u8) -> Option<u8>
    ensures { result ≡ digit_value c }
{
    match c {
        b'0'..=b'9' => Some(c - b'0'),
        b'A'..=b'F' => Some(c - b'A' + 10),
        _ => None,
    }
}

/// The byte of two digits.
fn byte(a: u8, b: u8) -> Option<u8>
    ensures { result ≡ byte_value a b }
{
    let high = digit(a)?;
    let low = digit(b)?;
    Some(16 * high + low)
}

/// The bytes that a text writes.
pub fn decode(heap: Global, text: &[u8]) -> Result<Vec<u8>, HexFault>
    ensures { MatchResult result (λ bytes. decoded text.now ≡ Some bytes.items) (Undecoded text.now) }
{
    let mut bytes = Vec::new(heap);
    let mut rest = text;
    // chunks_exact would need a second look, at its remainder, for an odd digit at the end; here that is what is left.
    while let [a, b, tail @ ..] = rest {
        bytes.push(byte(*a, *b).ok_or(HexFault::NotHexadecimal)?)?;
        rest = tail;
    }
    if rest.is_empty() {
        Ok(bytes)
    } else {
        Err(HexFault::NotHexadecimal)
    }
}

/// The digit of a value below 16.
// By hand: the library's `from_digit` has small letters.
fn to_digit(value: u8) -> u8
    requires { value < 16 }
    ensures { result ≡ digit_of value }
{
    if value < 10 {
        b'0' + value
    } else {
        b'A' - 10 + value
    }
}

/// The two digits of a byte.
pub fn two_digits(byte: u8) -> [u8; 2]
    ensures { result ≡ two_digits byte }
{
    [to_digit(byte / 16), to_digit(byte % 16)]
}

/// Adds bytes to a text, in hexadecimal.
pub fn encode(text: &mut Vec<u8>, bytes: &[u8]) -> Result<(), AllocError>
    ensures { MatchResult result (λ _. text.new.items ≡ text.old.items ++ encoded bytes.now) (λ _. Unit) }
{
    // A `for`: every turn may fail.
    for byte in bytes {
        text.extend_from_slice(&two_digits(*byte))?;
    }
    Ok(())
}

/// What is encoded is decoded again.
#[tactic(auto, using(crate::proofs::Encoded::encodes_back))]
pub fn hexadecimal_is_read_back()
    ensures { EncodesBack }
{}
