//! Why a text is not decoded.
use thiserror::Error;

/// Why a text is not decoded.
#[derive(Clone, Copy, Debug, Error)]
pub enum HexFault {
    /// An odd number of digits, or a character that is no digit.
    #[error("this is not hexadecimal: two digits 0 to 9 or A to F for each byte")]
    NotHexadecimal,
    /// There is no memory for the bytes.
    #[error("there is no memory for the bytes")]
    OutOfMemory,
}
