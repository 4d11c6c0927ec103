//! Why there is no text.
use thiserror::Error;

/// Why a stream has no whole normal text.
#[derive(Clone, Copy, Debug, Error)]
pub enum TextFault {
    /// The stream has more than 65,536 bytes.
    #[error("refusal 6: the stream has more than 65536 bytes")]
    StreamTooLong,
    /// The writer refuses an action in a buffer of 64 MiB.
    #[error("refusal 5: the normal text has more than 64 MiB")]
    TextTooLong,
    /// There is no memory for the text.
    #[error("there is no memory for the normal text")]
    OutOfMemory,
}
