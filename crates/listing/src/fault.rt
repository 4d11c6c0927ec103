//! Why a stream is not listed.
use stream::{LineFault, TokenFault};
use thiserror::Error;

/// Why a stream is not listed.
#[derive(Clone, Copy, Debug, Error)]
pub enum ListingFault {
    /// No line is written.
    #[error("refusal {}: {}", .0.number(), reason(*.0))]
    Line(LineFault),
    /// There is no memory for the listing.
    #[error("there is no memory for the listing")]
    OutOfMemory,
}

/// Why no line is written; the fault's own crate needs no formatting.
fn reason(fault: LineFault) -> &'static str {
    match fault {
        LineFault::Token(TokenFault::StreamTooLong) => "the stream has more than 65536 bytes",
        LineFault::BufferTooShort => "the line's buffer has fewer than 134 bytes",
    }
}
