//! What the parts of a stream are, and what is awaited while one is read.

/// What is awaited of the command that is being read. The bytes that have come are not kept.
#[derive(Clone, Copy)]
pub enum Awaited {
    Text,
    /// The code after 1B.
    EscapeCode,
    /// The code after 1D.
    GroupCode,
    /// So many bytes.
    Bytes(u8),
    /// So many bytes, then at most so many that are not 00, then 00.
    List(u8, u8),
}

/// A part of a stream, which borrows its bytes.
#[derive(Clone, Copy)]
pub enum Token<'a> {
    /// T: text bytes, as many as follow up to 16.
    Text(&'a [u8]),
    /// C: a single byte that is a whole command.
    Control(&'a [u8]),
    /// E: a complete command, in range or not.
    Command(&'a [u8]),
    /// X: a command that is unknown or past its length, up to the byte that shows it.
    Refused(&'a [u8]),
    /// U: an unfinished command at the stream's end.
    Unfinished(&'a [u8]),
}

// The faults have numbers and no sentences: the crates above write those, since a device needs no formatting.

/// Why no token is given.
#[derive(Clone, Copy, PartialEq, Eq, Debug)]
pub enum TokenFault {
    /// The stream has more than 65,536 bytes.
    StreamTooLong = 6,
}

/// Why no line is written.
#[derive(Clone, Copy, PartialEq, Eq, Debug)]
pub enum LineFault {
    /// No token is given.
    Token(TokenFault),
    /// The buffer has fewer than 134 bytes.
    BufferTooShort,
}
