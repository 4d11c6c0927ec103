//! The command table of the ticket station: what each byte of a stream means.
//! The definitions stand in specs/; here are the types that they share with the code, and the laws of reading.
#![tactic(auto)]

ghost use Rattle.std.specs.Prelude.{◌≡◌};
ghost use Rattle.reading.specs.Reading.{is_text, refusal_number};
ghost use Rattle.reading.specs.Unfinished.{UnfinishedCommandsAreKept};

/// What the station can answer its host.
#[derive(Clone, Copy, PartialEq, Eq)]
pub enum Reply {
    /// Cover, paper and readiness, by bits.
    Status1,
    /// Paper and cover once more, by other bits.
    Status2,
    /// Which printer this is.
    Identity,
    /// A configuration was accepted.
    Configuration,
    /// A bar code's string has a character that its kind does not have.
    WrongCharacter,
    /// A bar code's string has a length that its kind does not have.
    WrongLength,
    /// There is no such kind of bar code.
    UnknownKind,
}

/// The codes after 1B that take one parameter byte.
#[derive(Clone, Copy, PartialEq, Eq)]
pub enum ParameterCode {
    Expanded,
    DoubleHeight,
    Underline,
    Italic,
    PrintMode,
    Spacing,
    FeedSteps,
    PageLength,
    LeftMargin,
    RightMargin,
}

/// Why a command is refused.
#[derive(Clone, Copy, PartialEq, Eq)]
pub enum Refusal {
    /// A byte or pair that is not in the table.
    UnknownCommand = 1,
    /// A complete command with a parameter out of range or order.
    OutOfRange = 2,
    /// A list of stops or a bar code's string past its length.
    TooLong = 3,
}

impl Refusal {
    /// The number under which the refusal is reported.
    // `refusal.number()` says what is meant; `u8::from(refusal)` would not.
    pub fn number(self) -> u8
        ensures { result ≡ refusal_number self }
    {
        self as u8
    }
}

/// Of an unfinished command at most 41 bytes are kept, the last ones of the stream, and they alone say what is read next.
#[tactic(auto, using(crate::proofs::Kept::kept))]
pub fn unfinished_commands_are_kept()
    ensures { UnfinishedCommandsAreKept }
{}

/// Whether a byte is text: 20 to 7E or 80 to FF.
pub fn is_text(byte: u8) -> bool
    ensures { result ≡ is_text byte }
{
    byte >= 0x20 && byte != 0x7F
}
