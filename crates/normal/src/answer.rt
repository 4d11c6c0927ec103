//! What normalise answers.
ghost use Rattle.std.specs.Prelude.{◌≡◌};
ghost use Rattle.normal.specs.declared.answer.NormaliseFault.TheVariants.{Feed};
ghost use Rattle.normal.specs.Answers.{number_of};

use runs::fault::FeedFault;

/// Why a normal text is not written whole.
#[derive(Clone, Copy, PartialEq, Eq)]
pub enum NormaliseFault {
    /// The stream has more than 65,536 bytes.
    StreamTooLong,
    /// The feed to the writer ended before the stream did.
    Feed(FeedFault),
}

// By hand, as runs' own: a derived From has no contract, and the clause of `ended` names the fault that a ? makes.
impl From<FeedFault> for NormaliseFault {
    ghost from_gives = { λ fault r. r ≡ Feed fault };

    fn from(fault: FeedFault) -> NormaliseFault {
        NormaliseFault::Feed(fault)
    }
}

impl NormaliseFault {
    /// The number under which the fault is reported.
    // A method, since a reader of `fault.number()` sees what is meant, and of `u8::from(fault)` not.
    pub fn number(self) -> u8
        ensures { result ≡ number_of self }
    {
        match self {
            NormaliseFault::StreamTooLong => 6,
            NormaliseFault::Feed(fault) => fault.number(),
        }
    }
}

/// How much of the buffer is written, how many refused commands were passed over, and whether the text is whole.
#[derive(Clone, Copy)]
pub struct Normalised {
    pub written: usize,
    pub passed_over: usize,
    pub outcome: Result<(), NormaliseFault>,
}
