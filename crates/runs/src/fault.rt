//! How a feed can fail.
ghost use Rattle.std.specs.Prelude.{◌≡◌};
ghost use Rattle.runs.specs.Outcomes.{Command, Mechanism, number_of, place_of};

use mechanism::fault::Fault;
use reading::Refusal;

/// A refused command: why, and the place of its first byte, counted from the start of the piece; negative if it began earlier, down to -41.
#[derive(Clone, Copy, PartialEq, Eq)]
pub struct RefusedCommand {
    pub refusal: Refusal,
    pub place: i64,
}

/// What ended a feed before the end of its piece.
#[derive(Clone, Copy, PartialEq, Eq)]
pub enum FeedFault {
    /// The interpreter refused a command.
    Command(RefusedCommand),
    /// The mechanism refused an action.
    Mechanism(Fault),
}

// By hand, as the one below: a derived From has no contract, and clauses name the fault that a ? makes.
impl From<Fault> for FeedFault {
    ghost from_gives = { λ f r. r ≡ Mechanism f };

    fn from(fault: Fault) -> FeedFault {
        FeedFault::Mechanism(fault)
    }
}

impl From<RefusedCommand> for FeedFault {
    ghost from_gives = { λ f r. r ≡ Command f };

    fn from(refused: RefusedCommand) -> FeedFault {
        FeedFault::Command(refused)
    }
}

impl FeedFault {
    /// The number under which the fault is reported; a method and no From, since u8::from(fault) would not say which number.
    pub fn number(self) -> u8
        ensures { result ≡ number_of self }
    {
        match self {
            FeedFault::Command(refused) => refused.refusal.number(),
            FeedFault::Mechanism(fault) => fault.number(),
        }
    }

    /// The place of a refused command.
    pub fn place(self) -> Option<i64>
        ensures { result ≡ place_of self }
    {
        match self {
            FeedFault::Command(refused) => Some(refused.place),
            FeedFault::Mechanism(_) => None,
        }
    }
}
