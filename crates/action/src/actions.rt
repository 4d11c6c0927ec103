//! What a stream can order.
ghost use Rattle.std.specs.Prelude.{◌≡◌};
ghost use Rattle.action.specs.Meanings.{act_of, other_act};

use crate::bars::Bars;
use crate::row::Row;
use crate::steps::Steps;
use reading::Reply;

/// How the paper is cut.
#[derive(Clone, Copy, PartialEq, Eq)]
pub enum Cut {
    Total,
    Partial,
}

/// What the mechanism is to do. The cases of `Other` stand here again, so that a mechanism matches one enum.
#[derive(Clone, Copy)]
pub enum Action {
    Row(Row),
    Advance(Steps),
    Bars(Bars),
    Cut(Cut),
    /// Pulse the drawer.
    Pulse,
    Beep,
    /// Answer the host.
    Reply(Reply),
}

/// An action that is neither a row nor an advance.
#[derive(Clone, Copy)]
pub enum Other {
    Bars(Bars),
    Cut(Cut),
    Pulse,
    Beep,
    Reply(Reply),
}

impl From<Other> for Action {
    ghost from_gives = { λ other action. act_of action ≡ other_act other };

    fn from(other: Other) -> Action {
        match other {
            Other::Bars(bars) => Action::Bars(bars),
            Other::Cut(cut) => Action::Cut(cut),
            Other::Pulse => Action::Pulse,
            Other::Beep => Action::Beep,
            Other::Reply(reply) => Action::Reply(reply),
        }
    }
}
