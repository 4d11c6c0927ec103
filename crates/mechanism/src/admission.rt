//! Which actions are taken.
ghost use Rattle.std.specs.Prelude.{◌≡◌};
ghost use Rattle.action.specs.Meanings.{act_of};
ghost use Rattle.mechanism.specs.Refusals.{Admitted, is_reply};

use crate::fault::Fault;
use action::actions::Action;

/// Whether it answers the host.
pub fn is_reply(action: &Action) -> bool
    ensures { result ≡ is_reply (act_of action.now) }
{
    matches!(action, Action::Reply(_))
}

/// Whether an action of this need is taken at this reserve and stopped mark.
pub fn admit(action: &Action, need: u32, reserve: u32, stopped: bool) -> Result<(), Fault>
    ensures { Admitted need reserve stopped (act_of action.now) result }
{
    if stopped && !is_reply(action) {
        return Err(Fault::Stopped);
    }
    if reserve < need {
        return Err(Fault::ShortReserve);
    }
    Ok(())
}
