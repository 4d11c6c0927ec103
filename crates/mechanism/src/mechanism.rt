//! The interface of every mechanism.
ghost use Rattle.std.specs.Prelude.{◌≡◌, ℕ, Bool, List};
ghost use Rattle.job.specs.Actions.{Act};
ghost use Rattle.action.specs.Meanings.{act_of};
ghost use Rattle.mechanism.specs.Mechanisms.{Acted, Covered, Supplied, Laws};
ghost use Rattle.mechanism.specs.Statuses.{status_of};

use crate::fault::Fault;
use crate::status::Status;
use action::actions::Action;

pub trait Mechanism {
    // what the actions taken have made
    ghost sheet: { Self → List ℕ };

    // how much is left to act with
    ghost reserve: { Self → ℕ };

    // whether it is stopped
    ghost stopped: { Self → Bool };

    // how much reserve there must be for an action
    ghost need: { Act → ℕ };

    // the sheet that an action makes of a sheet
    ghost rule: { List ℕ → Act → List ℕ };

    // the seven counts that a sheet shows
    ghost counts: { List ℕ → List ℕ };

    // whatever else is promised of an action taken
    ghost took: { Self → Act → Self → Type 0 };

    // which grants are made of an offer
    ghost grants: { Self → ℕ → ℕ → Type 0 };

    // whatever else is promised to stay when the cover is moved or more is supplied
    ghost stays: { Self → Self → Type 0 };

    // what every mechanism must prove of these
    ghost laws: { Laws sheet reserve stopped need rule counts took };

    /// Carries an action out, or refuses it and changes nothing.
    fn act(&mut self, action: &Action) -> Result<(), Fault>
        ensures { Acted reserve stopped need took self.old (act_of action.now) result self.new };

    /// The cover is opened or closed: an open one stops the mechanism.
    fn cover(&mut self, opened: bool)
        ensures { Covered sheet reserve stopped stays self.old opened self.new };

    /// Adds to the reserve, and answers how much of the offer was granted.
    fn supply(&mut self, offered: u32) -> u32
        ensures { Supplied sheet reserve stopped grants stays self.old offered result self.new };

    /// The status bytes as at this moment.
    // No body here: the trait asks for no reserve and no mark that code could read.
    fn status(&self) -> Status
        ensures { result ≡ status_of (reserve self.now) (stopped self.now) };
}
