//! The calls of a station: each keeps the law of runs.
ghost use Rattle.std.specs.Prelude.{◌≡◌, []};
ghost use Rattle.settings.specs.Settings.{settings_of};
ghost use Rattle.mechanism.specs.Mechanisms.{Covered, Supplied};
ghost use Rattle.mechanism.specs.Statuses.{status_of};
ghost use Rattle.interpreter.specs.Interpreter.{state_of};
ghost use Rattle.runs.specs.Calls.{fed, covered, supplied, status as status_call, settings as settings_call};
ghost use Rattle.runs.specs.Stands.{viewed};
ghost use Rattle.station.specs.Feeding.{Fed};
ghost use Rattle.station.specs.Stationed.{At, Calling};

use crate::feeding;
use crate::station::Station;
use action::owed::Owed;
use interpreter::Interpreter;
use mechanism::mechanism::Mechanism;
use mechanism::status::Status;
use runs::fault::FeedFault;
use settings::Settings;

impl<M: Mechanism> Station<M> {
    /// A new interpreter beside this mechanism: no call has been made.
    #[tactic(auto, using(runs::proofs::Standing::new_stands))]
    pub fn new(mechanism: M) -> Station<M>
        ensures meets { result.mechanism ≡ mechanism }
        ensures stands { At M.Mechanism (viewed M.Mechanism mechanism) [] result }
    {
        Station {
            interpreter: Interpreter::new(),
            mechanism,
        }
    }

    /// Feeds a piece: answers how many bytes it took together with how it ended.
    pub fn feed(&mut self, piece: &[u8]) -> (usize, Result<(), FeedFault>)
        ensures course { Fed M.Mechanism self.old.interpreter self.old.mechanism piece.now result.0 result.1 self.new.interpreter self.new.mechanism }
        ensures stands { Calling M.Mechanism (fed piece.now result.0 result.1) self.old self.new }
    {
        feeding::feed(&mut self.interpreter, &mut self.mechanism, piece)
    }

    /// The cover is opened or closed.
    #[tactic(auto, using(runs::proofs::Standing::cover_keeps))]
    pub fn cover(&mut self, opened: bool)
        ensures does { Covered M.Mechanism.sheet M.Mechanism.reserve M.Mechanism.stopped M.Mechanism.stays self.old.mechanism opened self.new.mechanism }
        ensures keeps { self.new.interpreter ≡ self.old.interpreter }
        ensures stands { Calling M.Mechanism (covered opened) self.old self.new }
    {
        self.mechanism.cover(opened);
    }

    /// Offers the mechanism more reserve, and answers how much it granted.
    #[tactic(auto, using(runs::proofs::Standing::supply_keeps))]
    pub fn supply(&mut self, offered: u32) -> u32
        ensures does { Supplied M.Mechanism.sheet M.Mechanism.reserve M.Mechanism.stopped M.Mechanism.grants M.Mechanism.stays self.old.mechanism offered result self.new.mechanism }
        ensures keeps { self.new.interpreter ≡ self.old.interpreter }
        ensures stands { Calling M.Mechanism (supplied offered result) self.old self.new }
    {
        self.mechanism.supply(offered)
    }

    /// The mechanism's status bytes.
    #[tactic(auto, using(runs::proofs::Standing::status_keeps))]
    pub fn status(&self) -> Status
        ensures value { result ≡ status_of (M.Mechanism.reserve self.now.mechanism) (M.Mechanism.stopped self.now.mechanism) }
        ensures stands { Calling M.Mechanism (status_call result) self.now self.now }
    {
        self.mechanism.status()
    }

    /// The settings behind the bytes taken.
    #[tactic(auto, using(runs::proofs::Standing::settings_keeps))]
    pub fn settings(&self) -> &Settings
        ensures value { settings_of result.now ≡ (state_of self.now.interpreter).printer.settings }
        ensures stands { Calling M.Mechanism (settings_call (settings_of result.now)) self.now self.now }
    {
        self.interpreter.settings()
    }

    /// The actions owed.
    pub fn owed(&self) -> &Owed
        ensures { result.now ≡ self.now.interpreter.owed }
    {
        self.interpreter.owed()
    }

    /// The mechanism, to read its sheet.
    pub fn mechanism(&self) -> &M
        ensures { result.now ≡ self.now.mechanism }
    {
        &self.mechanism
    }
}
