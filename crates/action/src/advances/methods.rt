//! How advances are counted off.
ghost use Rattle.std.specs.Prelude.{◌≡◌, ◌-◌, ◌≤◌, Some, replicate};
ghost use Rattle.action.specs.Meanings.{advance_act, advances_acts};

use crate::advances::Advances;
use crate::steps::Steps;

impl Advances {
    /// So many advances of these steps; none if the count is 0.
    pub fn new(count: u8, steps: Steps) -> Option<Advances>
        ensures { advances_acts result ≡ replicate count (advance_act steps) }
    {
        if count == 0 {
            None
        } else {
            Some(Advances { count, steps })
        }
    }

    /// One less of them, where they are several.
    pub fn remove_first(&mut self)
        requires { 2 ≤ self.old.count }
        ensures { advances_acts (Some self.new) ≡ replicate (self.old.count - 1) (advance_act self.old.steps) }
    {
        self.count -= 1;
    }

    /// How many advances they are.
    pub fn count(self) -> u8
        ensures { result ≡ self.count }
    {
        self.count
    }

    /// The steps of each.
    pub fn steps(self) -> Steps
        ensures { result ≡ self.steps }
    {
        self.steps
    }
}
