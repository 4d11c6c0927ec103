//! How steps are made and read.
ghost use Rattle.std.specs.Prelude.{◌≡◌, [], ◌∷◌, if◌then◌else◌, nat_eq};
ghost use Rattle.job.specs.Actions.{advance};
ghost use Rattle.action.specs.Meanings.{advance_acts};

use crate::steps::Steps;

impl Steps {
    /// An advance of 0 steps is none.
    pub fn new(count: u8) -> Option<Steps>
        ensures { advance_acts result ≡ (if nat_eq count 0 then [] else advance count ∷ []) }
    {
        if count == 0 {
            None
        } else {
            Some(Steps { count })
        }
    }

    /// How many steps they are.
    pub fn count(self) -> u8
        ensures { result ≡ self.count }
    {
        self.count
    }
}
