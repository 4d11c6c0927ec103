//! How much of each kind of action was taken.
ghost use Rattle.std.specs.Prelude.{◌≡◌, replicate};
ghost use Rattle.action.specs.Meanings.{act_of};
ghost use Rattle.mechanism.specs.Counts.{counted, tally};

use action::actions::Action;

/// Seven counts, modulo 2^32: the steps advanced, and how many there were of each other action.
#[derive(Clone, Copy, PartialEq, Eq, Default)]
pub struct Counts {
    pub advance: u32,
    pub rows: u32,
    pub bars: u32,
    pub cuts: u32,
    pub pulses: u32,
    pub beeps: u32,
    pub replies: u32,
}

impl Counts {
    /// All counts at 0.
    pub fn new() -> Counts
        ensures { tally result ≡ replicate 7 0 }
    {
        Counts::default()
    }

    /// Counts an action that was taken.
    pub fn add(&mut self, action: &Action)
        ensures { tally self.new ≡ counted (tally self.old) (act_of action.now) }
    {
        // Each arm writes its own count: of one that is lent in an arm and written behind the match, no proof says what it becomes.
        match action {
            Action::Advance(steps) => {
                self.advance = self.advance.wrapping_add(u32::from(steps.count()));
            }
            Action::Row(_) => self.rows = self.rows.wrapping_add(1),
            Action::Bars(_) => self.bars = self.bars.wrapping_add(1),
            Action::Cut(_) => self.cuts = self.cuts.wrapping_add(1),
            Action::Pulse => self.pulses = self.pulses.wrapping_add(1),
            Action::Beep => self.beeps = self.beeps.wrapping_add(1),
            Action::Reply(_) => self.replies = self.replies.wrapping_add(1),
        }
    }
}
