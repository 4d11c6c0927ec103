//! What is owed to the mechanism.
ghost use Rattle.std.specs.Prelude.{◌≡◌, [], ◌∷◌, length, drop, Decides, MatchOption};
ghost use Rattle.action.specs.Meanings.{act_of, row_acts, advances_of, other_acts};
ghost use Rattle.action.specs.Owed.{Owes, owed_acts, owed_row, owed_advances, owed_other};

use crate::actions::{Action, Other};
use crate::advances::Advances;
use crate::row::Row;
use crate::steps::Steps;

/// At most one row, then equal advances, then at most one other action.
#[derive(Clone, Copy)]
pub struct Owed {
    row: Option<Row>,
    advances: Option<Advances>,
    other: Option<Other>,
}

impl Owed {
    /// Nothing is owed.
    pub fn new() -> Owed
        ensures { Owes result [] [] [] }
    {
        Owed {
            row: None,
            advances: None,
            other: None,
        }
    }

    /// Whether nothing is owed.
    #[tactic(auto, using(crate::proofs::Owing::advances_owed))]
    pub fn is_empty(&self) -> bool
        ensures { Decides result (owed_acts self.now ≡ []) }
    {
        self.row.is_none() && self.advances.is_none() && self.other.is_none()
    }

    /// How many actions are owed.
    pub fn len(&self) -> usize
        ensures { result ≡ length (owed_acts self.now) }
    {
        let advances = self
            .advances
            .map_or(0, |advances| usize::from(advances.count()));
        usize::from(self.row.is_some()) + advances + usize::from(self.other.is_some())
    }

    /// What is owed first.
    pub fn first(&self) -> Option<Action>
        ensures { MatchOption result (owed_acts self.now ≡ []) (λ a. owed_acts self.now ≡ act_of a ∷ drop 1 (owed_acts self.now)) }
    {
        if let Some(row) = &self.row {
            return Some(Action::Row(*row));
        }
        if let Some(advances) = self.advances {
            return Some(Action::Advance(advances.steps()));
        }
        self.other.map(Action::from)
    }

    /// What is owed first is owed no more.
    pub fn remove_first(&mut self)
        ensures { owed_acts self.new ≡ drop 1 (owed_acts self.old) }
    {
        if self.row.is_some() {
            self.row = None;
        } else if let Some(advances) = &mut self.advances {
            // In place: made anew, both numbers would be written, and read again for the next one.
            if advances.count() == 1 {
                self.advances = None;
            } else {
                advances.remove_first();
            }
        } else {
            self.other = None;
        }
    }

    /// Replaces the row.
    pub fn set_row(&mut self, row: Option<Row>)
        ensures { Owes self.new (row_acts row) (owed_advances self.old) (owed_other self.old) }
    {
        self.row = row;
    }

    // Numbers and no Option: a spacing or a parameter may be 0, and whoever has one would have to make the Option of it.
    /// Replaces the advances: so many of so many steps each, or none if either is 0.
    pub fn set_advances(&mut self, count: u8, steps: u8)
        ensures { Owes self.new (owed_row self.old) (advances_of count steps) (owed_other self.old) }
    {
        self.advances = Steps::new(steps).and_then(|steps| Advances::new(count, steps));
    }

    /// Replaces the other action.
    pub fn set_other(&mut self, other: Option<Other>)
        ensures { Owes self.new (owed_row self.old) (owed_advances self.old) (other_acts other) }
    {
        self.other = other;
    }

    /// Replaces all that is owed.
    pub fn set(&mut self, row: Option<Row>, advances: u8, steps: u8, other: Option<Other>)
        ensures { Owes self.new (row_acts row) (advances_of advances steps) (other_acts other) }
    {
        self.set_row(row);
        self.set_advances(advances, steps);
        self.set_other(other);
    }
}
