//! A row that is ordered.
ghost use Rattle.std.specs.Prelude.{◌≡◌, MatchOption};
ghost use Rattle.job.specs.Actions.{row};
ghost use Rattle.job.specs.Orderable.{Orderable};

use crate::columns::{all_blank, laid_out};
use job::cells::Cell;

/// The columns of a row that a stream can order.
#[derive(Clone, Copy)]
pub struct Row {
    pub(crate) cells: [Cell; 48],
    ghost ok: { ∥ Orderable (row cells) ∥₁ },
}

impl Row {
    /// The row of these columns, if a stream can order it.
    pub fn new(cells: [Cell; 48]) -> Option<Row>
        ensures { MatchOption result (Orderable (row cells) → ⊥) (λ x. x.cells ≡ cells) }
    {
        if laid_out(&cells) && !all_blank(&cells) {
            Some(Row { cells })
        } else {
            None
        }
    }

    /// The columns, from the first to the last.
    pub fn cells(&self) -> &[Cell]
        ensures { result.now ≡ self.now.cells }
    {
        &self.cells
    }
}
