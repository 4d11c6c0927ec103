//! The row that is being filled.
mod methods;

ghost use Rattle.std.specs.Prelude.{◌≡◌, ◌≤◌, length, take};
ghost use Rattle.job.specs.Orderable.{LaidOut};
ghost use Rattle.job.specs.Invariants.{TextCharacter};

use job::cells::Cell;

/// Why nothing was put into the row.
#[derive(Clone, Copy, Debug, PartialEq, Eq)]
pub enum NotPut {
    /// The code is no text byte.
    NoText,
    /// The row has no room for it.
    NoRoom,
}

/// The columns before the position: a tail exactly behind each wide character, and only text bytes.
#[derive(Clone, Copy)]
pub struct OpenRow {
    // Fixed memory, and no `Short`, which lists bytes: a list generic over its elements would owe their size's bound at each type.
    // No Model either: its view would forget the columns behind the count, and a row is copied.
    cells: [Cell; 48],
    len: u8,
    ghost sized: { length cells ≡ 48 },
    ghost within: { len ≤ 48 },
    ghost laid: { ∥ LaidOut TextCharacter (take len cells) ∥₁ },
}
