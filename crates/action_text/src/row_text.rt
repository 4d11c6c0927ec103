//! The text of a row.
ghost use Rattle.std.specs.Prelude.{◌≡◌, ◌≤◌, [], ◌∷◌, ◌++◌, length, take};
ghost use Rattle.job.specs.Actions.{plain, row};
ghost use Rattle.job.specs.NormalText.{mode_bits, attribute_change, cells_text, up_to_last, action_text};
ghost use Rattle.action_text.specs.RowTexts.{cell_text, attributes_after};
ghost use Rattle.action_text.specs.Pens.{left, Wrote};

use crate::pen::Pen;
use job::cells::{Attributes, Cell};

/// The four attributes that 1B 21 sets, as its bits.
fn mode_bits(a: Attributes) -> u8
    ensures { result ≡ mode_bits a }
{
    8 * u8::from(a.emphasised)
        + 16 * u8::from(a.tall)
        + 32 * u8::from(a.wide)
        + 128 * u8::from(a.underlined)
}

/// How many columns there are up to the last one that is not blank.
fn columns_used(cells: &[Cell]) -> usize
    ensures value { take result cells.now ≡ up_to_last cells.now }
    ensures within { result ≤ length cells.now }
{
    cells.len()
        - cells
            .iter()
            .rev()
            .take_while(|cell| cell.is_blank())
            .count()
}

impl<'a> Pen<'a> {
    /// Turns the attributes in force into others.
    fn put_change(&mut self, from: Attributes, to: Attributes)
        requires { length (attribute_change from to) ≤ left self.old }
        ensures { Wrote self.old (attribute_change from to) self.new }
    {
        self.put_switch(0x21, mode_bits(from), mode_bits(to));
        self.put_switch(0x34, u8::from(from.italic), u8::from(to.italic));
    }

    /// A character with its attributes.
    // A code and attributes, and no type of both: a blank has a text too, and is no character.
    fn put_character(&mut self, from: Attributes, to: Attributes, code: u8)
        requires { length (attribute_change from to ++ code ∷ []) ≤ left self.old }
        ensures { Wrote self.old (attribute_change from to ++ code ∷ []) self.new }
    {
        self.put_change(from, to);
        self.put(&[code]);
    }

    /// A column; answers which attributes are then in force.
    fn put_cell(&mut self, in_force: Attributes, cell: Cell) -> Attributes
        requires { length (cell_text in_force cell) ≤ left self.old }
        ensures text { Wrote self.old (cell_text in_force cell) self.new }
        ensures attributes { result ≡ attributes_after in_force cell }
    {
        match cell {
            Cell::Blank => {
                self.put_character(in_force, Attributes::PLAIN, 0x20);
                Attributes::PLAIN
            }
            Cell::Character(code, attributes) => {
                self.put_character(in_force, attributes, code);
                attributes
            }
            Cell::Tail(_, _) => in_force,
        }
    }

    /// The characters of these columns, with all attributes off at first and at the end.
    fn put_cells(&mut self, cells: &[Cell])
        requires { length (cells_text plain cells.now) ≤ left self.old }
        ensures { Wrote self.old (cells_text plain cells.now) self.new }
    {
        let mut in_force = Attributes::PLAIN;
        for cell in cells {
            in_force = self.put_cell(in_force, *cell);
        }
        self.put_change(in_force, Attributes::PLAIN);
    }

    /// A row, up to its last column that is not blank.
    pub fn put_row(&mut self, cells: &[Cell])
        requires { length (action_text (row cells.now)) ≤ left self.old }
        ensures { Wrote self.old (action_text (row cells.now)) self.new }
    {
        self.put_cells(&cells[..columns_used(cells)]);
        self.put(&[0x1B, 0x4A, 0x00]);
    }
}
