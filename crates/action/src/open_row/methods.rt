//! How the row is filled and closed.
ghost use Rattle.std.specs.Prelude.{◌≡◌, ◌↔◌, ◌+◌, ◌-◌, ◌≤◌, min, false, ◌&&◌, ◌++◌, map, length, take, replicate, is_ok, IsErrOf, IfErr, if◌then◌else◌, nat_le};
ghost use Rattle.reading.specs.Reading.{is_text};
ghost use Rattle.reading.specs.Tests.{every};
ghost use Rattle.job.specs.declared.cells.Cell.TheVariants.{Blank};
ghost use Rattle.job.specs.Row.{cells_of, closed_cell, closing, is_blank, last_width, padded, width_of};
ghost use Rattle.action.specs.declared.open_row.NotPut.TheVariants.{NoText, NoRoom};
ghost use Rattle.action.specs.Columns.{columns};
ghost use Rattle.action.specs.Meanings.{row_acts};

use crate::columns::all_blank;
use crate::open_row::{NotPut, OpenRow};
use crate::row::Row;
use job::cells::{Attributes, Cell};
use reading::is_text;

impl OpenRow {
    /// A row of so many blank columns, at most 48.
    pub fn blanks(count: u8) -> OpenRow
        ensures { columns result ≡ replicate (min count 48) Blank }
    {
        OpenRow {
            cells: [Cell::Blank; 48],
            len: count.min(48),
        }
    }

    /// How many columns stand before the position.
    pub fn len(&self) -> u8
        ensures { result ≡ length (columns self.now) }
    {
        self.as_slice().len() as u8
    }

    /// Puts a character at the position, unless its code is no text byte or the row has no room for it.
    pub fn put(&mut self, code: u8, attributes: Attributes) -> Result<(), NotPut>
        ensures fits { is_ok result ≡ (is_text code && nat_le (length (columns self.old) + width_of attributes) 48) }
        ensures after { columns self.new ≡ (if is_ok result then columns self.old ++ cells_of code attributes else columns self.old) }
        ensures why { IsErrOf result NoText ↔ (is_text code ≡ false) }
    {
        if !is_text(code) {
            return Err(NotPut::NoText);
        }
        if self.len + attributes.width() > 48 {
            return Err(NotPut::NoRoom);
        }
        let at = self.len as usize;
        self.cells[at] = Cell::Character(code, attributes);
        if attributes.wide {
            self.cells[at + 1] = Cell::Tail(code, attributes);
        }
        self.len += attributes.width();
        Ok(())
    }

    /// Leaves so many columns blank, unless the row has no room for them.
    pub fn skip(&mut self, count: u8) -> Result<(), NotPut>
        ensures fits { is_ok result ≡ nat_le (length (columns self.old) + count) 48 }
        ensures after { columns self.new ≡ (if is_ok result then columns self.old ++ replicate count Blank else columns self.old) }
        ensures why { IfErr result (λ e. e ≡ NoRoom) }
    {
        if count > 48 - self.len {
            return Err(NotPut::NoRoom);
        }
        let at = self.len as usize;
        self.cells[at..at + count as usize].fill(Cell::Blank);
        self.len += count;
        Ok(())
    }

    /// Takes back the last column, with all of its character.
    pub fn delete_last(&mut self)
        ensures { columns self.new ≡ take (length (columns self.old) - last_width (columns self.old)) (columns self.old) }
    {
        let width = self.last_width();
        self.len = self.len.saturating_sub(width);
    }

    /// How many columns the last column's character fills.
    fn last_width(&self) -> u8
        ensures { result ≡ last_width (columns self.now) }
    {
        match self.as_slice().last() {
            Some(cell) if cell.is_tail() => 2,
            _ => 1,
        }
    }

    fn as_slice(&self) -> &[Cell]
        ensures { result.now ≡ columns self.now }
    {
        &self.cells[0..self.len as usize]
    }

    /// Whether no column is set.
    pub fn is_unset(&self) -> bool
        ensures { result ≡ every is_blank (columns self.now) }
    {
        all_blank(self.as_slice())
    }

    /// Leaves a row of so many blank columns, at most 48.
    pub fn clear(&mut self, count: u8)
        ensures { columns self.new ≡ replicate (min count 48) Blank }
    {
        *self = OpenRow::blanks(count);
    }

    /// The row that closing this one orders, if a column of it is not blank.
    pub fn close(&self) -> Option<Row>
        ensures { row_acts result ≡ closing (columns self.now) }
    {
        let cells = self.closed_cells();
        if all_blank(&cells[..self.len as usize]) {
            None
        } else {
            Some(Row { cells })
        }
    }

    /// All 48 columns as closing leaves them, the unset ones blank.
    fn closed_cells(&self) -> [Cell; 48]
        ensures { result ≡ padded (map closed_cell (columns self.now)) }
    {
        let columns = self.as_slice();
        let mut cells = [Cell::Blank; 48];
        // By index: an array's `map` runs over all 48 columns, and nothing would be known of cells written through `iter_mut`.
        for (i, cell) in columns.iter().enumerate() {
            cells[i] = cell.closed();
        }
        cells
    }
}
