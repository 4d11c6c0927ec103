//! The open row.
ghost use Rattle.std.specs.Prelude.{◌≡◌, ◌+◌, ◌≤◌, length};
ghost use Rattle.job.specs.Printer.{emptied};
ghost use Rattle.job.specs.Row.{closing, deleted, fits, next_attributes, tabbed, width_of, with_character};
ghost use Rattle.action.specs.Columns.{columns};
ghost use Rattle.action.specs.Meanings.{row_acts};
ghost use Rattle.settings.specs.Settings.{settings_of};
ghost use Rattle.printer.specs.Printer.{printer_of};

use crate::Printer;
use action::row::Row;
use reader::text_byte::TextByte;

impl Printer {
    /// The row is empty, the position is the left margin and one-line width ends.
    pub(crate) fn empty_row(&mut self)
        ensures { printer_of self.new ≡ emptied (printer_of self.old) }
    {
        self.row.clear(self.settings.margins().left - 1);
        self.settings.set_one_line_width(false);
    }

    /// Closes the row: what it orders if a column is not blank.
    pub(crate) fn close_row(&mut self) -> Option<Row>
        ensures acts { row_acts result ≡ closing (printer_of self.old).row }
        ensures after { printer_of self.new ≡ emptied (printer_of self.old) }
    {
        let row = self.row.close();
        self.empty_row();
        row
    }

    /// Whether the next character ends within the right margin.
    pub(crate) fn next_fits(&self, typed: bool) -> bool
        ensures { result ≡ fits typed (printer_of self.now) }
    {
        let width = self.settings.next_attributes(typed).width();
        self.row.len() + width <= self.settings.margins().right
    }

    /// Puts a character at the position.
    pub(crate) fn put_character(&mut self, byte: TextByte, typed: bool)
        requires { length (columns self.old.row) + width_of (next_attributes typed (settings_of self.old.settings)) ≤ 48 }
        ensures { printer_of self.new ≡ with_character typed byte.code (printer_of self.old) }
    {
        // It has room, by the promise above; the row asks again, since it is asked by others too.
        let _ = self
            .row
            .put(byte.code, self.settings.next_attributes(typed));
    }

    /// HT: to the next stop within the right margin, if there is one.
    pub(crate) fn horizontal_tab(&mut self)
        ensures { printer_of self.new ≡ tabbed (printer_of self.old) }
    {
        let position = self.row.len() + 1;
        if let Some(column) = self.settings.stop_beyond(position)
            && column <= u16::from(self.settings.margins().right)
        {
            // It has room: the column lies within the right margin.
            let _ = self.row.skip(column as u8 - position);
        }
    }

    /// DEL: unsets the column before the position, with all of its character, unless it lies left of the margin.
    pub(crate) fn delete(&mut self)
        ensures { printer_of self.new ≡ deleted (printer_of self.old) }
    {
        if self.settings.margins().left <= self.row.len() {
            self.row.delete_last();
        }
    }
}
