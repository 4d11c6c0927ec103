//! Characters that wrap, line feeds and advances.
ghost use Rattle.std.specs.Prelude.{◌≡◌, ◌<◌, true, ◌++◌};
ghost use Rattle.reading.specs.Commands.{feed_steps, form_feed, repeat, vertical_tab};
ghost use Rattle.job.specs.Commands.{effect};
ghost use Rattle.job.specs.Effects.{times};
ghost use Rattle.job.specs.Lines.{close_and_feed, feed_line, put};
ghost use Rattle.action.specs.Meanings.{other_acts, row_acts};
ghost use Rattle.action.specs.Owed.{owed_acts};
ghost use Rattle.printer.specs.Printer.{CarriesAlone, Does, DoesAlone, printer_of};
ghost use Rattle.printer.specs.Spaces.{SpacePut, space};

use crate::Printer;
use action::actions::Other;
use action::owed::Owed;
use action::row::Row;
use reader::text_byte::TextByte;
use reading::Refusal;

impl Printer {
    /// Puts a character; a line feed comes first if it would pass the right margin.
    pub(crate) fn print(&mut self, byte: TextByte, owed: &mut Owed)
        ensures { DoesAlone (put true byte.code) self.old owed.old owed.new self.new }
    {
        if !self.next_fits(true) {
            self.line_feed(owed);
        }
        self.put_character(byte, true);
    }

    /// LF: closes the row, advances by the spacing and counts the line.
    // Not `close_and_feed` with 1: most rows end here, and one line needs no loop.
    pub(crate) fn line_feed(&mut self, owed: &mut Owed)
        ensures { Does feed_line self.old owed.new self.new }
    {
        let row = self.close_row();
        self.settings.next_line();
        owed.set(row, 1, self.settings.paper().spacing, None);
    }

    /// Closes the row, makes so many line feeds, and orders another action behind them.
    pub(crate) fn close_and_feed(&mut self, count: u8, other: Option<Other>, owed: &mut Owed)
        ensures acts { owed_acts owed.new ≡ (close_and_feed count (printer_of self.old)).acts ++ other_acts other }
        ensures printer { printer_of self.new ≡ (close_and_feed count (printer_of self.old)).printer }
    {
        let row = self.close_row();
        // A loop of calls: behind `for_each` nothing is known of what its closure changed. So in `spaces`.
        for _turn in 0..count {
            self.settings.next_line();
        }
        owed.set(row, count, self.settings.paper().spacing, other);
    }

    /// So many line feeds: the row is closed once, and equal advances follow.
    #[tactic(auto, using(crate::proofs::Feeds::feeds_close))]
    fn line_feeds(&mut self, count: u8, owed: &mut Owed)
        ensures { DoesAlone (times count feed_line) self.old owed.old owed.new self.new }
    {
        if count > 0 {
            self.close_and_feed(count, None, owed);
        }
    }

    /// VT: line feeds to the next vertical stop within the page, or one.
    // Two methods for VT and FF, since each is one command, whose effect its contract names.
    pub(crate) fn vertical_tab(&mut self, owed: &mut Owed)
        ensures { DoesAlone (effect vertical_tab) self.old owed.old owed.new self.new }
    {
        let count = self.settings.lines_to_stop();
        self.line_feeds(count, owed);
    }

    /// FF: line feeds to the top of the next page.
    pub(crate) fn form_feed(&mut self, owed: &mut Owed)
        ensures { DoesAlone (effect form_feed) self.old owed.old owed.new self.new }
    {
        let count = self.settings.lines_to_page();
        self.line_feeds(count, owed);
    }

    /// Closes the row and advances by so many steps.
    pub(crate) fn feed_steps(&mut self, n: u8, owed: &mut Owed)
        ensures { Does (effect (feed_steps n)) self.old owed.new self.new }
    {
        let row = self.close_row();
        owed.set(row, 1, n, None);
    }

    /// Up to 127 spaces that are not underlined, or line feeds.
    pub(crate) fn repeat(&mut self, what: u8, n: u8, owed: &mut Owed) -> Result<(), Refusal>
        ensures { CarriesAlone (repeat what n) self.old owed.old result owed.new self.new }
    {
        match (what, n) {
            (0, 0..=127) => self.spaces(n, owed),
            (1, 0..=127) => self.line_feeds(n, owed),
            _ => return Err(Refusal::OutOfRange),
        }
        Ok(())
    }

    /// So many spaces that are not underlined: at most one row is closed, and equal advances follow.
    fn spaces(&mut self, count: u8, owed: &mut Owed)
        ensures { Does (times count space) self.old owed.new self.new }
    {
        let mut row = None;
        let mut feeds = 0;
        for _turn in 0..count {
            feeds = self.put_space(&mut row, feeds);
        }
        owed.set(row, feeds, self.settings.paper().spacing, None);
    }

    /// Puts a space that is not underlined. A line feed that comes first is counted; the row that the first one closes is kept.
    // The caller keeps the row: in a result it would be copied at every space.
    fn put_space(&mut self, row: &mut Option<Row>, feeds: u8) -> u8
        requires { feeds < 255 }
        ensures { SpacePut (printer_of self.old) (row_acts row.old) feeds (printer_of self.new) (row_acts row.new) result }
    {
        let byte = TextByte { code: 0x20 };
        if self.next_fits(false) {
            self.put_character(byte, false);
            return feeds;
        }
        let closed = self.close_row();
        self.settings.next_line();
        self.put_character(byte, false);
        if feeds == 0 {
            *row = closed;
        }
        feeds + 1
    }
}
