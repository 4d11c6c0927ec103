//! How the settings change.
ghost use Rattle.std.specs.Prelude.{◌≡◌, ◌+◌, ◌&&◌, true, false, nat_lt, MatchResult};
ghost use Rattle.reading.specs.Tests.{between};
ghost use Rattle.reading.specs.declared.Refusal.TheVariants.{OutOfRange};
ghost use Rattle.job.specs.Changes.{page_of, right_margin_at, space_lines};
ghost use Rattle.job.specs.Configuration.{body_in_range, body_settings};
ghost use Rattle.job.specs.Lines.{next_line};
ghost use Rattle.job.specs.Printer.{margins_of, new_printer_at, reset_settings, with_attributes, with_cutter, with_horizontal_stops, with_margins, with_one_line_width, with_paper, with_vertical_stops};
ghost use Rattle.short.specs.Short.{listed};
ghost use Rattle.settings.specs.Settings.{ChangedIf, left_margin_moved, settings_of};
ghost use Rattle.settings.specs.Stops.{stops_in_range};

use crate::Settings;
use crate::body::read_body;
use crate::stops::{HorizontalStops, Stops};
use job::cells::Attributes;
use job::settings::{Cutter, Margins, Paper};
use reading::Refusal;
use short::Short;

impl Settings {
    /// As after a reset, with spacing 25, a page of 66 lines at line 1, and the cutter on for total cuts.
    pub fn new() -> Settings
        ensures { settings_of result ≡ (new_printer_at 1).settings }
    {
        Settings {
            attributes: Attributes::PLAIN,
            one_line_width: false,
            margins: full_width(48),
            horizontal_stops: HorizontalStops::by_default(),
            vertical_stops: Stops::none(),
            paper: Paper {
                spacing: 25,
                page: 66,
                line: 1,
            },
            cutter: Cutter {
                on: true,
                partial: false,
                lines: 0,
            },
        }
    }

    /// Resets all but spacing, page, line number and cutter.
    pub fn reset(&mut self)
        ensures { settings_of self.new ≡ reset_settings (settings_of self.old).paper (settings_of self.old).cutter }
    {
        let (paper, cutter) = (self.paper, self.cutter);
        *self = Settings::new();
        self.paper = paper;
        self.cutter = cutter;
    }

    pub fn set_attributes(&mut self, attributes: Attributes)
        ensures { settings_of self.new ≡ with_attributes attributes (settings_of self.old) }
    {
        self.attributes = attributes;
    }

    pub fn set_one_line_width(&mut self, on: bool)
        ensures { settings_of self.new ≡ with_one_line_width on (settings_of self.old) }
    {
        self.one_line_width = on;
    }

    /// The steps of a line feed.
    pub fn set_spacing(&mut self, n: u8)
        ensures { settings_of self.new ≡ with_paper (space_lines n (settings_of self.old).paper) (settings_of self.old) }
    {
        self.paper.spacing = n;
    }

    /// Counts a line; behind the page's last line comes line 1.
    pub fn next_line(&mut self)
        ensures { settings_of self.new ≡ with_paper (next_line (settings_of self.old).paper) (settings_of self.old) }
    {
        self.paper.line = if self.paper.line == self.paper.page {
            1
        } else {
            self.paper.line + 1
        };
    }

    /// A page of 1 to 127 lines begins at line 1.
    pub fn set_page_length(&mut self, n: u8) -> Result<(), Refusal>
        ensures { ChangedIf (between 1 127 n) (λ s. with_paper (page_of n s.paper) s) self.old result self.new }
    {
        in_range((1..=127).contains(&n))?;
        self.paper = Paper {
            page: n,
            line: 1,
            ..self.paper
        };
        Ok(())
    }

    /// A left margin of 1 to 46, more than two columns before the right one.
    pub fn set_left_margin(&mut self, n: u8) -> Result<(), Refusal>
        ensures { ChangedIf (between 1 46 n && nat_lt (n + 2) (settings_of self.old).margins.right) (λ s. with_margins (left_margin_moved n s.margins) s) self.old result self.new }
    {
        in_range((1..=46).contains(&n) && n + 2 < self.margins.right)?;
        self.margins.left = n;
        Ok(())
    }

    /// A right margin of 3 to the number of columns, more than two columns behind the left one.
    pub fn set_right_margin(&mut self, n: u8) -> Result<(), Refusal>
        ensures { ChangedIf (between 3 (settings_of self.old).margins.columns n && nat_lt ((settings_of self.old).margins.left + 2) n) (λ s. with_margins (right_margin_at n s.margins) s) self.old result self.new }
    {
        in_range((3..=self.margins.columns).contains(&n) && self.margins.left + 2 < n)?;
        self.margins.right = n;
        Ok(())
    }

    /// Rising stops of 1 to 47.
    // What both setters of stops test is `Stops::new`; each has its field.
    pub fn set_horizontal_stops(&mut self, stops: Short<8>) -> Result<(), Refusal>
        ensures { ChangedIf (stops_in_range 47 (listed stops)) (with_horizontal_stops (listed stops)) self.old result self.new }
    {
        self.horizontal_stops = Stops::new(stops)?;
        Ok(())
    }

    /// Rising stops of 1 to 127.
    pub fn set_vertical_stops(&mut self, stops: Short<16>) -> Result<(), Refusal>
        ensures { ChangedIf (stops_in_range 127 (listed stops)) (with_vertical_stops (listed stops)) self.old result self.new }
    {
        self.vertical_stops = Stops::new(stops)?;
        Ok(())
    }

    /// Columns, with the margins at the first and the last, and cutter as a configuration's body says.
    pub fn configure(&mut self, body: &[u8; 40]) -> Result<(), Refusal>
        ensures { ChangedIf (body_in_range body.now) (λ s. with_cutter (body_settings body.now).cutter (with_margins (margins_of (body_settings body.now).columns) s)) self.old result self.new }
    {
        let chosen = read_body(body).ok_or(Refusal::OutOfRange)?;
        self.margins = full_width(chosen.columns);
        self.cutter = chosen.cutter;
        Ok(())
    }
}

/// Refuses what does not fit.
fn in_range(fits: bool) -> Result<(), Refusal>
    ensures { MatchResult result (λ _. fits ≡ true) (λ why. (fits ≡ false) × (why ≡ OutOfRange)) }
{
    fits.then_some(()).ok_or(Refusal::OutOfRange)
}

/// So many columns, all between the margins.
fn full_width(columns: u8) -> Margins
    ensures { result ≡ margins_of columns }
{
    Margins {
        columns,
        left: 1,
        right: columns,
    }
}
