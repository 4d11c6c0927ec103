//! What the settings are.
ghost use Rattle.std.specs.Prelude.{◌≡◌, ◌<◌, ◌≤◌, MatchOption};
ghost use Rattle.job.specs.Lines.{lines_to_page, lines_to_stop};
ghost use Rattle.job.specs.Row.{next_attributes, next_beyond};
ghost use Rattle.settings.specs.Settings.{settings_of};

use crate::Settings;
use job::cells::Attributes;
use job::settings::{Cutter, Margins, Paper};

impl Settings {
    pub fn attributes(&self) -> Attributes
        ensures { result ≡ (settings_of self.now).attributes }
    {
        self.attributes
    }

    /// Whether characters are wide until the row is closed or cancelled.
    pub fn one_line_width(&self) -> bool
        ensures { result ≡ (settings_of self.now).one_line_width }
    {
        self.one_line_width
    }

    pub fn margins(&self) -> Margins
        ensures { result ≡ (settings_of self.now).margins }
    {
        self.margins
    }

    /// Horizontal stops, counted from the left margin.
    pub fn horizontal_stops(&self) -> &[u8]
        ensures { result.now ≡ (settings_of self.now).horizontal_stops }
    {
        self.horizontal_stops.as_slice()
    }

    pub fn vertical_stops(&self) -> &[u8]
        ensures { result.now ≡ (settings_of self.now).vertical_stops }
    {
        self.vertical_stops.as_slice()
    }

    /// Spacing, page length and line number.
    pub fn paper(&self) -> Paper
        ensures { result ≡ (settings_of self.now).paper }
    {
        self.paper
    }

    pub fn cutter(&self) -> Cutter
        ensures { result ≡ (settings_of self.now).cutter }
    {
        self.cutter
    }

    /// The attributes that the next character takes; a space that is not typed takes no underline.
    pub fn next_attributes(&self, typed: bool) -> Attributes
        ensures { result ≡ next_attributes typed (settings_of self.now) }
    {
        let attributes = self.attributes;
        Attributes {
            wide: self.one_line_width || attributes.wide,
            underlined: typed && attributes.underlined,
            ..attributes
        }
    }

    /// The column of the first horizontal stop beyond a position, if there is one.
    pub fn stop_beyond(&self, position: u8) -> Option<u16>
        ensures { MatchOption result (next_beyond (settings_of self.now).margins.left position (settings_of self.now).horizontal_stops ≡ 0) (λ column. (column ≡ next_beyond (settings_of self.now).margins.left position (settings_of self.now).horizontal_stops) × (position < column)) }
    {
        self.horizontal_stops
            .first_beyond(self.margins.left, position)
    }

    /// How many line feeds lead to the next vertical stop within the page; one if there is none.
    pub fn lines_to_stop(&self) -> u8
        ensures value { result ≡ lines_to_stop (settings_of self.now) }
        ensures some { 1 ≤ result }
    {
        let line = self.paper.line;
        match self.vertical_stops.first_beyond(0, line) {
            Some(stop) if stop <= u16::from(self.paper.page) => stop as u8 - line,
            _ => 1,
        }
    }

    /// How many line feeds lead to the top of the next page.
    pub fn lines_to_page(&self) -> u8
        ensures value { result ≡ lines_to_page (settings_of self.now) }
        ensures some { 1 ≤ result }
    {
        1 + self.paper.page - self.paper.line
    }
}
