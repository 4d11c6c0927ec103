//! The printer's settings, always within their bounds.
#![tactic(auto)]

ghost use Rattle.std.specs.Prelude.{◌+◌, ◌<◌, ◌≤◌};

pub mod body;
mod getters;
mod setters;
mod stops;

use job::cells::Attributes;
use job::settings::{Cutter, Margins, Paper};
use stops::{HorizontalStops, VerticalStops};

/// What commands set. Its bounds belong to the struct, so rows and tabulation need no test of them.
// No Model: its view would forget the bytes behind the stops, and such a type cannot be Copy.
#[derive(Clone, Copy)]
pub struct Settings {
    attributes: Attributes,
    one_line_width: bool,
    margins: Margins,
    horizontal_stops: HorizontalStops,
    vertical_stops: VerticalStops,
    paper: Paper,
    cutter: Cutter,
    ghost first: { 1 ≤ margins.left },
    ghost apart: { margins.left + 2 < margins.right },
    ghost within: { margins.right ≤ margins.columns },
    ghost most: { margins.columns ≤ 48 },
    ghost spaced: { paper.spacing ≤ 255 },
    ghost counted: { 1 ≤ paper.line },
    ghost paged: { paper.line ≤ paper.page },
    ghost short: { paper.page ≤ 127 },
    ghost few: { cutter.lines ≤ 20 },
}
