//! The printer: its settings, its open row, and what each command does to them and orders.
#![tactic(auto)]

mod commands;
mod feeding;
mod ordering;
mod row;
mod setting;
mod state;

use action::open_row::OpenRow;
use settings::Settings;

/// Settings and open row.
#[derive(Clone, Copy)]
pub struct Printer {
    settings: Settings,
    row: OpenRow,
}
