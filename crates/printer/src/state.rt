//! A new printer, and its settings.
ghost use Rattle.std.specs.Prelude.{◌≡◌};
ghost use Rattle.job.specs.Invariants.{SettingsHold};
ghost use Rattle.job.specs.Printer.{new_printer_at};
ghost use Rattle.settings.specs.Settings.{settings_of};
ghost use Rattle.printer.specs.Printer.{printer_of};

use crate::Printer;
use action::open_row::OpenRow;
use settings::Settings;

impl Printer {
    /// As after a reset, with the settings of a new printer.
    pub fn new() -> Printer
        ensures { printer_of result ≡ new_printer_at 1 }
    {
        Printer {
            settings: Settings::new(),
            row: OpenRow::blanks(0),
        }
    }

    /// Its settings as they are, within their bounds.
    pub fn settings(&self) -> &Settings
        ensures value { result.now ≡ self.now.settings }
        ensures holds { SettingsHold (settings_of result.now) }
    {
        &self.settings
    }
}
