//! Commands that change a setting.
ghost use Rattle.std.specs.Prelude.{◌≡◌, ◌<◌, true, false, [], MatchResult, ◌==◌, nat_le};
ghost use Rattle.reading.specs.declared.Refusal.TheVariants.{OutOfRange};
ghost use Rattle.reading.specs.Commands.{set_left_margin};
ghost use Rattle.job.specs.Actions.{plain};
ghost use Rattle.job.specs.Changes.{bit, emphasise, print_mode};
ghost use Rattle.job.specs.Printer.{change, change_attributes, reset_printer, with_attributes, with_one_line_width};
ghost use Rattle.printer.specs.Printer.{Carries, Switches, printer_of};

use crate::Printer;
use job::cells::Attributes;
use reading::Refusal;

impl Printer {
    /// All five attributes and one-line width off.
    pub(crate) fn attributes_off(&mut self)
        ensures { printer_of self.new ≡ change (λ s. with_one_line_width false (with_attributes plain s)) (printer_of self.old) }
    {
        self.settings.set_attributes(Attributes::PLAIN);
        self.settings.set_one_line_width(false);
    }

    pub(crate) fn set_emphasised(&mut self, on: bool)
        ensures { printer_of self.new ≡ change_attributes (emphasise on) (printer_of self.old) }
    {
        self.settings.set_attributes(Attributes {
            emphasised: on,
            ..self.settings.attributes()
        });
    }

    /// Switches an attribute off or on by a parameter of 0 or 1.
    pub(crate) fn switch_attribute<F: FnOnce(&mut Attributes, bool)>(
        &mut self,
        n: u8,
        set: F,
    ) -> Result<(), Refusal>
        requires { F.IsAlwaysCallable set }
        ensures { Switches (λ p on q. F.post set p on tt q) n self.old result self.new }
    {
        let on = switch(n)?;
        let mut attributes = self.settings.attributes();
        set(&mut attributes, on);
        self.settings.set_attributes(attributes);
        Ok(())
    }

    /// Four attributes by bits.
    pub(crate) fn set_print_mode(&mut self, n: u8)
        ensures { printer_of self.new ≡ change_attributes (print_mode n) (printer_of self.old) }
    {
        self.settings.set_attributes(Attributes {
            emphasised: bit(n, 3),
            tall: bit(n, 4),
            wide: bit(n, 5),
            underlined: bit(n, 7),
            italic: self.settings.attributes().italic,
        });
    }

    /// A new left margin moves the position only if no column is set and the position was the old left margin.
    pub(crate) fn set_left_margin(&mut self, n: u8) -> Result<(), Refusal>
        ensures { Carries (set_left_margin n) self.old result [] self.new }
    {
        let at_margin = self.row.is_unset() && self.row.len() + 1 == self.settings.margins().left;
        self.settings.set_left_margin(n)?;
        if at_margin {
            self.row.clear(n - 1);
        }
        Ok(())
    }

    /// Cancels the row and resets all but spacing, page, line number and cutter.
    pub(crate) fn reset(&mut self)
        ensures { printer_of self.new ≡ reset_printer (printer_of self.old) }
    {
        self.settings.reset();
        self.empty_row();
    }
}

/// A parameter of 0 or 1.
fn switch(n: u8) -> Result<bool, Refusal>
    ensures { MatchResult result (λ on. (nat_le n 1 ≡ true) × (on ≡ (n == 1))) (λ why. (nat_le n 1 ≡ false) × (why ≡ OutOfRange)) }
{
    match n {
        0 => Ok(false),
        1 => Ok(true),
        _ => Err(Refusal::OutOfRange),
    }
}

// Rust's own way to ask for a bit.
fn bit(n: u8, k: u8) -> bool
    requires { k < 8 }
    ensures { result ≡ bit k n }
{
    n >> k & 1 == 1
}
