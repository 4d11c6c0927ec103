//! What a complete command does.
ghost use Rattle.std.specs.Prelude.{◌≡◌, []};
ghost use Rattle.action.specs.Owed.{owed_acts};
ghost use Rattle.reader.specs.Commands.{command_of};
ghost use Rattle.printer.specs.Printer.{Carries, CarriesAlone};

use crate::Printer;
use crate::ordering::order;
use action::actions::Other;
use action::owed::Owed;
use reader::command::Command;
use reading::Refusal;

impl Printer {
    /// Carries out a command that is in range; what it orders takes the place of what is owed.
    pub fn carry_out(&mut self, command: Command, owed: &mut Owed) -> Result<(), Refusal>
        ensures { Carries (command_of command) self.old result (owed_acts owed.new) self.new }
    {
        clear(owed);
        self.obey(command, owed)
    }

    /// What is ordered is written where it is owed: in a result it would be copied at every byte.
    // That nothing is owed at first stands in the contract, not in a type: a loan gives back the type it was of, and by then something is owed.
    fn obey(&mut self, command: Command, owed: &mut Owed) -> Result<(), Refusal>
        ensures { CarriesAlone (command_of command) self.old owed.old result owed.new self.new }
    {
        match command {
            Command::Idle => {}
            Command::Print(byte) => self.print(byte, owed),
            Command::Send(reply) => order(Other::Reply(reply), owed),
            Command::SoundBeep => order(Other::Beep, owed),
            Command::PulseDrawer => order(Other::Pulse, owed),
            Command::LineFeed => self.line_feed(owed),
            Command::VerticalTab => self.vertical_tab(owed),
            Command::FormFeed => self.form_feed(owed),
            Command::HorizontalTab => self.horizontal_tab(),
            Command::CancelRow => self.empty_row(),
            Command::Delete => self.delete(),
            Command::AttributesOff => self.attributes_off(),
            Command::SetEmphasised(on) => self.set_emphasised(on),
            Command::SetOneLineWidth(on) => self.settings.set_one_line_width(on),
            Command::SetExpanded(n) => self.switch_attribute(n, |a, on| a.wide = on)?,
            Command::SetDoubleHeight(n) => self.switch_attribute(n, |a, on| a.tall = on)?,
            Command::SetUnderline(n) => self.switch_attribute(n, |a, on| a.underlined = on)?,
            Command::SetItalic(n) => self.switch_attribute(n, |a, on| a.italic = on)?,
            Command::SetPrintMode(n) => self.set_print_mode(n),
            Command::SetSpacing(n) => self.settings.set_spacing(n),
            Command::FeedSteps(n) => self.feed_steps(n, owed),
            Command::Repeat(what, n) => self.repeat(what, n, owed)?,
            Command::SetPageLength(n) => self.settings.set_page_length(n)?,
            Command::SetVerticalStops(stops) => self.settings.set_vertical_stops(stops)?,
            Command::SetHorizontalStops(stops) => self.settings.set_horizontal_stops(stops)?,
            Command::SetLeftMargin(n) => self.set_left_margin(n)?,
            Command::SetRightMargin(n) => self.settings.set_right_margin(n)?,
            Command::Cut => self.cut(owed),
            Command::BarCode(parameters, string) => self.bar_code(parameters, string, owed)?,
            Command::Configure(replies, body) => self.configure(replies, body, owed)?,
            Command::Reset => self.reset(),
        }
        Ok(())
    }
}

/// Nothing is owed any more.
fn clear(owed: &mut Owed)
    ensures { owed_acts owed.new ≡ [] }
{
    // What is empty stays as it is: to write it would copy room for a row at every byte.
    if !owed.is_empty() {
        owed.set(None, 0, 0, None);
    }
}
