//! Commands that order a cut, bars or a reply.
ghost use Rattle.std.specs.Prelude.{◌≡◌, [], ◌∷◌};
ghost use Rattle.reading.specs.Commands.{bar_code, configure, cut};
ghost use Rattle.job.specs.Commands.{effect};
ghost use Rattle.action.specs.Meanings.{other_act};
ghost use Rattle.action.specs.Owed.{owed_acts};
ghost use Rattle.reader.specs.Commands.{parameters_of};
ghost use Rattle.short.specs.Short.{listed};
ghost use Rattle.printer.specs.Printer.{CarriesAlone, DoesAlone};

use crate::Printer;
use action::actions::{Cut, Other};
use action::bars::{BarSize, Bars};
use action::owed::Owed;
use job::bars::BarKind;
use reader::command::BarParameters;
use reading::{Refusal, Reply};
use short::Short;

impl Printer {
    /// With the cutter on: closes the row, makes the line feeds before a cut and orders the cut.
    pub(crate) fn cut(&mut self, owed: &mut Owed)
        ensures { DoesAlone (effect cut) self.old owed.old owed.new self.new }
    {
        let cutter = self.settings.cutter();
        if cutter.on {
            let cut = if cutter.partial {
                Cut::Partial
            } else {
                Cut::Total
            };
            self.close_and_feed(cutter.lines, Some(Other::Cut(cut)), owed);
        }
    }

    /// Accepted bars close the row and are ordered; any other verdict is a reply alone.
    pub(crate) fn bar_code(
        &mut self,
        parameters: BarParameters,
        string: Short<25>,
        owed: &mut Owed,
    ) -> Result<(), Refusal>
        ensures { CarriesAlone (bar_code (parameters_of parameters) (listed string)) self.old owed.old result owed.new self.new }
    {
        let size = BarSize::new(parameters.width, parameters.height).ok_or(Refusal::OutOfRange)?;
        // An unknown kind is no refusal: it is answered, and only behind parameters in range.
        let kind = BarKind::try_from(parameters.kind).ok();
        match Bars::new(kind, size, parameters.shown == 1, string.as_slice()) {
            Ok(bars) => {
                let row = self.close_row();
                owed.set(row, 0, 0, Some(Other::Bars(bars)));
            }
            Err(reply) => order(Other::Reply(reply), owed),
        }
        Ok(())
    }

    /// An accepted body cancels the row and sets columns, margins and cutter.
    pub(crate) fn configure(
        &mut self,
        replies: bool,
        body: [u8; 40],
        owed: &mut Owed,
    ) -> Result<(), Refusal>
        ensures { CarriesAlone (configure replies body) self.old owed.old result owed.new self.new }
    {
        self.settings.configure(&body)?;
        self.empty_row();
        if replies {
            order(Other::Reply(Reply::Configuration), owed);
        }
        Ok(())
    }
}

/// Orders one action alone.
pub(crate) fn order(other: Other, owed: &mut Owed)
    ensures { owed_acts owed.new ≡ other_act other ∷ [] }
{
    owed.set(None, 0, 0, Some(other));
}
