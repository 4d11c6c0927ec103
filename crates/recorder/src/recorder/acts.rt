//! The recorder as a mechanism.
ghost use Rattle.std.specs.Prelude.{◌≡◌};
ghost use Rattle.mechanism.specs.Counts.{leading_counts};
ghost use Rattle.recorder.specs.Recorders.{recorder_reserve, recorder_rule, recorder_sheet, Stays, Took};
ghost use Rattle.recorder.specs.Lawful.{lawful};

use crate::appending::append_action;
use crate::form::Form;
use crate::recorder::Recorder;
use action::actions::Action;
use mechanism::admission::admit;
use mechanism::fault::Fault;
use mechanism::mechanism::Mechanism;
use mechanism::status::Status;

impl<'a, F: Form> Mechanism for Recorder<'a, F> {
    ghost sheet = { recorder_sheet };

    ghost reserve = { recorder_reserve };

    ghost stopped = { λ r. r.stopped };

    ghost need = { F.need };

    ghost rule = { recorder_rule F.bytes };

    ghost counts = { leading_counts };

    ghost took = { Took F.need F.size F.bytes };

    ghost grants = { λ r offered grant. grant ≡ 0 };

    ghost stays = { Stays };

    ghost laws = { lawful F.laws };

    fn act(&mut self, action: &Action) -> Result<(), Fault> {
        admit(action, F::need(action), self.reserve(), self.stopped)?;
        let len = self.len;
        let advance = self.counts.advance;
        self.len = append_action::<F>(self.out, len, advance, action);
        self.counts.add(action);
        Ok(())
    }

    fn cover(&mut self, opened: bool) {
        self.stopped = opened;
    }

    fn supply(&mut self, _offered: u32) -> u32 {
        0
    }

    // In each mechanism: a body in the trait would need two methods more there, since its reserve and its mark are ghost.
    fn status(&self) -> Status {
        Status::new(self.reserve(), self.stopped)
    }
}
