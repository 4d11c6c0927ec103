//! The plate as a mechanism.
ghost use Rattle.std.specs.Prelude.{◌≡◌};
ghost use Rattle.action.specs.Meanings.{act_of};
ghost use Rattle.mechanism.specs.Counts.{leading_counts};
ghost use Rattle.plate.specs.Plates.{plate_grant, plate_latest, plate_need, plate_rule, plate_sheet, Took};
ghost use Rattle.plate.specs.Lawful.{lawful};

use crate::plate::Plate;
use crate::replies::latest_after;
use action::actions::Action;
use mechanism::admission::admit;
use mechanism::fault::Fault;
use mechanism::mechanism::Mechanism;
use mechanism::status::Status;

/// The most paper that the plate holds.
const CAPACITY: u32 = 10_000_000;

/// An advance needs its steps of paper, all else nothing.
fn need(action: &Action) -> u32
    ensures { result ≡ plate_need (act_of action.now) }
{
    match action {
        Action::Advance(steps) => u32::from(steps.count()),
        _ => 0,
    }
}

impl Mechanism for Plate {
    ghost sheet = { plate_sheet };

    ghost reserve = { λ p. p.reserve };

    ghost stopped = { λ p. p.stopped };

    ghost need = { plate_need };

    ghost rule = { plate_rule };

    ghost counts = { leading_counts };

    ghost took = { Took };

    ghost grants = { λ p offered grant. grant ≡ plate_grant p offered };

    ghost stays = { λ p q. plate_latest q ≡ plate_latest p };

    ghost laws = { lawful };

    fn act(&mut self, action: &Action) -> Result<(), Fault> {
        let need = need(action);
        admit(action, need, self.reserve, self.stopped)?;
        self.latest = latest_after(self.latest, action, self.status());
        self.counts.add(action);
        self.reserve -= need;
        Ok(())
    }

    fn cover(&mut self, opened: bool) {
        self.stopped = opened;
    }

    fn supply(&mut self, offered: u32) -> u32 {
        let grant = offered.min(CAPACITY - self.reserve);
        self.reserve += grant;
        grant
    }

    // In each mechanism: a body in the trait would need two methods more there, since its reserve and its mark are ghost.
    fn status(&self) -> Status {
        Status::new(self.reserve, self.stopped)
    }
}
