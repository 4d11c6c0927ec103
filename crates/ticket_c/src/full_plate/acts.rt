//! The full plate as a mechanism.
ghost use Rattle.std.specs.Prelude.{◌≡◌, false, replicate};
ghost use Rattle.mechanism.specs.Counts.{leading_counts, tally};
ghost use Rattle.plate.specs.Paper.{paper_limit};
ghost use Rattle.plate.specs.Plates.{plate_need, plate_rule, plate_sheet};
ghost use Rattle.ticket_c.specs.Full.{Stays, Took, shown_paper};
ghost use Rattle.ticket_c.specs.Lawful.{lawful};

use crate::full_plate::FullPlate;
use action::actions::Action;
use mechanism::counts::Counts;
use mechanism::fault::Fault;
use mechanism::mechanism::Mechanism;
use mechanism::status::Status;
use plate::plate::Plate;

/// As much as a plate holds.
const FULL: u32 = 10_000_000;

/// As much as any action may need.
const ENOUGH: u32 = 512;

impl FullPlate {
    /// A full plate that has done nothing.
    pub fn new() -> FullPlate
        ensures counts { plate_sheet result.plate ≡ replicate 7 0 }
        ensures full { result.plate.reserve ≡ paper_limit }
        ensures at_work { result.plate.stopped ≡ false }
    {
        let mut plate = Plate::new();
        let _granted = plate.supply(FULL);
        FullPlate { plate }
    }

    /// What it has done.
    pub fn counts(&self) -> Counts
        ensures { tally result ≡ plate_sheet self.now.plate }
    {
        self.plate.counts()
    }
}

impl Mechanism for FullPlate {
    ghost sheet = { λ p. plate_sheet p.plate };

    ghost reserve = { shown_paper };

    ghost stopped = { λ p. p.plate.stopped };

    ghost need = { plate_need };

    ghost rule = { plate_rule };

    ghost counts = { leading_counts };

    ghost took = { Took };

    ghost grants = { λ p offered grant. grant ≡ 0 };

    ghost stays = { Stays };

    ghost laws = { lawful };

    fn act(&mut self, action: &Action) -> Result<(), Fault> {
        self.plate.act(action)?;
        // Not behind every action: an advance, of which a byte may order 127, took twice as long.
        if self.plate.reserve() < ENOUGH {
            let _granted = self.plate.supply(FULL);
        }
        Ok(())
    }

    fn cover(&mut self, opened: bool) {
        self.plate.cover(opened);
    }

    fn supply(&mut self, _offered: u32) -> u32 {
        0
    }

    fn status(&self) -> Status {
        self.plate.status()
    }
}
