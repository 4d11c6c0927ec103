//! A plate to begin with, and what can be read of it.
ghost use Rattle.std.specs.Prelude.{◌≡◌};
ghost use Rattle.mechanism.specs.Counts.{tally};
ghost use Rattle.plate.specs.Plates.{plate_latest, plate_sheet, Begins};

use crate::plate::Plate;
use mechanism::counts::Counts;
use short::Short;

impl Plate {
    /// A plate without paper that has done nothing.
    pub fn new() -> Plate
        ensures { Begins result }
    {
        Plate {
            counts: Counts::new(),
            reserve: 0,
            stopped: false,
            latest: Short::new(),
        }
    }

    /// The counts of the actions taken.
    pub fn counts(&self) -> Counts
        ensures { tally result ≡ plate_sheet self.now }
    {
        self.counts
    }

    /// How many steps of paper are left.
    pub fn reserve(&self) -> u32
        ensures { result ≡ self.now.reserve }
    {
        self.reserve
    }

    /// Whether its cover is open.
    pub fn is_stopped(&self) -> bool
        ensures { result ≡ self.now.stopped }
    {
        self.stopped
    }

    /// The bytes of the latest reply; none if there was no reply yet.
    pub fn latest_reply(&self) -> &[u8]
        ensures { result.now ≡ plate_latest self.now }
    {
        self.latest.as_slice()
    }
}
