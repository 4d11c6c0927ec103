//! The two status bytes.
ghost use Rattle.std.specs.Prelude.{◌≡◌};
ghost use Rattle.mechanism.specs.Statuses.{status_of};

#[derive(Clone, Copy, PartialEq, Eq)]
pub struct Status {
    pub status1: u8,
    pub status2: u8,
}

impl Status {
    /// The status bytes at this reserve and stopped mark.
    pub fn new(reserve: u32, stopped: bool) -> Status
        ensures { result ≡ status_of reserve stopped }
    {
        let (status1, status2) = match (reserve == 0, stopped) {
            (true, true) => (0xEE, 0x4E),
            (true, false) => (0x7E, 0x46),
            (false, true) => (0xCE, 0x5C),
            (false, false) => (0x56, 0x14),
        };
        Status { status1, status2 }
    }
}
