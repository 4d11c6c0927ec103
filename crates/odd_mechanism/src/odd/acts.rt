//! The odd mechanism acts.
ghost use Rattle.std.specs.Prelude.{◌≡◌};
ghost use Rattle.action.specs.Meanings.{act_of};
ghost use Rattle.odd_mechanism.specs.Odd.{odd_counts, odd_grant, odd_need, odd_rule, odd_sheet, Begins, Took};
ghost use Rattle.odd_mechanism.specs.Lawful.{lawful};

use crate::odd::OddMechanism;
use action::actions::Action;
use mechanism::admission::admit;
use mechanism::counts::Counts;
use mechanism::fault::Fault;
use mechanism::mechanism::Mechanism;
use mechanism::status::Status;

/// Something for every action.
fn need(action: &Action) -> u32
    ensures { result ≡ odd_need (act_of action.now) }
{
    match action {
        Action::Row(_) => 500,
        Action::Advance(steps) => 2 * u32::from(steps.count()) + 2,
        Action::Bars(_) => 512,
        Action::Cut(_) => 40,
        Action::Pulse => 3,
        Action::Beep => 2,
        Action::Reply(_) => 1,
    }
}

impl OddMechanism {
    /// Stopped, at work, and one step before its advance count comes round.
    pub fn new() -> OddMechanism
        ensures { Begins result }
    {
        OddMechanism {
            counts: Counts {
                advance: u32::MAX,
                rows: 2,
                bars: 1,
                cuts: 0,
                pulses: 7,
                beeps: 3,
                replies: 5,
            },
            work: 77,
            reserve: 600,
            stopped: true,
        }
    }
}

impl Mechanism for OddMechanism {
    ghost sheet = { odd_sheet };

    ghost reserve = { λ m. m.reserve };

    ghost stopped = { λ m. m.stopped };

    ghost need = { odd_need };

    ghost rule = { odd_rule };

    ghost counts = { odd_counts };

    ghost took = { Took };

    ghost grants = { λ m offered grant. grant ≡ odd_grant m offered };

    ghost stays = { λ m n. Unit {0} };

    ghost laws = { lawful };

    fn act(&mut self, action: &Action) -> Result<(), Fault> {
        let need = need(action);
        admit(action, need, self.reserve, self.stopped)?;
        self.counts.add(action);
        self.work = self.work.wrapping_add(need);
        self.reserve -= need / 2;
        Ok(())
    }

    fn cover(&mut self, opened: bool) {
        self.stopped = opened;
    }

    fn supply(&mut self, offered: u32) -> u32 {
        let grant = (offered / 2).min(u32::MAX - self.reserve);
        self.reserve += grant;
        grant
    }

    // In each mechanism: a body in the trait would need two methods more there, since its reserve and its mark are ghost.
    fn status(&self) -> Status {
        Status::new(self.reserve, self.stopped)
    }
}
