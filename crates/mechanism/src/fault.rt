//! Why an action is refused.
ghost use Rattle.std.specs.Prelude.{◌≡◌};
ghost use Rattle.mechanism.specs.Refusals.{fault_number};

#[derive(Clone, Copy, PartialEq, Eq)]
pub enum Fault {
    /// The mechanism is stopped, and the action is no reply.
    Stopped = 4,
    /// The reserve is below what the action needs.
    ShortReserve = 5,
}

impl Fault {
    /// The number under which the refusal is reported.
    // A method, since a reader of `fault.number()` sees what is meant, and of `u8::from(fault)` not.
    pub fn number(self) -> u8
        ensures { result ≡ fault_number self }
    {
        self as u8
    }
}
