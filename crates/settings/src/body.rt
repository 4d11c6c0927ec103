//! The body of a configuration: 40 bytes, counted from 0.
ghost use Rattle.std.specs.Prelude.{◌≡◌, ◌-◌, true, false, [], ◌∷◌, MatchOption, ◌==◌};
ghost use Rattle.reading.specs.Tests.{one_of};
ghost use Rattle.job.specs.BarCodes.{is_digit};
ghost use Rattle.settings.specs.Body.{BodyRead};

use job::settings::{BodySettings, Cutter};

/// What a body sets, if it is in range.
pub fn read_body(body: &[u8; 40]) -> Option<BodySettings>
    ensures { BodyRead body.now result }
{
    let on = switch(body[7])?;
    let partial = switch(body[8])?;
    let columns = match body[10] {
        b'0' => 48,
        b'2' => 34,
        _ => return None,
    };
    let tens = digit(body[33])?;
    let ones = digit(body[34])?;
    let lines = 10 * tens + ones;
    if lines > 20 || body[35] != b'1' {
        return None;
    }
    Some(BodySettings {
        columns,
        cutter: Cutter { on, partial, lines },
    })
}

/// Off or on.
// Digits here, numbers in a command: one function of both would take the two values.
fn switch(byte: u8) -> Option<bool>
    ensures { MatchOption result (one_of (0x30 ∷ 0x31 ∷ []) byte ≡ false) (λ on. (one_of (0x30 ∷ 0x31 ∷ []) byte ≡ true) × (on ≡ (byte == 0x31))) }
{
    match byte {
        b'0' => Some(false),
        b'1' => Some(true),
        _ => None,
    }
}

fn digit(byte: u8) -> Option<u8>
    ensures { MatchOption result (is_digit byte ≡ false) (λ d. (is_digit byte ≡ true) × (d ≡ byte - 0x30)) }
{
    byte.is_ascii_digit().then(|| byte - b'0')
}
