//! The line of an action.
ghost use Rattle.std.specs.Prelude.{◌≡◌, ◌++◌, MatchResult};
ghost use Rattle.action.specs.Meanings.{act_of};
ghost use Rattle.report.specs.Reports.{action_line};

use action::actions::Action;
use action_text::needs::ROW_NEED;
use action_text::writing::write_action;
use hexadecimal::encode;
use std::alloc::AllocError;

/// As much as the longest action's text could take.
const TEXT_MAX: usize = ROW_NEED as usize;

/// Adds an action's line to others.
pub fn add_line(lines: &mut Vec<u8>, action: &Action) -> Result<(), AllocError>
    ensures { MatchResult result (λ _. lines.new.items ≡ lines.old.items ++ action_line (act_of action.now)) (λ _. Unit) }
{
    let mut text = [0; TEXT_MAX];
    let length = write_action(&mut text, action).unwrap();
    encode(lines, &text[..length])?;
    lines.extend_from_slice(b"\n")
}
