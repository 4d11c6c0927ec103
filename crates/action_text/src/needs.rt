//! How much room an action's text needs.
ghost use Rattle.std.specs.Prelude.{◌≡◌};
ghost use Rattle.action.specs.Meanings.{act_of};
ghost use Rattle.action_text.specs.Needs.{text_need, TextsFit};

use crate::fixed_texts::{cut_text, reply_text};
use action::actions::Action;

/// As much room as the longest row could take; no action's text needs more.
pub const ROW_NEED: u32 = 345;

/// A row needs as much as the longest one could take, all else the length of its text.
pub fn need(action: &Action) -> u32
    ensures { result ≡ text_need (act_of action.now) }
{
    match action {
        Action::Row(_) => ROW_NEED,
        Action::Advance(_) => 3,
        Action::Bars(bars) => 7 + bars.string().len() as u32,
        Action::Cut(cut) => cut_text(*cut).len() as u32,
        Action::Pulse => 2,
        Action::Beep => 1,
        Action::Reply(reply) => reply_text(*reply).len() as u32,
    }
}

/// A text fits its need: at most 345 bytes for a row and 86 for all else, and at least 1.
#[tactic(auto, using(crate::proofs::Sizes::texts_fit))]
pub fn texts_fit_their_needs()
    ensures { TextsFit }
{}
