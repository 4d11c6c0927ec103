//! What holds of every action.
ghost use Rattle.job.specs.Orderable.{Orderable};
ghost use Rattle.action.specs.Meanings.{act_of};

use crate::actions::Action;

/// An action is only what a stream can order.
#[tactic(auto, using(crate::proofs::Lawful::lawful))]
pub fn actions_are_orderable(action: &Action)
    ensures { Orderable (act_of action.now) }
{}
