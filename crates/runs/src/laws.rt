//! The laws of runs: each function's contract names them.
ghost use Rattle.runs.specs.CountLaws.{Follows, CountsBytes, Joins, RefusalsAreTold, PlacesAreNear, GoesOn, RunsOn};
ghost use Rattle.runs.specs.Feeds.{OneEnd};
ghost use Rattle.runs.specs.FeedLaws.{FeedsDoTheJob};
ghost use Rattle.runs.specs.Stands.{Alike};
ghost use Rattle.runs.specs.EveryRun.{EveryRun};
ghost use Rattle.runs.specs.Breaks.{Breaks};

use mechanism::mechanism::Mechanism;

/// The needs, the reserve and mark at the start, the mechanism's choices and what is asked determine every answer, the bytes taken and the actions owed.
// The answer to `alike` stands in proofs/: given its lemma here, the search does not prove it.
#[tactic(auto, using(crate::proofs::Counts::follows))]
pub fn runs_are_determined()
    ensures follows { Follows }
    ensures alike { Alike }
{}

/// Each feed's answer counts the bytes that it took; joined, these are the bytes taken.
#[tactic(auto, using(crate::proofs::Counts::counts_bytes, crate::proofs::Counts::joins))]
pub fn answers_count_the_bytes_taken()
    ensures bytes { CountsBytes }
    ensures joins { Joins }
{}

/// The feeds' answers tell of every command refused in the bytes taken, once, by its number and place; a place is that of a byte taken, at most 41 before the piece.
#[tactic(auto, using(crate::proofs::Telling::refusals_are_told, crate::proofs::Telling::places_are_near))]
pub fn refused_commands_are_told()
    ensures told { RefusalsAreTold }
    ensures near { PlacesAreNear }
{}

/// Every feed has an end, and so has every run, whatever is asked and whatever the mechanism chooses.
#[tactic(auto, using(crate::proofs::GoingOn::goes_on, crate::proofs::GoingOn::runs_on))]
pub fn runs_have_an_end()
    ensures feeds { GoesOn }
    ensures runs { RunsOn }
{}

/// A feed does what was owed and what the bytes taken order, in order, up to what is owed at its end, and tells of the one command refused in them, if that ended it.
#[tactic(auto, using(crate::proofs::Doing::feeds_do_the_job))]
pub fn feeds_do_the_job<M: Mechanism>(_mechanism: &M)
    ensures { FeedsDoTheJob M.Mechanism }
{}

/// A feed has one end, where the mechanism has no choice.
#[tactic(auto, using(crate::proofs::OneEnd::one_end))]
pub fn feeds_have_one_end<M: Mechanism>(_mechanism: &M)
    ensures { OneEnd M.Mechanism }
{}

/// For every mechanism, after every call of any run: the sheet is the first sheet moved by the job of the bytes taken, less the actions owed, which stand at that job's end.
#[tactic(auto, using(crate::proofs::Standing::every_run))]
pub fn every_run_stands<M: Mechanism>(_mechanism: &M)
    ensures { EveryRun M.Mechanism }
{}

/// The law is false of a station that drops actions, does them twice or owes them still, counts bytes that it did not read, forgets what it read, grants more than was offered, or raises the reserve in a cover call.
#[tactic(auto, using(crate::proofs::Breaking::breaks))]
pub fn broken_stations_break_the_law()
    ensures { Breaks }
{}
