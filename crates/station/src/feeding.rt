//! Feeding a piece of a stream.
ghost use Rattle.std.specs.Prelude.{◌≡◌, ◌<◌, [], length};
ghost use Rattle.interpreter.specs.Interpreter.{owes};
ghost use Rattle.runs.specs.Calls.{fed};
ghost use Rattle.station.specs.Feeding.{Extends, Fed, FeedsByte, Settles, TakesByte};

use interpreter::{Interpreter, StepFault};
use mechanism::fault::Fault;
use mechanism::mechanism::Mechanism;
use runs::fault::{FeedFault, RefusedCommand};

// The interpreter and the mechanism are passed side by side: a struct of the two loans would have each of its methods say of both
// loans that they stay the ones that its caller lent.

/// Offers what is owed, the first first, until nothing is owed or the mechanism refuses.
#[tactic(auto, using(runs::proofs::Settling::settling_none, runs::proofs::Settling::settling_more, runs::proofs::Settling::settling_ends))]
fn settle<M: Mechanism>(interpreter: &mut Interpreter, mechanism: &mut M) -> Result<(), Fault>
    ensures { Settles M.Mechanism interpreter.old mechanism.old result interpreter.new mechanism.new }
{
    // No iterator over what is owed: it would lend what each turn removes.
    while let Some(action) = interpreter.owed().first() {
        mechanism.act(&action)?;
        interpreter.remove_first();
    }
    Ok(())
}

/// Takes a byte of a piece when nothing is owed.
fn take_byte(
    interpreter: &mut Interpreter,
    piece: &[u8],
    index: usize,
) -> Result<(), RefusedCommand>
    requires { (owes interpreter.old ≡ []) × (index < length piece.now) }
    ensures { TakesByte piece.now index interpreter.old result interpreter.new }
{
    match interpreter.step(piece, index) {
        Ok(()) => Ok(()),
        Err(StepFault::Refused(refusal, place)) => Err(RefusedCommand {
            refusal,
            place: place as i64,
        }),
        Err(StepFault::Ended | StepFault::Owing) => unreachable(),
    }
}

/// Takes a byte of a piece when nothing is owed, and offers what it orders.
fn feed_byte<M: Mechanism>(
    interpreter: &mut Interpreter,
    mechanism: &mut M,
    piece: &[u8],
    index: usize,
) -> Result<(), FeedFault>
    requires { (owes interpreter.old ≡ []) × (index < length piece.now) }
    ensures { FeedsByte M.Mechanism piece.now index interpreter.old mechanism.old result interpreter.new mechanism.new }
{
    take_byte(interpreter, piece, index)?;
    settle(interpreter, mechanism)?;
    Ok(())
}

/// Offers what is owed and takes the bytes of a piece, until the piece ends, a command is refused or the mechanism refuses an action.
/// Answers how many bytes it took together with how it ended.
pub fn feed<M: Mechanism>(
    interpreter: &mut Interpreter,
    mechanism: &mut M,
    piece: &[u8],
) -> (usize, Result<(), FeedFault>)
    ensures course { Fed M.Mechanism interpreter.old mechanism.old piece.now result.0 result.1 interpreter.new mechanism.new }
    ensures stands { Extends M.Mechanism (fed piece.now result.0 result.1) interpreter.old mechanism.old interpreter.new mechanism.new }
{
    // A pair and no ? here: how many bytes were taken is told however the feed ends.
    if let Err(fault) = settle(interpreter, mechanism) {
        return (0, Err(FeedFault::from(fault)));
    }
    // By index: a step takes the piece and an index, so that the places it tells count from the piece's start.
    for index in 0..piece.len() {
        if let Err(fault) = feed_byte(interpreter, mechanism, piece, index) {
            return (index + 1, Err(fault));
        }
    }
    (piece.len(), Ok(()))
}
