//! Feeding a whole stream.
ghost use Rattle.std.specs.Prelude.{◌≡◌};
ghost use Rattle.station.specs.Whole.{by_command, FedWhole};

use crate::feeding::feed;
use interpreter::Interpreter;
use mechanism::mechanism::Mechanism;
use runs::fault::FeedFault;

/// How many bytes of a stream were taken, how many refused commands were passed over, and how it ended.
#[derive(Clone, Copy)]
pub struct WholeFeed {
    pub taken: usize,
    pub passed_over: usize,
    pub outcome: Result<(), FeedFault>,
}

/// Whether a refused command ended a feed.
fn is_command(outcome: Result<(), FeedFault>) -> bool
    ensures { result ≡ by_command outcome }
{
    matches!(outcome, Err(FeedFault::Command(_)))
}

/// Feeds a whole stream and passes over refused commands, until the stream ends or the mechanism refuses an action.
pub fn feed_whole<M: Mechanism>(
    interpreter: &mut Interpreter,
    mechanism: &mut M,
    stream: &[u8],
) -> WholeFeed
    ensures { FedWhole M.Mechanism interpreter.old mechanism.old stream.now result.taken result.passed_over result.outcome interpreter.new mechanism.new }
{
    let mut taken = 0;
    let mut passed_over = 0;
    // No iterator: where the next feed begins is what the one before answers.
    loop {
        let (count, outcome) = feed(interpreter, mechanism, &stream[taken..]);
        taken += count;
        if !is_command(outcome) {
            return WholeFeed {
                taken,
                passed_over,
                outcome,
            };
        }
        passed_over += 1;
    }
}
