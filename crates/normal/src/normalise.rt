//! Writes the normal text of a stream.
ghost use Rattle.std.specs.Prelude.{◌≡◌, false, Err, IsOk, MatchResult};
ghost use Rattle.runs.specs.declared.fault.FeedFault.{FeedFault};
ghost use Rattle.normal.specs.declared.answer.NormaliseFault.TheVariants.{Feed};
ghost use Rattle.normal.specs.Normalises.{Normalises};
ghost use Rattle.normal.specs.Runs.{StandsBehindFeeds};
ghost use Rattle.normal.specs.Written.{WritesText};

use crate::answer::{NormaliseFault, Normalised};
use interpreter::Interpreter;
use runs::fault::FeedFault;
use station::whole::feed_whole;
use stream::STREAM_MAX;
use writer::writer::Writer;

/// Feeds a stream to a writer through a new interpreter; answers how many commands were passed over, and how it ended.
fn write_text(writer: &mut Writer, stream: &[u8]) -> (usize, Result<(), NormaliseFault>)
    ensures { WritesText writer.old stream.now result.0 result.1 writer.new }
{
    if stream.len() > STREAM_MAX {
        return (0, Err(NormaliseFault::StreamTooLong));
    }
    let mut interpreter = Interpreter::new();
    let fed = feed_whole(&mut interpreter, writer, stream);
    (fed.passed_over, ended(fed.outcome))
}

/// How a feed's end is told: its fault names the layer below.
fn ended(outcome: Result<(), FeedFault>) -> Result<(), NormaliseFault>
    ensures { MatchResult result (λ _. IsOk outcome) (λ fault. (f : FeedFault) × (outcome ≡ Err f) × (fault ≡ Feed f)) }
{
    Ok(outcome?)
}

/// Writes the normal text of a stream into a buffer, and passes over refused commands.
pub fn normalise(stream: &[u8], out: &mut [u8]) -> Normalised
    ensures writes { Normalises stream.now out.old result out.new }
    ensures stands { StandsBehindFeeds stream.now out.old result out.new }
{
    let mut writer = Writer::new(out);
    let (passed_over, outcome) = write_text(&mut writer, stream);
    Normalised {
        written: writer.len(),
        passed_over,
        outcome,
    }
}
