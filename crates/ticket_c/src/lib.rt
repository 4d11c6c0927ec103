//! Calls for programs in C or Rust that link the station's static library.
//! Slices and numbers alone, as C passes them: what is answered stands at fixed places, and 255, or 0 of a plate, says that there is no room for it.
#![tactic(auto)]

ghost use Rattle.std.specs.Prelude.{◌≡◌};
ghost use Rattle.normal.specs.Normalises.{refused_in, Normalises};
ghost use Rattle.job.specs.Job.{job};
ghost use Rattle.mechanism.specs.Counts.{tally};
ghost use Rattle.ticket_c.specs.Calls.{counted_all, FeedCall, NormaliseCall};

mod full_plate;

use full_plate::FullPlate;
use interpreter::Interpreter;
use mechanism::counts::Counts;
use normal::normalise::normalise;
use station::whole::feed_whole;

/// Writes the normal text of a stream: 0 for a whole text, 5 or 6 for another, with its length and the commands passed over.
#[unsafe(no_mangle)]
pub extern "C" fn ticket_normalise(stream: &[u8], out: &mut [u8], answer: &mut [u64]) -> u8
    ensures { NormaliseCall stream.now out.old answer.old result out.new answer.new }
{
    if answer.len() < 2 {
        return 255;
    }
    let normalised = normalise(stream, out);
    answer[0] = normalised.written as u64;
    answer[1] = normalised.passed_over as u64;
    match normalised.outcome {
        Ok(()) => 0,
        Err(fault) => fault.number(),
    }
}

/// Feeds a whole stream to a plate that never runs short of paper; answers its counts and how many commands were passed over.
fn feed_full(stream: &[u8]) -> (Counts, usize)
    ensures counts { tally result.0 ≡ counted_all (job stream.now) }
    ensures passed { result.1 ≡ refused_in stream.now }
{
    let mut interpreter = Interpreter::new();
    let mut plate = FullPlate::new();
    let fed = feed_whole(&mut interpreter, &mut plate, stream);
    (plate.counts(), fed.passed_over)
}

/// Feeds a stream to a plate that never runs short of paper: the seven counts of its job, and how many commands were passed over.
#[unsafe(no_mangle)]
pub extern "C" fn ticket_feed_plate(stream: &[u8], counts: &mut [u32]) -> u64
    ensures { FeedCall stream.now counts.old result counts.new }
{
    if counts.len() < 7 {
        return 0;
    }
    let (c, passed_over) = feed_full(stream);
    counts[..7].copy_from_slice(&[
        c.advance, c.rows, c.bars, c.cuts, c.pulses, c.beeps, c.replies,
    ]);
    passed_over as u64
}
