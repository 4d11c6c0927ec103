//! The whole normal text of a stream, in as much memory as it takes.
ghost use Rattle.std.specs.Prelude.{◌≡◌, MatchOption, MatchResult};
ghost use Rattle.normal.specs.Releases.{Releases};
ghost use Rattle.report.specs.WholeTexts.{TooSmall, Untold};
ghost use Rattle.report.specs.declared.fault.TextFault.TheVariants.{OutOfMemory as NoMemory};

use crate::fault::TextFault;
use normal::normalise::normalise;
use std::alloc::{AllocError, Global};
use stream::STREAM_MAX;

// By hand: a derived From has no contract, and a clause names the fault.
impl From<AllocError> for TextFault {
    ghost from_gives = { λ _ r. r ≡ NoMemory };

    fn from(_fault: AllocError) -> TextFault {
        TextFault::OutOfMemory
    }
}

/// The largest buffer that is tried.
const TEXT_MAX: usize = 0x400_0000;

/// The normal text of a stream, if it fits into a buffer of this size.
fn text_within(heap: Global, stream: &[u8], size: usize) -> Result<Option<Vec<u8>>, TextFault>
    ensures { MatchResult result (λ made. MatchOption made (TooSmall stream.now size) (λ text. Releases stream.now text.items)) (Untold stream.now) }
{
    if stream.len() > STREAM_MAX {
        return Err(TextFault::StreamTooLong);
    }
    let mut text = vec![in heap; 0u8; size]?;
    let answer = normalise(stream, &mut text);
    if answer.outcome.is_err() {
        return Ok(None);
    }
    text.truncate(answer.written);
    Ok(Some(text))
}

/// The normal text of a stream, in a buffer of 64 KiB or, where that is too small, of as much as twice the size before, up to 64 MiB.
pub fn whole_text(heap: Global, stream: &[u8]) -> Result<Vec<u8>, TextFault>
    ensures { MatchResult result (λ text. Releases stream.now text.items) (Untold stream.now) }
{
    for doublings in 0u32..10 {
        if let Some(text) = text_within(heap, stream, 0x1_0000 << doublings)? {
            return Ok(text);
        }
    }
    // The last size apart: that it is too small is the fault.
    text_within(heap, stream, TEXT_MAX)?.ok_or(TextFault::TextTooLong)
}
