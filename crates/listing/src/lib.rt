//! The whole listing of a stream.
#![tactic(auto)]

ghost use Rattle.std.specs.Prelude.{◌≡◌, false, ◌++◌, MatchResult};
ghost use Rattle.stream.specs.Answers.{too_long};
ghost use Rattle.stream.specs.declared.parts.LineFault.TheVariants.{Token};
ghost use Rattle.listing.specs.Listed.{line_at, Listing, Refused};
ghost use Rattle.listing.specs.declared.fault.ListingFault.TheVariants.{Line, OutOfMemory};

mod fault;

pub use fault::ListingFault;
use std::alloc::{AllocError, Global};
use stream::{LINE_MAX, LineFault, TokenFault, line, token};

// By hand, as the two below: a derived From has no contract, and the clauses name the fault.
impl From<LineFault> for ListingFault {
    ghost from_gives = { λ fault r. r ≡ Line fault };

    fn from(fault: LineFault) -> ListingFault {
        ListingFault::Line(fault)
    }
}

impl From<TokenFault> for ListingFault {
    ghost from_gives = { λ fault r. r ≡ Line (Token fault) };

    fn from(fault: TokenFault) -> ListingFault {
        ListingFault::Line(LineFault::Token(fault))
    }
}

impl From<AllocError> for ListingFault {
    ghost from_gives = { λ _ r. r ≡ OutOfMemory };

    fn from(_fault: AllocError) -> ListingFault {
        ListingFault::OutOfMemory
    }
}

/// Adds the line of the part at a place, if there is one.
fn add_line(text: &mut Vec<u8>, stream: &[u8], place: usize) -> Result<(), ListingFault>
    ensures { MatchResult result (λ _. (too_long stream.now ≡ false) × (text.new.items ≡ text.old.items ++ line_at stream.now place)) (Refused stream.now) }
{
    let mut buffer = [0; LINE_MAX];
    if let Some(n) = line(stream, place, &mut buffer)? {
        text.extend_from_slice(&buffer[0..n])?;
    }
    Ok(())
}

/// The line of each part of a stream, one behind the other.
pub fn listing(heap: Global, stream: &[u8]) -> Result<Vec<u8>, ListingFault>
    ensures { MatchResult result (λ text. Listing stream.now text.items) (Refused stream.now) }
{
    let mut text = Vec::new(heap);
    let mut place = 0;
    // No iterator: a part is given by its place, and its line needs the place too.
    while let Some(part) = token(stream, place)? {
        add_line(&mut text, stream, place)?;
        place += part.bytes().len();
    }
    Ok(text)
}
