//! How bars are made and read.
ghost use Rattle.std.specs.Prelude.{◌≡◌, ◌≤◌, true, false, ◌||◌, length, take, MatchOption, ◌==◌};
ghost use Rattle.reading.specs.Tests.{between};
ghost use Rattle.job.specs.BarCodes.{verdict};
ghost use Rattle.job.specs.Commands.{bars_of, or_default};
ghost use Rattle.action.specs.Judging.{Judged, size_in_range};

use crate::bars::{BarSize, Bars};
use crate::judging::judge;
use job::bars::BarKind;
use reading::Reply;

impl BarSize {
    /// The size of two parameters, if they are in range; a width of 0 means 2, a height of 0 means 50.
    pub fn new(width: u8, height: u8) -> Option<BarSize>
        ensures { MatchOption result (size_in_range width height ≡ false) (λ s. (size_in_range width height ≡ true) × (s.width ≡ or_default 2 width) × (s.height ≡ or_default 50 height)) }
    {
        let width = filled_in(width, 2, 2, 5)?;
        let height = filled_in(height, 50, 50, 200)?;
        Some(BarSize { width, height })
    }
}

/// A parameter from `low` to `high`, or the default in place of 0.
fn filled_in(parameter: u8, default: u8, low: u8, high: u8) -> Option<u8>
    requires { (low ≤ default) × (default ≤ high) }
    ensures { MatchOption result ((parameter == 0 || between low high parameter) ≡ false) (λ n. ((parameter == 0 || between low high parameter) ≡ true) × (n ≡ or_default default parameter) × (low ≤ n) × (n ≤ high)) }
{
    match parameter {
        0 => Some(default),
        n if (low..=high).contains(&n) => Some(n),
        _ => None,
    }
}

impl Bars {
    /// The bars of a kind and a string, or the reply that says what is wrong with them.
    pub fn new(
        kind: Option<BarKind>,
        size: BarSize,
        shown: bool,
        string: &[u8],
    ) -> Result<Bars, Reply>
        ensures { Judged (verdict kind string.now) (bars_of kind size.width size.height shown string.now) result }
    {
        // The kind is asked for once, by `judge`, so that all faults of a bar code are found in one place.
        judge(kind, string)?;
        Ok(Bars {
            kind: kind.unwrap(),
            size,
            shown,
            string: copied(string),
            len: string.len() as u8,
        })
    }

    /// The kind of bar code.
    pub fn kind(&self) -> BarKind
        ensures { result ≡ self.now.kind }
    {
        self.kind
    }

    /// How wide its modules are.
    pub fn width(&self) -> u8
        ensures { result ≡ self.now.size.width }
    {
        self.size.width
    }

    /// How high it is.
    pub fn height(&self) -> u8
        ensures { result ≡ self.now.size.height }
    {
        self.size.height
    }

    /// Whether the string is shown below the bars.
    pub fn is_shown(&self) -> bool
        ensures { result ≡ self.now.shown }
    {
        self.shown
    }

    /// The characters that it encodes.
    // A row lends its columns likewise: two arrays of two elements, one line each.
    pub fn string(&self) -> &[u8]
        ensures { result.now ≡ take self.now.len self.now.string }
    {
        &self.string[0..self.len as usize]
    }
}

fn copied(string: &[u8]) -> [u8; 25]
    requires { length string.now ≤ 25 }
    ensures { take (length string.now) result ≡ string.now }
{
    let mut bytes = [0; 25];
    bytes[0..string.len()].copy_from_slice(string);
    bytes
}
