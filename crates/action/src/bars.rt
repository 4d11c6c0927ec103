//! A bar code that is ordered.
mod methods;

ghost use Rattle.std.specs.Prelude.{◌≤◌, take};
ghost use Rattle.job.specs.Actions.{bars};
ghost use Rattle.job.specs.Orderable.{Orderable};

use job::bars::BarKind;

/// The width of a bar code's modules, 2 to 5, and its height, 50 to 200.
#[derive(Clone, Copy)]
pub struct BarSize {
    width: u8,
    height: u8,
    ghost widths: { (2 ≤ width) × (width ≤ 5) },
    ghost heights: { (50 ≤ height) × (height ≤ 200) },
}

/// Bars that a stream can order.
#[derive(Clone, Copy)]
pub struct Bars {
    kind: BarKind,
    size: BarSize,
    shown: bool,
    // the string in place, with its count in a byte: a `Short<25>` counts in a word, and makes an interpreter, whose size is tested, 32 bytes larger
    string: [u8; 25],
    len: u8,
    ghost within: { len ≤ 25 },
    ghost ok: { ∥ Orderable (bars kind size.width size.height shown (take len string)) ∥₁ },
}
