//! The parts of the printer's settings.

/// The columns between which characters are put, counted from 1.
#[derive(Clone, Copy, PartialEq, Eq)]
pub struct Margins {
    /// How many columns there are.
    pub columns: u8,
    pub left: u8,
    pub right: u8,
}

/// How the paper is fed.
#[derive(Clone, Copy, PartialEq, Eq)]
pub struct Paper {
    /// The steps of a line feed.
    pub spacing: u8,
    /// The lines of a page.
    pub page: u8,
    /// The number of the present line, from 1.
    pub line: u8,
}

/// How the paper is cut.
#[derive(Clone, Copy, PartialEq, Eq)]
pub struct Cutter {
    pub on: bool,
    /// A partial cut, not a total one.
    // A flag and no kind of cut, as a configuration's body gives it; and no Option with `on`: it is told while the cutter is off too.
    pub partial: bool,
    /// Line feeds before a cut.
    pub lines: u8,
}

/// What an accepted configuration body sets.
#[derive(Clone, Copy, PartialEq, Eq)]
pub struct BodySettings {
    pub columns: u8,
    pub cutter: Cutter,
}
