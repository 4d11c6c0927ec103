//! The columns of a row.
ghost use Rattle.std.specs.Prelude.{◌≡◌};
ghost use Rattle.job.specs.Row.{closed_cell, is_blank, is_tail, width_of};

/// The five attributes of a character; a wide one fills two columns.
#[derive(Clone, Copy, PartialEq, Eq)]
pub struct Attributes {
    pub emphasised: bool,
    pub tall: bool,
    pub wide: bool,
    pub underlined: bool,
    pub italic: bool,
}

/// A column of a row.
#[derive(Clone, Copy, PartialEq, Eq)]
pub enum Cell {
    Blank,
    /// A character's code and attributes.
    Character(u8, Attributes),
    /// The second column of a wide character, with its code and attributes.
    Tail(u8, Attributes),
}

impl Attributes {
    /// All five off.
    pub const PLAIN: Attributes = Attributes {
        emphasised: false,
        tall: false,
        wide: false,
        underlined: false,
        italic: false,
    };

    /// How many columns a character with these attributes fills.
    pub fn width(self) -> u8
        ensures { result ≡ width_of self }
    {
        // the two widths as they are; 1 + u8::from(self.wide) would hide them
        if self.wide { 2 } else { 1 }
    }
}

impl Cell {
    /// What becomes of the column when its row is closed: a space without underline, and its tail, becomes blank.
    pub fn closed(self) -> Cell
        ensures { result ≡ closed_cell self }
    {
        match self {
            Cell::Character(0x20, attributes) | Cell::Tail(0x20, attributes)
                if !attributes.underlined => Cell::Blank,
            cell => cell,
        }
    }

    /// Nothing stands in the column.
    pub fn is_blank(self) -> bool
        ensures { result ≡ is_blank self }
    {
        matches!(self, Cell::Blank)
    }

    /// The second column of a wide character.
    pub fn is_tail(self) -> bool
        ensures { result ≡ is_tail self }
    {
        matches!(self, Cell::Tail(_, _))
    }
}
