//! Tests on columns.
ghost use Rattle.std.specs.Prelude.{◌≡◌, not, ◌&&◌};
ghost use Rattle.reading.specs.Reading.{is_text};
ghost use Rattle.reading.specs.Tests.{every};
ghost use Rattle.job.specs.Row.{is_blank, is_invisible};
ghost use Rattle.job.specs.declared.cells.Cell.TheVariants.{Blank};
ghost use Rattle.action.specs.Tests.{opens_wide, has_tail, follows, laid_behind};

use job::cells::{Attributes, Cell};
use reading::is_text;

/// Whether nothing stands in any of the columns.
pub fn all_blank(cells: &[Cell]) -> bool
    ensures { result ≡ every is_blank cells.now }
{
    cells.iter().all(|cell| cell.is_blank())
}

/// Whether a tail stands exactly behind each wide character, and each character is visible.
pub fn laid_out(cells: &[Cell]) -> bool
    ensures { result ≡ laid_behind Blank cells.now }
{
    // A loop: behind it the last column is at hand, whose tail is asked for; a chain of pairs would look for it again.
    let mut before = Cell::Blank;
    for cell in cells {
        if !follows(before, *cell) {
            return false;
        }
        before = *cell;
    }
    !opens_wide(before)
}

/// Whether a column may stand behind another.
fn follows(before: Cell, cell: Cell) -> bool
    ensures { result ≡ follows before cell }
{
    match cell {
        Cell::Blank => !opens_wide(before),
        Cell::Character(code, attributes) => !opens_wide(before) && is_visible(code, attributes),
        Cell::Tail(code, attributes) => has_tail(before, code, attributes),
    }
}

/// Whether a tail with this code and these attributes belongs to a column.
fn has_tail(cell: Cell, code: u8, attributes: Attributes) -> bool
    ensures { result ≡ has_tail cell code attributes }
{
    matches!(cell, Cell::Character(k, a) if a.wide && k == code && a == attributes)
}

/// A wide character, whose tail comes next.
fn opens_wide(cell: Cell) -> bool
    ensures { result ≡ opens_wide cell }
{
    matches!(cell, Cell::Character(_, attributes) if attributes.wide)
}

/// A text byte, and no space without underline.
fn is_visible(code: u8, attributes: Attributes) -> bool
    ensures { result ≡ (is_text code && not (is_invisible code attributes)) }
{
    is_text(code) && (code != 0x20 || attributes.underlined)
}
