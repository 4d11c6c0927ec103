//! The picture of a row.
ghost use Rattle.std.specs.Prelude.{◌≡◌, ◌+◌, map, length};
ghost use Rattle.page.specs.Pictures.{character_of, row_picture};

use job::cells::Cell;

/// What a column shows; blank and tail are spaces.
fn character(cell: Cell) -> u8
    ensures { result ≡ character_of cell }
{
    match cell {
        Cell::Character(code, _) => code,
        Cell::Blank | Cell::Tail(_, _) => 0x20,
    }
}

fn put_characters(out: &mut [u8], cells: &[Cell])
    requires { length out.old ≡ length cells.now }
    ensures { out.new ≡ map character_of cells.now }
{
    // By index: a slice has no `map`, and of one that is written through `iter_mut` no proof says what it then holds.
    for (i, cell) in cells.iter().enumerate() {
        out[i] = character(*cell);
    }
}

/// Writes the advance count, high byte first, and then the characters.
pub fn put_row(out: &mut [u8], advance: u32, cells: &[Cell])
    requires { length out.old ≡ 4 + length cells.now }
    ensures { out.new ≡ row_picture advance cells.now }
{
    out[..4].copy_from_slice(&advance.to_be_bytes());
    put_characters(&mut out[4..], cells);
}
