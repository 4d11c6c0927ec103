//! The page picture.
ghost use Rattle.std.specs.Prelude.{◌≡◌};
ghost use Rattle.page.specs.Pictures.{page_need, picture};
ghost use Rattle.page.specs.Formed.{form_laws};

use crate::picture::put_row;
use action::actions::Action;
use recorder::form::Form;
use recorder::recorder::Recorder;

/// A mechanism that writes its rows into a buffer; its reserve is the room left.
pub type Page<'a> = Recorder<'a, Picture>;

/// The form in which a page shows actions: a row as its advance count and its characters, all else as nothing.
pub struct Picture;

/// The bytes of a row's picture: the advance count and 48 characters.
const ROW_BYTES: usize = 52;

impl Form for Picture {
    ghost need = { page_need };

    ghost size = { page_need };

    ghost bytes = { picture };

    ghost laws = { form_laws };

    /// A row needs its bytes, all else nothing.
    fn need(action: &Action) -> u32 {
        match action {
            Action::Row(_) => ROW_BYTES as u32,
            _ => 0,
        }
    }

    fn write(out: &mut [u8], advance: u32, action: &Action) -> Option<usize> {
        let Action::Row(row) = action else {
            return Some(0);
        };
        if out.len() < ROW_BYTES {
            return None;
        }
        put_row(&mut out[..ROW_BYTES], advance, row.cells());
        Some(ROW_BYTES)
    }
}
