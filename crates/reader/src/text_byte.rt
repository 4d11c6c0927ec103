//! Bytes that are printed.
ghost use Rattle.std.specs.Prelude.{◌≡◌, true};
ghost use Rattle.reading.specs.Reading.{is_text};

/// A byte of text, 20 to 7E or 80 to FF.
#[derive(Clone, Copy)]
pub struct TextByte {
    pub code: u8,
    ghost text: { is_text code ≡ true },
}
