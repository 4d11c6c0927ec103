//! What string each kind of bar code may have.
ghost use Rattle.std.specs.Prelude.{◌≡◌, ◌<◌, length};
ghost use Rattle.job.specs.BarCodes.{is_code39, is_code128, is_codabar, is_codabar_end, is_codabar_inner, right_character, right_characters, right_length, verdict};

use job::bars::{BarFault, BarKind};

/// First the kind, then the characters, then the length.
pub fn judge(kind: Option<BarKind>, string: &[u8]) -> Result<(), BarFault>
    ensures { result ≡ verdict kind string.now }
{
    let kind = kind.ok_or(BarFault::UnknownKind)?;
    if !right_characters(kind, string) {
        return Err(BarFault::WrongCharacter);
    }
    if !right_length(kind, string.len()) {
        return Err(BarFault::WrongLength);
    }
    Ok(())
}

fn right_characters(kind: BarKind, string: &[u8]) -> bool
    ensures { result ≡ right_characters kind string.now }
{
    // By index, so that each byte stands against the set of its kind at its place: Codabar has a set of its own for its ends.
    for (place, c) in string.iter().enumerate() {
        if !right_character(kind, string.len(), place, *c) {
            return false;
        }
    }
    true
}

/// Whether a character may stand at a place, counted from 0, of a string of `len` characters.
fn right_character(kind: BarKind, len: usize, place: usize, c: u8) -> bool
    requires { place < len }
    ensures { result ≡ right_character kind len place c }
{
    match kind {
        BarKind::Code39 | BarKind::Code93 => is_code39(c),
        BarKind::Code128 => is_code128(c),
        BarKind::Codabar => is_codabar(len, place, c),
        BarKind::Ean13
        | BarKind::Ean8
        | BarKind::Standard2of5
        | BarKind::Interleaved2of5
        | BarKind::UpcA
        | BarKind::Msi
        | BarKind::Code11 => c.is_ascii_digit(),
    }
}

fn is_code39(c: u8) -> bool
    ensures { result ≡ is_code39 c }
{
    matches!(c, b'0'..=b'9' | b'A'..=b'Z' | b'-' | b'.' | b' ' | b'$' | b'/' | b'+' | b'%')
}

fn is_code128(c: u8) -> bool
    ensures { result ≡ is_code128 c }
{
    matches!(c, 0x01..=0x7F)
}

/// A to D at the first place and the last, other characters between them.
fn is_codabar(len: usize, place: usize, c: u8) -> bool
    requires { place < len }
    ensures { result ≡ is_codabar len place c }
{
    if place == 0 || place + 1 == len {
        is_codabar_end(c)
    } else {
        is_codabar_inner(c)
    }
}

fn is_codabar_end(c: u8) -> bool
    ensures { result ≡ is_codabar_end c }
{
    matches!(c, b'A'..=b'D')
}

fn is_codabar_inner(c: u8) -> bool
    ensures { result ≡ is_codabar_inner c }
{
    matches!(c, b'0'..=b'9' | b'$' | b'-' | b':' | b'/' | b'.' | b'+')
}

fn right_length(kind: BarKind, len: usize) -> bool
    ensures { result ≡ right_length kind len }
{
    match kind {
        BarKind::Ean13 => len == 12,
        BarKind::Ean8 => len == 7,
        BarKind::UpcA => len == 11,
        BarKind::Interleaved2of5 => matches!(len, 2..=24) && len % 2 == 0,
        BarKind::Codabar => matches!(len, 2..=25),
        BarKind::Standard2of5
        | BarKind::Code128
        | BarKind::Code39
        | BarKind::Code93
        | BarKind::Msi
        | BarKind::Code11 => matches!(len, 1..=25),
    }
}
