//! The parts of a stream, one at a time from any place, and their lines in a listing.
#![tactic(auto)]

ghost use Rattle.std.specs.Prelude.{◌≡◌, ◌+◌, ◌*◌, ◌≤◌, ◌++◌, length, take, drop};
ghost use Rattle.std.specs.List.{flat_map, take_while};
ghost use Rattle.reading.specs.Reading.{is_text};
ghost use Rattle.stream.specs.Answers.{part_of, token_fault_number, token_answer, token_told, too_long, Within};
ghost use Rattle.stream.specs.Awaited.{progress, follow};
ghost use Rattle.stream.specs.Laws.{Laws};
ghost use Rattle.stream.specs.Lines.{head, hex, line_answer, line_left, line_fault_number, line_of, line_told, too_short, FitsALine};
ghost use Rattle.stream.specs.Parts.{cut, letter, part};

mod parts;

use hexadecimal::two_digits;
use parts::Awaited;
pub use parts::{LineFault, Token, TokenFault};
use reading::{Refusal, is_text};

/// The most bytes of a stream.
pub const STREAM_MAX: usize = 65_536;

/// The most bytes of a line: five digits, a space, a letter, three for each of 42 bytes, and the line's end.
pub const LINE_MAX: usize = 134;

impl TokenFault {
    /// The number under which the fault is reported; a method and no From, since u8::from(fault) would not say which number.
    pub fn number(self) -> u8
        ensures { result ≡ token_fault_number self }
    {
        self as u8
    }
}

impl LineFault {
    /// The number under which the fault is reported.
    // A method, as the one above.
    pub fn number(self) -> u8
        ensures { result ≡ line_fault_number self }
    {
        match self {
            LineFault::Token(fault) => fault.number(),
            LineFault::BufferTooShort => 5,
        }
    }
}

// By hand: a derived From has no contract, and the clause of line names the fault.
impl From<TokenFault> for LineFault {
    ghost from_gives = { λ fault r. line_fault_number r ≡ token_fault_number fault };

    fn from(token: TokenFault) -> LineFault {
        LineFault::Token(token)
    }
}

/// What is awaited behind a byte of the command that is being read; nothing any more, if the byte completes it.
fn take_byte(awaited: Awaited, b: u8) -> Result<Option<Awaited>, Refusal>
    ensures { result ≡ progress awaited b }
{
    match (awaited, b) {
        (Awaited::Text, 0x1B) => Ok(Some(Awaited::EscapeCode)),
        (Awaited::Text, 0x1D) => Ok(Some(Awaited::GroupCode)),
        (
            Awaited::Text,
            0x00 | 0x05 | 0x07 | 0x09..=0x0E | 0x11 | 0x13 | 0x14 | 0x18 | 0x20..=0xFF,
        ) => Ok(None),
        (Awaited::Text, _) => Err(Refusal::UnknownCommand),
        (Awaited::EscapeCode, 0x0E | 0x14 | 0x32 | 0x40 | 0x45..=0x48 | 0x6D | 0x70 | 0xC3) => Ok(
            None,
        ),
        (
            Awaited::EscapeCode,
            0x21 | 0x2D | 0x33 | 0x34 | 0x43 | 0x4A | 0x51 | 0x57 | 0x6C | 0x77,
        ) => Ok(Some(Awaited::Bytes(1))),
        (Awaited::EscapeCode, 0x66) => Ok(Some(Awaited::Bytes(2))),
        (Awaited::EscapeCode, 0xC6 | 0xE4) => Ok(Some(Awaited::Bytes(40))),
        (Awaited::EscapeCode, 0x42) => Ok(Some(Awaited::List(0, 16))),
        (Awaited::EscapeCode, 0x44) => Ok(Some(Awaited::List(0, 8))),
        (Awaited::EscapeCode, 0x62) => Ok(Some(Awaited::List(4, 25))),
        (Awaited::EscapeCode, _) => Err(Refusal::UnknownCommand),
        (Awaited::GroupCode, 0x05) => Ok(None),
        (Awaited::GroupCode, _) => Err(Refusal::UnknownCommand),
        (Awaited::Bytes(0 | 1), _) => Ok(None),
        (Awaited::Bytes(n), _) => Ok(Some(Awaited::Bytes(n - 1))),
        (Awaited::List(0, _), 0x00) => Ok(None),
        (Awaited::List(0, 0), _) => Err(Refusal::TooLong),
        (Awaited::List(0, most), _) => Ok(Some(Awaited::List(0, most - 1))),
        (Awaited::List(before, most), _) => Ok(Some(Awaited::List(before - 1, most))),
    }
}

/// The command whose first byte is read, up to the byte that ends it.
fn command(start: Awaited, s: &[u8]) -> Token<'_>
    requires { 1 ≤ length s.now }
    ensures { part_of result ≡ cut (follow 1 start (drop 1 s.now)) s.now }
{
    let mut awaited = start;
    for (i, byte) in s[1..].iter().enumerate() {
        match take_byte(awaited, *byte) {
            Ok(Some(next)) => awaited = next,
            Ok(None) => return Token::Command(&s[..i + 2]),
            Err(_) => return Token::Refused(&s[..i + 2]),
        }
    }
    Token::Unfinished(s)
}

/// How many text bytes follow, up to 16.
fn text_run(s: &[u8]) -> usize
    ensures { result ≡ length (take 16 (take_while is_text s.now)) }
{
    s.iter().take_while(|byte| is_text(**byte)).take(16).count()
}

/// The part that the bytes begin with.
fn first_part(s: &[u8]) -> Token<'_>
    requires { 1 ≤ length s.now }
    ensures { part_of result ≡ part s.now }
{
    if is_text(s[0]) {
        return Token::Text(&s[..text_run(s)]);
    }
    match take_byte(Awaited::Text, s[0]) {
        Ok(Some(next)) => command(next, s),
        Ok(None) => Token::Control(&s[..1]),
        Err(_) => Token::Refused(&s[..1]),
    }
}

fn is_too_long(stream: &[u8]) -> bool
    ensures { result ≡ too_long stream.now }
{
    stream.len() > STREAM_MAX
}

/// The next part of a stream from a place, begun as text; none from the stream's end on.
#[tactic(auto, using(crate::proofs::Whole::laws))]
pub fn token(stream: &[u8], place: usize) -> Result<Option<Token<'_>>, TokenFault>
    ensures answer { token_told result ≡ token_answer stream.now place }
    ensures within { Within stream.now place result }
    ensures laws { Laws stream.now place }
{
    if is_too_long(stream) {
        return Err(TokenFault::StreamTooLong);
    }
    if place >= stream.len() {
        return Ok(None);
    }
    Ok(Some(first_part(&stream[place..])))
}

impl<'a> Token<'a> {
    /// The letter of the token's kind: T, C, E, X or U.
    pub fn letter(&self) -> u8
        ensures { result ≡ letter (part_of self.now).kind }
    {
        // A table, as the definition has it.
        match self {
            Token::Text(_) => b'T',
            Token::Control(_) => b'C',
            Token::Command(_) => b'E',
            Token::Refused(_) => b'X',
            Token::Unfinished(_) => b'U',
        }
    }

    /// The token's part of the stream.
    pub fn bytes(&self) -> &'a [u8]
        ensures { result.now ≡ (part_of self.now).bytes }
    {
        match self {
            Token::Text(bytes)
            | Token::Control(bytes)
            | Token::Command(bytes)
            | Token::Refused(bytes)
            | Token::Unfinished(bytes) => bytes,
        }
    }
}

/// A space and two digits for each byte.
fn put_hex(out: &mut [u8], bytes: &[u8])
    requires { length out.old ≡ 3 * length bytes.now }
    ensures { out.new ≡ flat_map hex bytes.now }
{
    // Nothing would be known of the bytes written through chunks_exact_mut.
    for (i, byte) in bytes.iter().enumerate() {
        let [high, low] = two_digits(*byte);
        out[3 * i..3 * i + 3].copy_from_slice(&[b' ', high, low]);
    }
}

/// The place in five digits, a space and the letter.
fn head(place: usize, letter: u8) -> [u8; 7]
    ensures { result ≡ head place letter }
{
    let digit = |unit: usize| b'0' + (place / unit % 10) as u8;
    [
        digit(10_000),
        digit(1_000),
        digit(100),
        digit(10),
        digit(1),
        b' ',
        letter,
    ]
}

/// Writes the line of a token at the front of the buffer, and answers where it ends.
fn put_line(out: &mut [u8], place: usize, token: &Token<'_>) -> usize
    requires { 8 + 3 * length (part_of token.now).bytes ≤ length out.old }
    ensures len { result ≡ length (line_of place (part_of token.now)) }
    ensures after { out.new ≡ line_of place (part_of token.now) ++ drop result out.old }
{
    let bytes = token.bytes();
    let end = 7 + 3 * bytes.len();
    out[..7].copy_from_slice(&head(place, token.letter()));
    put_hex(&mut out[7..end], bytes);
    out[end] = b'\n';
    end + 1
}

fn is_too_short(out: &[u8]) -> bool
    ensures { result ≡ too_short out.now }
{
    out.len() < LINE_MAX
}

/// Writes the line of the next part of a stream from a place; none from the stream's end on.
pub fn line(stream: &[u8], place: usize, out: &mut [u8]) -> Result<Option<usize>, LineFault>
    ensures answer { line_told result ≡ line_answer stream.now place out.old }
    ensures after { out.new ≡ line_left stream.now place out.old }
    ensures fits { FitsALine result }
{
    let found = token(stream, place)?;
    if is_too_short(out) {
        return Err(LineFault::BufferTooShort);
    }
    let Some(token) = found else {
        return Ok(None);
    };
    Ok(Some(put_line(out, place, &token)))
}
