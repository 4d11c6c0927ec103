//! What is being read, and what a byte makes of it.
ghost use Rattle.std.specs.Prelude.{◌≡◌, ◌+◌, ◌≤◌, [], ◌∷◌, ◌++◌, length, Ok};
ghost use Rattle.reading.specs.Commands.{with_parameter};
ghost use Rattle.reading.specs.Reading.{escape_codes, meaning, more, parameter, single_bytes, unknown};
ghost use Rattle.reading.specs.Tests.{find};
ghost use Rattle.reading.specs.Unfinished.{begun};
ghost use Rattle.reader.specs.Commands.{command_of};
ghost use Rattle.reader.specs.Reading.{collected_of, meaning_of, reading_of, GoesOn, UpToZero};

use crate::command::{BarParameters, Command};
use crate::text_byte::TextByte;
use reading::{ParameterCode, Refusal, Reply};
use short::{Full, Short};

/// What is being read; of an unfinished command, the bytes that its completion needs.
#[derive(Clone, Copy)]
pub enum Reading {
    Text,
    /// The code after 1B.
    Escape,
    /// The code after 1D.
    Group,
    /// The parameter of a code that takes one.
    Parameter(ParameterCode),
    /// The first parameter of 1B 66.
    RepeatWhat,
    /// The second parameter of 1B 66, behind the first.
    RepeatCount(u8),
    Collecting(Collected),
}

/// What is collected byte by byte.
#[derive(Clone, Copy)]
pub enum Collected {
    /// The four parameters of a bar code, of which at most three have come.
    BarParameters(Short<3>),
    /// A bar code's string, behind its parameters.
    BarString(BarParameters, Short<25>),
    /// Vertical stops.
    VerticalList(Short<16>),
    /// Horizontal stops.
    HorizontalList(Short<8>),
    /// A configuration's body of 40 bytes, of which at most 39 have come, and whether it also replies.
    Body(bool, Short<39>),
}

/// What a byte that is not refused makes of what is being read. Behind a complete command, text is read.
#[derive(Clone, Copy)]
pub enum Meaning {
    /// More of the command is to come.
    More(Reading),
    /// The command is complete.
    Done(Command),
}

impl Reading {
    /// What a byte makes of what is being read, or why it refuses the command; behind a refused command, text is read.
    pub fn meaning(self, byte: u8) -> Result<Meaning, Refusal>
        ensures { meaning_of result ≡ meaning (reading_of self) byte }
    {
        match (self, byte) {
            (Reading::Text, 0x00..=0x1F | 0x7F) => single_byte(byte),
            (Reading::Text, _) => Ok(Meaning::Done(Command::Print(TextByte { code: byte }))),
            (Reading::Escape, _) => escape_code(byte),
            (Reading::Group, 0x05) => Ok(Meaning::Done(Command::Send(Reply::Status2))),
            (Reading::Group, _) => Err(Refusal::UnknownCommand),
            (Reading::Parameter(code), n) => Ok(Meaning::Done(with_parameter(code, n))),
            (Reading::RepeatWhat, what) => Ok(Meaning::More(Reading::RepeatCount(what))),
            (Reading::RepeatCount(what), n) => Ok(Meaning::Done(Command::Repeat(what, n))),
            (Reading::Collecting(collected), n) => collected.meaning(n),
        }
    }

    /// Takes a byte that only adds to what is collected, and answers that it did; any other byte changes nothing here, and `meaning` says what it means.
    // Asked before `meaning`, whose results copy what is collected several times over: here it is copied out and back, once.
    pub fn goes_on(&mut self, byte: u8) -> bool
        ensures { GoesOn (reading_of self.old) byte result (reading_of self.new) }
    {
        let Reading::Collecting(mut collected) = *self else {
            return false;
        };
        let goes_on = collected.goes_on(byte);
        if goes_on {
            *self = Reading::Collecting(collected);
        }
        goes_on
    }

    /// How many bytes of an unfinished command have come.
    pub fn begun(&self) -> usize
        ensures value { result ≡ length (begun (reading_of self.now)) }
        ensures few { result ≤ 41 }
    {
        match self {
            Reading::Text => 0,
            Reading::Escape | Reading::Group => 1,
            Reading::Parameter(_) | Reading::RepeatWhat => 2,
            Reading::RepeatCount(_) => 3,
            Reading::Collecting(collected) => collected.begun(),
        }
    }
}

impl Collected {
    fn meaning(self, byte: u8) -> Result<Meaning, Refusal>
        ensures { meaning_of result ≡ meaning (collected_of self) byte }
    {
        Ok(match self {
            Collected::BarParameters(mut got) => match got.push(byte) {
                Ok(()) => collecting(Collected::BarParameters(got)),
                Err(Full) => collecting(Collected::BarString(
                    BarParameters::from(whole(got.as_slice(), byte)),
                    Short::new(),
                )),
            },
            // What the three lists share is `up_to_zero`. The two lines left of each make the list and the command: as closures
            // they would stand in a function over N, which the borrow checker does not cover.
            Collected::BarString(parameters, string) => match up_to_zero(string, byte)? {
                Some(string) => collecting(Collected::BarString(parameters, string)),
                None => Meaning::Done(Command::BarCode(parameters, string)),
            },
            Collected::VerticalList(stops) => match up_to_zero(stops, byte)? {
                Some(stops) => collecting(Collected::VerticalList(stops)),
                None => Meaning::Done(Command::SetVerticalStops(stops)),
            },
            Collected::HorizontalList(stops) => match up_to_zero(stops, byte)? {
                Some(stops) => collecting(Collected::HorizontalList(stops)),
                None => Meaning::Done(Command::SetHorizontalStops(stops)),
            },
            Collected::Body(replies, mut got) => match got.push(byte) {
                Ok(()) => collecting(Collected::Body(replies, got)),
                Err(Full) => Meaning::Done(Command::Configure(
                    replies,
                    whole(got.as_slice(), byte),
                )),
            },
        })
    }

    fn goes_on(&mut self, byte: u8) -> bool
        ensures { GoesOn (collected_of self.old) byte result (collected_of self.new) }
    {
        match self {
            Collected::BarParameters(got) => got.push(byte).is_ok(),
            Collected::BarString(_, string) => byte != 0 && string.push(byte).is_ok(),
            Collected::VerticalList(stops) => byte != 0 && stops.push(byte).is_ok(),
            Collected::HorizontalList(stops) => byte != 0 && stops.push(byte).is_ok(),
            Collected::Body(_, got) => got.push(byte).is_ok(),
        }
    }

    fn begun(&self) -> usize
        ensures value { result ≡ length (begun (collected_of self.now)) }
        ensures few { result ≤ 41 }
    {
        // Before what is collected stand 1B and a code, and before a bar code's string its parameters too.
        match self {
            Collected::BarParameters(got) => 2 + got.len(),
            Collected::BarString(_, string) => 6 + string.len(),
            Collected::VerticalList(stops) => 2 + stops.len(),
            Collected::HorizontalList(stops) => 2 + stops.len(),
            Collected::Body(_, got) => 2 + got.len(),
        }
    }
}

// Two words for the tables below, each of what it begins.
fn collecting(collected: Collected) -> Meaning
    ensures { meaning_of (Ok result) ≡ more (collected_of collected) }
{
    Meaning::More(Reading::Collecting(collected))
}

fn parameter(code: ParameterCode) -> Meaning
    ensures { meaning_of (Ok result) ≡ more (parameter code) }
{
    Meaning::More(Reading::Parameter(code))
}

/// One byte more of a list that a 00 ends: the list with the byte behind it, or none if the byte ends it.
fn up_to_zero<const N: usize>(mut got: Short<N>, byte: u8) -> Result<Option<Short<N>>, Refusal>
    ensures { UpToZero got.entry byte result }
{
    if byte == 0 {
        return Ok(None);
    }
    got.push(byte).map_err(|_| Refusal::TooLong)?;
    Ok(Some(got))
}

/// All N bytes: those that came before the last, and the last.
fn whole<const N: usize>(before: &[u8], last: u8) -> [u8; N]
    requires { length before.now + 1 ≡ N }
    ensures { result ≡ before.now ++ last ∷ [] }
{
    let mut bytes = [last; N];
    bytes[..before.len()].copy_from_slice(before);
    bytes
}

/// A byte outside any command that is no text.
fn single_byte(byte: u8) -> Result<Meaning, Refusal>
    ensures { meaning_of result ≡ find unknown single_bytes byte }
{
    Ok(match byte {
        0x00 | 0x0D => Meaning::Done(Command::Idle),
        0x1B => Meaning::More(Reading::Escape),
        0x1D => Meaning::More(Reading::Group),
        0x05 => Meaning::Done(Command::Send(Reply::Status1)),
        0x07 => Meaning::Done(Command::SoundBeep),
        0x0A => Meaning::Done(Command::LineFeed),
        0x0B => Meaning::Done(Command::VerticalTab),
        0x0C => Meaning::Done(Command::FormFeed),
        0x09 => Meaning::Done(Command::HorizontalTab),
        0x18 => Meaning::Done(Command::CancelRow),
        0x7F => Meaning::Done(Command::Delete),
        0x0E => Meaning::Done(Command::SetExpanded(1)),
        0x14 => Meaning::Done(Command::AttributesOff),
        0x11 => Meaning::Done(Command::SetEmphasised(true)),
        0x13 => Meaning::Done(Command::SetEmphasised(false)),
        _ => return Err(Refusal::UnknownCommand),
    })
}

/// The code after 1B.
fn escape_code(byte: u8) -> Result<Meaning, Refusal>
    ensures { meaning_of result ≡ find unknown escape_codes byte }
{
    Ok(match byte {
        0xC3 => Meaning::Done(Command::Send(Reply::Identity)),
        0x70 => Meaning::Done(Command::PulseDrawer),
        0x45 | 0x47 => Meaning::Done(Command::SetEmphasised(true)),
        0x46 | 0x48 => Meaning::Done(Command::SetEmphasised(false)),
        0x0E => Meaning::Done(Command::SetOneLineWidth(true)),
        0x14 => Meaning::Done(Command::SetOneLineWidth(false)),
        0x57 => parameter(ParameterCode::Expanded),
        0x77 => parameter(ParameterCode::DoubleHeight),
        0x2D => parameter(ParameterCode::Underline),
        0x34 => parameter(ParameterCode::Italic),
        0x21 => parameter(ParameterCode::PrintMode),
        0x32 => Meaning::Done(Command::SetSpacing(25)),
        0x33 => parameter(ParameterCode::Spacing),
        0x4A => parameter(ParameterCode::FeedSteps),
        0x66 => Meaning::More(Reading::RepeatWhat),
        0x43 => parameter(ParameterCode::PageLength),
        0x42 => collecting(Collected::VerticalList(Short::new())),
        0x44 => collecting(Collected::HorizontalList(Short::new())),
        0x6C => parameter(ParameterCode::LeftMargin),
        0x51 => parameter(ParameterCode::RightMargin),
        0x6D => Meaning::Done(Command::Cut),
        0x62 => collecting(Collected::BarParameters(Short::new())),
        0xC6 => collecting(Collected::Body(false, Short::new())),
        0xE4 => collecting(Collected::Body(true, Short::new())),
        0x40 => Meaning::Done(Command::Reset),
        _ => return Err(Refusal::UnknownCommand),
    })
}

/// The command of a code that takes one parameter.
fn with_parameter(code: ParameterCode, n: u8) -> Command
    ensures { command_of result ≡ with_parameter code n }
{
    match code {
        ParameterCode::Expanded => Command::SetExpanded(n),
        ParameterCode::DoubleHeight => Command::SetDoubleHeight(n),
        ParameterCode::Underline => Command::SetUnderline(n),
        ParameterCode::Italic => Command::SetItalic(n),
        ParameterCode::PrintMode => Command::SetPrintMode(n),
        ParameterCode::Spacing => Command::SetSpacing(n),
        ParameterCode::FeedSteps => Command::FeedSteps(n),
        ParameterCode::PageLength => Command::SetPageLength(n),
        ParameterCode::LeftMargin => Command::SetLeftMargin(n),
        ParameterCode::RightMargin => Command::SetRightMargin(n),
    }
}
