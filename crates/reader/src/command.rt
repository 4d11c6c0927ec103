//! Complete commands.
ghost use Rattle.std.specs.Prelude.{◌≡◌};
ghost use Rattle.reader.specs.Commands.{parameters_of};

use crate::text_byte::TextByte;
use reading::Reply;
use short::Short;

/// The four parameters of a bar code, as the stream gave them: whether there is such a kind or size is asked when they are carried out.
#[derive(Clone, Copy)]
pub struct BarParameters {
    /// The number of its kind.
    pub kind: u8,
    /// The width of its modules; 0 for the default.
    pub width: u8,
    /// Its height; 0 for the default.
    pub height: u8,
    /// 1 if its string is shown below it.
    pub shown: u8,
}

impl From<[u8; 4]> for BarParameters {
    /// The parameters in the order in which they come.
    fn from(bytes: [u8; 4]) -> BarParameters
        ensures { parameters_of result ≡ bytes }
    {
        let [kind, width, height, shown] = bytes;
        BarParameters {
            kind,
            width,
            height,
            shown,
        }
    }
}

/// A complete command, with its parameters as the stream gave them: numbers, of which nobody has asked yet whether they are in range.
#[derive(Clone, Copy)]
pub enum Command {
    /// A byte that is taken and does nothing.
    Idle,
    Print(TextByte),
    Send(Reply),
    SoundBeep,
    PulseDrawer,
    LineFeed,
    VerticalTab,
    FormFeed,
    HorizontalTab,
    CancelRow,
    Delete,
    /// All five attributes and one-line width off.
    AttributesOff,
    SetEmphasised(bool),
    SetOneLineWidth(bool),
    SetExpanded(u8),
    SetDoubleHeight(u8),
    SetUnderline(u8),
    SetItalic(u8),
    /// Four attributes at once, by bits.
    SetPrintMode(u8),
    SetSpacing(u8),
    FeedSteps(u8),
    /// What, 0 for spaces and 1 for line feeds, and how many.
    Repeat(u8, u8),
    SetPageLength(u8),
    SetVerticalStops(Short<16>),
    SetHorizontalStops(Short<8>),
    SetLeftMargin(u8),
    SetRightMargin(u8),
    Cut,
    BarCode(BarParameters, Short<25>),
    /// Whether it also replies, and its body.
    Configure(bool, [u8; 40]),
    Reset,
}
