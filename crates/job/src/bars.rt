//! Bar codes.
ghost use Rattle.std.specs.Prelude.{◌≡◌};
ghost use Rattle.job.specs.BarCodes.{NamesKind, fault_reply, kind_number};

use reading::Reply;

/// The kinds of bar code, by the numbers under which a stream names them.
#[derive(Clone, Copy, Debug, PartialEq, Eq)]
pub enum BarKind {
    Ean13 = 1,
    Ean8 = 2,
    Standard2of5 = 3,
    Interleaved2of5 = 4,
    Code128 = 5,
    Code39 = 6,
    Code93 = 7,
    UpcA = 8,
    Codabar = 9,
    Msi = 10,
    Code11 = 11,
}

/// A number that names no kind of bar code.
#[derive(Clone, Copy, Debug, PartialEq, Eq)]
pub struct NoSuchKind(pub u8);

/// What is wrong with a bar code's kind or string.
#[derive(Clone, Copy, Debug, PartialEq, Eq)]
pub enum BarFault {
    UnknownKind,
    WrongCharacter,
    WrongLength,
}

/// What a fault answers the host.
impl From<BarFault> for Reply {
    ghost from_gives = { λ fault reply. reply ≡ fault_reply fault };

    fn from(fault: BarFault) -> Reply {
        match fault {
            BarFault::UnknownKind => Reply::UnknownKind,
            BarFault::WrongCharacter => Reply::WrongCharacter,
            BarFault::WrongLength => Reply::WrongLength,
        }
    }
}

/// The number under which a stream names the kind.
impl From<BarKind> for u8 {
    ghost from_gives = { λ kind number. number ≡ kind_number kind };

    fn from(kind: BarKind) -> u8 {
        kind as u8
    }
}

/// The kind of a number, if the station prints it.
impl TryFrom<u8> for BarKind {
    type Error = NoSuchKind;

    ghost try_from_gives = { NamesKind };

    fn try_from(number: u8) -> Result<BarKind, NoSuchKind> {
        // the numbers once more: no cast leads from a number to an enum
        match number {
            1 => Ok(BarKind::Ean13),
            2 => Ok(BarKind::Ean8),
            3 => Ok(BarKind::Standard2of5),
            4 => Ok(BarKind::Interleaved2of5),
            5 => Ok(BarKind::Code128),
            6 => Ok(BarKind::Code39),
            7 => Ok(BarKind::Code93),
            8 => Ok(BarKind::UpcA),
            9 => Ok(BarKind::Codabar),
            10 => Ok(BarKind::Msi),
            11 => Ok(BarKind::Code11),
            _ => Err(NoSuchKind(number)),
        }
    }
}
