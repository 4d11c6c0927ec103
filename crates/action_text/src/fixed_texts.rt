//! The texts that are always the same.
ghost use Rattle.std.specs.Prelude.{◌≡◌};
ghost use Rattle.job.specs.NormalText.{action_text, reply_text};
ghost use Rattle.action.specs.Meanings.{cut_act};

use action::actions::Cut;
use reading::Reply;

pub fn cut_text(cut: Cut) -> &'static [u8]
    ensures { result.now ≡ action_text (cut_act cut) }
{
    match cut {
        Cut::Total => b"\x1B\x6D",
        Cut::Partial =>
            b"\x1B\xC60000000110000000000000000000000000010000\x1B\x6D\x1B\xC60000000100000000000000000000000000010000",
    }
}

pub fn reply_text(reply: Reply) -> &'static [u8]
    ensures { result.now ≡ reply_text reply }
{
    match reply {
        Reply::Status1 => b"\x05",
        Reply::Status2 => b"\x1D\x05",
        Reply::Identity => b"\x1B\xC3",
        Reply::Configuration => b"\x1B\xE40000000100000000000000000000000000010000",
        Reply::WrongCharacter => b"\x1B\x62\x01\x00\x00\x00\x41\x00",
        Reply::WrongLength => b"\x1B\x62\x01\x00\x00\x00\x00",
        Reply::UnknownKind => b"\x1B\x62\x00\x00\x00\x00\x00",
    }
}
