//! What the plate answers to the host.
ghost use Rattle.std.specs.Prelude.{◌≡◌};
ghost use Rattle.action.specs.Meanings.{act_of};
ghost use Rattle.short.specs.Short.{listed};
ghost use Rattle.plate.specs.Replies.{latest_after, reply_bytes};

use action::actions::Action;
use mechanism::status::Status;
use reading::Reply;
use short::Short;

/// A reply, at these status bytes.
fn reply_bytes(reply: Reply, status: Status) -> Short<7>
    ensures { listed result ≡ reply_bytes status reply }
{
    match reply {
        Reply::Status1 => Short::leading(&[status.status1]),
        Reply::Status2 => Short::leading(&[status.status2]),
        Reply::Identity => Short::leading(b":20002\r"),
        Reply::Configuration => Short::leading(b":\r"),
        Reply::WrongCharacter => Short::leading(b":E01\r"),
        Reply::WrongLength => Short::leading(b":E02\r"),
        Reply::UnknownKind => Short::leading(b":E99\r"),
    }
}

/// The latest reply after an action was taken at these status bytes: bars are answered too.
pub fn latest_after(latest: Short<7>, action: &Action, status: Status) -> Short<7>
    ensures { listed result ≡ latest_after (listed latest) status (act_of action.now) }
{
    match action {
        Action::Reply(reply) => reply_bytes(*reply, status),
        Action::Bars(_) => Short::leading(b":E00\r"),
        _ => latest,
    }
}
