//! Bytes of actions, one behind the other.
ghost use Rattle.std.specs.Prelude.{◌-◌, ◌≤◌, length};
ghost use Rattle.action.specs.Meanings.{act_of};
ghost use Rattle.mechanism.specs.Buffers.{Appended};

use crate::form::Form;
use action::actions::Action;

/// Lends the tail of the buffer, from the written length on, for one action's bytes; answers where they end.
pub fn append_action<F: Form>(out: &mut [u8], len: usize, advance: u32, action: &Action) -> usize
    requires within { len ≤ length out.old }
    requires room { F.need (act_of action.now) ≤ length out.old - len }
    ensures { Appended out.old len (F.bytes advance (act_of action.now)) result out.new }
{
    match F::write(&mut out[len..], advance, action) {
        Some(length) => len + length,
        None => unreachable(),
    }
}
