//! Writes the normal text of an action.
ghost use Rattle.std.specs.Prelude.{◌≤◌, length};
ghost use Rattle.job.specs.NormalText.{action_text};
ghost use Rattle.action.specs.Meanings.{act_of, bars_act};
ghost use Rattle.action_text.specs.Needs.{Writes};
ghost use Rattle.action_text.specs.Pens.{left, Wrote};

use crate::fixed_texts::{cut_text, reply_text};
use crate::needs::need;
use crate::pen::Pen;
use action::actions::Action;
use action::bars::Bars;

impl<'a> Pen<'a> {
    /// The command, with its parameters filled in.
    fn put_bars(&mut self, bars: &Bars)
        requires { length (action_text (bars_act bars.now)) ≤ left self.old }
        ensures { Wrote self.old (action_text (bars_act bars.now)) self.new }
    {
        let kind = u8::from(bars.kind());
        let shown = u8::from(bars.is_shown());
        self.put(&[0x1B, 0x62, kind, bars.width(), bars.height(), shown]);
        self.put(bars.string());
        self.put(&[0x00]);
    }

    /// The text of an action.
    fn put_action(&mut self, action: &Action)
        requires { length (action_text (act_of action.now)) ≤ left self.old }
        ensures { Wrote self.old (action_text (act_of action.now)) self.new }
    {
        match action {
            Action::Row(row) => self.put_row(row.cells()),
            Action::Advance(steps) => self.put(&[0x1B, 0x4A, steps.count()]),
            Action::Bars(bars) => self.put_bars(bars),
            Action::Cut(cut) => self.put(cut_text(*cut)),
            Action::Pulse => self.put(&[0x1B, 0x70]),
            Action::Beep => self.put(&[0x07]),
            Action::Reply(reply) => self.put(reply_text(*reply)),
        }
    }
}

/// Writes an action's text at the front of a buffer and answers its length, or nothing if there is less room than the action needs.
pub fn write_action(out: &mut [u8], action: &Action) -> Option<usize>
    ensures { Writes out.old (act_of action.now) result out.new }
{
    if out.len() < need(action) as usize {
        return None;
    }
    let mut pen = Pen::new(out);
    pen.put_action(action);
    Some(pen.written())
}
