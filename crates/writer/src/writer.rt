//! The text writer.
ghost use Rattle.action_text.specs.Needs.{text_need};
ghost use Rattle.writer.specs.Texts.{form_laws, size, text};

use action::actions::Action;
use action_text::needs::need;
use action_text::writing::write_action;
use recorder::form::Form;
use recorder::recorder::Recorder;

/// A mechanism that writes the normal text of its actions into a buffer; its reserve is the room left.
pub type Writer<'a> = Recorder<'a, NormalText>;

/// The form in which a writer writes actions: each as its normal text.
pub struct NormalText;

impl Form for NormalText {
    ghost need = { text_need };

    ghost size = { size };

    ghost bytes = { text };

    ghost laws = { form_laws };

    fn need(action: &Action) -> u32 {
        need(action)
    }

    fn write(out: &mut [u8], _advance: u32, action: &Action) -> Option<usize> {
        write_action(out, action)
    }
}
