//! In what form actions are written.
ghost use Rattle.std.specs.Prelude.{◌≡◌, ℕ, List};
ghost use Rattle.job.specs.Actions.{Act};
ghost use Rattle.action.specs.Meanings.{act_of};
ghost use Rattle.mechanism.specs.Buffers.{Writes};
ghost use Rattle.recorder.specs.Forms.{FormLaws};

use action::actions::Action;

/// What is written of an action, and how much room it must find.
pub trait Form {
    // how much room an action must find
    ghost need: { Act → ℕ };

    // how much of it its bytes fill
    ghost size: { Act → ℕ };

    // the bytes of an action at an advance count
    ghost bytes: { ℕ → Act → List ℕ };

    // the bytes of no action that can be ordered are more than its need
    ghost laws: { FormLaws need size bytes };

    /// How much room an action must find.
    fn need(action: &Action) -> u32
        ensures { result ≡ need (act_of action.now) };

    /// Writes an action's bytes, at an advance count, at the front of a buffer and answers how many they are, or nothing if there is less room than the action needs.
    fn write(out: &mut [u8], advance: u32, action: &Action) -> Option<usize>
        ensures { Writes (need (act_of action.now)) (bytes advance (act_of action.now)) out.old result out.new };
}
