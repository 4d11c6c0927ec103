//! The calls of an interpreter.
ghost use Rattle.std.specs.Prelude.{◌≡◌, ◌<◌, ◌≤◌, [], length, drop, pos, ◌+ℤ◌, neg_ℤ};
ghost use Rattle.job.specs.Invariants.{SettingsHold};
ghost use Rattle.job.specs.Job.{new, step};
ghost use Rattle.settings.specs.Settings.{settings_of};
ghost use Rattle.interpreter.specs.Interpreter.{Steps, owes, state_of, step_of};

use crate::{Interpreter, StepFault};
use action::owed::Owed;
use printer::Printer;
use reader::read_state::{Meaning, Reading};
use reading::Refusal;
use settings::Settings;

impl Interpreter {
    /// Text is read, the printer is new, and nothing is owed.
    pub fn new() -> Interpreter
        ensures state { state_of result ≡ new }
        ensures owed { owes result ≡ [] }
    {
        Interpreter {
            reading: Reading::Text,
            printer: Printer::new(),
            owed: Owed::new(),
        }
    }

    /// Takes the byte at an index of a piece, if nothing is owed; what it orders is owed then.
    pub fn step(&mut self, piece: &[u8], index: usize) -> Result<(), StepFault>
        ensures { Steps piece.now index self.old result self.new }
    {
        if !self.owed.is_empty() {
            return Err(StepFault::Owing);
        }
        let byte = *piece.get(index).ok_or(StepFault::Ended)?;
        let begun = self.reading.begun();
        self.read(byte)
            .map_err(|why| StepFault::Refused(why, place(piece, index, begun)))
    }

    /// Takes a byte when nothing is owed.
    fn read(&mut self, byte: u8) -> Result<(), Refusal>
        requires { owes self.old ≡ [] }
        ensures { step_of result self.new ≡ step (state_of self.old) byte }
    {
        if self.reading.goes_on(byte) {
            return Ok(());
        }
        // Each arm says what is read next: taken out by `mem::replace`, with `?` behind it, what is read makes a byte half as slow again.
        match self.reading.meaning(byte) {
            Ok(Meaning::More(reading)) => {
                self.reading = reading;
                Ok(())
            }
            Ok(Meaning::Done(command)) => {
                self.reading = Reading::Text;
                self.printer.carry_out(command, &mut self.owed)
            }
            Err(why) => {
                self.reading = Reading::Text;
                Err(why)
            }
        }
    }

    /// The settings behind the bytes taken, within their bounds; attributes, one-line width and line number are among them.
    pub fn settings(&self) -> &Settings
        ensures value { settings_of result.now ≡ (state_of self.now).printer.settings }
        ensures holds { SettingsHold (settings_of result.now) }
    {
        self.printer.settings()
    }

    /// What is owed.
    pub fn owed(&self) -> &Owed
        ensures { result.now ≡ self.now.owed }
    {
        &self.owed
    }

    /// What is owed first is owed no more.
    pub fn remove_first(&mut self)
        ensures state { state_of self.new ≡ state_of self.old }
        ensures owed { owes self.new ≡ drop 1 (owes self.old) }
    {
        self.owed.remove_first();
    }
}

/// The place, counted from a piece's start, that lies so many bytes before an index of the piece.
fn place(piece: &[u8], index: usize, before: usize) -> isize
    requires { (index < length piece.now) × (before ≤ 41) }
    ensures { result ≡ pos index +ℤ neg_ℤ (pos before) }
{
    index as isize - before as isize
}
