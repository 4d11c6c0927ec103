//! Makes the report of a stream.
ghost use Rattle.std.specs.Prelude.{◌≡◌, ◌<◌, [], ◌++◌, map, length, MatchResult};
ghost use Rattle.interpreter.specs.Interpreter.{Takes, owes};
ghost use Rattle.report.specs.Reports.{AddsByte, AddsOwed, Reports, refused_list, refused_of};

use crate::lines::add_line;
use interpreter::{Interpreter, StepFault};
use runs::fault::RefusedCommand;
use std::alloc::{AllocError, Global};

/// The lines of a job's actions, and the refused commands with their numbers and places.
#[derive(Drop)]
pub struct Report {
    pub lines: Vec<u8>,
    pub refused: Vec<RefusedCommand>,
}

/// Adds the lines of all actions owed; nothing is owed then.
fn add_owed(lines: &mut Vec<u8>, interpreter: &mut Interpreter) -> Result<(), AllocError>
    ensures { MatchResult result (λ _. AddsOwed interpreter.old lines.old.items interpreter.new lines.new.items) (λ _. Unit) }
{
    // The walk of a station's settle: one of both would take a closure, and its contract would have to speak of what the closure holds.
    while let Some(action) = interpreter.owed().first() {
        add_line(lines, &action)?;
        interpreter.remove_first();
    }
    Ok(())
}

/// Takes a byte of a stream when nothing is owed; answers the command that is refused at it, if one is.
fn take_byte(interpreter: &mut Interpreter, stream: &[u8], index: usize) -> Option<RefusedCommand>
    requires { (owes interpreter.old ≡ []) × (index < length stream.now) }
    ensures { Takes stream.now index interpreter.old (refused_list result) interpreter.new }
{
    // An Option, where a station's feed has an error: a refused command ends nothing here. One function for both, being public,
    // could not ask its caller that nothing is owed.
    match interpreter.step(stream, index) {
        Ok(()) => None,
        Err(StepFault::Refused(refusal, place)) => Some(RefusedCommand {
            refusal,
            place: place as i64,
        }),
        Err(StepFault::Ended | StepFault::Owing) => unreachable(),
    }
}

/// Adds a refused command, if there is one.
fn add_refused(
    refused: &mut Vec<RefusedCommand>,
    command: Option<RefusedCommand>,
) -> Result<(), AllocError>
    ensures { MatchResult result (λ _. map refused_of refused.new.items ≡ map refused_of refused.old.items ++ refused_list command) (λ _. Unit) }
{
    if let Some(command) = command {
        refused.push(command)?;
    }
    Ok(())
}

/// Takes a byte of a stream when nothing is owed, and adds what it orders and what is refused at it.
fn add_byte(
    report: &mut Report,
    interpreter: &mut Interpreter,
    stream: &[u8],
    index: usize,
) -> Result<(), AllocError>
    requires { (owes interpreter.old ≡ []) × (index < length stream.now) }
    ensures { MatchResult result (λ _. AddsByte stream.now index interpreter.old report.old.lines.items report.old.refused.items interpreter.new report.new.lines.items report.new.refused.items) (λ _. Unit) }
{
    let command = take_byte(interpreter, stream, index);
    add_refused(&mut report.refused, command)?;
    add_owed(&mut report.lines, interpreter)
}

/// The report of a stream of any length.
pub fn make_report(heap: Global, stream: &[u8]) -> Result<Report, AllocError>
    ensures { MatchResult result (λ x. Reports stream.now x.lines.items x.refused.items) (λ _. Unit) }
{
    let mut interpreter = Interpreter::new();
    let mut made = Report {
        lines: Vec::new(heap),
        refused: Vec::new(heap),
    };
    // By index: a step takes the stream and an index, so that the places it tells count from the stream's start.
    for index in 0..stream.len() {
        add_byte(&mut made, &mut interpreter, stream, index)?;
    }
    Ok(made)
}
