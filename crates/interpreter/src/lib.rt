//! The interpreter of a ticket stream: it takes the stream byte by byte, in fixed memory, and owes what the stream orders.
#![tactic(auto)]

mod calls;

use action::owed::Owed;
use printer::Printer;
use reader::read_state::Reading;
use reading::Refusal;

/// What is being read, the printer, and what the bytes taken have ordered and no mechanism has taken yet.
#[derive(Clone, Copy)]
pub struct Interpreter {
    reading: Reading,
    printer: Printer,
    owed: Owed,
}

/// What kept a step from being taken, or its command from being carried out.
#[derive(Clone, Copy, PartialEq, Eq)]
pub enum StepFault {
    /// The byte was taken, and its command refused. The place of the command's first byte counts from the piece's start;
    /// it is negative if the command began in an earlier piece.
    Refused(Refusal, isize),
    /// The piece has no such byte; nothing happened.
    Ended,
    /// Something is still owed; nothing happened.
    Owing,
}
