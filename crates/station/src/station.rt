//! An interpreter that began new and the one mechanism that it meets.
mod calls;

use interpreter::Interpreter;

/// Nobody else can meet the two: both fields are private, and every call that changes one of them keeps the law of runs.
#[derive(Drop)]
pub struct Station<M> {
    interpreter: Interpreter,
    mechanism: M,
}
