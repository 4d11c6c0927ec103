//! Writes the normal text of the stream on standard input.
#![tactic(auto)]

use anyhow::{Context, bail};
use reading::Refusal;
use report::reporting::make_report;
use report::whole_text::whole_text;
use runs::fault::RefusedCommand;
use std::env;
use std::io::{Read, Write};
use std::process::ExitCode;
use stream::STREAM_MAX;

const USAGE: &str = "usage: normal_text [--lines] < STREAM

Writes the normal text of a printer stream of at most 65536 bytes: the one stream by which its ticket is released.
  --lines    writes it for people: hexadecimal, the text of one action a line
Refused commands are passed over; each is told on standard error with its number and the place of its first byte.
";

/// One byte more than a stream may have is enough to refuse it.
const READ_MAX: u64 = STREAM_MAX as u64 + 1;

/// How the text is written.
#[derive(Clone, Copy)]
enum Form {
    Bytes,
    Lines,
}

/// Why a command is refused. No impl of Display: the device's crates have numbers alone, and sentences stand in programs.
fn reason(refusal: Refusal) -> &'static str {
    match refusal {
        Refusal::UnknownCommand => "unknown command",
        Refusal::OutOfRange => "parameter out of range or order",
        Refusal::TooLong => "list or string past its length",
    }
}

/// Tells of each refused command.
fn tell_refused(rt: &HostRuntime, refused: &[RefusedCommand]) -> anyhow::Result<()> {
    for command in refused {
        let number = command.refusal.number();
        let reason = reason(command.refusal);
        let place = command.place;
        eprintln!(rt;
            "normal_text: refusal {number} at byte {place}, {reason}: the command is passed over"
        )?;
    }
    Ok(())
}

fn write_text(rt: &HostRuntime, form: Form) -> anyhow::Result<()> {
    let mut stream = Vec::new(rt.alloc());
    rt.stdin().take(READ_MAX).read_to_end(&mut stream)?;
    let text = whole_text(rt.alloc(), &stream)?;
    let report = make_report(rt.alloc(), &stream).context("there is no memory for the report")?;
    tell_refused(rt, &report.refused)?;
    match form {
        Form::Bytes => rt.stdout().write_all(&text)?,
        Form::Lines => rt.stdout().write_all(&report.lines)?,
    }
    Ok(())
}

fn run(rt: &HostRuntime) -> anyhow::Result<()> {
    // A parser of command lines would word the help and the refusals itself, and end with a status of its own.
    let mut words = env::args(rt)?.skip(1);
    let Some(word) = words.next() else {
        return write_text(rt, Form::Bytes);
    };
    if words.next().is_some() {
        bail!("it takes one argument at most; try --help");
    }
    match word.as_str() {
        "--lines" => write_text(rt, Form::Lines),
        "--help" => Ok(rt.print(USAGE)?),
        _ => bail!("it takes --lines or nothing; try --help"),
    }
}

fn main(rt: HostRuntime) -> anyhow::Result<ExitCode> {
    if let Err(fault) = run(&rt) {
        eprintln!(rt; "normal_text: {fault}")?;
        return Ok(ExitCode::FAILURE);
    }
    Ok(ExitCode::SUCCESS)
}
