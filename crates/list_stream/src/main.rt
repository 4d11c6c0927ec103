//! Lists the stream on standard input: a line for each part, with its place, its kind and its bytes.
#![tactic(auto)]

use anyhow::bail;
use listing::listing;
use std::env;
use std::io::{Read, Write};
use std::process::ExitCode;
use stream::STREAM_MAX;

const USAGE: &str = "usage: list_stream < STREAM

Lists the parts of a printer stream of at most 65536 bytes, one a line: place, kind, bytes.
Kinds: T text, C single byte, E complete command, X refused command, U unfinished command.
";

/// One byte more than a stream may have is enough to refuse it.
const READ_MAX: u64 = STREAM_MAX as u64 + 1;

fn list(rt: &HostRuntime) -> anyhow::Result<()> {
    let mut stream = Vec::new(rt.alloc());
    rt.stdin().take(READ_MAX).read_to_end(&mut stream)?;
    let text = listing(rt.alloc(), &stream)?;
    Ok(rt.stdout().write_all(&text)?)
}

fn run(rt: &HostRuntime) -> anyhow::Result<()> {
    // A parser of command lines would word the help and the refusals itself, and end with a status of its own.
    match env::args(rt)?.nth(1) {
        None => list(rt),
        Some(word) if word.as_str() == "--help" => Ok(rt.print(USAGE)?),
        Some(_) => bail!("it takes no arguments; try --help"),
    }
}

fn main(rt: HostRuntime) -> anyhow::Result<ExitCode> {
    if let Err(fault) = run(&rt) {
        eprintln!(rt; "list_stream: {fault}")?;
        return Ok(ExitCode::FAILURE);
    }
    Ok(ExitCode::SUCCESS)
}
