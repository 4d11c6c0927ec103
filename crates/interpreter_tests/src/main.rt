//! Compares how many commands of a stream are refused with a table on standard input, and tries places of refused commands.
//! A row of the table: the stream in hexadecimal, its normal text in hexadecimal or - for none, how many commands are refused.
#![tactic(auto)]

use anyhow::{Context, bail};
use hexadecimal::decode;
use interpreter::{Interpreter, StepFault};
use reading::Refusal;
use std::io::{BufRead, BufReader};
use std::mem::size_of;

/// Takes all bytes of a stream, drops what they order, and counts the refused commands.
fn refusals(stream: &[u8]) -> usize {
    let mut interpreter = Interpreter::new();
    // By index: a step takes the stream and an index, so that the places it tells count from the stream's start.
    (0..stream.len())
        .filter(|index| take_byte(&mut interpreter, stream, *index).is_some())
        .count()
}

/// Takes a byte, drops what it orders, and answers the refusal of its command with the place.
fn take_byte(
    interpreter: &mut Interpreter,
    piece: &[u8],
    index: usize,
) -> Option<(Refusal, isize)> {
    let step = interpreter.step(piece, index);
    for _ in 0..interpreter.owed().len() {
        interpreter.remove_first();
    }
    match step {
        Err(StepFault::Refused(why, place)) => Some((why, place)),
        Err(StepFault::Ended | StepFault::Owing) | Ok(()) => None,
    }
}

/// Compares each row, and answers how many there are.
fn compare_table(rt: &HostRuntime) -> anyhow::Result<u32> {
    // Rows are read here, since each table has rows of its own, and counted by hand: comments do not count, and every row may fail.
    let mut rows = 0u32;
    for row in BufReader::new(rt.alloc(), rt.stdin())?.lines(rt.alloc()) {
        let row = row?;
        let (stream, rest) = row
            .split_once(' ')
            .context("a row of the table has no space")?;
        if stream == "#" {
            continue;
        }
        let (_, expected) = rest
            .split_once(' ')
            .context("a row of the table has no second space")?;
        if refusals(&decode(rt.alloc(), stream.as_bytes())?) != expected.parse::<u32>()? as usize {
            rt.eprintln(stream)?;
            bail!("this stream's refused commands differ from the table");
        }
        rows = rows.saturating_add(1);
    }
    Ok(rows)
}

/// Feeds pieces to a new interpreter and prints each refusal with its place.
fn show_refusals(rt: &HostRuntime, name: &str, pieces: &[&[u8]]) -> anyhow::Result<()> {
    let mut interpreter = Interpreter::new();
    for piece in pieces {
        // By index, as above.
        for index in 0..piece.len() {
            if let Some((why, place)) = take_byte(&mut interpreter, piece, index) {
                let number = why.number();
                println!(rt; "{name}: {number} at {place}")?;
            }
        }
    }
    let line = interpreter.settings().paper().line;
    let right = interpreter.settings().margins().right;
    println!(rt; "{name}: right margin {right}, line {line}")?;
    Ok(())
}

fn main(rt: HostRuntime) -> anyhow::Result<()> {
    let rows = compare_table(&rt)?;
    println!(rt; "{rows} streams have as many refused commands as in the table")?;
    show_refusals(&rt, "1B 7A", &[b"\x1bz"])?;
    show_refusals(&rt, "1B, 7A", &[b"\x1b", b"z"])?;
    show_refusals(&rt, "1B 51 03", &[b"\x1bQ\x03"])?;
    show_refusals(&rt, "1B 51 04 0A", &[b"\x1bQ\x04\n"])?;
    let bytes = size_of::<Interpreter>();
    println!(rt; "an interpreter takes {bytes} bytes")?;
    Ok(())
}
