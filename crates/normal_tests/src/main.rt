//! Compares normal texts with tables on standard input, and prints those of some tickets and bar codes.
//! A row of three words: a stream, its normal text, and how many commands are passed over.
//! A row of five or six: a stream, a buffer's length, what is written into it, how many commands are passed over, and the outcome,
//! `ok` or `held` and a number. Bytes are in hexadecimal, - for none.
#![tactic(auto)]

mod tickets;

use crate::tickets::show_tickets;
use action_text::needs::ROW_NEED;
use anyhow::{Context, bail};
use hexadecimal::decode;
use normal::answer::NormaliseFault;
use normal::normalise::normalise;
use std::alloc::Global;
use std::io::{BufRead, BufReader};
use stream::STREAM_MAX;

/// What the buffers hold before; no text ends with it.
const FOUND: u8 = 0xEE;

/// What a row of a table expects.
#[derive(Drop)]
struct Expected {
    stream: Vec<u8>,
    buffer: usize,
    text: Vec<u8>,
    passed_over: usize,
    refusal: Option<u8>,
}

fn bytes(heap: Global, word: &str) -> anyhow::Result<Vec<u8>> {
    let digits = if word == "-" { "" } else { word };
    Ok(decode(heap, digits.as_bytes())?)
}

/// A row with a buffer that has room for its text.
fn whole_row(heap: Global, stream: &str, rest: &str) -> anyhow::Result<Expected> {
    let (text, passed_over) = rest.split_once(' ').context("a row has two words")?;
    let text = bytes(heap, text)?;
    let buffer = text.len().saturating_add(ROW_NEED as usize);
    Ok(Expected {
        stream: bytes(heap, stream)?,
        buffer,
        text,
        passed_over: passed_over.parse::<usize>()?,
        refusal: None,
    })
}

/// A row with a buffer of its own length.
fn short_row(heap: Global, stream: &str, rest: &str) -> anyhow::Result<Expected> {
    let (length, rest) = rest.split_once(' ').context("a row has two words")?;
    let (text, rest) = rest.split_once(' ').context("a row has three words")?;
    let (passed_over, outcome) = rest.split_once(' ').context("a row has four words")?;
    // 0 for none, as it is printed.
    let refusal = outcome
        .strip_prefix("held ")
        .map(|number| number.parse::<u8>())
        .transpose()?
        .filter(|number| *number != 0);
    Ok(Expected {
        stream: bytes(heap, stream)?,
        buffer: length.parse::<usize>()?,
        text: bytes(heap, text)?,
        passed_over: passed_over.parse::<usize>()?,
        refusal,
    })
}

/// The number of the refusal, if there is one.
fn refusal(outcome: Result<(), NormaliseFault>) -> Option<u8> {
    outcome.err().map(|fault| fault.number())
}

/// The number under which an outcome is printed, 0 for a text that is written whole, as the expected output has it.
fn printed(outcome: Result<(), NormaliseFault>) -> u8 {
    refusal(outcome).unwrap_or(0)
}

/// Whether a buffer holds a text, and behind it what it held before.
fn holds(buffer: &[u8], text: &[u8]) -> bool {
    buffer
        .strip_prefix(text)
        .is_some_and(|rest| rest.iter().all(|byte| *byte == FOUND))
}

fn is_as_expected(heap: Global, expected: &Expected) -> anyhow::Result<bool> {
    let mut buffer = vec![in heap; FOUND; expected.buffer]?;
    let answer = normalise(&expected.stream, &mut buffer);
    Ok(
        answer.written == expected.text.len()
            && answer.passed_over == expected.passed_over
            && refusal(answer.outcome) == expected.refusal
            && holds(&buffer, &expected.text),
    )
}

/// Compares each row, and prints how many there are of each table.
fn compare_tables(rt: &HostRuntime) -> anyhow::Result<()> {
    // Rows are read here, since each table has rows of its own, and counted by hand: comments do not count, and every row may fail.
    let mut whole = 0u32;
    let mut short = 0u32;
    for row in BufReader::new(rt.alloc(), rt.stdin())?.lines(rt.alloc()) {
        let row = row?;
        let (stream, rest) = row.split_once(' ').context("a row has one word")?;
        if stream == "#" {
            continue;
        }
        let expected = if rest.split(' ').count() == 2 {
            whole = whole.saturating_add(1);
            whole_row(rt.alloc(), stream, rest)?
        } else {
            short = short.saturating_add(1);
            short_row(rt.alloc(), stream, rest)?
        };
        if !is_as_expected(rt.alloc(), &expected)? {
            rt.eprintln(&row)?;
            bail!("this row's text, count, outcome or buffer differs");
        }
    }
    println!(rt; "{whole} normal texts are those of the table")?;
    println!(rt; "{short} buffers are left as in the table")?;
    Ok(())
}

/// A stream of the greatest length, and one byte more.
fn try_long_streams(rt: &HostRuntime) -> anyhow::Result<()> {
    for length in [STREAM_MAX, STREAM_MAX + 1] {
        let stream = vec![in rt.alloc(); 0x07u8; length]?;
        let mut buffer = vec![in rt.alloc(); FOUND; STREAM_MAX + 1]?;
        let answer = normalise(&stream, &mut buffer);
        let outcome = printed(answer.outcome);
        let written = answer.written;
        let untouched = holds(&buffer, b"");
        println!(rt;
            "{length} beeps: outcome {outcome}, {written} bytes written, buffer untouched: {untouched}"
        )?;
    }
    Ok(())
}

fn main(rt: HostRuntime) -> anyhow::Result<()> {
    compare_tables(&rt)?;
    try_long_streams(&rt)?;
    show_tickets(&rt)
}
