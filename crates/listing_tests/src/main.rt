//! Compares listings with a table on standard input, and tries the longest streams and the shortest buffers.
//! A row of the table: the stream in hexadecimal, a space, its listing with | for each line's end.
#![tactic(auto)]

use anyhow::{Context, bail};
use hexadecimal::decode;
use listing::{ListingFault, listing};
use std::alloc::{AllocError, Global};
use std::io::{BufRead, BufReader};
use stream::{LINE_MAX, STREAM_MAX, line, token};

/// A listing as a row of the table has it.
fn as_row(heap: Global, text: &[u8]) -> Result<Vec<u8>, AllocError> {
    let mut row: Vec<u8> = text
        .iter()
        .map(|c| if *c == b'\n' { b'|' } else { *c })
        .collect(heap)?;
    let _ = row.pop();
    Ok(row)
}

/// Whether the stream of a row is listed as the row says.
fn agrees(heap: Global, stream: &str, expected: &str) -> anyhow::Result<bool> {
    let bytes = decode(heap, stream.as_bytes())?;
    let text = listing(heap, &bytes)?;
    let row = as_row(heap, &text)?;
    Ok(row.as_slice() == expected.as_bytes())
}

/// Compares each row, and answers how many there are.
fn compare_table(rt: &HostRuntime) -> anyhow::Result<u32> {
    // Rows are read here, since each table has rows of its own, and counted by hand: comments do not count, and every row may fail.
    let mut rows = 0u32;
    for row in BufReader::new(rt.alloc(), rt.stdin())?.lines(rt.alloc()) {
        let row = row?;
        let (stream, expected) = row
            .split_once(' ')
            .context("a row of the table has no space")?;
        if stream == "#" {
            continue;
        }
        if !agrees(rt.alloc(), stream, expected)? {
            rt.eprintln(stream)?;
            bail!("this stream's listing differs from the table");
        }
        rows = rows.saturating_add(1);
    }
    Ok(rows)
}

fn count(text: &[u8], wanted: u8) -> usize {
    text.iter().filter(|c| **c == wanted).count()
}

/// What line answers at a place with a buffer of so many bytes, and how many of these it leaves.
fn try_line(rt: &HostRuntime, stream: &[u8], place: usize, room: usize) -> anyhow::Result<()> {
    let mut out = vec![in rt.alloc(); b'?'; room]?;
    // 0 for no number, here and below, as the expected output has it.
    let (what, number) = match line(stream, place, &mut out) {
        Ok(Some(length)) => ("length", length),
        Ok(None) => ("nothing", 0),
        Err(fault) => ("refusal", usize::from(fault.number())),
    };
    let left = count(&out, b'?');
    println!(rt; "  line at {place} into {room}: {what} {number}, leaves {left}")?;
    Ok(())
}

/// What token answers at a place.
fn try_token(rt: &HostRuntime, stream: &[u8], place: usize) -> anyhow::Result<()> {
    let (what, number) = match token(stream, place) {
        Ok(Some(part)) => (char::from(part.letter()), part.bytes().len()),
        Ok(None) => ('-', 0),
        Err(fault) => ('!', usize::from(fault.number())),
    };
    println!(rt; "  token at {place}: {what} {number}")?;
    Ok(())
}

/// All calls on a stream of so many text bytes, at its first and last place and at its end.
fn try_length(rt: &HostRuntime, length: usize) -> anyhow::Result<()> {
    let stream = vec![in rt.alloc(); b'A'; length]?;
    let (what, number) = match listing(rt.alloc(), &stream) {
        Ok(text) => ("lines", count(&text, b'\n')),
        Err(ListingFault::Line(fault)) => ("refusal", usize::from(fault.number())),
        Err(ListingFault::OutOfMemory) => ("no memory", 0),
    };
    println!(rt; "{length} bytes: {what} {number}")?;
    for place in [0, length.saturating_sub(1), length] {
        try_token(rt, &stream, place)?;
        try_line(rt, &stream, place, LINE_MAX)?;
        try_line(rt, &stream, place, LINE_MAX - 1)?;
    }
    Ok(())
}

fn main(rt: HostRuntime) -> anyhow::Result<()> {
    let rows = compare_table(&rt)?;
    println!(rt; "{rows} streams are listed as in the table")?;
    for length in [0, 1, STREAM_MAX - 1, STREAM_MAX, STREAM_MAX + 1] {
        try_length(&rt, length)?;
    }
    Ok(())
}
