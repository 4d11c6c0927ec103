//! Scripts: a call a line.
use anyhow::bail;
use hexadecimal::decode;
use std::alloc::Global;
use std::io;
use std::io::{BufRead, BufReader, Lines, Stdin};

/// A script on standard input, read line by line.
#[derive(Drop)]
pub struct Script {
    lines: Lines<BufReader<Stdin>>,
    number: u64,
}

/// Which mechanism a run begins with.
#[derive(Clone, Copy)]
pub enum Machine {
    Plate,
    /// With a buffer of so many bytes.
    Page(usize),
    /// With a buffer of so many bytes.
    Writer(usize),
}

/// A call of a run.
#[derive(Drop)]
pub enum Call {
    Feed(Vec<u8>),
    Cover(bool),
    Supply(u32),
    Status,
    Settings,
}

impl Script {
    pub fn new(heap: Global, input: Stdin) -> io::Result<Script> {
        Ok(Script {
            lines: BufReader::new(heap, input)?.lines(heap),
            number: 0,
        })
    }

    /// The number of the last line read, from 1.
    pub fn number(&self) -> u64 {
        self.number
    }

    /// The next line that is neither empty nor a comment.
    pub fn next_line(&mut self, heap: Global) -> anyhow::Result<Option<String>> {
        for line in &mut self.lines {
            let line = line?;
            // Counted here, with the lines that are passed over: a fault is told by the number of its line.
            self.number = self.number.saturating_add(1);
            let text = line.trim_end();
            if !text.is_empty() && !text.starts_with('#') {
                return Ok(Some(String::from_str(heap, text)?));
            }
        }
        Ok(None)
    }
}

/// The mechanism that a line begins a run with; none if the line begins no run.
pub fn read_machine(line: &str) -> anyhow::Result<Option<Machine>> {
    let Some(words) = line.strip_prefix("run ") else {
        return Ok(None);
    };
    match words.split_once(' ') {
        None if words == "plate" => Ok(Some(Machine::Plate)),
        Some(("page", length)) => Ok(Some(Machine::Page(length.parse::<usize>()?))),
        Some(("writer", length)) => Ok(Some(Machine::Writer(length.parse::<usize>()?))),
        _ => bail!("a run begins with plate, or page or writer and a length"),
    }
}

/// The call of a line.
pub fn read_call(heap: Global, line: &str) -> anyhow::Result<Call> {
    match line.split_once(' ') {
        Some(("feed", "-")) => Ok(Call::Feed(Vec::new(heap))),
        Some(("feed", digits)) => Ok(Call::Feed(decode(heap, digits.as_bytes())?)),
        Some(("supply", offered)) => Ok(Call::Supply(offered.parse::<u32>()?)),
        Some(("cover", "open")) => Ok(Call::Cover(true)),
        Some(("cover", "closed")) => Ok(Call::Cover(false)),
        None if line == "status" => Ok(Call::Status),
        None if line == "settings" => Ok(Call::Settings),
        _ => bail!("a call is feed, cover, supply, status or settings"),
    }
}
