//! A station to try: plays the calls of a script on standard input, and prints each with its answer and the state after it.
#![tactic(auto)]

mod script;
mod show;

use crate::script::{Call, Machine, Script, read_call, read_machine};
use crate::show::{Shown, show_outcome, show_settings, show_state};
use anyhow::Context;
use mechanism::mechanism::Mechanism;
use page::page::Picture;
use plate::plate::Plate;
use recorder::form::Form;
use recorder::recorder::Recorder;
use station::station::Station;
use std::env;
use std::process::ExitCode;
use writer::writer::NormalText;

const USAGE: &str = "usage: simulate < SCRIPT

Plays a script, a call a line, and prints each call with its answer and the state after it.
  run plate | run page LENGTH    begins a run with a new interpreter and this mechanism
  run writer LENGTH              the same with the text writer and a buffer of so many bytes
  feed HEX | feed -              feeds a piece of a stream
  cover open | cover closed
  supply N
  status
  settings
Lines that begin with # are comments.
";

/// Makes a call and prints its answer.
fn answer<M: Mechanism>(
    rt: &HostRuntime,
    station: &mut Station<M>,
    call: &Call,
) -> anyhow::Result<()> {
    match call {
        Call::Feed(piece) => {
            let (taken, outcome) = station.feed(piece);
            show_outcome(rt, taken, outcome)?;
        }
        Call::Cover(opened) => {
            station.cover(*opened);
            rt.print("-")?;
        }
        Call::Supply(offered) => {
            let granted = station.supply(*offered);
            print!(rt; "{granted}")?;
        }
        Call::Status => {
            let status = station.status();
            let (status1, status2) = (status.status1, status.status2);
            print!(rt; "{status1:02X} {status2:02X}")?;
        }
        Call::Settings => show_settings(rt, station.settings())?,
    }
    Ok(())
}

/// Plays the calls of one run, and answers the line that begins the next.
fn play<M: Mechanism + Shown + Drop>(
    rt: &HostRuntime,
    script: &mut Script,
    mechanism: M,
) -> anyhow::Result<Option<String>> {
    let mut station = Station::new(mechanism);
    // No while let: nothing says that the input ends.
    for _turn in 0..u64::MAX {
        let Some(line) = script.next_line(rt.alloc())? else {
            break;
        };
        if line.starts_with("run ") {
            return Ok(Some(line));
        }
        let call = read_call(rt.alloc(), &line)?;
        rt.print(&line)?;
        rt.print(" -> ")?;
        answer(rt, &mut station, &call)?;
        show_state(rt, &station.mechanism().gauges(), station.owed().len())?;
    }
    Ok(None)
}

/// Plays the calls of one run on a recorder of the form F, with a buffer of this length.
fn play_into<F: Form>(
    rt: &HostRuntime,
    script: &mut Script,
    length: usize,
) -> anyhow::Result<Option<String>> {
    let mut buffer = vec![in rt.alloc(); 0u8; length]?;
    play(rt, script, Recorder::<F>::new(&mut buffer))
}

/// Begins a run and plays it.
fn begin(rt: &HostRuntime, script: &mut Script, line: &str) -> anyhow::Result<Option<String>> {
    let machine = read_machine(line)?.context("a script begins with a run")?;
    rt.println(line)?;
    match machine {
        Machine::Plate => play(rt, script, Plate::new()),
        Machine::Page(length) => play_into::<Picture>(rt, script, length),
        Machine::Writer(length) => play_into::<NormalText>(rt, script, length),
    }
}

/// Plays all runs of a script.
fn simulate(rt: &HostRuntime, script: &mut Script) -> anyhow::Result<()> {
    let mut next = script.next_line(rt.alloc())?;
    // No while let: nothing says that the input ends.
    for _turn in 0..u64::MAX {
        let Some(line) = next else {
            break;
        };
        next = begin(rt, script, &line)?;
    }
    Ok(())
}

/// Plays the script on standard input; what is wrong with it is told with the number of its line.
fn play_input(rt: &HostRuntime) -> anyhow::Result<ExitCode> {
    let mut script = Script::new(rt.alloc(), rt.stdin())?;
    if let Err(fault) = simulate(rt, &mut script) {
        let number = script.number();
        eprintln!(rt; "simulate: line {number}: {fault}")?;
        return Ok(ExitCode::FAILURE);
    }
    Ok(ExitCode::SUCCESS)
}

fn main(rt: HostRuntime) -> anyhow::Result<ExitCode> {
    // A parser of command lines would word the help and the refusals itself, and end with a status of its own.
    match env::args(&rt)?.nth(1) {
        None => play_input(&rt),
        Some(word) if word.as_str() == "--help" => {
            rt.print(USAGE)?;
            Ok(ExitCode::SUCCESS)
        }
        Some(_) => {
            rt.eprintln("simulate: it takes no arguments; try --help")?;
            Ok(ExitCode::FAILURE)
        }
    }
}
