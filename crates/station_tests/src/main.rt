//! Drives the odd mechanism by the feed that serves every other: it starts stopped with a reserve of 600, needs 500 for a row,
//! 52 for an advance of 25, 2 for a beep and 1 for a reply, spends half of it, and grants half of an offer.
#![tactic(auto)]

use mechanism::mechanism::Mechanism;
use odd_mechanism::odd::OddMechanism;
use station::station::Station;

/// Feeds a piece, and prints what came of it.
fn feed<M: Mechanism>(
    rt: &HostRuntime,
    station: &mut Station<M>,
    name: &str,
    piece: &[u8],
) -> anyhow::Result<()> {
    let (taken, outcome) = station.feed(piece);
    // 0 for no refusal, as the expected output has it.
    let number = outcome.err().map_or(0, |fault| fault.number());
    let owed = station.owed().len();
    println!(rt; "{name}: {taken} taken, refusal {number}, {owed} owed")?;
    Ok(())
}

fn main(rt: HostRuntime) -> anyhow::Result<()> {
    let mut station = Station::new(OddMechanism::new());
    feed(
        &rt,
        &mut station,
        "a reply, then a row, while stopped",
        b"\x05A\n",
    )?;
    feed(&rt, &mut station, "the row is offered again", b"\x07")?;
    station.cover(false);
    feed(&rt, &mut station, "row, advance and beep", b"\x07")?;
    feed(&rt, &mut station, "a row more than the reserve has", b"B\n")?;
    let granted = station.supply(1000);
    println!(rt; "granted {granted} of 1000")?;
    feed(&rt, &mut station, "row and advance", b"")?;
    let status = station.status().status1;
    println!(rt; "status 1: {status}")?;
    Ok(())
}
