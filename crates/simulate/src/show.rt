//! What the simulator prints.
use job::settings::Cutter;
use mechanism::counts::Counts;
use plate::plate::Plate;
use recorder::recorder::Recorder;
use runs::fault::FeedFault;
use settings::Settings;

/// What is shown of a mechanism.
#[derive(Clone, Copy)]
pub struct Gauges<'a> {
    pub counts: Counts,
    /// What its sheet has beyond the counts.
    // Empty for nothing, here and in the latest reply: a reply has at least a byte, and all that is done with either is to print its bytes.
    pub beyond: &'a [u8],
    pub reserve: u32,
    pub is_stopped: bool,
    /// The bytes of its latest reply, if it keeps them.
    pub latest_reply: &'a [u8],
}

/// A mechanism whose state can be shown.
pub trait Shown {
    fn gauges(&self) -> Gauges<'_>;
}

impl Shown for Plate {
    fn gauges(&self) -> Gauges<'_> {
        Gauges {
            counts: self.counts(),
            beyond: b"",
            reserve: self.reserve(),
            is_stopped: self.is_stopped(),
            latest_reply: self.latest_reply(),
        }
    }
}

/// Page and writer.
impl<F> Shown for Recorder<'_, F> {
    fn gauges(&self) -> Gauges<'_> {
        Gauges {
            counts: self.counts(),
            beyond: self.written(),
            reserve: self.reserve(),
            is_stopped: self.is_stopped(),
            latest_reply: b"",
        }
    }
}

/// Bytes in hexadecimal, or - for none.
pub fn show_hex(rt: &HostRuntime, bytes: &[u8]) -> anyhow::Result<()> {
    if bytes.is_empty() {
        rt.print("-")?;
    }
    for byte in bytes {
        print!(rt; "{byte:02X}")?;
    }
    Ok(())
}

/// The answer of a feed.
pub fn show_outcome(
    rt: &HostRuntime,
    taken: usize,
    outcome: Result<(), FeedFault>,
) -> anyhow::Result<()> {
    let Err(fault) = outcome else {
        print!(rt; "{taken} ok")?;
        return Ok(());
    };
    let number = fault.number();
    match fault.place() {
        Some(place) => print!(rt; "{taken} refused {number} at {place}")?,
        None => print!(rt; "{taken} held {number}")?,
    }
    Ok(())
}

// The Display of bool says true and false.
fn yes_or_no(mark: bool) -> &'static str {
    if mark { "yes" } else { "no" }
}

/// Numbers with commas between them, or - for none.
fn show_list(rt: &HostRuntime, numbers: &[u8]) -> anyhow::Result<()> {
    let Some((first, others)) = numbers.split_first() else {
        return Ok(rt.print("-")?);
    };
    print!(rt; "{first}")?;
    for n in others {
        print!(rt; ",{n}")?;
    }
    Ok(())
}

fn show_cutter(rt: &HostRuntime, cutter: Cutter) -> anyhow::Result<()> {
    let on = if cutter.on { "on" } else { "off" };
    let kind = if cutter.partial { "partial" } else { "total" };
    let lines = cutter.lines;
    print!(rt; " cutter {on} cut {kind} before {lines}")?;
    Ok(())
}

/// The answer of the settings call.
pub fn show_settings(rt: &HostRuntime, settings: &Settings) -> anyhow::Result<()> {
    let margins = settings.margins();
    let (columns, left, right) = (margins.columns, margins.left, margins.right);
    print!(rt; "columns {columns} left {left} right {right} stops ")?;
    show_list(rt, settings.horizontal_stops())?;
    rt.print(" lines ")?;
    show_list(rt, settings.vertical_stops())?;
    let paper = settings.paper();
    let (spacing, page, line) = (paper.spacing, paper.page, paper.line);
    print!(rt; " spacing {spacing} page {page} line {line}")?;
    show_cutter(rt, settings.cutter())?;
    let attributes = settings.attributes();
    for (name, on) in [
        ("emphasised", attributes.emphasised),
        ("double-height", attributes.tall),
        ("expanded", attributes.wide),
        ("underline", attributes.underlined),
        ("italic", attributes.italic),
        ("one-line", settings.one_line_width()),
    ] {
        let on = yes_or_no(on);
        print!(rt; " {name} {on}")?;
    }
    Ok(())
}

/// The state after a call: counts, bytes beyond them, reserve, stopped mark, number of actions owed, latest reply.
pub fn show_state(rt: &HostRuntime, gauges: &Gauges<'_>, owed: usize) -> anyhow::Result<()> {
    let c = gauges.counts;
    rt.print(" ; ")?;
    for count in [c.advance, c.rows, c.bars, c.cuts, c.pulses, c.beeps] {
        print!(rt; "{count},")?;
    }
    let replies = c.replies;
    print!(rt; "{replies} / ")?;
    show_hex(rt, gauges.beyond)?;
    let reserve = gauges.reserve;
    let stopped = yes_or_no(gauges.is_stopped);
    print!(rt; " / {reserve} / {stopped} / {owed} / ")?;
    show_hex(rt, gauges.latest_reply)?;
    rt.println("")?;
    Ok(())
}
