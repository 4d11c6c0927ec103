//! Tickets and bar codes, with their normal texts.
use crate::printed;
use normal::normalise::normalise;

const TICKETS: [(&str, &[u8]); 8] = [
    ("nothing", b""),
    ("A LF", b"A\n"),
    ("emphasised A LF", b"\x1bEA\x1bF\n"),
    ("right margin 3", b"\x1bQ\x03"),
    ("right margin 4, ABCDEF LF", b"\x1bQ\x04ABCDEF\n"),
    (
        "attributes of one row and of the next",
        b"\x1b!\xa8\x1b4\x01A\nB\n",
    ),
    ("unknown pair", b"\x1bzA\n"),
    (
        "partial cut",
        b"\x1b\xc60000000110000000000000000000000000010000\x1bm",
    ),
];

/// Bar codes as their publishers print them, without their check digits, and strings that are no such code.
const BAR_CODES: [(&str, &[u8]); 9] = [
    ("EAN-13 5901234123457", b"\x1bb\x01\0\0\x01590123412345\0"),
    ("EAN-13 4006381333931", b"\x1bb\x01\0\0\x01400638133393\0"),
    (
        "EAN-13 with its check digit",
        b"\x1bb\x01\0\0\x015901234123457\0",
    ),
    ("EAN-8 96385074", b"\x1bb\x02\x03\x64\x009638507\0"),
    ("EAN-8 with a letter", b"\x1bb\x02\x03\x64\x00963850A\0"),
    ("UPC-A 036000291452", b"\x1bb\x08\0\0\x0103600029145\0"),
    ("UPC-A of ten digits", b"\x1bb\x08\0\0\x000360002914\0"),
    ("UPC-A of eleven digits", b"\x1bb\x08\0\0\x0003600029145\0"),
    ("kind 12", b"\x1bb\x0c\0\0\x001\0"),
];

/// Prints what normalise writes for a stream, in hexadecimal.
fn show(rt: &HostRuntime, name: &str, stream: &[u8]) -> anyhow::Result<()> {
    let mut buffer = [0; 1024];
    let answer = normalise(stream, &mut buffer);
    let passed_over = answer.passed_over;
    let outcome = printed(answer.outcome);
    print!(rt; "{name}: outcome {outcome}, {passed_over} passed over,")?;
    for byte in buffer.iter().take(answer.written) {
        print!(rt; " {byte:02X}")?;
    }
    rt.println("")?;
    Ok(())
}

/// Prints the normal text of each ticket and each bar code.
pub fn show_tickets(rt: &HostRuntime) -> anyhow::Result<()> {
    for (name, stream) in TICKETS.iter().chain(&BAR_CODES) {
        show(rt, name, stream)?;
    }
    Ok(())
}
