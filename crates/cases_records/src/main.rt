// Document 02's reading of a station's drawing record, read_record, on cases from standard input.
//
// A case is a head of 4 bytes, a label and at most 64 bytes to read. The head's numbers have 16 bits, high byte first: how many
// bytes, the length of the label.
//
// For each case a line: the label, a colon, then " foreign", or the station, its load and its pairs, each behind a space.
#![tactic(auto)]

use drawing::Reading;

// Writes what is read.
fn write_reading(rt: &impl Print, reading: Option<Reading>) {
    match reading {
        None => cases::write(rt, b" foreign"),
        Some(reading) => {
            cases::write_number(rt, reading.station);
            cases::write_number(rt, reading.load);
            cases::write_number(rt, reading.pairs);
        }
    }
}

// Reads the bytes that the head names.
fn run_named(rt: &impl Print, head: &[u8], bytes: &[u8]) {
    let size = cases::word(head, 0).min(bytes.len());
    write_reading(rt, drawing::read_record(&bytes[..size]));
}

// One case; none where the input has no further one.
fn run_case(
    rt: &(impl Input + Print),
    head: &mut [u8],
    label: &mut [u8],
    bytes: &mut [u8],
) -> Option<()> {
    cases::read_case(rt, head, label, bytes, 2, 0)?;
    cases::write_part(rt, label, cases::word(head, 2));
    cases::write(rt, b":");
    run_named(rt, head, bytes);
    cases::end_line(rt);
    Some(())
}

fn main(rt: HostRuntime) {
    let mut head = [0u8; 4];
    let mut label = [0u8; 80];
    let mut bytes = [0u8; 64];
    for _ in 0..cases::MOST {
        if run_case(&rt, &mut head, &mut label, &mut bytes).is_none() {
            break;
        }
    }
}
