// What load programs print, on cases from standard input. A case is three 16-bit numbers, high byte first: the length of a label,
// the length of the input, and the turnaround; then the label and the input. For each case the label, a colon, a line feed, and
// the text.
#![tactic(auto)]

// Writes the text of an input for units with a turnaround.
fn write_text(rt: &impl Print, input: &[u8], g: usize) {
    let mut out = [0u8; 697];
    let mut pairs = [0u64; 32];
    let mut sums = [0u64; 32];
    let mut work = [0u64; 8192];
    let size = report::report(input, g, &mut out, &mut pairs, &mut sums, &mut work);
    cases::write_part(rt, &out, size);
}

// One case; none where the input has no further one.
fn run_case(
    rt: &(impl Input + Print),
    head: &mut [u8],
    label: &mut [u8],
    input: &mut [u8],
) -> Option<()> {
    cases::read_case(rt, head, label, input, 0, 2)?;
    cases::write_part(rt, label, cases::word(head, 0));
    cases::write(rt, b":\n");
    let size = cases::word(head, 2).min(input.len());
    write_text(rt, &input[..size], cases::word(head, 4));
    Some(())
}

fn main(rt: HostRuntime) {
    let mut head = [0u8; 6];
    let mut label = [0u8; 64];
    let mut input = [0u8; 6200];
    for _ in 0..cases::MOST {
        if run_case(&rt, &mut head, &mut label, &mut input).is_none() {
            break;
        }
    }
}
