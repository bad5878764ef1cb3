// The account of a station, on cases from standard input. A case is five 16-bit numbers, high byte first: the length of a label, the
// length of the input, the turnaround, the station, and the number of walks; then the label and the input. For each case the label, a
// colon, a line feed, and the text.
#![tactic(auto)]

// Writes the account of a station for units with a turnaround.
fn write_account(
    rt: &impl Print,
    input: &[u8],
    g: usize,
    station: usize,
    walks: usize,
    out: &mut [u8; 2598088],
) {
    let mut pairs = [0u64; 32];
    let mut sums = [0u64; 32];
    let mut layered = [0u8; 12288];
    let mut way = [0u16; 63];
    let mut work = [0u64; 16384];
    let size = account::account(
        input,
        g,
        station,
        walks,
        out,
        &mut pairs,
        &mut sums,
        &mut layered,
        &mut way,
        &mut work,
    );
    cases::write_part(rt, out, size);
}

// One case; none where the input has no further one.
fn run_case(
    rt: &(impl Input + Print),
    head: &mut [u8],
    label: &mut [u8],
    input: &mut [u8],
    out: &mut [u8; 2598088],
) -> Option<()> {
    cases::read_case(rt, head, label, input, 0, 2)?;
    cases::write_part(rt, label, cases::word(head, 0));
    cases::write(rt, b":\n");
    let size = cases::word(head, 2).min(input.len());
    write_account(
        rt,
        &input[..size],
        cases::word(head, 4),
        cases::word(head, 6),
        cases::word(head, 8),
        out,
    );
    Some(())
}

fn main(rt: HostRuntime) {
    let mut head = [0u8; 10];
    let mut label = [0u8; 64];
    let mut input = [0u8; 6200];
    let mut out = [0u8; 2598088];
    for _ in 0..cases::MOST {
        if run_case(&rt, &mut head, &mut label, &mut input, &mut out).is_none() {
            break;
        }
    }
}
