// Document 02's loads for the drawing program, drawn_loads, on cases from standard input.
//
// A case is a head of 30 bytes, a label and a plan. The head's numbers stand high byte first: n, T, g, h, the length of the plan,
// the length of the label and a mark in 16 bits each, then in 32 bits each the lent entries of the table of pairs and of the table
// of loads, the lent bytes of records and the lent entries of the work area. All of them hold the mark before the call, the records
// its low byte.
//
// For each case a line: the label, a colon, a space and the number of the answer; then the table of pairs, the table of loads, the
// records and the work area after the call, each behind " |". A run of one value is written " i: x" or " i .. j: x"; entries of 0
// are left out.
#![tactic(auto)]

use plan::Fault;

// Calls the operation with the numbers of the head on the lent parts.
fn call(
    head: &[u8],
    plan: &[u8],
    pairs: &mut [u64],
    sums: &mut [u64],
    records: &mut [u8],
    work: &mut [u64],
) -> Result<(), Fault> {
    let n = cases::word(head, 0);
    let t = cases::word(head, 2);
    let g = cases::word(head, 4);
    let h = cases::word(head, 6);
    drawn::drawn_loads(plan, n, t, g, h, pairs, sums, records, work)
}

// Makes the call on the lent parts, which hold the mark before it, and writes its answer.
fn run_drawn(
    rt: &impl Print,
    head: &[u8],
    plan: &[u8],
    pairs: &mut [u64],
    sums: &mut [u64],
    records: &mut [u8],
    work: &mut [u64],
) {
    let mark = cases::word(head, 12);
    pairs.fill(mark as u64);
    sums.fill(mark as u64);
    records.fill((mark % 256) as u8);
    work.fill(mark as u64);
    cases::write_answer(rt, call(head, plan, pairs, sums, records, work));
    cases::write_runs(rt, pairs, 0);
    cases::write_runs(rt, sums, 0);
    cases::write_runs(rt, records, 0);
    cases::write_runs(rt, work, 0);
}

// Lends what the head names, and runs the case.
fn run_named(
    rt: &impl Print,
    head: &[u8],
    plan: &[u8],
    pairs: &mut [u64],
    sums: &mut [u64],
    records: &mut [u8],
    work: &mut [u64],
) {
    let size = cases::word(head, 8).min(plan.len());
    let a = cases::lent(head, 14, pairs.len());
    let b = cases::lent(head, 18, sums.len());
    let c = cases::lent(head, 22, records.len());
    let d = cases::lent(head, 26, work.len());
    run_drawn(
        rt,
        head,
        &plan[..size],
        &mut pairs[..a],
        &mut sums[..b],
        &mut records[..c],
        &mut work[..d],
    );
}

// One case; none where the input has no further one.
fn run_case(
    rt: &(impl Input + Print),
    head: &mut [u8],
    label: &mut [u8],
    plan: &mut [u8],
    pairs: &mut [u64],
    sums: &mut [u64],
    records: &mut [u8],
    work: &mut [u64],
) -> Option<()> {
    cases::read_case(rt, head, label, plan, 10, 8)?;
    cases::write_part(rt, label, cases::word(head, 10));
    cases::write(rt, b":");
    run_named(rt, head, plan, pairs, sums, records, work);
    cases::end_line(rt);
    Some(())
}

fn main(rt: HostRuntime) {
    let mut head = [0u8; 30];
    let mut label = [0u8; 80];
    let mut plan = [0u8; 49200];
    let mut pairs = [0u64; 320];
    let mut sums = [0u64; 320];
    let mut records = [0u8; 4700];
    let mut work = [0u64; 262200];
    for _ in 0..cases::MOST {
        if run_case(
            &rt,
            &mut head,
            &mut label,
            &mut plan,
            &mut pairs,
            &mut sums,
            &mut records,
            &mut work,
        )
        .is_none()
        {
            break;
        }
    }
}
