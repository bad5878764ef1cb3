// Document 02's operation over the sources below a number, partial loads, on cases from standard input.
//
// A case is a head of 34 bytes, a label and a plan. The head's numbers stand high byte first: n, T, g and h in 16 bits each, k in
// 64 bits, the length of the plan, the length of the label and a mark in 16 bits each, then in 32 bits each the lent entries of
// the table of pairs, of the table of loads and of the work area. All of them hold the mark before the call.
//
// For each case a line: the label, a colon, a space and the number of the answer; then the table of pairs, the table of loads and
// the work area after the call, each behind " |". A run of one value is written " i: x" or " i .. j: x"; entries of 0 are left out.
#![tactic(auto)]

use plan::Fault;

// Calls the operation with the numbers of the head on the lent parts.
fn call(
    head: &[u8],
    plan: &[u8],
    pairs: &mut [u64],
    sums: &mut [u64],
    work: &mut [u64],
) -> Result<(), Fault> {
    let n = cases::word(head, 0);
    let t = cases::word(head, 2);
    let g = cases::word(head, 4);
    let h = cases::word(head, 6);
    let k = cases::whole(head, 8);
    loads::partial_loads(plan, n, t, g, h, k, pairs, sums, work)
}

// Makes the call on the lent parts, which hold the mark before it, and writes its answer.
fn run_partial(
    rt: &impl Print,
    head: &[u8],
    plan: &[u8],
    pairs: &mut [u64],
    sums: &mut [u64],
    work: &mut [u64],
) {
    let mark = cases::word(head, 20) as u64;
    pairs.fill(mark);
    sums.fill(mark);
    work.fill(mark);
    cases::write_answer(rt, call(head, plan, pairs, sums, work));
    cases::write_runs(rt, pairs, 0);
    cases::write_runs(rt, sums, 0);
    cases::write_runs(rt, work, 0);
}

// Lends what the head names, and runs the case.
fn run_named(
    rt: &impl Print,
    head: &[u8],
    plan: &[u8],
    pairs: &mut [u64],
    sums: &mut [u64],
    work: &mut [u64],
) {
    let size = cases::word(head, 16).min(plan.len());
    let a = cases::lent(head, 22, pairs.len());
    let b = cases::lent(head, 26, sums.len());
    let c = cases::lent(head, 30, work.len());
    run_partial(
        rt,
        head,
        &plan[..size],
        &mut pairs[..a],
        &mut sums[..b],
        &mut work[..c],
    );
}

// One case; none where the input has no further one.
fn run_case(
    rt: &(impl Input + Print),
    head: &mut [u8],
    label: &mut [u8],
    plan: &mut [u8],
    pairs: &mut [u64],
    sums: &mut [u64],
    work: &mut [u64],
) -> Option<()> {
    cases::read_case(rt, head, label, plan, 18, 16)?;
    cases::write_part(rt, label, cases::word(head, 18));
    cases::write(rt, b":");
    run_named(rt, head, plan, pairs, sums, work);
    cases::end_line(rt);
    Some(())
}

fn main(rt: HostRuntime) {
    let mut head = [0u8; 34];
    let mut label = [0u8; 64];
    let mut plan = [0u8; 49200];
    let mut pairs = [0u64; 320];
    let mut sums = [0u64; 320];
    let mut work = [0u64; 262200];
    for _ in 0..cases::MOST {
        if run_case(
            &rt, &mut head, &mut label, &mut plan, &mut pairs, &mut sums, &mut work,
        )
        .is_none()
        {
            break;
        }
    }
}
