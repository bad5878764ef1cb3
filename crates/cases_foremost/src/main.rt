// Document 02's operation on the shortest foremost paths of a pair, foremost, on cases from standard input.
//
// A case is a head of 24 bytes, a label and a plan. The head's first eight numbers have 16 bits, high byte first: n, T, g, the
// source, the destination, the length of the plan, the length of the label, a mark. Two numbers of 32 bits follow: the lent
// entries of the through table and of the work area. Both hold the mark before the call.
//
// For each case a line: the label, a colon, a space, the number of the answer, and slot, hops and count, zeros where it
// refuses; then the through table and the work area after the call, each behind " |". A run of one value is written " i: x"
// or " i .. j: x"; entries of 0 are left out.
#![tactic(auto)]

// Calls the operation on the lent parts, and writes its answer.
fn run_foremost(rt: &impl Print, head: &[u8], plan: &[u8], through: &mut [u64], work: &mut [u64]) {
    let mark = cases::word(head, 14) as u64;
    through.fill(mark);
    work.fill(mark);
    let n = cases::word(head, 0);
    let t = cases::word(head, 2);
    let g = cases::word(head, 4);
    let s = cases::word(head, 6);
    let z = cases::word(head, 8);
    let answer = cases::write_answer(rt, foremost::foremost(plan, n, t, g, s, z, through, work));
    cases::write_number(rt, answer.map_or(0, |found| found.arrival));
    cases::write_number(rt, answer.map_or(0, |found| found.hops));
    cases::write_number(rt, answer.map_or(0, |found| found.count));
    cases::write_runs(rt, through, 0);
    cases::write_runs(rt, work, 0);
}

// Lends what the head names, and runs the case.
fn run_named(rt: &impl Print, head: &[u8], plan: &[u8], through: &mut [u64], work: &mut [u64]) {
    let size = cases::word(head, 10).min(plan.len());
    let table = cases::lent(head, 16, through.len());
    let area = cases::lent(head, 20, work.len());
    run_foremost(
        rt,
        head,
        &plan[..size],
        &mut through[..table],
        &mut work[..area],
    );
}

// One case; none where the input has no further one.
fn run_case(
    rt: &(impl Input + Print),
    head: &mut [u8],
    label: &mut [u8],
    plan: &mut [u8],
    through: &mut [u64],
    work: &mut [u64],
) -> Option<()> {
    cases::read_case(rt, head, label, plan, 12, 10)?;
    cases::write_part(rt, label, cases::word(head, 12));
    cases::write(rt, b":");
    run_named(rt, head, plan, through, work);
    cases::end_line(rt);
    Some(())
}

fn main(rt: HostRuntime) {
    let mut head = [0u8; 24];
    let mut label = [0u8; 64];
    let mut plan = [0u8; 49200];
    let mut through = [0u64; 320];
    let mut work = [0u64; 262200];
    for _ in 0..cases::MOST {
        if run_case(
            &rt,
            &mut head,
            &mut label,
            &mut plan,
            &mut through,
            &mut work,
        )
        .is_none()
        {
            break;
        }
    }
}
