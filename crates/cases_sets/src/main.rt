// Document 02's operation on a pair and a set of stations, through_set, on cases from standard input.
//
// A case is a head of 24 bytes, a label, a plan and a set. The head's first ten numbers have 16 bits, high byte first: n, T,
// g, h, the source, the destination, the length of the plan, the length of the label, a mark, the length of the set. A number of
// 32 bits follows: the lent entries of the work area, which all hold the mark before the call.
//
// For each case a line: the label, a colon, a space, the number of the answer and the count, 0 where it refuses; then, behind
// " |", the work area after the call. A run of one value is written " i: x" or " i .. j: x"; entries of 0 are left out.
#![tactic(auto)]

// Calls the operation on the lent parts, and writes its answer.
fn run_set(rt: &impl Print, head: &[u8], plan: &[u8], set: &[u8], work: &mut [u64]) {
    work.fill(cases::word(head, 16) as u64);
    let n = cases::word(head, 0);
    let t = cases::word(head, 2);
    let g = cases::word(head, 4);
    let h = cases::word(head, 6);
    let s = cases::word(head, 8);
    let z = cases::word(head, 10);
    let answer = cases::write_answer(rt, sets::through_set(plan, n, t, g, h, s, z, set, work));
    cases::write_number(rt, answer.unwrap_or(0));
    cases::write_runs(rt, work, 0);
}

// Lends what the head names, and runs the case.
fn run_named(rt: &impl Print, head: &[u8], plan: &[u8], set: &[u8], work: &mut [u64]) {
    let size = cases::word(head, 12).min(plan.len());
    let members = cases::word(head, 18).min(set.len());
    let area = cases::lent(head, 20, work.len());
    run_set(rt, head, &plan[..size], &set[..members], &mut work[..area]);
}

// One case; none where the input has no further one.
fn run_case(
    rt: &(impl Input + Print),
    head: &mut [u8],
    label: &mut [u8],
    plan: &mut [u8],
    set: &mut [u8],
    work: &mut [u64],
) -> Option<()> {
    cases::read_case(rt, head, label, plan, 14, 12)?;
    cases::read_part(rt, set, cases::word(head, 18))?;
    cases::write_part(rt, label, cases::word(head, 14));
    cases::write(rt, b":");
    run_named(rt, head, plan, set, work);
    cases::end_line(rt);
    Some(())
}

fn main(rt: HostRuntime) {
    let mut head = [0u8; 24];
    let mut label = [0u8; 80];
    let mut plan = [0u8; 49200];
    let mut set = [0u8; 320];
    let mut work = [0u64; 262200];
    for _ in 0..cases::MOST {
        if run_case(&rt, &mut head, &mut label, &mut plan, &mut set, &mut work).is_none() {
            break;
        }
    }
}
