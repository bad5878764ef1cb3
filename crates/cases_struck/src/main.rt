// Document 02's operation on a contact that is struck out, struck_out, on cases from standard input.
//
// A case is a head of 30 bytes, a label and a plan. The head's numbers stand high byte first: n, T, g and h in 16 bits each, the
// position in 64 bits, the length of the plan, the length of the label and a mark in 16 bits each, then in 32 bits each the lent
// entries of the table of changes and of the work area. Both hold the mark before the call.
//
// For each case a line: the label, a colon, a space, the number of the answer and the number of pairs, 0 where it refuses; then the
// table of changes and the work area after the call, each behind " |". A run of one value is written " i: x" or " i .. j: x"; entries
// of 0 are left out, and a change below 0 has a minus sign.
#![tactic(auto)]

use plan::Fault;

// Calls the operation with the numbers of the head on the lent parts.
fn call(head: &[u8], plan: &[u8], changes: &mut [i64], work: &mut [u64]) -> Result<u64, Fault> {
    let n = cases::word(head, 0);
    let t = cases::word(head, 2);
    let g = cases::word(head, 4);
    let h = cases::word(head, 6);
    let position = cases::whole(head, 8);
    struck::struck_out(plan, n, t, g, h, position, changes, work)
}

// Makes the call on the lent parts, which hold the mark before it, and writes its answer.
fn run_struck(rt: &impl Print, head: &[u8], plan: &[u8], changes: &mut [i64], work: &mut [u64]) {
    let mark = cases::word(head, 20);
    changes.fill(mark as i64);
    work.fill(mark as u64);
    let answer = cases::write_answer(rt, call(head, plan, changes, work));
    cases::write_number(rt, answer.unwrap_or(0));
    cases::write_runs(rt, changes, 0);
    cases::write_runs(rt, work, 0);
}

// Lends what the head names, and runs the case.
fn run_named(rt: &impl Print, head: &[u8], plan: &[u8], changes: &mut [i64], work: &mut [u64]) {
    let size = cases::word(head, 16).min(plan.len());
    let a = cases::lent(head, 22, changes.len());
    let b = cases::lent(head, 26, work.len());
    run_struck(rt, head, &plan[..size], &mut changes[..a], &mut work[..b]);
}

// One case; none where the input has no further one.
fn run_case(
    rt: &(impl Input + Print),
    head: &mut [u8],
    label: &mut [u8],
    plan: &mut [u8],
    changes: &mut [i64],
    work: &mut [u64],
) -> Option<()> {
    cases::read_case(rt, head, label, plan, 18, 16)?;
    cases::write_part(rt, label, cases::word(head, 18));
    cases::write(rt, b":");
    run_named(rt, head, plan, changes, work);
    cases::end_line(rt);
    Some(())
}

fn main(rt: HostRuntime) {
    let mut head = [0u8; 30];
    let mut label = [0u8; 80];
    let mut plan = [0u8; 49200];
    let mut changes = [0i64; 320];
    let mut work = [0u64; 262200];
    for _ in 0..cases::MOST {
        if run_case(
            &rt,
            &mut head,
            &mut label,
            &mut plan,
            &mut changes,
            &mut work,
        )
        .is_none()
        {
            break;
        }
    }
}
