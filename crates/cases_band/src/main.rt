// Document 02's operations on plans that share a band, take_in and take_out, on cases from standard input.
//
// A case is a head of 14 bytes, a label, a plan and a table. The head's numbers have 16 bits, high byte first: the kind (0 take
// in, 1 take out), n, T, c, the length of the plan, the length of the label, the lent entries of the table. The table has these
// entries before the call, 16 bits each, high byte first. Taking out has no c.
//
// For each case a line: the label, a colon, a space and the number of the answer; then, behind " |", the lent table after the call.
// A run of one value is written " i: x" or " i .. j: x"; entries of 0 are left out.
#![tactic(auto)]

use plan::Fault;

// Calls the operation of the head's kind with the numbers of the head.
fn call(head: &[u8], plan: &[u8], table: &mut [u16]) -> Result<(), Fault> {
    let n = cases::word(head, 2);
    let t = cases::word(head, 4);
    if cases::word(head, 0) == 0 {
        return band::take_in(plan, n, t, cases::word(head, 6) as u16, table);
    }
    band::take_out(plan, n, t, table)
}

// Makes the call on the lent parts, and writes its answer.
fn run_band(rt: &impl Print, head: &[u8], plan: &[u8], table: &mut [u16]) {
    cases::write_answer(rt, call(head, plan, table));
    cases::write_runs(rt, table, 0);
}

// Lends what the head names, and runs the case.
fn run_named(rt: &impl Print, head: &[u8], plan: &[u8], table: &mut [u16]) {
    let size = cases::word(head, 8).min(plan.len());
    let entries = cases::word(head, 12).min(table.len());
    run_band(rt, head, &plan[..size], &mut table[..entries]);
}

// One case; none where the input has no further one.
fn run_case(
    rt: &(impl Input + Print),
    head: &mut [u8],
    label: &mut [u8],
    plan: &mut [u8],
    entries: &mut [u8],
    table: &mut [u16],
) -> Option<()> {
    cases::read_case(rt, head, label, plan, 10, 8)?;
    cases::read_part(rt, entries, cases::word(head, 12) * 2)?;
    cases::fill_words(table, entries);
    cases::write_part(rt, label, cases::word(head, 10));
    cases::write(rt, b":");
    run_named(rt, head, plan, table);
    cases::end_line(rt);
    Some(())
}

fn main(rt: HostRuntime) {
    let mut head = [0u8; 14];
    let mut label = [0u8; 80];
    let mut plan = [0u8; 49200];
    let mut entries = [0u8; 600];
    let mut table = [0u16; 300];
    for _ in 0..cases::MOST {
        if run_case(
            &rt,
            &mut head,
            &mut label,
            &mut plan,
            &mut entries,
            &mut table,
        )
        .is_none()
        {
            break;
        }
    }
}
