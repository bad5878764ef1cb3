// Document 02's verdict on a list of positions, on cases from standard input.
//
// A case is a head of 22 bytes, a label, a plan and a list. The head's first nine numbers have 16 bits, high byte first: n, T,
// g, h, the source, the destination, the length of the plan, the length of the label, a mark. A number of 32 bits follows: the
// lent entries of the work area, which all hold the mark before the call. The list is the number of its entries and these, in
// 16 bits each.
//
// For each case a line: the label, a colon, a space, the number of the answer and, where it is 0, the verdict in a word; then,
// behind " |", the work area after the call. A run of one value is written " i: x" or " i .. j: x"; entries of 0 are left out.
#![tactic(auto)]

use judging::Judgement;

// Writes the word of a verdict.
fn write_judgement(rt: &impl Print, judgement: Judgement) {
    match judgement {
        Judgement::Complete => cases::write(rt, b" complete"),
        Judgement::Beginning => cases::write(rt, b" beginning"),
        Judgement::Wrong => cases::write(rt, b" wrong"),
    }
}

// Calls the operation on the lent parts, and writes its answer.
fn run_verdict(rt: &impl Print, head: &[u8], plan: &[u8], list: &[u16], work: &mut [u64]) {
    work.fill(cases::word(head, 16) as u64);
    let n = cases::word(head, 0);
    let t = cases::word(head, 2);
    let g = cases::word(head, 4);
    let h = cases::word(head, 6);
    let s = cases::word(head, 8);
    let z = cases::word(head, 10);
    let answer = verdicts::verdict(plan, n, t, g, h, s, z, list, work);
    if let Some(judgement) = cases::write_answer(rt, answer) {
        write_judgement(rt, judgement);
    }
    cases::write_runs(rt, work, 0);
}

// Lends what the head names and the first k entries of the list, and runs the case.
fn run_named(rt: &impl Print, head: &[u8], plan: &[u8], list: &[u16], k: usize, work: &mut [u64]) {
    let size = cases::word(head, 12).min(plan.len());
    let entries = k.min(list.len());
    let area = cases::lent(head, 18, work.len());
    run_verdict(rt, head, &plan[..size], &list[..entries], &mut work[..area]);
}

// One case; none where the input has no further one.
fn run_case(
    rt: &(impl Input + Print),
    head: &mut [u8],
    label: &mut [u8],
    plan: &mut [u8],
    entries: &mut [u8],
    list: &mut [u16],
    work: &mut [u64],
) -> Option<()> {
    cases::read_case(rt, head, label, plan, 14, 12)?;
    cases::read_part(rt, entries, 2)?;
    let k = cases::word(entries, 0);
    cases::read_part(rt, entries, k * 2)?;
    cases::fill_words(list, entries);
    cases::write_part(rt, label, cases::word(head, 14));
    cases::write(rt, b":");
    run_named(rt, head, plan, list, k, work);
    cases::end_line(rt);
    Some(())
}

fn main(rt: HostRuntime) {
    let mut head = [0u8; 22];
    let mut label = [0u8; 80];
    let mut plan = [0u8; 49200];
    let mut entries = [0u8; 131070];
    let mut list = [0u16; 65535];
    let mut work = [0u64; 262200];
    for _ in 0..cases::MOST {
        if run_case(
            &rt,
            &mut head,
            &mut label,
            &mut plan,
            &mut entries,
            &mut list,
            &mut work,
        )
        .is_none()
        {
            break;
        }
    }
}
