// Operation 1, check, on cases from standard input. A case is four 16-bit numbers, high byte first: n, T, the length of
// the plan and the length of a label; then the label and the plan. For each case a line: the label, a space and the
// number of the answer, 0 where the plan is accepted.
#![tactic(auto)]

// One case; none where the input has no further one.
fn run_case(
    rt: &(impl Input + Print),
    head: &mut [u8],
    label: &mut [u8],
    plan: &mut [u8],
) -> Option<()> {
    cases::read_case(rt, head, label, plan, 6, 4)?;
    let size = cases::word(head, 4).min(plan.len());
    let n = cases::word(head, 0);
    let t = cases::word(head, 2);
    let answer = plan::check(&plan[..size], n, t);
    cases::write_part(rt, label, cases::word(head, 6));
    cases::write_number(rt, plan::check_number(answer));
    cases::end_line(rt);
    Some(())
}

fn main(rt: HostRuntime) {
    let mut head = [0u8; 8];
    let mut label = [0u8; 64];
    let mut plan = [0u8; 49200];
    for _ in 0..cases::MOST {
        if run_case(&rt, &mut head, &mut label, &mut plan).is_none() {
            break;
        }
    }
}
