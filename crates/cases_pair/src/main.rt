// Operations 4, 5 and 6, pair, loads and busiest, on cases from standard input.
//
// A case is a head of 32 bytes, a label and a plan. The head's first ten numbers have 16 bits, high byte first: the
// kind (0 pair, 1 loads, 2 busiest), n, T, g, h, the source, the destination, the length of the plan, the length of the
// label, a mark. Three numbers of 32 bits follow: the lent entries of the first table (through counts or pairs), of the second
// (loads) and of the work area. All of them hold the mark before the call.
//
// For each case a line: the label, a colon, a space and the number of the answer, then what was lent, each behind " |":
// pair: hops, count, the through table; loads: the table of pairs and the table of loads; busiest: the station, 0 where it
// refuses; each then the work area. A run of one value is written " i: x" or " i .. j: x"; entries of 0 are left out.
#![tactic(auto)]

// Fills a table or the work area with the mark.
fn mark(head: &[u8], table: &mut [u64]) {
    table.fill(cases::word(head, 18) as u64);
}

// Calls pair on the lent parts, and writes its answer.
fn run_pair(rt: &impl Print, head: &[u8], plan: &[u8], through: &mut [u64], work: &mut [u64]) {
    mark(head, through);
    mark(head, work);
    let n = cases::word(head, 2);
    let t = cases::word(head, 4);
    let g = cases::word(head, 6);
    let h = cases::word(head, 8);
    let s = cases::word(head, 10);
    let z = cases::word(head, 12);
    let answer = cases::write_answer(rt, pair::pair(plan, n, t, g, h, s, z, through, work));
    cases::write_number(rt, answer.map_or(0, |pair| pair.hops));
    cases::write_number(rt, answer.map_or(0, |pair| pair.count));
    cases::write_runs(rt, through, 0);
    cases::write_runs(rt, work, 0);
}

// Calls loads on the lent parts, and writes its answer.
fn run_loads(
    rt: &impl Print,
    head: &[u8],
    plan: &[u8],
    pairs: &mut [u64],
    loads: &mut [u64],
    work: &mut [u64],
) {
    mark(head, pairs);
    mark(head, loads);
    mark(head, work);
    let n = cases::word(head, 2);
    let t = cases::word(head, 4);
    let g = cases::word(head, 6);
    let h = cases::word(head, 8);
    cases::write_answer(rt, loads::loads(plan, n, t, g, h, pairs, loads, work));
    cases::write_runs(rt, pairs, 0);
    cases::write_runs(rt, loads, 0);
    cases::write_runs(rt, work, 0);
}

// Calls busiest on the lent part, and writes its answer.
fn run_busiest(rt: &impl Print, head: &[u8], plan: &[u8], work: &mut [u64]) {
    mark(head, work);
    let n = cases::word(head, 2);
    let t = cases::word(head, 4);
    let g = cases::word(head, 6);
    let h = cases::word(head, 8);
    let answer = cases::write_answer(rt, loads::busiest(plan, n, t, g, h, work));
    cases::write_number(rt, answer.unwrap_or(0));
    cases::write_runs(rt, work, 0);
}

// Lends what the head names, and runs the case.
fn run_named(
    rt: &impl Print,
    head: &[u8],
    plan: &[u8],
    first: &mut [u64],
    second: &mut [u64],
    work: &mut [u64],
) {
    let a = cases::lent(head, 20, first.len());
    let b = cases::lent(head, 24, second.len());
    let c = cases::lent(head, 28, work.len());
    let kind = cases::word(head, 0);
    if kind == 0 {
        run_pair(rt, head, plan, &mut first[..a], &mut work[..c]);
    } else if kind == 1 {
        run_loads(
            rt,
            head,
            plan,
            &mut first[..a],
            &mut second[..b],
            &mut work[..c],
        );
    } else {
        run_busiest(rt, head, plan, &mut work[..c]);
    }
}

// One case; none where the input has no further one.
fn run_case(
    rt: &(impl Input + Print),
    head: &mut [u8],
    label: &mut [u8],
    plan: &mut [u8],
    first: &mut [u64],
    second: &mut [u64],
    work: &mut [u64],
) -> Option<()> {
    cases::read_case(rt, head, label, plan, 16, 14)?;
    cases::write_part(rt, label, cases::word(head, 16));
    cases::write(rt, b":");
    let size = cases::word(head, 14).min(plan.len());
    run_named(rt, head, &plan[..size], first, second, work);
    cases::end_line(rt);
    Some(())
}

fn main(rt: HostRuntime) {
    let mut head = [0u8; 32];
    let mut label = [0u8; 64];
    let mut plan = [0u8; 49200];
    let mut first = [0u64; 320];
    let mut second = [0u64; 320];
    let mut work = [0u64; 262200];
    for _ in 0..cases::MOST {
        if run_case(
            &rt,
            &mut head,
            &mut label,
            &mut plan,
            &mut first,
            &mut second,
            &mut work,
        )
        .is_none()
        {
            break;
        }
    }
}
