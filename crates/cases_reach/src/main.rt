// Operations 2 and 3, reach and row, on cases from standard input.
//
// A case is a head of 34 bytes, a label and a plan. The head's first nine numbers have 16 bits, high byte first: the
// kind (0 reach, 1 row), n, T, g, h, the source or the station, the length of the plan, the length of the label, a mark.
// Four numbers of 32 bits follow: the lent entries of reach's tables of hops and counts, of the appearances and then of
// the stations; row's table has the second, and row takes neither g nor h.
//
// For each case a line: the label, a colon, a space and the number of the answer. Reach's tables hold the mark before
// the call; behind the number stand their lent entries after it, each table behind " |". A run of one value is written
// " i: x" or " i .. j: x"; entries without a walk, 65535 hops or count 0, are left out. Entry i of row's table is
// 3i + 1; behind the number stand the length of the part and, behind " |", its entries.
#![tactic(auto)]

use plan::Fault;

// The hops of an entry without a walk.
const NO_WALK: u16 = 65535;

// Fills a table with distinct numbers: entry i is 3i + 1.
fn number_entries(table: &mut [u64]) {
    for (i, entry) in table.iter_mut().enumerate() {
        *entry = (i * 3 + 1) as u64;
    }
}

// Fills reach's tables with the mark.
fn mark_tables(
    head: &[u8],
    hops: &mut [u16],
    counts: &mut [u64],
    station_hops: &mut [u16],
    station_counts: &mut [u64],
) {
    let mark = cases::word(head, 16);
    hops.fill(mark as u16);
    counts.fill(mark as u64);
    station_hops.fill(mark as u16);
    station_counts.fill(mark as u64);
}

// Calls reach with the numbers of the head on the lent parts.
fn call_reach(
    head: &[u8],
    plan: &[u8],
    hops: &mut [u16],
    counts: &mut [u64],
    station_hops: &mut [u16],
    station_counts: &mut [u64],
) -> Result<(), Fault> {
    let n = cases::word(head, 2);
    let t = cases::word(head, 4);
    let g = cases::word(head, 6);
    let h = cases::word(head, 8);
    let source = cases::word(head, 10);
    reach::reach(
        plan,
        n,
        t,
        g,
        h,
        source,
        hops,
        counts,
        station_hops,
        station_counts,
    )
}

// Calls reach on the lent parts, and writes its answer.
fn run_reach(
    rt: &impl Print,
    head: &[u8],
    plan: &[u8],
    hops: &mut [u16],
    counts: &mut [u64],
    station_hops: &mut [u16],
    station_counts: &mut [u64],
) {
    mark_tables(head, hops, counts, station_hops, station_counts);
    let answer = call_reach(head, plan, hops, counts, station_hops, station_counts);
    cases::write_answer(rt, answer);
    cases::write_runs(rt, hops, NO_WALK);
    cases::write_runs(rt, counts, 0);
    cases::write_runs(rt, station_hops, NO_WALK);
    cases::write_runs(rt, station_counts, 0);
}

// Calls row and its sister on the lent part, and writes the answers.
fn run_row(rt: &impl Print, head: &[u8], table: &mut [u64]) {
    number_entries(table);
    let n = cases::word(head, 2);
    let t = cases::word(head, 4);
    let station = cases::word(head, 10);
    cases::write_number(rt, rows::row_number(table, n, t, station));
    let part = rows::row(table, n, t, station);
    cases::write_number(rt, part.len());
    cases::write_runs(rt, part, 0);
}

// Lends what the head names, and runs the case.
fn run_named(
    rt: &impl Print,
    head: &[u8],
    plan: &[u8],
    hops: &mut [u16],
    counts: &mut [u64],
    station_hops: &mut [u16],
    station_counts: &mut [u64],
) {
    let a = cases::lent(head, 18, hops.len());
    let b = cases::lent(head, 22, counts.len());
    let c = cases::lent(head, 26, station_hops.len());
    let d = cases::lent(head, 30, station_counts.len());
    if cases::word(head, 0) == 0 {
        run_reach(
            rt,
            head,
            plan,
            &mut hops[..a],
            &mut counts[..b],
            &mut station_hops[..c],
            &mut station_counts[..d],
        );
    } else {
        run_row(rt, head, &mut counts[..b]);
    }
}

// One case; none where the input has no further one.
fn run_case(
    rt: &(impl Input + Print),
    head: &mut [u8],
    label: &mut [u8],
    plan: &mut [u8],
    hops: &mut [u16],
    counts: &mut [u64],
    station_hops: &mut [u16],
    station_counts: &mut [u64],
) -> Option<()> {
    cases::read_case(rt, head, label, plan, 14, 12)?;
    cases::write_part(rt, label, cases::word(head, 14));
    cases::write(rt, b":");
    let size = cases::word(head, 12).min(plan.len());
    run_named(
        rt,
        head,
        &plan[..size],
        hops,
        counts,
        station_hops,
        station_counts,
    );
    cases::end_line(rt);
    Some(())
}

fn main(rt: HostRuntime) {
    let mut head = [0u8; 34];
    let mut label = [0u8; 64];
    let mut plan = [0u8; 49200];
    let mut hops = [0u16; 65600];
    let mut counts = [0u64; 65600];
    let mut station_hops = [0u16; 320];
    let mut station_counts = [0u64; 320];
    for _ in 0..cases::MOST {
        if run_case(
            &rt,
            &mut head,
            &mut label,
            &mut plan,
            &mut hops,
            &mut counts,
            &mut station_hops,
            &mut station_counts,
        )
        .is_none()
        {
            break;
        }
    }
}
