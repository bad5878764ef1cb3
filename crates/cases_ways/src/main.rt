// Operations 7 and 8, first way and next way, in traces from standard input.
//
// A case is a trace: a head of 10 bytes, a label, bytes of plans, the entries of the way buffer before the first step, and
// the steps. All numbers have 16 bits, high byte first, unless said. The head: the length of the label, the number of bytes
// of plans, the entries of the way buffer, the number of steps, a mark. A step has 24 bytes: the kind (0 first way, 1 next
// way, 2 the caller writes), n, T, g, h, source, destination, the first byte of the plan, its length, the lent entries of
// the way buffer; then in 32 bits the lent entries of the work area. A write has its entry at n and its value at T.
//
// For each case a line with the label, then for each call a line: "path" and the hops, "none", "last", or "refused" and the
// number; behind " |" all entries of the trace's way buffer; behind " |" the runs of the lent work area but those of 0. The
// lent work area holds the mark before each call.
#![tactic(auto)]

use listing::WayAnswer;
use plan::Fault;

// Writes all entries of a way buffer.
fn write_way(rt: &impl Print, way: &[u16]) {
    cases::write(rt, b" |");
    for entry in way {
        cases::write_number(rt, *entry);
    }
}

// Writes what a call answered.
fn write_answer(rt: &impl Print, answer: Result<WayAnswer, Fault>) {
    match answer {
        Ok(WayAnswer::Path(hops)) => {
            cases::write(rt, b"path");
            cases::write_number(rt, hops);
        }
        Ok(WayAnswer::NoPath) => cases::write(rt, b"none"),
        Ok(WayAnswer::LastPath) => cases::write(rt, b"last"),
        Err(fault) => {
            cases::write(rt, b"refused");
            cases::write_number(rt, plan::fault_number(fault));
        }
    }
}

// Makes the call of a step on the lent parts.
fn call(step: &[u8], plan: &[u8], way: &mut [u16], work: &mut [u64]) -> Result<WayAnswer, Fault> {
    let n = cases::word(step, 2);
    let t = cases::word(step, 4);
    let g = cases::word(step, 6);
    let h = cases::word(step, 8);
    let source = cases::word(step, 10);
    let destination = cases::word(step, 12);
    if cases::word(step, 0) == 0 {
        return listing::first_way(plan, n, t, g, h, source, destination, way, work);
    }
    listing::next_way(plan, n, t, g, h, source, destination, way, work)
}

// Makes the call of a step on the lent work area, and writes its line.
fn run_call(
    rt: &impl Print,
    step: &[u8],
    mark: u64,
    plans: &[u8],
    way: &mut [u16],
    work: &mut [u64],
) {
    let from = cases::word(step, 14).min(plans.len());
    let end = from + cases::word(step, 16).min(plans.len() - from);
    let size = cases::word(step, 18).min(way.len());
    work.fill(mark);
    let answer = call(step, &plans[from..end], &mut way[..size], work);
    write_answer(rt, answer);
    write_way(rt, way);
    cases::write_runs(rt, work, 0);
    cases::end_line(rt);
}

// Writes the entry that a step names.
fn store(step: &[u8], way: &mut [u16]) {
    let i = cases::word(step, 2);
    if i < way.len() {
        way[i] = cases::word(step, 4) as u16;
    }
}

// Runs one step.
fn run_step(
    rt: &impl Print,
    step: &[u8],
    mark: u64,
    plans: &[u8],
    way: &mut [u16],
    work: &mut [u64],
) {
    if cases::word(step, 0) == 2 {
        store(step, way);
    } else {
        let area = cases::lent(step, 20, work.len());
        run_call(rt, step, mark, plans, way, &mut work[..area]);
    }
}

// Fills the trace's way buffer, and reads and runs its steps.
fn run_steps(
    rt: &(impl Input + Print),
    head: &[u8],
    entries: &[u8],
    step: &mut [u8],
    plans: &[u8],
    way: &mut [u16],
    work: &mut [u64],
) {
    cases::fill_words(way, entries);
    let mark = cases::word(head, 8) as u64;
    for _ in 0..cases::word(head, 6) {
        if cases::read_part(rt, step, 24).is_none() {
            break;
        }
        run_step(rt, step, mark, plans, way, work);
    }
}

// Runs a trace on the bytes of plans and the way buffer that the head names.
fn run_trace(
    rt: &(impl Input + Print),
    head: &[u8],
    entries: &[u8],
    step: &mut [u8],
    plans: &[u8],
    way: &mut [u16],
    work: &mut [u64],
) {
    let size = cases::word(head, 2).min(plans.len());
    let length = cases::word(head, 4).min(way.len());
    run_steps(
        rt,
        head,
        entries,
        step,
        &plans[..size],
        &mut way[..length],
        work,
    );
}

// Reads a trace up to its steps; none where the input has no further one.
fn read_trace(
    rt: &impl Input,
    head: &mut [u8],
    label: &mut [u8],
    plans: &mut [u8],
    entries: &mut [u8],
) -> Option<()> {
    cases::read_case(rt, head, label, plans, 0, 2)?;
    cases::read_part(rt, entries, cases::word(head, 4) * 2)
}

// One case; none where the input has no further one.
fn run_case(
    rt: &(impl Input + Print),
    head: &mut [u8],
    label: &mut [u8],
    plans: &mut [u8],
    entries: &mut [u8],
    step: &mut [u8],
    way: &mut [u16],
    work: &mut [u64],
) -> Option<()> {
    read_trace(rt, head, label, plans, entries)?;
    cases::write_part(rt, label, cases::word(head, 0));
    cases::end_line(rt);
    run_trace(rt, head, entries, step, plans, way, work);
    Some(())
}

fn main(rt: HostRuntime) {
    let mut head = [0u8; 10];
    let mut label = [0u8; 64];
    let mut plans = [0u8; 49200];
    let mut entries = [0u8; 600];
    let mut step = [0u8; 24];
    let mut way = [0u16; 300];
    let mut work = [0u64; 262200];
    for _ in 0..cases::MOST {
        if run_case(
            &rt,
            &mut head,
            &mut label,
            &mut plans,
            &mut entries,
            &mut step,
            &mut way,
            &mut work,
        )
        .is_none()
        {
            break;
        }
    }
}
