// The pass without rows where nothing goes stale, for several sources at once: it settles cause 9 and finds in how many bits every sum of
// counts on the way fits. A station has a row of keys, one for each source: hops and a count in one entry. What is settled comes first, then
// what is heard and waits, in a part for each slot of the turnaround, then a row of bounds.
#![tactic(auto)]

ghost use Rattle.std.specs.Prelude.{◌≡◌, ◌+◌, ◌*◌, ◌%◌, ◌<◌, ◌≤◌, length};
ghost use Rattle.temporal.specs.Plan.{units};
ghost use Rattle.temporal.specs.Bytes.{contact_at};
ghost use Rattle.temporal.specs.Struck.{lacking_record};
ghost use Rattle.pass.specs.Row.{combined, RowsFit};
ghost use Rattle.pass.specs.Sweep.{HearersFit};
ghost use Rattle.widths.specs.Key.{
  merged_key,
  sent_key,
  widened,
  settled_keys,
  folded_keys,
  started_keys,
  begun_keys,
  split_for,
  splits_from,
  KeysFit,
  FoldableKeys,
  SourcesFit,
  BeginFits,
  SlotKeys,
};
ghost use Rattle.widths.specs.Found.{WidthsReady, WidthsFound};

// Of two keys that of fewer hops; with as many hops both counts.
#[tactic(auto, unfolding(crate::specs::Key::merged_key))]
fn merged_key(a: u64, b: u64) -> u64
    ensures { result ≡ merged_key a b }
{
    if a / 70368744177664 == b / 70368744177664 {
        a.wrapping_add(b % 70368744177664)
    } else {
        a.min(b)
    }
}

// Takes a row of keys, each over one hop more, into another.
fn send_keys(work: &mut [u64], to: usize, from: usize, size: usize)
    requires { RowsFit work.old to from size }
    ensures { work.new ≡ combined sent_key work.old to from size }
{
    pass::combine_rows(work, to, from, size, |a, b| {
        merged_key(a, b.wrapping_add(70368744177664))
    });
}

// Takes a row of keys into another.
fn merge_keys(work: &mut [u64], to: usize, from: usize, size: usize)
    requires { RowsFit work.old to from size }
    ensures { work.new ≡ combined merged_key work.old to from size }
{
    pass::combine_rows(work, to, from, size, |a, b| merged_key(a, b));
}

// Widens a row of bounds by the counts of a row of keys, which stand in the upper 46 bits there.
fn widen_bounds(work: &mut [u64], to: usize, from: usize, size: usize)
    requires { RowsFit work.old to from size }
    ensures { work.new ≡ combined widened work.old to from size }
{
    pass::combine_rows(work, to, from, size, |a, b| a | (b << 18));
}

// Settles what waits for station v in the part whose rows begin at row base.
fn settle_keys(work: &mut [u64], n: usize, many: usize, base: usize, bounds: usize, v: usize)
    requires { KeysFit n many base bounds work.old × (v < n) }
    ensures { work.new ≡ settled_keys many base bounds work.old v }
{
    let row = v * many;
    let waits = (base + v) * many;
    merge_keys(work, row, waits, many);
    widen_bounds(work, bounds * many, row, many);
    memory::fill_part(work, waits, many, 4611615649683210240);
}

// Folds the record at j in, of the plan without the record at position out.
fn fold_keys(
    work: &mut [u64],
    plan: &[u8],
    out: usize,
    n: usize,
    many: usize,
    base: usize,
    bounds: usize,
    j: usize,
)
    requires { FoldableKeys (lacking_record plan.now out) n many base bounds j work.old }
    ensures { work.new ≡ folded_keys many base work.old (contact_at (lacking_record plan.now out) j) }
{
    let c = plan::kept_contact(plan, out, j);
    let to = (base + c.hearer) * many;
    let from = c.sender * many;
    send_keys(work, to, from, many);
}

// Settles a slot whose records are those from j to before end: for their hearers, or where they are more than the stations, for every station.
fn settle_hearers(
    work: &mut [u64],
    plan: &[u8],
    out: usize,
    n: usize,
    many: usize,
    base: usize,
    bounds: usize,
    j: usize,
    end: usize,
)
    requires { KeysFit n many base bounds work.old × HearersFit (lacking_record plan.now out) n j end × (j ≤ end) }
    ensures { SlotKeys (lacking_record plan.now out) n many base bounds j end work.old work.new }
{
    let all = n < end - j;
    let count = n.min(end - j);
    for i in 0..count {
        let v = pass::station_at(plan, out, all, j, i);
        settle_keys(work, n, many, base, bounds, v);
    }
}

// Writes the empty walk of each of many sources from first on, each in its column.
fn start_sources(work: &mut [u64], first: usize, many: usize)
    requires { SourcesFit first many work.old }
    ensures { work.new ≡ started_keys many work.old first 0 many }
{
    for c in 0..many {
        work[(first + c) * many + c] = 1;
    }
}

// Begins with no other walks, and with bounds of 0.
fn begin_keys(work: &mut [u64], many: usize, bounds: usize, first: usize)
    requires { BeginFits many bounds first work.old }
    ensures { work.new ≡ begun_keys many bounds work.old first }
{
    let at = bounds * many;
    memory::fill_part(work, 0, at, 4611615649683210240);
    memory::fill_part(work, at, many, 0);
    start_sources(work, first, many);
}

// The row with which the part begins in which waits what is heard in slot u, of q parts.
fn part_row(n: usize, q: usize, u: usize) -> usize
    requires { (0 < q) × (q ≤ 256) × (n ≤ 256) }
    ensures { result ≡ (1 + u % q) * n }
{
    (1 + u % q) * n
}

// The split of rows whose counts have a bound.
#[tactic(auto, unfolding(crate::specs::Key::split_for))]
fn split_for(bound: u64) -> u64
    ensures { result ≡ split_for bound }
{
    if bound < 67108864 {
        3
    } else if bound < 17179869184 {
        2
    } else if bound < 1125899906842624 {
        1
    } else {
        0
    }
}

// Those of many bounds from a place on, two bits each, the first lowest.
fn splits_from(work: &[u64], at: usize, many: usize) -> u64
    requires { (at + many ≤ length work.now) × (many ≤ 32) }
    ensures { result ≡ splits_from work.now at many }
{
    let mut splits: u64 = 0;
    for i in (0..many).rev() {
        splits = split_for(work[at + i]) + 4 * splits;
    }
    splits
}

// For each of many sources from first on the split of its rows, two bits each, the first lowest: 3 where every sum of counts that occurs on
// the way fits 8 bits, those that are undercut later too, 2 where it fits 16, 1 where it fits 32; else 0. The record at position out is left
// out; where there is none, the plan is whole.
pub fn widths_of(
    work: &mut [u64],
    plan: &[u8],
    out: usize,
    n: usize,
    t: usize,
    g: usize,
    h: usize,
    first: usize,
    many: usize,
) -> u64
    requires { WidthsReady (lacking_record plan.now out) n t (units g h) first many work.old }
    ensures { WidthsFound (lacking_record plan.now out) n t (units g h) first many work.old work.new result }
{
    let q = g.min(t);
    let bounds = (1 + q) * n;
    begin_keys(work, many, bounds, first);
    let mut base = part_row(n, q, 1);
    let mut u = 1;
    let mut j = 0;
    let mut i = 0;
    // A step stays in slot u where it folds a record in.
    while u < t + q {
        if plan::kept_in_slot(plan, out, j, u) {
            fold_keys(work, plan, out, n, many, base, bounds, j);
            j += 1;
            continue;
        }
        u += 1;
        base = part_row(n, q, u);
        if q < u {
            let end = pass::settled_end(plan, out, q, u - q, i, j);
            settle_hearers(work, plan, out, n, many, base, bounds, i, end);
            i = end;
        }
    }
    splits_from(work, bounds * many, many)
}
