// The forward pass where nothing goes stale: hops and counts from a source to every station, and for each of a block of stations how many
// shortest walks do not have it inside; or how many shortest walks of a pair have no member of a set of stations inside. Everything
// lives in a lent work area: what may be sent on, and behind it what is heard and waits, in a part for each slot of the turnaround.
#![tactic(auto)]

ghost use Rattle.std.specs.Prelude.{◌≡◌, ℕ, ◌+◌, ◌*◌, ◌/◌, ◌^◌, ◌<◌, ◌≤◌, false, not, ◌&&◌, length, ◌==◌, slice_index};
ghost use Rattle.temporal.specs.Lists.{any, below};
ghost use Rattle.temporal.specs.Plan.{units};
ghost use Rattle.temporal.specs.Bytes.{contact_at};
ghost use Rattle.temporal.specs.Struck.{lacking_record};
ghost use Rattle.plan.specs.Record.{SlotRecords};
ghost use Rattle.entries.specs.Entry.{merged_count};
ghost use Rattle.lanes.specs.Lane.{ones};
ghost use Rattle.pass.specs.Row.{combined, second, wrapped, merged_row, part_size, row_at, part_at, RowsFit, Computes};
ghost use Rattle.pass.specs.Entry.{merged_area, absorbed, area_overflows, reached_entry, Absorbable};
ghost use Rattle.pass.specs.Sweep.{
  sent_area,
  folded_area,
  cleared_column,
  masked,
  too_wide,
  taken_next,
  sweep_of,
  settled_next,
  station_at,
  emptied,
  emptied_from,
  begun_area,
  PartFits,
  Area,
  FoldableArea,
  HearersFit,
  SlotSettled,
};
ghost use Rattle.pass.specs.Column.{column_of, lanes_by, split_of};
ghost use Rattle.pass.specs.PassedColumns.{waiting, area_size, ColumnsReady, Spared, ColumnsPassed, last_ended, stopped_end};

// Which column of a row stands for a station. From(low, split): column j for station low + j; an entry of a row holds 2^split columns,
// split up to 3. Members(z): column 0 for each member of a lent set of bytes but z, a byte for each station, 1 for a member.
#[derive(Clone, Copy)]
pub enum Columns {
    From(usize, usize),
    Members(usize),
}

// Why a pass stops that is not settled in a slot: a station has over 2^64 - 1 shortest walks; an appearance has; or a count does not fit a
// lane, where an entry has several.
#[derive(Clone, Copy, Debug, PartialEq, Eq)]
pub enum Stopped {
    StationTooMany,
    AppearanceTooMany,
    TooWide,
}

// Writes each entry of a row, the first one first, with f of itself and of its fellow in another row.
pub fn combine_rows<F: Fn(u64, u64) -> u64>(
    work: &mut [u64],
    to: usize,
    from: usize,
    size: usize,
    f: F,
)
    requires fit { RowsFit work.old to from size }
    requires callable { F.IsAlwaysCallable f }
    ensures { (g : ℕ → ℕ → ℕ) → Computes (F.post f) g → work.new ≡ combined g work.old to from size }
{
    for j in 0..size {
        work[to + j] = f(work[to + j], work[from + j]);
    }
}

// Copies a row to another. The rows may overlap, so copy_within is not the same.
pub fn copy_row(work: &mut [u64], to: usize, from: usize, size: usize)
    requires { RowsFit work.old to from size }
    ensures { work.new ≡ combined second work.old to from size }
{
    combine_rows(work, to, from, size, |_, b| b);
}

// Adds a row to another, modulo 2^64.
fn add_row(work: &mut [u64], to: usize, from: usize, size: usize)
    requires { RowsFit work.old to from size }
    ensures { work.new ≡ combined wrapped work.old to from size }
{
    combine_rows(work, to, from, size, |a, b| a.wrapping_add(b));
}

// Takes a row beside l hops into a row beside h hops.
#[tactic(auto, using(crate::proofs::RowLaws::merged_fewer, crate::proofs::RowLaws::merged_equal, crate::proofs::RowLaws::merged_more))]
fn merge_row(work: &mut [u64], to: usize, from: usize, size: usize, h: u64, l: u64)
    requires { RowsFit work.old to from size }
    ensures { work.new ≡ combined (merged_row h l) work.old to from size }
{
    if l < h {
        copy_row(work, to, from, size);
    } else if l == h {
        add_row(work, to, from, size);
    }
}

// Takes d walks of l hops into the entry at a place.
#[tactic(auto, unfolding(crate::specs::Entry::merged_area, entries::specs::Entry::merged_count))]
fn merge(work: &mut [u64], n: usize, at: usize, l: u64, d: u64)
    requires { at + n < length work.old }
    ensures { work.new ≡ merged_area n work.old at l d }
{
    let old = work[at];
    let counted = at + n;
    if l < old {
        work[at] = l;
        work[counted] = d;
    } else if l == old {
        work[counted] = entries::add_counts(work[counted], d);
    }
}

// Takes d walks of l hops, with their row, into the entry at a place and its row.
#[tactic(auto, unfolding(crate::specs::Entry::absorbed))]
pub fn absorb(
    work: &mut [u64],
    n: usize,
    block: usize,
    at: usize,
    row: usize,
    from: usize,
    l: u64,
    d: u64,
)
    requires { Absorbable n block work.old at row from }
    ensures { work.new ≡ absorbed n block work.old at row from l d }
{
    let h = work[at];
    merge_row(work, row, from, block, h, l);
    merge(work, n, at, l, d);
}

// Where the row of station v begins in a part.
pub fn row_at(n: usize, block: usize, v: usize) -> usize
    requires { row_at n block v < 18446744073709551616 }
    ensures { result ≡ row_at n block v }
{
    2 * n + v * block
}

// Sends what is settled for v on over one hop more, to what waits for x in the part that begins at base. Where x has fewer hops already, its
// row is left out, and hops and count too where cause 9 is known not to hold.
fn send(work: &mut [u64], known: bool, n: usize, block: usize, base: usize, v: usize, x: usize)
    requires { PartFits n block base work.old × (v < n) × (x < n) }
    ensures { work.new ≡ sent_area known n block base work.old v x }
{
    let h = work[v];
    if h < 65535 {
        let at = base + x;
        let d = work[v + n];
        if h < work[x] {
            let row = base + row_at(n, block, x);
            let from = row_at(n, block, v);
            absorb(work, n, block, at, row, from, h + 1, d);
        } else if !known {
            merge(work, n, at, h + 1, d);
        }
    }
}

// Folds the record at j in, of the plan without the record at position out.
#[tactic(auto, unfolding(crate::specs::Sweep::folded_area))]
fn fold_record(
    work: &mut [u64],
    plan: &[u8],
    out: usize,
    known: bool,
    n: usize,
    block: usize,
    base: usize,
    j: usize,
)
    requires { FoldableArea (lacking_record plan.now out) n block base j work.old }
    ensures { work.new ≡
        folded_area known n block base work.old (contact_at (lacking_record plan.now out) j) }
{
    let c = plan::kept_contact(plan, out, j);
    send(work, known, n, block, base, c.sender, c.hearer);
}

// The column that stands for station v, or none.
#[tactic(auto, unfolding(crate::specs::Column::column_of))]
pub fn column_of(columns: Columns, set: &[u8], v: usize, none: usize) -> usize
    ensures { result ≡ column_of columns set.now none v }
{
    match columns {
        Columns::From(low, _) => if v < low { none } else { v - low },
        Columns::Members(destination) => {
            if v != destination && v < set.len() && set[v] == 1 {
                0
            } else {
                none
            }
        }
    }
}

// In how many halves the entries of a row are split, again and again.
#[tactic(auto, unfolding(crate::specs::Column::split_of))]
pub fn split_of(columns: Columns) -> usize
    ensures { result ≡ split_of columns }
{
    match columns {
        Columns::From(_, split) => split,
        Columns::Members(_) => 0,
    }
}

// Writes 0 to column j of the row that begins at a place.
#[tactic(auto, unfolding(crate::specs::Sweep::cleared_column))]
pub fn clear_column(work: &mut [u64], row: usize, j: usize, split: usize)
    requires { (split ≤ 3) × (j < 2 ^ 63) × (row + j / 2 ^ split < length work.old) }
    ensures { work.new ≡ cleared_column (lanes_by split) work.old row j }
{
    let at = row + lanes::entry_of(j, split);
    let w = lanes::width_of(split);
    let l = lanes::lane_of(j, split);
    work[at] = lanes::without_lane(work[at], w, l);
}

// Writes 0 to the column that stands for v in its own row, where there is one and v is not the source.
fn mask(
    work: &mut [u64],
    n: usize,
    block: usize,
    source: usize,
    columns: Columns,
    set: &[u8],
    v: usize,
)
    requires { (row_at n block v + block ≤ length work.old) × (split_of columns ≤ 3) }
    ensures { work.new ≡ masked (lanes_by (split_of columns)) n block source
        (column_of columns set.now (block * 2 ^ split_of columns)) work.old v }
{
    if v == source {
        return;
    }
    let split = split_of(columns);
    let count = lanes::columns_of(block, split);
    let j = column_of(columns, set, v, count);
    if j < count {
        let row = row_at(n, block, v);
        clear_column(work, row, j, split);
    }
}

// The count beside the fewer of h and l hops; both counts where they are equal. 0 stands for one over 2^64 - 1.
#[tactic(auto, unfolding(entries::specs::Entry::merged_count))]
fn merged_count(h: u64, c: u64, l: u64, d: u64) -> u64
    ensures { result ≡ merged_count h c l d }
{
    if l < h {
        d
    } else if l == h {
        entries::add_counts(c, d)
    } else {
        c
    }
}

// Whether the count of d walks of l hops, taken in beside c of h hops, does not fit a lane.
pub fn too_wide(split: usize, h: u64, c: u64, l: u64, d: u64) -> bool
    requires { split ≤ 3 }
    ensures { result ≡ too_wide (lanes_by split) h c l d }
{
    if split == 0 {
        return false;
    }
    let merged = merged_count(h, c, l, d);
    merged == 0 || lanes::limit_of(split) < merged
}

// The same for the settled entry of station v.
#[tactic(auto, using(crate::proofs::WidthLaws::wide_split))]
pub fn wide_at(work: &[u64], n: usize, v: usize, l: u64, d: u64, columns: Columns) -> bool
    requires { (v + n < length work.now) × (split_of columns ≤ 3) }
    ensures { result ≡ too_wide (lanes_by (split_of columns)) (slice_index work.now v) (slice_index work.now (v + n)) l d }
{
    let split = split_of(columns);
    let counted = v + n;
    too_wide(split, work[v], work[counted], l, d)
}

// Whether a count is over 2^64 - 1, where that is not known not to occur.
fn over(known: bool, d: u64) -> bool
    ensures { result ≡ (not known && d == 0) }
{
    !known && d == 0
}

// Takes what waits for v in the part that begins at base into its settled entry, but where that has fewer hops. Where the count would not
// fit a lane: true, and nothing is changed.
fn take_in(
    work: &mut [u64],
    n: usize,
    block: usize,
    base: usize,
    source: usize,
    columns: Columns,
    set: &[u8],
    v: usize,
) -> bool
    requires { PartFits n block base work.old × (v < n) × (split_of columns ≤ 3) }
    ensures { sweep_of result work.new ≡
        taken_next (lanes_by (split_of columns)) n block base source (column_of columns set.now (block * 2 ^ split_of columns))
        work.old v }
{
    let at = base + v;
    let h = work[at];
    if work[v] < h {
        return false;
    }
    let counted = at + n;
    let d = work[counted];
    if wide_at(work, n, v, h, d, columns) {
        return true;
    }
    let row = row_at(n, block, v);
    absorb(work, n, block, v, row, base + row, h, d);
    mask(work, n, block, source, columns, set, v);
    false
}

// Settles what waits for v in the part that begins at base. Where its count is over 2^64 - 1 and cause 9 is not known, or the settled
// count would not fit a lane: true, and nothing is changed.
fn settle_waiting(
    work: &mut [u64],
    known: bool,
    n: usize,
    block: usize,
    base: usize,
    source: usize,
    columns: Columns,
    set: &[u8],
    v: usize,
) -> bool
    requires { PartFits n block base work.old × (v < n) × (split_of columns ≤ 3) × (slice_index work.old (base + v) < 65535) }
    ensures { sweep_of result work.new ≡
        settled_next known (lanes_by (split_of columns)) n block base source (column_of columns set.now (block * 2 ^ split_of columns))
        work.old v }
{
    let at = base + v;
    let counted = at + n;
    if over(known, work[counted]) || take_in(work, n, block, base, source, columns, set, v) {
        return true;
    }
    work[at] = 65535;
    work[counted] = 0;
    false
}

// The same where something waits for v; else nothing is changed.
#[tactic(auto, using(crate::proofs::PlaceLaws::settled_none))]
fn settle_one(
    work: &mut [u64],
    known: bool,
    n: usize,
    block: usize,
    base: usize,
    source: usize,
    columns: Columns,
    set: &[u8],
    v: usize,
) -> bool
    requires { PartFits n block base work.old × (v < n) × (split_of columns ≤ 3) }
    ensures { sweep_of result work.new ≡
        settled_next known (lanes_by (split_of columns)) n block base source (column_of columns set.now (block * 2 ^ split_of columns))
        work.old v }
{
    work[base + v] < 65535 && settle_waiting(work, known, n, block, base, source, columns, set, v)
}

// The station that is settled as number i of a slot whose records stand from j on: the hearer of its record, or where all stations are
// settled, station i.
#[tactic(auto, unfolding(crate::specs::Sweep::station_at))]
pub fn station_at(plan: &[u8], out: usize, all: bool, j: usize, i: usize) -> usize
    requires { (all ≡ false → (j + i) * 6 + 5 < length (lacking_record plan.now out)) × (j + i < 18446744073709551616) }
    ensures { result ≡ station_at (lacking_record plan.now out) all j i }
{
    if all {
        return i;
    }
    plan::kept_contact(plan, out, j + i).hearer
}

// Settles a slot whose records are those from j to before end: for their hearers, or where they are more than the stations, for every
// station. True where a count is over 2^64 - 1 or does not fit a lane, at the first that is or does not.
fn settle_slot(
    work: &mut [u64],
    plan: &[u8],
    out: usize,
    known: bool,
    n: usize,
    block: usize,
    base: usize,
    source: usize,
    columns: Columns,
    set: &[u8],
    j: usize,
    end: usize,
) -> bool
    requires { PartFits n block base work.old × HearersFit (lacking_record plan.now out) n j end × (split_of columns ≤ 3) × (j ≤ end) }
    ensures { SlotSettled (lacking_record plan.now out) known (lanes_by (split_of columns)) n block base source
        (column_of columns set.now (block * 2 ^ split_of columns)) j end work.old result work.new }
{
    let all = n < end - j;
    let many = n.min(end - j);
    for i in 0..many {
        let v = station_at(plan, out, all, j, i);
        if settle_one(work, known, n, block, base, source, columns, set, v) {
            return true;
        }
    }
    false
}

// Empties the part that begins at a place.
#[tactic(auto, unfolding(crate::specs::Sweep::emptied))]
pub fn empty_part(work: &mut [u64], n: usize, at: usize)
    requires { at + 2 * n ≤ length work.old }
    ensures { work.new ≡ emptied n work.old at }
{
    memory::fill_part(work, at, n, 65535);
    memory::fill_part(work, at + n, n, 0);
}

// Empties the first k parts of a size.
fn empty_parts(work: &mut [u64], n: usize, size: usize, k: usize)
    requires { (2 * n ≤ size) × (k * size ≤ length work.old) }
    ensures { work.new ≡ emptied_from n size work.old 0 k }
{
    for i in 0..k {
        empty_part(work, n, i * size);
    }
}

// Clears the work area and settles the empty walk of the source; one is what each entry of its row holds.
pub fn begin(work: &mut [u64], n: usize, block: usize, q: usize, source: usize, one: u64)
    requires { Area n block q work.old × (source < n) }
    ensures { work.new ≡ begun_area n block q work.old source one }
{
    empty_parts(work, n, 2 * n + n * block, 1 + q);
    work[source] = 0;
    work[source + n] = 1;
    let row = row_at(n, block, source);
    memory::fill_part(work, row, block, one);
}

// The same with 1 in every column of the source's row. Inlined: as a call of its own it takes 160 bytes of stack in every pass.
#[inline]
#[tactic(auto, using(crate::proofs::WidthLaws::begun_split))]
pub fn begin_columns(
    work: &mut [u64],
    n: usize,
    block: usize,
    q: usize,
    source: usize,
    columns: Columns,
)
    requires { Area n block q work.old × (source < n) × (split_of columns ≤ 3) }
    ensures { work.new ≡ begun_area n block q work.old source
        (ones (lanes_by (split_of columns)).width (lanes_by (split_of columns)).lanes) }
{
    let split = split_of(columns);
    let one = lanes::ones_of(split);
    begin(work, n, block, q, source, one);
}

// Where the part begins in which waits what is heard in slot u, of q parts.
#[tactic(auto, unfolding(crate::specs::Row::part_at))]
fn part_at(n: usize, block: usize, q: usize, u: usize) -> usize
    requires { (0 < q) × ((1 + q) * part_size n block < 18446744073709551616) }
    ensures { result ≡ part_at n block q u }
{
    (1 + u % q) * (2 * n + n * block)
}

// Whether the settled entry of some station has a count over 2^64 - 1.
fn any_overflows(work: &[u64], n: usize) -> bool
    requires { 2 * n ≤ length work.now }
    ensures { result ≡ any (area_overflows n work.now) (below n) }
{
    for v in 0..n {
        if entries::too_many(work[v], work[v + n]) {
            return true;
        }
    }
    false
}

// Whether the station until has a settled walk. Where it is no station's number it has none.
#[tactic(auto, unfolding(crate::specs::Entry::reached_entry))]
fn reached(work: &[u64], n: usize, until: usize) -> bool
    requires { n ≤ length work.now }
    ensures { result ≡ reached_entry n work.now until }
{
    until < n && work[until] < 65535
}

// The slot in which a pass is settled past the last one: where it waits for no station, every station's count is looked at.
#[tactic(auto, unfolding(crate::specs::PassedColumns::last_ended))]
pub fn end_pass(work: &[u64], n: usize, t: usize, until: usize) -> Result<usize, Stopped>
    requires { 2 * n ≤ length work.now }
    ensures { result ≡ last_ended n t until (any (area_overflows n work.now) (below n)) }
{
    if n <= until && any_overflows(work, n) {
        return Err(Stopped::StationTooMany);
    }
    Ok(t)
}

// Why a pass stops while it settles.
#[tactic(auto, unfolding(crate::specs::PassedColumns::stopped_end))]
pub fn stop_reason(columns: Columns) -> Stopped
    ensures { result ≡ stopped_end (split_of columns) }
{
    if split_of(columns) == 0 {
        Stopped::AppearanceTooMany
    } else {
        Stopped::TooWide
    }
}

// The position past the records of slot u, which stand from i on; j is that position where what waits is settled in the next slot.
pub fn settled_end(plan: &[u8], out: usize, q: usize, u: usize, i: usize, j: usize) -> usize
    requires { (i * 6 ≤ length (lacking_record plan.now out)) × (q ≡ 1 → SlotRecords (lacking_record plan.now out) u i j) }
    ensures { SlotRecords (lacking_record plan.now out) u i result }
{
    if q == 1 {
        j
    } else {
        plan::kept_slot_end(plan, out, i, u)
    }
}

// The pass: the records slot by slot, until the station until is reached or the last slot is settled. What is heard in a slot
// waits in its part and is settled, q slots later, before that part is used again, for the hearers of that slot's records; past the last
// slot the parts are settled one by one. The records from j on are not folded in yet, those from i on not settled. The record at position
// out is left out; where there is none, the plan is whole. Where cause 9 is known not to hold, a record whose hearer has fewer hops
// already is passed over. Returns the slot in which it is settled, or why it stops.
pub fn pass_columns(
    work: &mut [u64],
    plan: &[u8],
    out: usize,
    known: bool,
    n: usize,
    t: usize,
    g: usize,
    h: usize,
    source: usize,
    columns: Columns,
    set: &[u8],
    block: usize,
    until: usize,
) -> Result<usize, Stopped>
    requires { ColumnsReady (lacking_record plan.now out) n t (units g h) source until block work.old × (split_of columns ≤ 3) ×
        Spared known (lacking_record plan.now out) n t (units g h) source }
    ensures { ColumnsPassed (lacking_record plan.now out) n t (units g h) source until (lanes_by (split_of columns))
        (column_of columns set.now (block * 2 ^ split_of columns)) block (area_size n (waiting t (units g h)) block)
        work.old work.new result }
{
    let q = g.min(t);
    begin_columns(work, n, block, q, source, columns);
    let mut base = part_at(n, block, q, 1);
    let mut u = 1;
    let mut j = 0;
    let mut i = 0;
    // A step stays in slot u where it folds a record in.
    while u < t + q {
        if plan::kept_in_slot(plan, out, j, u) {
            fold_record(work, plan, out, known, n, block, base, j);
            j += 1;
            continue;
        }
        u += 1;
        base = part_at(n, block, q, u);
        if q < u {
            let end = settled_end(plan, out, q, u - q, i, j);
            if settle_slot(
                work, plan, out, known, n, block, base, source, columns, set, i, end,
            ) {
                return Err(stop_reason(columns));
            }
            i = end;
            if reached(work, n, until) {
                return Ok(u - q);
            }
        }
    }
    end_pass(work, n, t, until)
}
