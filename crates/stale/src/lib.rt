// The forward pass where readings go stale: hops and counts from a source to every station, with columns as the pass of the crate pass has
// them. What the stations heard lately is kept in one ring of cells, a cell for each slot in which a station heard something, linked to that
// station's cell before it; what a station may send on in a slot is gathered along these links, from the cells of the slots that a contact
// may follow. Everything lives in a lent work area.
#![tactic(auto)]

ghost use Rattle.std.specs.Prelude.{◌≡◌, ◌+◌, ◌-◌, ◌*◌, ◌^◌, ◌<◌, ◌≤◌, min, length};
ghost use Rattle.temporal.specs.Plan.{units};
ghost use Rattle.temporal.specs.Bytes.{contact_at};
ghost use Rattle.temporal.specs.Struck.{lacking_record};
ghost use Rattle.pass.specs.Row.{part_size};
ghost use Rattle.pass.specs.Sweep.{sweep_of};
ghost use Rattle.pass.specs.Column.{column_of, lanes_by, split_of};
ghost use Rattle.pass.specs.PassedColumns.{ColumnsPassed};
ghost use Rattle.stale.specs.Depth.{DepthReady, Deep};
ghost use Rattle.stale.specs.Size.{window_size, window_columns};
ghost use Rattle.stale.specs.Window.{
  ring_at,
  mark_at,
  number_part,
  number_place,
  number_mark,
  head_of,
  oldest_of,
  taken_cell,
  opened_cell,
  emptied_cell,
  masked_row,
  wide_entry,
  masked_cell,
  kept_cell,
  lower_link,
  gathered_cell,
  window_cell,
  window_next,
  windows_of,
  sent_records,
  pushed_entry,
  pushed_marks,
  pushed_cell,
  kept_next,
  kept_records,
  window_slot,
  begun_window,
  TwoParts,
  WindowArea,
  Followed,
  GatheredNext,
  RecordsFit,
  WindowReady,
};

use pass::{Columns, Stopped};

// Takes the entry of station x in the part that begins at from, over no hop or one more, into the entry of station v in the part
// that begins at to.
fn take(
    work: &mut [u64],
    n: usize,
    block: usize,
    to: usize,
    v: usize,
    from: usize,
    x: usize,
    more: u64,
)
    requires { TwoParts n block to from work.old × (v < n) × (x < n) × (more ≤ 1) }
    ensures { work.new ≡ taken_cell n block work.old to v from x more }
{
    let at = from + x;
    let l = work[at];
    if l < 65535 {
        let d = work[at + n];
        let row = to + pass::row_at(n, block, v);
        let other = from + pass::row_at(n, block, x);
        pass::absorb(work, n, block, to + v, row, other, l + more, d);
    }
}

// Leaves the empty walk alone in the entry of station v in the part that begins at base; one is what each entry of its row holds.
fn open_entry(work: &mut [u64], n: usize, block: usize, base: usize, v: usize, one: u64)
    requires { (v < n) × (base + part_size n block ≤ length work.old) }
    ensures { work.new ≡ opened_cell n block work.old base v one }
{
    let at = base + v;
    work[at] = 0;
    work[at + n] = 1;
    let row = base + pass::row_at(n, block, v);
    memory::fill_part(work, row, block, one);
}

// Leaves no walks in it.
fn empty_entry(work: &mut [u64], n: usize, base: usize, v: usize)
    requires { (v < n) × (base + 2 * n ≤ length work.old) }
    ensures { work.new ≡ emptied_cell n work.old base v }
{
    let at = base + v;
    work[at] = 65535;
    work[at + n] = 0;
}

// Writes 0 to the column that stands for v in the row at a place, where there is one.
fn mask_row(work: &mut [u64], block: usize, columns: Columns, set: &[u8], row: usize, v: usize)
    requires { (row + block ≤ length work.old) × (split_of columns ≤ 3) }
    ensures { work.new ≡ masked_row (lanes_by (split_of columns)) block
        (column_of columns set.now (block * 2 ^ split_of columns)) work.old row v }
{
    let split = pass::split_of(columns);
    let count = lanes::columns_of(block, split);
    let j = pass::column_of(columns, set, v, count);
    if j < count {
        pass::clear_column(work, row, j, split);
    }
}

// Whether the entry at a place has walks, and a count that does not fit a lane.
fn wide_entry(work: &[u64], n: usize, at: usize, columns: Columns) -> bool
    requires { (at + n < length work.now) × (split_of columns ≤ 3) }
    ensures { result ≡ wide_entry (lanes_by (split_of columns)) n work.now at }
{
    let split = pass::split_of(columns);
    if split == 0 {
        return false;
    }
    let h = work[at];
    h < 65535 && pass::too_wide(split, 65535, 0, h, work[at + n])
}

// Writes 0 to the column that stands for v in its own row in the part that begins at base. Where its count there does not fit a lane: true,
// and nothing is changed.
fn mask_entry(
    work: &mut [u64],
    n: usize,
    block: usize,
    columns: Columns,
    set: &[u8],
    base: usize,
    v: usize,
) -> bool
    requires { (v < n) × (base + part_size n block ≤ length work.old) × (split_of columns ≤ 3) }
    ensures { sweep_of result work.new ≡ masked_cell (lanes_by (split_of columns)) n block
        (column_of columns set.now (block * 2 ^ split_of columns)) work.old base v }
{
    let at = base + v;
    if wide_entry(work, n, at, columns) {
        return true;
    }
    let row = base + pass::row_at(n, block, v);
    mask_row(work, block, columns, set, row, v);
    false
}

// How many entries a part has.
fn part_size(n: usize, block: usize) -> usize
    requires { part_size n block < 18446744073709551616 }
    ensures { result ≡ part_size n block }
{
    2 * n + n * block
}

// Where part i of the ring begins; behind the last, where the windows do.
fn ring_at(n: usize, block: usize, depth: usize, i: usize) -> usize
    requires { (i ≤ depth) × (0 < n) × (window_size n depth block < 18446744073709551616) }
    ensures { result ≡ ring_at n block i }
{
    (2 + i) * part_size(n, block)
}

// Where the mark of the cell of part i of the ring at place v stands; behind the last, where the head of station v does.
fn mark_at(n: usize, block: usize, depth: usize, i: usize, v: usize) -> usize
    requires { (i ≤ depth) × (v < n) × (window_size n depth block < 18446744073709551616) }
    ensures { result ≡ mark_at n block depth i v }
{
    (3 + depth) * part_size(n, block) + i * n + v
}

// Where the part of the cell of number k begins.
fn number_part(n: usize, block: usize, depth: usize, k: usize) -> usize
    requires { (0 < n) × (0 < depth) × (window_size n depth block < 18446744073709551616) }
    ensures { result ≡ number_part n block depth k }
{
    ring_at(n, block, depth, k % (n * depth) / n)
}

// Its place there.
fn number_place(n: usize, depth: usize, k: usize) -> usize
    requires { (0 < n) × (0 < depth) × (n * depth < 18446744073709551616) }
    ensures { result ≡ number_place n depth k }
{
    k % (n * depth) % n
}

// Where its mark stands.
fn number_mark(n: usize, block: usize, depth: usize, k: usize) -> usize
    requires { (0 < n) × (0 < depth) × (window_size n depth block < 18446744073709551616) }
    ensures { result ≡ number_mark n block depth k }
{
    let cell = k % (n * depth);
    mark_at(n, block, depth, cell / n, cell % n)
}

// The head of station v.
fn head_of(work: &[u64], n: usize, block: usize, depth: usize, v: usize) -> usize
    requires { WindowArea n block depth work.now × (v < n) }
    ensures { result ≡ head_of n block depth work.now v }
{
    let at = mark_at(n, block, depth, depth, v);
    work[at] as usize
}

// The first number that is still there.
fn oldest_of(work: &[u64], n: usize, block: usize, depth: usize, source: usize) -> usize
    requires { WindowArea n block depth work.now × (source < n) }
    ensures { result ≡ oldest_of n block depth source work.now }
{
    head_of(work, n, block, depth, source).saturating_sub(n * depth)
}

// Takes the cell of number k, of a slot, into the entry of station v in the part that begins at base, where that slot is before slot end.
fn take_kept(
    work: &mut [u64],
    n: usize,
    block: usize,
    depth: usize,
    base: usize,
    v: usize,
    slot: u64,
    end: u64,
    k: usize,
)
    requires { WindowArea n block depth work.old × (base + part_size n block ≤ length work.old) × (v < n) }
    ensures { work.new ≡ kept_cell n block depth work.old base v slot end k }
{
    if slot < end {
        let part = number_part(n, block, depth, k);
        let place = number_place(n, depth, k);
        take(work, n, block, base, v, part, place, 0);
    }
}

// A link, where it is lower than the head that it follows.
#[tactic(auto, unfolding(crate::specs::Window::lower_link))]
fn lower_link(link: u64, head: usize) -> usize
    requires { 0 < head }
    ensures { (result ≡ lower_link link head) × (result < head) }
{
    let low = link as usize;
    if low < head { low } else { 0 }
}

// The same as take_kept for the number that a head names, where its slot is not before slot first. Returns the head of what its station kept
// before it, or 0.
fn follow(
    work: &mut [u64],
    n: usize,
    block: usize,
    depth: usize,
    base: usize,
    v: usize,
    first: u64,
    end: u64,
    head: usize,
) -> usize
    requires { WindowArea n block depth work.old × (base + part_size n block ≤ length work.old) × (v < n) × (0 < head) }
    ensures { Followed n block depth base v first end head work.old work.new result }
{
    let k = head - 1;
    let at = number_mark(n, block, depth, k);
    let mark = work[at];
    let slot = mark % 256;
    if slot < first {
        return 0;
    }
    take_kept(work, n, block, depth, base, v, slot, end, k);
    lower_link(mark / 256, head)
}

// Takes the numbers from a head of station v on, as long as they are still there and of slots from first on, those of the slots before end,
// into its entry in the part that begins at base.
fn gather(
    work: &mut [u64],
    n: usize,
    block: usize,
    depth: usize,
    base: usize,
    v: usize,
    oldest: usize,
    first: u64,
    end: u64,
    head: usize,
)
    requires { WindowArea n block depth work.old × (base + part_size n block ≤ length work.old) × (v < n) }
    ensures { work.new ≡ gathered_cell n block depth work.old base v oldest first end head head }
{
    // From head to head along the links, which skip numbers.
    let mut at = head;
    while oldest < at {
        at = follow(work, n, block, depth, base, v, first, end, at);
    }
}

// Gathers what station v may send on in slot u in its entry of the part of the windows. True where the count there does not fit a lane.
fn gather_window(
    work: &mut [u64],
    n: usize,
    block: usize,
    g: usize,
    h: usize,
    depth: usize,
    source: usize,
    columns: Columns,
    set: &[u8],
    v: usize,
    u: usize,
) -> bool
    requires { WindowArea n block depth work.old × (v < n) × (0 < g) × (split_of columns ≤ 3) × (source < n) }
    ensures { sweep_of result work.new ≡ window_cell (lanes_by (split_of columns)) n block depth (units g h) source
        (column_of columns set.now (block * 2 ^ split_of columns)) work.old v u }
{
    let base = ring_at(n, block, depth, depth);
    if v == source {
        let split = pass::split_of(columns);
        let one = lanes::ones_of(split);
        open_entry(work, n, block, base, v, one);
        return false;
    }
    let head = head_of(work, n, block, depth, v);
    let oldest = oldest_of(work, n, block, depth, source);
    empty_entry(work, n, base, v);
    let first = plan::window_first(h, u);
    let end = plan::window_end(g, u);
    gather(
        work,
        n,
        block,
        depth,
        base,
        v,
        oldest,
        first as u64,
        end as u64,
        head,
    );
    mask_entry(work, n, block, columns, set, base, v)
}

// The same for the sender of the record at j, which it returns, but not where that is the station last. None where the count does not fit a
// lane.
fn gather_next(
    work: &mut [u64],
    plan: &[u8],
    out: usize,
    n: usize,
    block: usize,
    g: usize,
    h: usize,
    depth: usize,
    source: usize,
    columns: Columns,
    set: &[u8],
    u: usize,
    last: usize,
    j: usize,
) -> Option<usize>
    requires { WindowArea n block depth work.old × (0 < g) × (j * 6 + 5 < length (lacking_record plan.now out)) ×
        ((contact_at (lacking_record plan.now out) j).sender < n) × (split_of columns ≤ 3) × (source < n) }
    ensures { GatheredNext (contact_at (lacking_record plan.now out) j).sender result work.new
        (window_next (lanes_by (split_of columns)) n block depth (units g h) source
        (column_of columns set.now (block * 2 ^ split_of columns)) work.old last
        (contact_at (lacking_record plan.now out) j).sender u) }
{
    let v = plan::kept_contact(plan, out, j).sender;
    if v != last && gather_window(work, n, block, g, h, depth, source, columns, set, v, u) {
        return None;
    }
    Some(v)
}

// Gathers the windows of the senders of the records from j to before end. True where a count does not fit a lane, at the first.
fn gather_records(
    work: &mut [u64],
    plan: &[u8],
    out: usize,
    n: usize,
    block: usize,
    g: usize,
    h: usize,
    depth: usize,
    source: usize,
    columns: Columns,
    set: &[u8],
    u: usize,
    j: usize,
    end: usize,
) -> bool
    requires { WindowArea n block depth work.old × (0 < g) × RecordsFit (lacking_record plan.now out) n j end ×
        (split_of columns ≤ 3) × (source < n) }
    ensures { sweep_of result work.new ≡
        windows_of (lacking_record plan.now out) (lanes_by (split_of columns)) n block depth (units g h) source
        (column_of columns set.now (block * 2 ^ split_of columns)) work.old u n j (end - j) }
{
    let mut last = n;
    for i in j..end {
        let Some(v) = gather_next(
            work, plan, out, n, block, g, h, depth, source, columns, set, u, last, i,
        ) else {
            return true;
        };
        last = v;
    }
    false
}

// Sends the window of the record's sender, in the part that begins at from, on to its hearer, in the part that begins at to.
fn send_record(
    work: &mut [u64],
    plan: &[u8],
    out: usize,
    n: usize,
    block: usize,
    from: usize,
    to: usize,
    j: usize,
)
    requires { TwoParts n block to from work.old × (j * 6 + 5 < length (lacking_record plan.now out)) ×
        ((contact_at (lacking_record plan.now out) j).sender < n) × ((contact_at (lacking_record plan.now out) j).hearer < n) }
    ensures { work.new ≡ taken_cell n block work.old to
        (contact_at (lacking_record plan.now out) j).hearer from
        (contact_at (lacking_record plan.now out) j).sender 1 }
{
    let c = plan::kept_contact(plan, out, j);
    take(work, n, block, to, c.hearer, from, c.sender, 1);
}

// The same for the records from j to before end.
fn send_records(
    work: &mut [u64],
    plan: &[u8],
    out: usize,
    n: usize,
    block: usize,
    from: usize,
    to: usize,
    j: usize,
    end: usize,
)
    requires { TwoParts n block to from work.old × RecordsFit (lacking_record plan.now out) n j end }
    ensures { work.new ≡
        sent_records (lacking_record plan.now out) n block from to work.old j (end - j) }
{
    for i in j..end {
        send_record(work, plan, out, n, block, from, to, i);
    }
}

// Puts what v heard into the cell of number k.
fn push_entry(work: &mut [u64], n: usize, block: usize, depth: usize, v: usize, k: usize)
    requires { WindowArea n block depth work.old × (v < n) }
    ensures { work.new ≡ pushed_entry n block depth work.old v k }
{
    let part = number_part(n, block, depth, k);
    let place = number_place(n, depth, k);
    let size = part_size(n, block);
    empty_entry(work, n, part, place);
    take(work, n, block, part, place, size, v, 0);
}

// Marks number k with slot u and the head of v, and makes it the newest of v and the last of all.
fn push_marks(
    work: &mut [u64],
    n: usize,
    block: usize,
    depth: usize,
    source: usize,
    u: usize,
    v: usize,
    k: usize,
)
    requires { WindowArea n block depth work.old × (v < n) × (source < n) }
    ensures { work.new ≡ pushed_marks n block depth source work.old u v k }
{
    let head = mark_at(n, block, depth, depth, v);
    let link = work[head] % 72057594037927936;
    let mark = number_mark(n, block, depth, k);
    work[mark] = link * 256 + u as u64 % 256;
    let next = (k as u64).wrapping_add(1);
    work[head] = next;
    let counter = mark_at(n, block, depth, depth, source);
    work[counter] = next;
}

// Keeps what v heard in slot u as the next number, but nothing of the source's.
fn push(work: &mut [u64], n: usize, block: usize, depth: usize, source: usize, u: usize, v: usize)
    requires { WindowArea n block depth work.old × (v < n) × (source < n) }
    ensures { work.new ≡ pushed_cell n block depth source work.old u v }
{
    if v == source {
        return;
    }
    let k = head_of(work, n, block, depth, source);
    push_entry(work, n, block, depth, v, k);
    push_marks(work, n, block, depth, source, u, v, k);
}

// Where v heard something in slot u, takes it into its total, keeps it, and leaves nothing waiting. True, with nothing changed, where its
// count is over 2^64 - 1, or the total's would not fit a lane.
fn keep_one(
    work: &mut [u64],
    n: usize,
    block: usize,
    depth: usize,
    source: usize,
    columns: Columns,
    u: usize,
    v: usize,
) -> bool
    requires { WindowArea n block depth work.old × (v < n) × (split_of columns ≤ 3) × (source < n) }
    ensures { sweep_of result work.new ≡
        kept_next (lanes_by (split_of columns)) n block depth source u work.old v }
{
    let size = part_size(n, block);
    let at = size + v;
    let l = work[at];
    if l < 65535 {
        let d = work[at + n];
        if d == 0 || pass::wide_at(work, n, v, l, d, columns) {
            return true;
        }
        take(work, n, block, 0, v, size, v, 0);
        push(work, n, block, depth, source, u, v);
        empty_entry(work, n, size, v);
    }
    false
}

// The same for the hearer of the record at j.
fn keep_record(
    work: &mut [u64],
    plan: &[u8],
    out: usize,
    n: usize,
    block: usize,
    depth: usize,
    source: usize,
    columns: Columns,
    u: usize,
    j: usize,
) -> bool
    requires { WindowArea n block depth work.old × (j * 6 + 5 < length (lacking_record plan.now out)) ×
        ((contact_at (lacking_record plan.now out) j).hearer < n) × (split_of columns ≤ 3) × (source < n) }
    ensures { sweep_of result work.new ≡ kept_next (lanes_by (split_of columns)) n block depth source u work.old
        (contact_at (lacking_record plan.now out) j).hearer }
{
    let v = plan::kept_contact(plan, out, j).hearer;
    keep_one(work, n, block, depth, source, columns, u, v)
}

// The same for the records from j to before end, up to the first at whose hearer it is true.
fn keep_records(
    work: &mut [u64],
    plan: &[u8],
    out: usize,
    n: usize,
    block: usize,
    depth: usize,
    source: usize,
    columns: Columns,
    u: usize,
    j: usize,
    end: usize,
) -> bool
    requires { WindowArea n block depth work.old × RecordsFit (lacking_record plan.now out) n j end × (split_of columns ≤ 3) ×
        (source < n) }
    ensures { sweep_of result work.new ≡
        kept_records (lacking_record plan.now out) (lanes_by (split_of columns)) n block depth source u work.old j
        (end - j) }
{
    for i in j..end {
        if keep_record(work, plan, out, n, block, depth, source, columns, u, i) {
            return true;
        }
    }
    false
}

// Slot u, with the records from j to before end. True where a count is over 2^64 - 1 or does not fit a lane.
fn window_slot(
    work: &mut [u64],
    plan: &[u8],
    out: usize,
    n: usize,
    block: usize,
    g: usize,
    h: usize,
    depth: usize,
    source: usize,
    columns: Columns,
    set: &[u8],
    u: usize,
    j: usize,
    end: usize,
) -> bool
    requires { WindowArea n block depth work.old × (0 < g) × RecordsFit (lacking_record plan.now out) n j end ×
        (split_of columns ≤ 3) × (source < n) }
    ensures { sweep_of result work.new ≡
        window_slot (lacking_record plan.now out) (lanes_by (split_of columns)) n block depth (units g h) source
        (column_of columns set.now (block * 2 ^ split_of columns)) work.old u j end }
{
    if gather_records(
        work, plan, out, n, block, g, h, depth, source, columns, set, u, j, end,
    ) {
        return true;
    }
    let size = part_size(n, block);
    let base = ring_at(n, block, depth, depth);
    send_records(work, plan, out, n, block, base, size, j, end);
    keep_records(work, plan, out, n, block, depth, source, columns, u, j, end)
}

// Leaves the empty walk of the source alone, and nothing kept.
fn begin_window(
    work: &mut [u64],
    n: usize,
    block: usize,
    depth: usize,
    source: usize,
    columns: Columns,
)
    requires { WindowArea n block depth work.old × (source < n) × (split_of columns ≤ 3) }
    ensures { work.new ≡ begun_window (lanes_by (split_of columns)) n block depth work.old source }
{
    pass::begin_columns(work, n, block, 1, source, columns);
    let heads = mark_at(n, block, depth, depth, 0);
    memory::fill_part(work, heads, n, 0);
}

// The pass: slot by slot, what each sender may send on is gathered from what is kept. The record at position out is left out; where there
// is none, the plan is whole.
pub fn pass_window(
    work: &mut [u64],
    plan: &[u8],
    out: usize,
    n: usize,
    t: usize,
    g: usize,
    h: usize,
    depth: usize,
    source: usize,
    columns: Columns,
    set: &[u8],
    block: usize,
) -> Result<usize, Stopped>
    requires { WindowReady (lacking_record plan.now out) n t (units g h) depth source block work.old × (split_of columns ≤ 3) }
    ensures { ColumnsPassed (lacking_record plan.now out) n t (units g h) source n (lanes_by (split_of columns))
        (column_of columns set.now (block * 2 ^ split_of columns)) block (window_size n depth block)
        work.old work.new result }
{
    begin_window(work, n, block, depth, source, columns);
    let mut j = 0;
    for u in 1..t + 1 {
        let end = plan::kept_slot_end(plan, out, j, u);
        if window_slot(
            work, plan, out, n, block, g, h, depth, source, columns, set, u, j, end,
        ) {
            return Err(pass::stop_reason(columns));
        }
        j = end;
    }
    pass::end_pass(work, n, t, n)
}

// The smaller of n and how many records stand from a position to before another.
fn load_of(n: usize, j: usize, end: usize) -> usize
    requires { j ≤ end }
    ensures { result ≡ min n (end - j) }
{
    n.min(end - j)
}

// The larger of a depth and the least for which n stations have room for so many appearances.
fn deeper(depth: usize, n: usize, load: usize) -> usize
    requires { (0 < n) × (n ≤ 256) × (load ≤ 65536) }
    ensures { (depth ≤ result) × (load ≤ n * result) }
{
    depth.max(load.div_ceil(n))
}

// A depth for a plan: as many parts of the ring as a reading is kept for slots, or as have room for the appearances of any h slots, if those
// are fewer. One cursor stands at the records of the slot that joins the last h slots, one at those of the slot that leaves them.
pub fn depth_of(plan: &[u8], n: usize, t: usize, h: usize) -> usize
    requires { DepthReady plan.now n t h }
    ensures { Deep plan.now n h result × (result ≤ h) }
{
    let mut depth = 1;
    let mut load = 0;
    let mut enter = 0;
    let mut leave = 0;
    for u in 1..t + 1 {
        let entered = plan::slot_end(plan, enter, u);
        let left = plan::slot_end(plan, leave, u.saturating_sub(h));
        let more = load_of(n, enter, entered);
        let less = load_of(n, leave, left);
        load = load + more - less;
        depth = deeper(depth, n, load);
        enter = entered;
        leave = left;
    }
    h.min(depth)
}

// The most columns for which the pass fits e entries for each of n stations.
pub fn window_columns(n: usize, e: usize, depth: usize) -> usize
    requires { 4 * depth + 10 ≤ e }
    ensures { result ≡ window_columns n e depth }
{
    n.min((e - (depth + 1)) / (3 + depth) - 2)
}
