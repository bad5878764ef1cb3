// Adds up, over the sources below k, every station's pairs and load. Everything lives in a lent work area: the pass's part at its
// beginning, the pairs of the stations and then their loads at its end.
#![tactic(auto)]

ghost use Rattle.std.specs.Prelude.{◌≡◌, true, false, ◌+◌, ◌*◌, ◌^◌, ◌<◌, ◌≤◌, min, length, get_or};
ghost use Rattle.temporal.specs.Cause.{is_too_many};
ghost use Rattle.temporal.specs.Struck.{lacking_record};
ghost use Rattle.plan.specs.Setting.{terms_of, plan_in};
ghost use Rattle.tallies.specs.Tally.{tally_base, Tallyable, Tallied};
ghost use Rattle.lanes.specs.Lane.{ones, lanes_of, width_of};
ghost use Rattle.pass.specs.Column.{lanes_by, column_at};
ghost use Rattle.tallies.specs.Progress.{
  rows_of,
  added_at,
  Addable,
  Workable,
  DestinationsAdded,
  ColumnWithin,
  CountFits,
  EntryWorkable,
  EntriesAdded,
};
ghost use Rattle.forward.specs.Passed.{Known};
ghost use Rattle.tallies.specs.Sources.{
  BlockReady,
  BlockDone,
  SourceReady,
  SourceDone,
  AllReady,
  EntriesFor,
  EntriesNext,
};

use forward::Unpacked;
use plan::Setting;

// What column j of the row that begins at a place holds.
fn column(work: &[u64], row: usize, j: usize, split: usize) -> u64
    requires { ColumnWithin row j split (length work.now) }
    ensures { result ≡ column_at (lanes_by split) work.now row j }
{
    if split == 0 {
        return work[row + j];
    }
    let at = row + lanes::entry_of(j, split);
    let w = lanes::width_of(split);
    let l = lanes::lane_of(j, split);
    lanes::lane_at(work[at], w, l)
}

// Adds the pair of the source worked on and z to station low + j, with its share, where some of its walks have it inside.
fn add_pair(
    work: &mut [u64],
    n: usize,
    base: usize,
    low: usize,
    block: usize,
    split: usize,
    z: usize,
    j: usize,
)
    requires { Addable n base low block split z j work.old }
    ensures { work.new ≡ added_at n base low block split z j work.old }
{
    let v = low + j;
    if v == z {
        return;
    }
    let count = work[n + z];
    let row = 2 * n + z * block;
    let through = count - column(work, row, j, split);
    if through == 0 {
        return;
    }
    let pairs = base + v;
    let load = base + n + v;
    let sum = work[load] + shares::share(through, count);
    work[pairs] = work[pairs] + 1;
    work[load] = sum;
}

// Adds destination z to the stations of entry e of its row, but where each lane of the entry holds the count: no walk has one of them inside.
fn add_entry(
    work: &mut [u64],
    n: usize,
    base: usize,
    source: usize,
    low: usize,
    block: usize,
    split: usize,
    stations: usize,
    z: usize,
    e: usize,
    all: u64,
)
    requires { EntryWorkable n base source low (rows_of stations block split) z e all work.old }
    ensures { EntriesAdded n base source low (rows_of stations block split) z e (e + 1) work.old work.new }
{
    if work[2 * n + z * block + e] == all {
        return;
    }
    let end = lanes::columns_of(e + 1, split).min(stations);
    for j in lanes::columns_of(e, split)..end {
        add_pair(work, n, base, low, block, split, z, j);
    }
}

// The entry in which every lane holds the count of destination z.
fn full_entry(work: &[u64], n: usize, split: usize, z: usize) -> u64
    requires { CountFits n split z work.now }
    ensures { result ≡ get_or work.now (n + z) 0 * ones (width_of split) (lanes_of split) }
{
    let count = work[n + z];
    if split == 0 {
        return count;
    }
    count * lanes::ones_of(split)
}

// Adds destination z to every station of the block.
fn add_row(
    work: &mut [u64],
    n: usize,
    base: usize,
    source: usize,
    low: usize,
    block: usize,
    split: usize,
    stations: usize,
    z: usize,
)
    requires { Workable n base source low (rows_of stations block split) z work.old × (z < n) }
    ensures { DestinationsAdded n base source low (rows_of stations block split) z (z + 1) work.old work.new }
{
    if z == source {
        return;
    }
    if 65535 <= work[z] {
        return;
    }
    let all = full_entry(work, n, split, z);
    for e in 0..block {
        add_entry(
            work, n, base, source, low, block, split, stations, z, e, all,
        );
    }
}

// Adds every destination to every station of the block.
fn add_rows(
    work: &mut [u64],
    n: usize,
    base: usize,
    source: usize,
    low: usize,
    block: usize,
    split: usize,
    stations: usize,
)
    requires { Workable n base source low (rows_of stations block split) 0 work.old }
    ensures { DestinationsAdded n base source low (rows_of stations block split) 0 n work.old work.new }
{
    for z in 0..n {
        add_row(work, n, base, source, low, block, split, stations, z);
    }
}

// Works on one source with one block of stations, 2^split of them to an entry of a row: the pass, then every destination. Where
// cause 9 is known not to hold, the pass leaves out what would only settle it. The record at position out is left out; where there is none, the
// plan is whole.
fn tally_block(
    work: &mut [u64],
    plan: &[u8],
    out: usize,
    known: bool,
    setting: Setting,
    depth: usize,
    base: usize,
    source: usize,
    low: usize,
    block: usize,
    split: usize,
    stations: usize,
) -> Result<(), Unpacked>
    requires { BlockReady (lacking_record plan.now out) setting.stations setting.slots (terms_of setting) depth base source low
        (rows_of stations block split) work.old ×
        (known ≡ true → is_too_many (plan_in (lacking_record plan.now out) setting) source ≡ false) }
    ensures { BlockDone (lacking_record plan.now out) setting.stations setting.slots (terms_of setting) base source low
        (rows_of stations block split) work.old work.new result }
{
    let Setting { stations: n, .. } = setting;
    forward::pass_packed(
        work, plan, out, known, setting, depth, source, low, block, split,
    )?;
    add_rows(work, n, base, source, low, block, split, stations);
    Ok(())
}

// How many entries of a row hold so many stations, but no more than block.
fn entries_for(left: usize, block: usize, split: usize) -> usize
    requires { (split ≤ 3) × (left ≤ 256) }
    ensures { EntriesFor left block split result }
{
    let lanes = lanes::columns_of(1, split);
    let all = lanes::entry_of(left + lanes - 1, split);
    block.min(all)
}

// How many entries a row of the next pass has: none before cause 9 is known not to hold.
fn next_entries(known: bool, left: usize, block: usize, split: usize) -> usize
    requires { (split ≤ 3) × (left ≤ 256) }
    ensures { EntriesNext known left block split result }
{
    if known {
        return entries_for(left, block, split);
    }
    0
}

// With which split the passes of a source begin, from what is known of it: that split; where nothing is known, 0 where nothing goes stale, since
// the pass for several sources found no lanes that its counts fit; else 3.
fn first_split(t: usize, h: usize, width: usize) -> usize
    requires { (h ≤ 255) × (width ≤ 3) }
    ensures { result ≤ 3 }
{
    if 0 < width {
        return width;
    }
    if t <= h + 1 {
        return 0;
    }
    3
}

// Works on one source, without the record at position out as above, from what is known of it: the split of its rows, or 0. Where nothing is
// known, a pass without rows settles cause 9 first. Then it goes block by block. Where a count does not fit its lane, the same pass is made
// again with half as many stations to an entry. True where a count is over 2^64 - 1.
pub fn tally_source(
    work: &mut [u64],
    plan: &[u8],
    out: usize,
    setting: Setting,
    depth: usize,
    base: usize,
    block: usize,
    source: usize,
    width: usize,
) -> bool
    requires { SourceReady (lacking_record plan.now out) setting.stations setting.slots (terms_of setting) depth base block source
        work.old ×
        Known (lacking_record plan.now out) setting.stations setting.slots (terms_of setting) source width }
    ensures { SourceDone (lacking_record plan.now out) setting.stations setting.slots (terms_of setting) base source
        work.old work.new result }
{
    let Setting {
        stations: n,
        slots: t,
        keeping: h,
        ..
    } = setting;
    let mut known = 0 < width;
    let mut split = first_split(t, h, width);
    let mut low = 0;
    // No for: a block that is too wide is worked on again.
    while low < n {
        let entries = next_entries(known, n - low, block, split);
        let stations = lanes::columns_of(entries, split).min(n - low);
        match tally_block(
            work, plan, out, known, setting, depth, base, source, low, entries, split, stations,
        ) {
            Ok(()) => {
                known = true;
                low += stations;
            }
            Err(Unpacked::TooMany) => {
                return true;
            }
            Err(Unpacked::TooWide) => {
                split -= 1;
            }
        }
    }
    false
}

// Works on the sources below k, from cleared tallies on. True where a count is over 2^64 - 1.
fn tally_sources(
    work: &mut [u64],
    plan: &[u8],
    setting: Setting,
    depth: usize,
    k: usize,
    base: usize,
    block: usize,
) -> bool
    requires { AllReady plan.now setting.stations setting.slots (terms_of setting) depth k base block work.old }
    ensures { Tallied plan.now setting.stations setting.slots (terms_of setting) k work.old work.new result }
{
    let Setting { stations: n, .. } = setting;
    memory::fill_part(work, base, 2 * n, 0);
    let mut splits = forward::no_splits();
    for source in 0..k {
        splits = forward::refilled(work, plan, plan.len(), setting, base, source, k, splits);
        let width = forward::next_split(splits);
        if tally_source(
            work,
            plan,
            plan.len(),
            setting,
            depth,
            base,
            block,
            source,
            width,
        ) {
            return true;
        }
        splits = forward::later_splits(splits);
    }
    false
}

// Where the tallies begin in the work area.
pub fn base_of(n: usize, t: usize) -> usize
    requires { (n ≤ 256) × (t ≤ 255) }
    ensures { result ≡ tally_base n t }
{
    (4 * (t + 1) - 2) * n
}

// Adds up the pairs and the load of every station over the sources below k. True where a count is over 2^64 - 1.
pub fn tally(work: &mut [u64], plan: &[u8], setting: Setting, k: usize) -> bool
    requires { Tallyable plan.now setting.stations setting.slots (terms_of setting) k work.old }
    ensures { Tallied plan.now setting.stations setting.slots (terms_of setting) k work.old work.new result }
{
    let Setting {
        stations: n,
        slots: t,
        keeping: h,
        ..
    } = setting;
    let depth = forward::depth(work, plan, n, t, h);
    let block = forward::most_columns(setting, depth, 4 * (t + 1) - 2);
    let base = base_of(n, t);
    tally_sources(work, plan, setting, depth, k, base, block)
}
