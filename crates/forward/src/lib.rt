// The forward pass, as the operations call it: where nothing goes stale in the slots of the plan, the pass that carries what may be sent
// on; else the pass that gathers a sender's window. What either leaves in the work area is read in one way.
#![tactic(auto)]

ghost use Rattle.std.specs.Prelude.{◌≡◌, true, false, ◌+◌, ◌*◌, ◌^◌, ◌<◌, ◌≤◌};
ghost use Rattle.temporal.specs.Cause.{is_too_many};
ghost use Rattle.temporal.specs.Struck.{lacking_record};
ghost use Rattle.plan.specs.Setting.{terms_of, plan_in};
ghost use Rattle.pass.specs.Column.{block_column, column_of, whole, lanes_by, split_of};
ghost use Rattle.pass.specs.PassedColumns.{area_size, Spared, ColumnsPassed};
ghost use Rattle.stale.specs.Depth.{DepthOf};
ghost use Rattle.stale.specs.Size.{window_size};
ghost use Rattle.forward.specs.Passed.{
  pass_size,
  kept_columns,
  most_columns,
  Lent,
  DepthReady,
  UntilReady,
  PassReady,
  Passed,
  SetReady,
  SetPassed,
  unpacked_as,
  PackedReady,
  PackedPassed,
  GroupAsked,
  GroupFits,
  WidthsAsked,
  WidthsKnown,
  RefillReady,
  Refilled,
  no_splits,
  next_split,
  later_splits,
};

use pass::{Columns, Stopped};
use plan::Setting;

// Why a pass whose rows hold several counts to an entry does not have every count: one is over 2^64 - 1, or does not fit.
#[derive(Clone, Copy, Debug, PartialEq, Eq)]
pub enum Unpacked {
    TooMany,
    TooWide,
}

impl From<Stopped> for Unpacked {
    ghost from_gives = { λ e r. r ≡ unpacked_as e };

    fn from(stopped: Stopped) -> Unpacked {
        match stopped {
            Stopped::StationTooMany | Stopped::AppearanceTooMany => Unpacked::TooMany,
            Stopped::TooWide => Unpacked::TooWide,
        }
    }
}

// What is known of the next sources that are worked on: how many they are, and the split of each, two bits each, the first lowest.
#[derive(Clone, Copy)]
pub struct Splits {
    pub left: usize,
    pub word: u64,
}

// How deep the ring of the pass is where readings go stale. The work area stays as it is.
pub fn depth(work: &mut [u64], plan: &[u8], n: usize, t: usize, h: usize) -> usize
    requires { DepthReady plan.now n t h work.old }
    ensures { DepthOf plan.now n h work.old work.new result }
{
    if t <= h + 1 {
        h
    } else {
        stale::depth_of(plan, n, t, h)
    }
}

// The most columns of a row for which the pass fits e entries a station where nothing goes stale, with q parts of what waits.
fn kept_columns(n: usize, e: usize, q: usize) -> usize
    requires { (q < 18446744073709551615) × (2 * (1 + q) ≤ e) }
    ensures { result ≡ kept_columns n e q }
{
    n.min(e / (1 + q) - 2)
}

// How many entries it uses then, with blocks of so many columns.
fn kept_size(n: usize, q: usize, block: usize) -> usize
    requires { (q ≤ 256) × (area_size n q block < 18446744073709551616) }
    ensures { result ≡ area_size n q block }
{
    (1 + q) * (2 * n + n * block)
}

// The most columns of a row for which the pass fits e entries a station.
pub fn most_columns(setting: Setting, depth: usize, e: usize) -> usize
    requires { Lent setting.slots (terms_of setting) depth e }
    ensures { result ≡ most_columns setting.stations setting.slots (terms_of setting) depth e }
{
    let Setting {
        stations: n,
        slots: t,
        turnaround: g,
        keeping: h,
    } = setting;
    if t <= h + 1 {
        kept_columns(n, e, g.min(t))
    } else {
        stale::window_columns(n, e, depth)
    }
}

// How many entries it uses where readings go stale.
fn window_size(n: usize, depth: usize, block: usize) -> usize
    requires { (depth ≤ 255) × (window_size n depth block < 18446744073709551616) }
    ensures { result ≡ window_size n depth block }
{
    (3 + depth) * (2 * n + n * block) + (depth + 1) * n
}

// How many entries of the work area the pass uses, with blocks of so many columns.
pub fn pass_size(setting: Setting, depth: usize, block: usize) -> usize
    requires { (setting.keeping ≤ 255) × ((depth ≤ 255) ×
        (pass_size setting.stations setting.slots (terms_of setting) depth block < 18446744073709551616)) }
    ensures { result ≡ pass_size setting.stations setting.slots (terms_of setting) depth block }
{
    let Setting {
        stations: n,
        slots: t,
        turnaround: g,
        keeping: h,
    } = setting;
    if t <= h + 1 {
        kept_size(n, g.min(t), block)
    } else {
        window_size(n, depth, block)
    }
}

// The pass for any columns, to the slot in which the station until is reached. The record at position out is left out; where there is
// none, the plan is whole. Where cause 9 is known not to hold, the pass may leave out what it would only need to settle it.
fn pass_slots(
    work: &mut [u64],
    plan: &[u8],
    out: usize,
    known: bool,
    setting: Setting,
    depth: usize,
    source: usize,
    columns: Columns,
    set: &[u8],
    block: usize,
    until: usize,
) -> Result<usize, Stopped>
    requires { UntilReady (lacking_record plan.now out) setting.stations setting.slots (terms_of setting) depth source until
        block work.old × (split_of columns ≤ 3) ×
        Spared known (lacking_record plan.now out) setting.stations setting.slots (terms_of setting) source }
    ensures { ColumnsPassed (lacking_record plan.now out) setting.stations setting.slots (terms_of setting) source until
        (lanes_by (split_of columns))
        (column_of columns set.now (block * 2 ^ split_of columns)) block
        (pass_size setting.stations setting.slots (terms_of setting) depth block) work.old work.new result }
{
    let Setting {
        stations: n,
        slots: t,
        turnaround: g,
        keeping: h,
    } = setting;
    if t <= h + 1 {
        pass::pass_columns(
            work, plan, out, known, n, t, g, h, source, columns, set, block, until,
        )
    } else {
        stale::pass_window(
            work, plan, out, n, t, g, h, depth, source, columns, set, block,
        )
    }
}

// The pass for a block of stations, to the slot in which the station until is reached: column j of a row is about station
// low + j. With n for until it waits for no station and goes through every slot; for another it waits only where nothing goes stale. Where no
// count is known to be over 2^64 - 1, what would only settle that is left out.
pub fn pass_until(
    work: &mut [u64],
    plan: &[u8],
    known: bool,
    setting: Setting,
    depth: usize,
    source: usize,
    low: usize,
    block: usize,
    until: usize,
) -> Result<usize, Stopped>
    requires { UntilReady plan.now setting.stations setting.slots (terms_of setting) depth source until block work.old ×
        (known ≡ true → is_too_many (plan_in plan.now setting) source ≡ false) }
    ensures { ColumnsPassed plan.now setting.stations setting.slots (terms_of setting) source until whole (block_column low block) block
        (pass_size setting.stations setting.slots (terms_of setting) depth block) work.old work.new result }
{
    pass_slots(
        work,
        plan,
        plan.len(),
        known,
        setting,
        depth,
        source,
        Columns::From(low, 0),
        &plan[0..0],
        block,
        until,
    )
}

// The pass for a block of stations through every slot, with 2^split stations to an entry of a row of so many entries, without the record
// at position out; where there is none, the plan is whole. Where a count does not fit its lane, a smaller split is asked for. Where no count
// is known to be over 2^64 - 1, what would only settle that is left out.
pub fn pass_packed(
    work: &mut [u64],
    plan: &[u8],
    out: usize,
    known: bool,
    setting: Setting,
    depth: usize,
    source: usize,
    low: usize,
    block: usize,
    split: usize,
) -> Result<(), Unpacked>
    requires { PackedReady (lacking_record plan.now out) setting.stations setting.slots (terms_of setting) depth source
        block split work.old ×
        (known ≡ true → is_too_many (plan_in (lacking_record plan.now out) setting) source ≡ false) }
    ensures { PackedPassed (lacking_record plan.now out) setting.stations setting.slots (terms_of setting) depth source low block split
        work.old work.new result }
{
    let Setting { stations: n, .. } = setting;
    pass_slots(
        work,
        plan,
        out,
        known,
        setting,
        depth,
        source,
        Columns::From(low, split),
        &plan[0..0],
        block,
        n,
    )?;
    Ok(())
}

// The pass for a block of stations through every slot, without the record at position out; where there is none, the plan is whole. True
// where an appearance or a station has a count over 2^64 - 1.
pub fn pass_without(
    work: &mut [u64],
    plan: &[u8],
    out: usize,
    setting: Setting,
    depth: usize,
    source: usize,
    low: usize,
    block: usize,
) -> bool
    requires { PassReady (lacking_record plan.now out) setting.stations setting.slots (terms_of setting) depth source low block work.old }
    ensures { Passed (lacking_record plan.now out) setting.stations setting.slots (terms_of setting) depth source low block
        work.old work.new result }
{
    let Setting { stations: n, .. } = setting;
    pass_slots(
        work,
        plan,
        out,
        false,
        setting,
        depth,
        source,
        Columns::From(low, 0),
        &plan[0..0],
        block,
        n,
    )
    .is_err()
}

// The same for the whole plan.
pub fn pass(
    work: &mut [u64],
    plan: &[u8],
    setting: Setting,
    depth: usize,
    source: usize,
    low: usize,
    block: usize,
) -> bool
    requires { PassReady plan.now setting.stations setting.slots (terms_of setting) depth source low block work.old }
    ensures { Passed plan.now setting.stations setting.slots (terms_of setting) depth source low block work.old work.new result }
{
    pass_without(work, plan, plan.len(), setting, depth, source, low, block)
}

// The pass for a set of stations, one column for all members; the destination is never inside.
pub fn set_pass(
    work: &mut [u64],
    plan: &[u8],
    setting: Setting,
    source: usize,
    destination: usize,
    set: &[u8],
) -> bool
    requires { SetReady plan.now setting.stations setting.slots (terms_of setting) source destination work.old }
    ensures { SetPassed plan.now setting.stations setting.slots (terms_of setting) source destination set.now work.old
        work.new result }
{
    let Setting {
        stations: n,
        keeping: h,
        ..
    } = setting;
    pass_slots(
        work,
        plan,
        plan.len(),
        false,
        setting,
        h,
        source,
        Columns::Members(destination),
        set,
        1,
        n,
    )
    .is_err()
}

// How many entries a source takes in the pass without rows, with q parts of what waits.
fn source_size(n: usize, q: usize) -> usize
    requires { (n ≤ 256) × (q ≤ 255) }
    ensures { result ≡ (1 + q) * n + 1 }
{
    (1 + q) * n + 1
}

// How many sources the pass without rows takes at once in base entries of the work area, no more than are left. Where readings go stale it
// takes none of it.
pub fn sources_at_once(setting: Setting, base: usize, left: usize) -> usize
    requires { GroupAsked setting.stations setting.slots (terms_of setting) base left }
    ensures { GroupFits setting.stations setting.slots (terms_of setting) base left result }
{
    let Setting {
        stations: n,
        slots: t,
        turnaround: g,
        keeping: h,
    } = setting;
    let few = left.min(32);
    if t <= h + 1 {
        let q = g.min(t);
        few.min(base / source_size(n, q))
    } else {
        few
    }
}

// For each of many sources from first on the split of its rows, two bits each, the first lowest, and that cause 9 does not hold for it; 0
// where nothing is known of it, as where readings go stale. The record at position out is left out; where there is none, the plan is whole.
pub fn widths(
    work: &mut [u64],
    plan: &[u8],
    out: usize,
    setting: Setting,
    first: usize,
    many: usize,
) -> u64
    requires { WidthsAsked (lacking_record plan.now out) setting.stations setting.slots (terms_of setting) first many work.old }
    ensures { WidthsKnown (lacking_record plan.now out) setting.stations setting.slots (terms_of setting) first many
        work.old work.new result }
{
    let Setting {
        stations: n,
        slots: t,
        turnaround: g,
        keeping: h,
    } = setting;
    if t <= h + 1 {
        widths::widths_of(work, plan, out, n, t, g, h, first, many)
    } else {
        0
    }
}

// What is known of the next sources, from source on and before end: as it is where it is about some, else what the pass without rows finds in
// base entries of the work area.
pub fn refilled(
    work: &mut [u64],
    plan: &[u8],
    out: usize,
    setting: Setting,
    base: usize,
    source: usize,
    end: usize,
    splits: Splits,
) -> Splits
    requires { RefillReady (lacking_record plan.now out) setting.stations setting.slots (terms_of setting) base source end
        splits work.old }
    ensures { Refilled (lacking_record plan.now out) setting.stations setting.slots (terms_of setting) base source end
        work.old work.new result }
{
    if 0 < splits.left {
        return splits;
    }
    let left = sources_at_once(setting, base, end - source);
    let word = widths(work, plan, out, setting, source, left);
    Splits { left, word }
}

// Nothing is known of any source.
pub fn no_splits() -> Splits
    ensures { result ≡ no_splits }
{
    Splits { left: 0, word: 0 }
}

// The split of the next source; 0 where nothing is known of it.
pub fn next_split(splits: Splits) -> usize
    ensures { result ≡ next_split splits }
{
    (splits.word % 4) as usize
}

// What is known of the sources after it.
pub fn later_splits(splits: Splits) -> Splits
    requires { 0 < splits.left }
    ensures { result ≡ later_splits splits }
{
    Splits {
        left: splits.left - 1,
        word: splits.word / 4,
    }
}
