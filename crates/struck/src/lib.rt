// Document 02's operation on a contact that is struck out (C-23), over the tallies: every station's change of load, and how many ordered
// pairs have a shortest walk that uses the contact. The loads with the record are written to the table of changes first; then, source by
// source, the plan without it is tallied, and its hops and counts are compared with those of the plan with it.
#![tactic(auto)]

ghost use Rattle.std.specs.Prelude.{◌≡◌, ◌<◌, ◌≤◌};
ghost use Rattle.temporal.specs.Plan.{units};
ghost use Rattle.temporal.specs.Cause.{first, terms_causes, plan_fault};
ghost use Rattle.temporal.specs.Struck.{lacking_record};
ghost use Rattle.temporal.specs.OutcomeStruck.{struck_off, struck};
ghost use Rattle.plan.specs.Setting.{terms_of, plan_in};
ghost use Rattle.forward.specs.Passed.{Known};
ghost use Rattle.struck.specs.Answer.{struck_outcome, struck_buffers};
ghost use Rattle.struck.specs.Work.{
  differs_at,
  differing_at,
  differing,
  Comparable,
  CompareReady,
  Compared,
  OneReady,
  OneStruck,
  AllAsked,
  AllReady,
  AllStruck,
  StruckReady,
  RoomyReady,
  RoomAsked,
  RoomFor,
  ParkReady,
  ParkDone,
  RoomReady,
  BothReady,
  BothKnown,
  BothStruck,
  RoomStruck,
  ClearReady,
  too_many_struck,
};

use plan::{CallFault, Fault, Setting};

// Whether hops or count of station z differ from those kept from a place on.
#[tactic(auto, unfolding(crate::specs::Work::differs_at))]
fn differs(work: &[u64], n: usize, at: usize, z: usize) -> bool
    requires { Comparable n at work.now × (z < n) }
    ensures { result ≡ differs_at n at work.now z }
{
    let hops = at + z;
    let count = at + n + z;
    work[z] != work[hops] || work[n + z] != work[count]
}

// 1 where station z is not the source and differs.
#[tactic(auto, unfolding(crate::specs::Work::differing_at))]
fn differing_at(work: &[u64], n: usize, at: usize, source: usize, z: usize) -> usize
    requires { Comparable n at work.now × (z < n) }
    ensures { result ≡ differing_at n at work.now source z }
{
    usize::from(source != z && differs(work, n, at, z))
}

// How many stations do.
fn count_differing(work: &[u64], n: usize, at: usize, source: usize) -> usize
    requires { Comparable n at work.now }
    ensures { result ≡ differing n at work.now source 0 n }
{
    let mut k = 0;
    for z in 0..n {
        k += differing_at(work, n, at, source, z);
    }
    k
}

// How many destinations use the contact from the source: keeps the hops and counts without the record from a place on, and compares them
// with those of the whole plan. None where a count is over 2^64 - 1.
fn compare_source(
    work: &mut [u64],
    plan: &[u8],
    out: usize,
    setting: Setting,
    depth: usize,
    at: usize,
    source: usize,
) -> Option<usize>
    requires { CompareReady plan.now out setting.stations setting.slots (terms_of setting) depth at source work.old }
    ensures { Compared plan.now out setting.stations setting.slots (terms_of setting) at source work.old work.new result }
{
    let Setting { stations: n, .. } = setting;
    pass::copy_row(work, at, 0, 2 * n);
    if forward::pass(work, plan, setting, depth, source, 0, 0) {
        return None;
    }
    Some(count_differing(work, n, at, source))
}

// Works on one source, from what is known of it without the record: tallies it without the record, then compares. None where a count is over
// 2^64 - 1.
fn strike_source(
    work: &mut [u64],
    plan: &[u8],
    out: usize,
    setting: Setting,
    depth: usize,
    base: usize,
    block: usize,
    source: usize,
    width: usize,
) -> Option<usize>
    requires { OneReady plan.now out setting.stations setting.slots (terms_of setting) depth base block source work.old ×
        Known (lacking_record plan.now out) setting.stations setting.slots (terms_of setting) source width }
    ensures { OneStruck plan.now out setting.stations setting.slots (terms_of setting) base source work.old work.new result }
{
    let Setting { stations: n, .. } = setting;
    if tallies::tally_source(work, plan, out, setting, depth, base, block, source, width) {
        return None;
    }
    compare_source(work, plan, out, setting, depth, base - 2 * n, source)
}

// Works on every source, from cleared tallies on.
fn strike_sources(
    work: &mut [u64],
    plan: &[u8],
    out: usize,
    setting: Setting,
    depth: usize,
    base: usize,
    block: usize,
) -> Option<usize>
    requires { AllReady plan.now setting.stations setting.slots (terms_of setting) depth base block work.old }
    ensures { AllStruck plan.now out setting.stations setting.slots (terms_of setting) work.old work.new result }
{
    let Setting { stations: n, .. } = setting;
    memory::fill_part(work, base, 2 * n, 0);
    let mut splits = forward::no_splits();
    let mut pairs = 0;
    for source in 0..n {
        splits = forward::refilled(work, plan, out, setting, base, source, n, splits);
        let width = forward::next_split(splits);
        pairs += strike_source(work, plan, out, setting, depth, base, block, source, width)?;
        splits = forward::later_splits(splits);
    }
    Some(pairs)
}

// How many pairs use the contact, and in the tallies every station's load without the record.
fn strike(work: &mut [u64], plan: &[u8], out: usize, setting: Setting) -> Option<usize>
    requires { AllAsked plan.now setting.stations setting.slots (terms_of setting) work.old }
    ensures { AllStruck plan.now out setting.stations setting.slots (terms_of setting) work.old work.new result }
{
    let Setting {
        stations: n,
        slots: t,
        keeping: h,
        ..
    } = setting;
    let depth = forward::depth(work, plan, n, t, h);
    let block = forward::most_columns(setting, depth, 4 * (t + 1) - 2);
    let base = tallies::base_of(n, t);
    strike_sources(work, plan, out, setting, depth, base, block)
}

// Works on one source without the record at position out, whole where there is none, from what is known of it: its tallies are kept at a place
// behind those that are worked on. True where a count is over 2^64 - 1.
fn tally_parked(
    work: &mut [u64],
    plan: &[u8],
    out: usize,
    setting: Setting,
    depth: usize,
    base: usize,
    block: usize,
    park: usize,
    source: usize,
    width: usize,
) -> bool
    requires { ParkReady (lacking_record plan.now out) setting.stations setting.slots (terms_of setting) depth base block
        park source work.old ×
        Known (lacking_record plan.now out) setting.stations setting.slots (terms_of setting) source width }
    ensures { ParkDone (lacking_record plan.now out) setting.stations setting.slots (terms_of setting) base park source
        work.old work.new result }
{
    let Setting { stations: n, .. } = setting;
    pass::copy_row(work, base, park, 2 * n);
    if tallies::tally_source(work, plan, out, setting, depth, base, block, source, width) {
        return true;
    }
    pass::copy_row(work, park, base, 2 * n);
    false
}

// Works on one source in both plans, from what is known of it in each, and compares their hops and counts.
fn strike_both(
    work: &mut [u64],
    plan: &[u8],
    out: usize,
    setting: Setting,
    depth: usize,
    base: usize,
    block: usize,
    source: usize,
    whole: usize,
    lacking: usize,
) -> Option<usize>
    requires { BothReady plan.now out setting.stations setting.slots (terms_of setting) depth base block source work.old ×
        BothKnown plan.now out setting.stations setting.slots (terms_of setting) source whole lacking }
    ensures { BothStruck plan.now out setting.stations setting.slots (terms_of setting) base source work.old work.new result }
{
    let Setting { stations: n, .. } = setting;
    let with = base + 2 * n;
    let without = base + 4 * n;
    let kept = base + 6 * n;
    if tally_parked(
        work,
        plan,
        plan.len(),
        setting,
        depth,
        base,
        block,
        with,
        source,
        whole,
    ) {
        return None;
    }
    pass::copy_row(work, kept, 0, 2 * n);
    if tally_parked(
        work, plan, out, setting, depth, base, block, without, source, lacking,
    ) {
        return None;
    }
    Some(count_differing(work, n, kept, source))
}

// Works on every source in both plans, from cleared tallies on.
fn strike_roomy(
    work: &mut [u64],
    plan: &[u8],
    out: usize,
    setting: Setting,
    depth: usize,
    base: usize,
    block: usize,
) -> Option<usize>
    requires { RoomReady plan.now setting.stations setting.slots (terms_of setting) depth base block work.old }
    ensures { RoomStruck plan.now out setting.stations setting.slots (terms_of setting) base work.old work.new result }
{
    let Setting { stations: n, .. } = setting;
    let with = base + 2 * n;
    memory::fill_part(work, with, 4 * n, 0);
    let mut whole = forward::no_splits();
    let mut lacking = forward::no_splits();
    let mut pairs = 0;
    for source in 0..n {
        whole = forward::refilled(work, plan, plan.len(), setting, base, source, n, whole);
        lacking = forward::refilled(work, plan, out, setting, base, source, n, lacking);
        let used = strike_both(
            work,
            plan,
            out,
            setting,
            depth,
            base,
            block,
            source,
            forward::next_split(whole),
            forward::next_split(lacking),
        );
        whole = forward::later_splits(whole);
        lacking = forward::later_splits(lacking);
        pairs += used?;
    }
    Some(pairs)
}

// Refuses with 9: both lent parts are cleared.
fn refuse_too_many(changes: &mut [i64], work: &mut [u64], n: usize, t: usize) -> Result<u64, Fault>
    requires { ClearReady n t changes.old work.old }
    ensures { struck_outcome result (struck_buffers changes.new work.new) ≡
        too_many_struck n t (struck_buffers changes.old work.old) }
{
    changes::clear_changes(changes, n);
    memory::clear(work, 4 * (n * (t + 1)));
    Err(Fault::Call(CallFault::TooMany))
}

// The operation once 1 to 8, 12, 14 and 17 are excluded, where both plans' tallies do not fit behind the pass: the loads with the record go
// to the table of changes first.
fn struck_narrow(
    changes: &mut [i64],
    work: &mut [u64],
    plan: &[u8],
    setting: Setting,
    position: usize,
) -> Result<u64, Fault>
    requires { StruckReady plan.now setting.stations setting.slots (terms_of setting) changes.old work.old }
    ensures { struck_outcome result (struck_buffers changes.new work.new) ≡
        struck_off (plan_in plan.now setting) position (struck_buffers changes.old work.old) }
{
    let Setting {
        stations: n,
        slots: t,
        ..
    } = setting;
    if tallies::tally(work, plan, setting, n) {
        return refuse_too_many(changes, work, n, t);
    }
    let loads = tallies::base_of(n, t) + n;
    changes::write_loads(changes, work, loads, n);
    let Some(pairs) = strike(work, plan, position, setting) else {
        return refuse_too_many(changes, work, n, t);
    };
    changes::subtract_loads(changes, work, loads, n);
    memory::clear(work, 4 * (n * (t + 1)));
    Ok(pairs as u64)
}

// A block of columns with which both plans' tallies and a source's hops and counts fit, from one that fits before the tallies of one plan: the
// same, or 3 fewer where that adds few passes; else none.
fn room_block(setting: Setting, depth: usize, base: usize, block: usize) -> Option<usize>
    requires { (setting.stations ≤ 256) × ((setting.keeping ≤ 255) × ((depth ≤ 255) ×
        RoomAsked setting.stations setting.slots (terms_of setting) depth base block)) }
    ensures { RoomFor setting.stations setting.slots (terms_of setting) depth base block result }
{
    let Setting { stations: n, .. } = setting;
    let size = forward::pass_size(setting, depth, block);
    let more = 6 * n;
    if more <= base && size <= base - more {
        return Some(block);
    }
    if 20 < block && block < n {
        return Some(block - 3);
    }
    None
}

// The operation where they fit.
fn struck_roomy(
    changes: &mut [i64],
    work: &mut [u64],
    plan: &[u8],
    setting: Setting,
    position: usize,
    depth: usize,
    base: usize,
    block: usize,
) -> Result<u64, Fault>
    requires { RoomyReady plan.now setting.stations setting.slots (terms_of setting) depth base block changes.old work.old }
    ensures { struck_outcome result (struck_buffers changes.new work.new) ≡
        struck_off (plan_in plan.now setting) position (struck_buffers changes.old work.old) }
{
    let Setting {
        stations: n,
        slots: t,
        ..
    } = setting;
    let with = base + 3 * n;
    let without = base + 5 * n;
    let Some(pairs) = strike_roomy(work, plan, position, setting, depth, base, block) else {
        return refuse_too_many(changes, work, n, t);
    };
    changes::write_loads(changes, work, with, n);
    changes::subtract_loads(changes, work, without, n);
    memory::clear(work, 4 * (n * (t + 1)));
    Ok(pairs as u64)
}

// The operation once 1 to 8, 12, 14 and 17 are excluded.
fn struck_work(
    changes: &mut [i64],
    work: &mut [u64],
    plan: &[u8],
    setting: Setting,
    position: usize,
) -> Result<u64, Fault>
    requires { StruckReady plan.now setting.stations setting.slots (terms_of setting) changes.old work.old }
    ensures { struck_outcome result (struck_buffers changes.new work.new) ≡
        struck_off (plan_in plan.now setting) position (struck_buffers changes.old work.old) }
{
    let Setting {
        stations: n,
        slots: t,
        keeping: h,
        ..
    } = setting;
    let depth = forward::depth(work, plan, n, t, h);
    let most = forward::most_columns(setting, depth, 4 * (t + 1) - 2);
    let base = tallies::base_of(n, t);
    let Some(block) = room_block(setting, depth, base, most) else {
        return struck_narrow(changes, work, plan, setting, position);
    };
    struck_roomy(
        changes,
        work,
        plan,
        setting,
        position,
        depth,
        base - 6 * n,
        block,
    )
}

// The operation once 1 to 5, 12 and 14 are excluded: 8 and 17, then the work.
fn struck_asked(
    changes: &mut [i64],
    work: &mut [u64],
    plan: &[u8],
    setting: Setting,
    position: usize,
) -> Result<u64, Fault>
    requires { (plan_fault plan.now setting.stations setting.slots ≡ 0) × (first (terms_causes (terms_of setting)) ≡ 0) }
    ensures { struck_outcome result (struck_buffers changes.new work.new) ≡
        struck plan.now setting.stations setting.slots (terms_of setting) position (struck_buffers changes.old work.old) }
{
    let Setting {
        stations: n,
        slots: t,
        ..
    } = setting;
    if changes.len() < n || work.len() < 4 * (n * (t + 1)) {
        return Err(Fault::Call(CallFault::Short));
    }
    if plan.len() / 6 <= position {
        return Err(Fault::Call(CallFault::Position));
    }
    struck_work(changes, work, plan, setting, position)
}

// Every station's change of load if the contact at a position is struck out, and how many ordered pairs have a shortest walk that uses it.
pub fn struck_out(
    plan: &[u8],
    n: usize,
    t: usize,
    g: usize,
    h: usize,
    position: usize,
    changes: &mut [i64],
    work: &mut [u64],
) -> Result<u64, Fault>
    ensures { struck_outcome result (struck_buffers changes.new work.new) ≡
        struck plan.now n t (units g h) position (struck_buffers changes.old work.old) }
{
    // let .. else is the form that document 01 names for the check's answer.
    let Err(fault) = plan::check(plan, n, t) else {
        calls::terms_call(g, h)?;
        let setting = Setting {
            stations: n,
            slots: t,
            turnaround: g,
            keeping: h,
        };
        return struck_asked(changes, work, plan, setting, position);
    };
    Err(Fault::Plan(fault))
}
