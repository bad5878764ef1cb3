// Operations 5 and 6, loads and busiest, and document 02's partial loads, over the tallies.
#![tactic(auto)]

ghost use Rattle.std.specs.Prelude.{◌≡◌, ◌+◌, ◌<◌, ◌≤◌, length};
ghost use Rattle.temporal.specs.Plan.{units};
ghost use Rattle.temporal.specs.Cause.{first, terms_causes, plan_fault};
ghost use Rattle.temporal.specs.OutcomePair.{partly_loaded, partial_loads, loads, compared, busiest};
ghost use Rattle.plan.specs.Setting.{terms_of, plan_in};
ghost use Rattle.loads.specs.Answer.{loads_outcome, load_buffers, busiest_outcome};
ghost use Rattle.loads.specs.Largest.{better_of, Largest, LoadsReady, BusiestReady};

use plan::{CallFault, Fault, Setting};

// Of two places from a place on, the second where it holds the larger number, else the first.
#[tactic(auto, unfolding(crate::specs::Largest::better_of))]
fn better(list: &[u64], from: usize, best: usize, u: usize) -> usize
    requires { (from + best < length list.now) × (from + u < length list.now) }
    ensures { result ≡ better_of list.now from best u }
{
    let top = from + best;
    let at = from + u;
    if list[top] < list[at] { u } else { best }
}

// The lowest of the k places, from a place on, that hold the largest number.
fn largest(list: &[u64], from: usize, k: usize) -> usize
    requires { (0 < k) × (from + k ≤ length list.now) }
    ensures { Largest list.now from k result }
{
    let mut best = 0;
    for u in 1..k {
        best = better(list, from, best, u);
    }
    best
}

// Partial loads once 1 to 8, 12, 14 and 13 are excluded.
pub fn partial_loads_work(
    pairs: &mut [u64],
    sums: &mut [u64],
    work: &mut [u64],
    plan: &[u8],
    setting: Setting,
    k: usize,
) -> Result<(), Fault>
    requires { LoadsReady plan.now setting.stations setting.slots (terms_of setting) k pairs.old sums.old work.old }
    ensures { loads_outcome result (load_buffers pairs.new sums.new work.new) ≡
        partly_loaded (plan_in plan.now setting) k (load_buffers pairs.old sums.old work.old) }
{
    let Setting {
        stations: n,
        slots: t,
        ..
    } = setting;
    if tallies::tally(work, plan, setting, k) {
        memory::clear(pairs, n);
        memory::clear(sums, n);
        memory::clear(work, 4 * (n * (t + 1)));
        return Err(Fault::Call(CallFault::TooMany));
    }
    let base = tallies::base_of(n, t);
    memory::copy(pairs, work, base, n);
    memory::copy(sums, work, base + n, n);
    memory::clear(work, 4 * (n * (t + 1)));
    Ok(())
}

// Partial loads once 1 to 5, 12 and 14 are excluded: 13 and 8, then the work.
fn partial_loads_asked(
    pairs: &mut [u64],
    sums: &mut [u64],
    work: &mut [u64],
    plan: &[u8],
    setting: Setting,
    k: usize,
) -> Result<(), Fault>
    requires { (plan_fault plan.now setting.stations setting.slots ≡ 0) × (first (terms_causes (terms_of setting)) ≡ 0) }
    ensures { loads_outcome result (load_buffers pairs.new sums.new work.new) ≡
        partial_loads plan.now setting.stations setting.slots (terms_of setting) k
        (load_buffers pairs.old sums.old work.old) }
{
    let Setting {
        stations: n,
        slots: t,
        ..
    } = setting;
    if n < k {
        return Err(Fault::Call(CallFault::Sources));
    }
    if pairs.len() < n || sums.len() < n || work.len() < 4 * (n * (t + 1)) {
        return Err(Fault::Call(CallFault::Short));
    }
    partial_loads_work(pairs, sums, work, plan, setting, k)
}

// Partial loads (document 02, C-18): for each station its pairs whose source is below k, and its load over these, in units of
// 1 / 2^32.
pub fn partial_loads(
    plan: &[u8],
    n: usize,
    t: usize,
    g: usize,
    h: usize,
    k: usize,
    pairs: &mut [u64],
    sums: &mut [u64],
    work: &mut [u64],
) -> Result<(), Fault>
    ensures { loads_outcome result (load_buffers pairs.new sums.new work.new) ≡
        partial_loads plan.now n t (units g h) k (load_buffers pairs.old sums.old work.old) }
{
    // let .. else is the form that document 01 names for the check's answer.
    let Err(fault) = plan::check(plan, n, t) else {
        calls::terms_call(g, h)?;
        let setting = Setting {
            stations: n,
            slots: t,
            turnaround: g,
            keeping: h,
        };
        return partial_loads_asked(pairs, sums, work, plan, setting, k);
    };
    Err(Fault::Plan(fault))
}

// Operation 5, loads: for each station its pairs and its load, every source being worked on.
pub fn loads(
    plan: &[u8],
    n: usize,
    t: usize,
    g: usize,
    h: usize,
    pairs: &mut [u64],
    sums: &mut [u64],
    work: &mut [u64],
) -> Result<(), Fault>
    ensures { loads_outcome result (load_buffers pairs.new sums.new work.new) ≡
        loads plan.now n t (units g h) (load_buffers pairs.old sums.old work.old) }
{
    partial_loads(plan, n, t, g, h, n, pairs, sums, work)
}

// Busiest once 1 to 8, 12 and 14 are excluded.
fn busiest_work(work: &mut [u64], plan: &[u8], setting: Setting) -> Result<usize, Fault>
    requires { BusiestReady plan.now setting.stations setting.slots (terms_of setting) work.old }
    ensures { busiest_outcome result work.new ≡ compared (plan_in plan.now setting) work.old }
{
    let Setting {
        stations: n,
        slots: t,
        ..
    } = setting;
    if tallies::tally(work, plan, setting, n) {
        memory::clear(work, 4 * (n * (t + 1)));
        return Err(Fault::Call(CallFault::TooMany));
    }
    let base = tallies::base_of(n, t);
    let v = largest(work, base + n, n);
    memory::clear(work, 4 * (n * (t + 1)));
    Ok(v)
}

// Busiest once 1 to 5, 12 and 14 are excluded: 8, then the work.
fn busiest_asked(work: &mut [u64], plan: &[u8], setting: Setting) -> Result<usize, Fault>
    requires { (plan_fault plan.now setting.stations setting.slots ≡ 0) × (first (terms_causes (terms_of setting)) ≡ 0) }
    ensures { busiest_outcome result work.new ≡
        busiest plan.now setting.stations setting.slots (terms_of setting) work.old }
{
    let Setting {
        stations: n,
        slots: t,
        ..
    } = setting;
    if work.len() < 4 * (n * (t + 1)) {
        return Err(Fault::Call(CallFault::Short));
    }
    busiest_work(work, plan, setting)
}

// Operation 6, busiest: the lowest-numbered station whose load no other exceeds.
pub fn busiest(
    plan: &[u8],
    n: usize,
    t: usize,
    g: usize,
    h: usize,
    work: &mut [u64],
) -> Result<usize, Fault>
    ensures { busiest_outcome result work.new ≡ busiest plan.now n t (units g h) work.old }
{
    // let .. else is the form that document 01 names for the check's answer.
    let Err(fault) = plan::check(plan, n, t) else {
        calls::terms_call(g, h)?;
        let setting = Setting {
            stations: n,
            slots: t,
            turnaround: g,
            keeping: h,
        };
        return busiest_asked(work, plan, setting);
    };
    Err(Fault::Plan(fault))
}
