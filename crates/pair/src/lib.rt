// Operation 4, pair, over the pass.
#![tactic(auto)]

ghost use Rattle.std.specs.Prelude.{◌≡◌, ◌&&◌, ltb, eqb};
ghost use Rattle.temporal.specs.Plan.{units};
ghost use Rattle.temporal.specs.OutcomePair.{paired, pair};
ghost use Rattle.plan.specs.Setting.{plan_in};
ghost use Rattle.pair.specs.Answer.{pair_outcome, pair_buffers};
ghost use Rattle.pair.specs.Throughs.{
  through_entry,
  Storable,
  Storing,
  StoredBlock,
  pair_asked,
  throughs_asked,
  throughs_done,
  blocks_asked,
  block_asked,
  block_done,
};

use calls::Question;
use plan::{CallFault, Fault, Setting};

// The hops and the count of a pair's shortest walks.
#[derive(Clone, Copy, Debug, PartialEq, Eq)]
pub struct PairCount {
    pub hops: u64,
    pub count: u64,
}

// The through count of the station at j of a block, to the destination z.
#[tactic(auto, unfolding(crate::specs::Throughs::through_entry))]
fn through_at(work: &[u64], n: usize, z: usize, low: usize, block: usize, j: usize) -> u64
    requires { Storable n z low block j work.now }
    ensures { result ≡ through_entry work.now n z low block j }
{
    if low + j == z || work[z] == 65535 {
        return 0;
    }
    let at = 2 * n + z * block + j;
    work[n + z] - work[at]
}

// Stores the through counts of a block of stations.
fn store(through: &mut [u64], work: &[u64], n: usize, z: usize, low: usize, block: usize)
    requires { Storing n z low block through.old work.now }
    ensures { StoredBlock n z low block block work.now through.old through.new }
{
    for j in 0..block {
        let v = low + j;
        through[v] = through_at(work, n, z, low, block, j);
    }
}

// Whether cause 9 is settled by the blocks below low: there are some, and their passes went through every slot.
fn settled_before(n: usize, low: usize, until: usize) -> bool
    ensures { result ≡ (ltb 0 low && eqb until n) }
{
    0 < low && until == n
}

// The through counts of a block of stations, from a pass that ends where the station until is reached. The slot in which it ends;
// none where a count is over 2^64 - 1.
fn block_throughs(
    question: &Question<'_>,
    through: &mut [u64],
    work: &mut [u64],
    depth: usize,
    low: usize,
    block: usize,
    until: usize,
) -> Option<usize>
    requires { block_asked question.now depth until low block through.old work.old }
    ensures { block_done question.now depth until low block
        through.old work.old through.new work.new result }
{
    let Question {
        plan,
        setting,
        source: s,
        destination: z,
    } = *question;
    let n = setting.stations;
    let known = settled_before(n, low, until);
    let Ok(slot) = forward::pass_until(work, plan, known, setting, depth, s, low, block, until)
    else {
        return None;
    };
    store(through, work, n, z, low, block);
    Some(slot)
}

// The through counts of a pair, in blocks of at most so many columns.
fn through_blocks(
    question: &Question<'_>,
    through: &mut [u64],
    work: &mut [u64],
    depth: usize,
    most: usize,
    until: usize,
) -> Option<usize>
    requires { blocks_asked question.now depth most until through.old work.old }
    ensures { throughs_done question.now until
        through.old work.old through.new work.new result }
{
    let n = question.setting.stations;
    let mut low = 0;
    let mut slot = 0;
    // No for: a step is as long as its block.
    while low < n {
        let block = most.min(n - low);
        slot = block_throughs(question, through, work, depth, low, block, until)?;
        low += block;
    }
    Some(slot)
}

// The through counts of a pair, block by block: of its shortest walks by the slot in which the station until is reached, which is
// z, or n for none. That slot, or the last; none where a count is over 2^64 - 1.
pub fn throughs(
    question: &Question<'_>,
    through: &mut [u64],
    work: &mut [u64],
    until: usize,
) -> Option<usize>
    requires { throughs_asked question.now until through.old work.old }
    ensures { throughs_done question.now until
        through.old work.old through.new work.new result }
{
    let Question { plan, setting, .. } = *question;
    let Setting {
        stations: n,
        slots: t,
        keeping: h,
        ..
    } = setting;
    let depth = forward::depth(work, plan, n, t, h);
    let most = forward::most_columns(setting, depth, 4 * (t + 1));
    through_blocks(question, through, work, depth, most, until)
}

// Pair once 1 to 8, 12 and 14 are excluded.
fn pair_work(
    question: &Question<'_>,
    through: &mut [u64],
    work: &mut [u64],
) -> Result<PairCount, Fault>
    requires { pair_asked question.now through.old work.old }
    ensures { pair_outcome result (pair_buffers through.new work.new) ≡
        paired (plan_in question.now.plan.now question.now.setting) question.now.source question.now.destination
        (pair_buffers through.old work.old) }
{
    let Question {
        setting,
        destination: z,
        ..
    } = *question;
    let Setting {
        stations: n,
        slots: t,
        ..
    } = setting;
    let Some(_) = throughs(question, through, work, n) else {
        memory::clear(through, n);
        memory::clear(work, 4 * (n * (t + 1)));
        return Err(Fault::Call(CallFault::TooMany));
    };
    let hops = work[z];
    let count = work[n + z];
    memory::clear(work, 4 * (n * (t + 1)));
    Ok(PairCount { hops, count })
}

// Operation 4, pair: the hops and the count of the shortest walks from s to z, and in the table how many of them have each
// station inside. 65535, 0 and all 0 where there is no walk.
pub fn pair(
    plan: &[u8],
    n: usize,
    t: usize,
    g: usize,
    h: usize,
    s: usize,
    z: usize,
    through: &mut [u64],
    work: &mut [u64],
) -> Result<PairCount, Fault>
    ensures { pair_outcome result (pair_buffers through.new work.new) ≡
        pair plan.now n t (units g h) s z (pair_buffers through.old work.old) }
{
    // let .. else is the form that document 01 names for the check's answer.
    let Err(fault) = plan::check(plan, n, t) else {
        calls::pair_call(n, t, g, h, s, z, through.len(), n, work.len())?;
        let question = Question {
            plan,
            setting: Setting {
                stations: n,
                slots: t,
                turnaround: g,
                keeping: h,
            },
            source: s,
            destination: z,
        };
        return pair_work(&question, through, work);
    };
    Err(Fault::Plan(fault))
}
