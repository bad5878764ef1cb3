// Document 02's operation on a pair and a set of stations (C-12), over the pass: how many shortest walks of the pair have at
// least one member of the set inside.
#![tactic(auto)]

ghost use Rattle.std.specs.Prelude.{◌≡◌, ◌≤◌, length};
ghost use Rattle.temporal.specs.Plan.{units};
ghost use Rattle.temporal.specs.OutcomeSet.{wrong_set, set_counted, through_set};
ghost use Rattle.plan.specs.Setting.{terms_of, plan_in};
ghost use Rattle.sets.specs.Answer.{set_outcome};
ghost use Rattle.sets.specs.Work.{SetAsked, touched_entry, Readable};

use calls::Question;
use plan::{CallFault, Fault, Setting};

// Whether one of the first n bytes is neither 0 nor 1.
fn wrong_set(set: &[u8], n: usize) -> bool
    requires { n ≤ length set.now }
    ensures { result ≡ wrong_set n set.now }
{
    set[..n].iter().any(|x| 1 < *x)
}

// How many shortest walks to the destination have a member inside, from what the pass left.
#[tactic(auto, unfolding(crate::specs::Work::touched_entry))]
fn touched_at(work: &[u64], n: usize, z: usize) -> u64
    requires { Readable n z work.now }
    ensures { result ≡ touched_entry work.now n z }
{
    if work[z] == 65535 {
        0
    } else {
        work[n + z] - work[2 * n + z]
    }
}

// The operation once 1 to 8, 11, 12 and 14 are excluded.
fn set_work(question: &Question<'_>, set: &[u8], work: &mut [u64]) -> Result<u64, Fault>
    requires { SetAsked question.now.plan.now question.now.setting.stations question.now.setting.slots
        (terms_of question.now.setting) question.now.source question.now.destination set.now work.old }
    ensures { set_outcome result work.new ≡
        set_counted (plan_in question.now.plan.now question.now.setting) question.now.source question.now.destination
        set.now work.old }
{
    let Question {
        plan,
        setting,
        source: s,
        destination: z,
    } = *question;
    let Setting {
        stations: n,
        slots: t,
        ..
    } = setting;
    if forward::set_pass(work, plan, setting, s, z, set) {
        memory::clear(work, 4 * (n * (t + 1)));
        return Err(Fault::Call(CallFault::TooMany));
    }
    let count = touched_at(work, n, z);
    memory::clear(work, 4 * (n * (t + 1)));
    Ok(count)
}

// How many shortest walks from s to z have at least one member of the set inside, 0 where there is no walk. The set has a byte
// for each station, 1 for a member and 0 for not.
pub fn through_set(
    plan: &[u8],
    n: usize,
    t: usize,
    g: usize,
    h: usize,
    s: usize,
    z: usize,
    set: &[u8],
    work: &mut [u64],
) -> Result<u64, Fault>
    ensures { set_outcome result work.new ≡
        through_set plan.now n t (units g h) s z set.now work.old }
{
    // let .. else is the form that document 01 names for the check's answer.
    let Err(fault) = plan::check(plan, n, t) else {
        calls::pair_call(n, t, g, h, s, z, set.len(), n, work.len())?;
        if wrong_set(set, n) {
            return Err(Fault::Call(CallFault::SetByte));
        }
        let question = Question {
            plan,
            setting: Setting {
                stations: n,
                slots: t,
                turnaround: g,
                keeping: h,
            },
            source: s,
            destination: z,
        };
        return set_work(&question, set, work);
    };
    Err(Fault::Plan(fault))
}
