// The operation that judges a list of positions which somebody else wrote (document 02, C-19): whether it is the complete list of a
// pair, a proper beginning of it, or wrong. One pass, one completion table, then the list is gone through once.
#![tactic(auto)]

ghost use Rattle.std.specs.Prelude.{◌≡◌};
ghost use Rattle.temporal.specs.Plan.{units};
ghost use Rattle.temporal.specs.OutcomeVerdict.{judged, verdict};
ghost use Rattle.plan.specs.Setting.{plan_in};
ghost use Rattle.calls.specs.Call.{asked};
ghost use Rattle.verdicts.specs.Answer.{verdict_outcome};
ghost use Rattle.verdicts.specs.Work.{VerdictReady, VerdictWorked};

use calls::Question;
use judging::Judgement;
use plan::{CallFault, Fault, Setting};
use ways::Pair;

// The operation once 1 to 5, 12, 14 and 6 to 8 are excluded.
fn verdict_work(question: &Question<'_>, list: &[u16], work: &mut [u64]) -> Result<Judgement, Fault>
    requires { VerdictReady (asked question.now) work.old }
    ensures { VerdictWorked (asked question.now) list.now work.old result
        work.new }
{
    let Question {
        plan,
        setting,
        source,
        destination,
    } = *question;
    if forward::pass(work, plan, setting, setting.keeping, source, 0, 0) {
        return Err(Fault::Call(CallFault::TooMany));
    }
    let hops = work[destination] as usize;
    if hops == 65535 {
        return Ok(judging::judge_none(list));
    }
    ways::complete(work, plan, setting, destination);
    let pair = Pair {
        stations: setting.stations,
        slots: setting.slots,
        turnaround: setting.turnaround,
        keeping: setting.keeping,
        source,
        destination,
        hops,
    };
    Ok(judging::judge(list, work, plan, pair))
}

// The work, and the work area cleared after it.
fn verdict_cleared(
    question: &Question<'_>,
    list: &[u16],
    work: &mut [u64],
) -> Result<Judgement, Fault>
    requires { VerdictReady (asked question.now) work.old }
    ensures { verdict_outcome result work.new ≡
        judged (plan_in question.now.plan.now question.now.setting) question.now.source question.now.destination
        list.now work.old }
{
    let answer = verdict_work(question, list, work);
    memory::clear(
        work,
        4 * (question.setting.stations * (question.setting.slots + 1)),
    );
    answer
}

// The verdict on a list of positions: complete, a proper beginning, or wrong. The list is only read.
pub fn verdict(
    plan: &[u8],
    n: usize,
    t: usize,
    g: usize,
    h: usize,
    source: usize,
    destination: usize,
    list: &[u16],
    work: &mut [u64],
) -> Result<Judgement, Fault>
    ensures { verdict_outcome result work.new ≡
        verdict plan.now n t (units g h) source destination list.now work.old }
{
    // let .. else is the form that document 01 names for the check's answer.
    let Err(fault) = plan::check(plan, n, t) else {
        calls::pair_call(n, t, g, h, source, destination, 0, 0, work.len())?;
        let question = Question {
            plan,
            setting: Setting {
                stations: n,
                slots: t,
                turnaround: g,
                keeping: h,
            },
            source,
            destination,
        };
        return verdict_cleared(&question, list, work);
    };
    Err(Fault::Plan(fault))
}
