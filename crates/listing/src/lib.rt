// Operations 7 and 8: first way and next way, which list the shortest walks of a pair in lexicographic order, one a call.
// A call is told where the listing stands by the way buffer alone.
#![tactic(auto)]

ghost use Rattle.std.specs.Prelude.{◌≡◌, ◌≤◌, length, replicate};
ghost use Rattle.temporal.specs.Cause.{plan_fault};
ghost use Rattle.temporal.specs.Outcome.{over, work_size};
ghost use Rattle.temporal.specs.Cursor.{first_way, next_way};
ghost use Rattle.temporal.specs.FirstNext.{way_work, WayContract};
ghost use Rattle.calls.specs.Call.{asked};
ghost use Rattle.listing.specs.Answer.{reply_of, question};
ghost use Rattle.listing.specs.Work.{WayReady, Worked, way_outcome};

use calls::Question;
use plan::{CallFault, Fault, Setting};
use ways::Pair;

// What first way and next way answer: a way, with its hops; no way; or no way after the one in the buffer.
#[derive(Clone, Copy, Debug, PartialEq, Eq)]
pub enum WayAnswer {
    Path(usize),
    NoPath,
    LastPath,
}

// Clears the operations' part of the work area.
fn clear_area(work: &mut [u64], n: usize, t: usize)
    requires { (work_size n t ≤ length work.old) × (t ≤ 255) }
    ensures { work.new ≡ over (replicate (work_size n t) 0) work.old }
{
    memory::clear(work, 4 * (n * (t + 1)));
}

// First way once 1 to 5, 12, 14 and 6 to 8 are excluded: the first walk of the list, or none where it is empty.
fn first_work(
    question: &Question<'_>,
    way: &mut [u16],
    work: &mut [u64],
) -> Result<WayAnswer, Fault>
    requires { WayReady (asked question.now) way.old work.old }
    ensures { Worked first_way (asked question.now) way.old work.old (reply_of result) way.new work.new }
{
    let Question {
        plan,
        setting,
        source,
        destination,
    } = *question;
    if forward::pass(work, plan, setting, setting.keeping, source, 0, 0) {
        return Err(Fault::Call(CallFault::TooMany));
    }
    let hops = work[destination] as usize;
    if hops == 65535 {
        return Ok(WayAnswer::NoPath);
    }
    ways::complete(work, plan, setting, destination);
    let pair = Pair {
        stations: setting.stations,
        slots: setting.slots,
        turnaround: setting.turnaround,
        keeping: setting.keeping,
        source,
        destination,
        hops,
    };
    ways::first_path(way, work, plan, pair);
    Ok(WayAnswer::Path(hops))
}

// The work, and the work area cleared after it. One function for it and for next_cleared would take the work as a closure, whose contract is
// as long as the function.
fn first_cleared(
    question: &Question<'_>,
    way: &mut [u16],
    work: &mut [u64],
) -> Result<WayAnswer, Fault>
    requires { WayReady (asked question.now) way.old work.old }
    ensures { way_outcome (reply_of result) way.new work.new ≡ way_work first_way (asked question.now) way.old work.old }
{
    let answer = first_work(question, way, work);
    clear_area(work, question.setting.stations, question.setting.slots);
    answer
}

// Operation 7, first way: its hops, and its positions at the beginning of the way buffer; none where there is no way.
pub fn first_way(
    plan: &[u8],
    n: usize,
    t: usize,
    g: usize,
    h: usize,
    source: usize,
    destination: usize,
    way: &mut [u16],
    work: &mut [u64],
) -> Result<WayAnswer, Fault>
    ensures { WayContract first_way (question plan.now n t g h source destination) way.old
        work.old (reply_of result) way.new work.new }
{
    // let .. else is the form that document 01 names for the check's answer.
    let Err(fault) = plan::check(plan, n, t) else {
        calls::pair_call(n, t, g, h, source, destination, way.len(), t, work.len())?;
        let question = Question {
            plan,
            setting: Setting {
                stations: n,
                slots: t,
                turnaround: g,
                keeping: h,
            },
            source,
            destination,
        };
        return first_cleared(&question, way, work);
    };
    Err(Fault::Plan(fault))
}

// Next way once 1 to 5, 12, 14 and 6 to 8 are excluded: on from the walk with which the buffer begins; 10 where it begins with none.
fn next_work(question: &Question<'_>, way: &mut [u16], work: &mut [u64]) -> Result<WayAnswer, Fault>
    requires { WayReady (asked question.now) way.old work.old }
    ensures { Worked next_way (asked question.now) way.old work.old (reply_of result) way.new work.new }
{
    let Question {
        plan,
        setting,
        source,
        destination,
    } = *question;
    if forward::pass(work, plan, setting, setting.keeping, source, 0, 0) {
        return Err(Fault::Call(CallFault::TooMany));
    }
    let hops = work[destination] as usize;
    let pair = Pair {
        stations: setting.stations,
        slots: setting.slots,
        turnaround: setting.turnaround,
        keeping: setting.keeping,
        source,
        destination,
        hops,
    };
    if hops == 65535 || !ways::offered(way, plan, pair) {
        return Err(Fault::Call(CallFault::NotShortestPath));
    }
    ways::complete(work, plan, setting, destination);
    if ways::next_path(way, work, plan, pair) {
        return Ok(WayAnswer::Path(hops));
    }
    Ok(WayAnswer::LastPath)
}

// The work, and the work area cleared after it.
fn next_cleared(
    question: &Question<'_>,
    way: &mut [u16],
    work: &mut [u64],
) -> Result<WayAnswer, Fault>
    requires { WayReady (asked question.now) way.old work.old }
    ensures { way_outcome (reply_of result) way.new work.new ≡ way_work next_way (asked question.now) way.old work.old }
{
    let answer = next_work(question, way, work);
    clear_area(work, question.setting.stations, question.setting.slots);
    answer
}

// Operation 8, next way: the one after the way with which the buffer begins, answered as in 7, or last.
pub fn next_way(
    plan: &[u8],
    n: usize,
    t: usize,
    g: usize,
    h: usize,
    source: usize,
    destination: usize,
    way: &mut [u16],
    work: &mut [u64],
) -> Result<WayAnswer, Fault>
    ensures { WayContract next_way (question plan.now n t g h source destination) way.old work.old
        (reply_of result) way.new work.new }
{
    // let .. else is the form that document 01 names for the check's answer.
    let Err(fault) = plan::check(plan, n, t) else {
        calls::pair_call(n, t, g, h, source, destination, way.len(), t, work.len())?;
        let question = Question {
            plan,
            setting: Setting {
                stations: n,
                slots: t,
                turnaround: g,
                keeping: h,
            },
            source,
            destination,
        };
        return next_cleared(&question, way, work);
    };
    Err(Fault::Plan(fault))
}
