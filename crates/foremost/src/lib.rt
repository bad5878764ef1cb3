// Document 02's operation on the shortest foremost paths of a pair (C-14), over the pass: the earliest slot in which a reading
// arrives, the fewest hops of a path that arrives then, how many there are, and how many have each station inside.
#![tactic(auto)]

ghost use Rattle.std.specs.Prelude.{◌≡◌};
ghost use Rattle.temporal.specs.Plan.{turning, Keeps};
ghost use Rattle.temporal.specs.OutcomeForemost.{foremost_paired, foremost};
ghost use Rattle.plan.specs.Setting.{terms_of, plan_in};
ghost use Rattle.pair.specs.Answer.{pair_buffers};
ghost use Rattle.pair.specs.Throughs.{pair_asked};
ghost use Rattle.foremost.specs.Answer.{foremost_outcome};
ghost use Rattle.foremost.specs.Work.{met_appearance, AppearancesReady, Appearances, Foremosts, slot_value};

use calls::Question;
use pass::{Columns, Stopped};
use plan::{CallFault, Fault, Setting};

// The slot in which a pair's foremost paths arrive, and the hops and the count of the shortest of them.
#[derive(Clone, Copy, Debug, PartialEq, Eq)]
pub struct ForemostCount {
    pub arrival: u64,
    pub hops: u64,
    pub count: u64,
}

// Whether a pass met an appearance with over 2^64 - 1 shortest walks, or a count too wide for its lane.
#[tactic(auto, unfolding(crate::specs::Work::met_appearance))]
fn met_appearance(ended: Result<usize, Stopped>) -> bool
    ensures { result ≡ met_appearance ended }
{
    matches!(ended, Err(Stopped::AppearanceTooMany | Stopped::TooWide))
}

// Whether some appearance has over 2^64 - 1 shortest walks from s: a pass through every slot, without rows. Nothing goes stale, so it is
// the pass of the crate pass.
fn appearance_too_many(work: &mut [u64], plan: &[u8], setting: Setting, s: usize) -> bool
    requires { AppearancesReady plan.now setting.stations setting.slots (terms_of setting) s work.old }
    ensures { Appearances plan.now setting.stations setting.slots (terms_of setting) s work.old work.new result }
{
    let ended = pass::pass_columns(
        work,
        plan,
        plan.len(),
        false,
        setting.stations,
        setting.slots,
        setting.turnaround,
        setting.keeping,
        s,
        Columns::From(0, 0),
        &plan[0..0],
        0,
        setting.stations,
    );
    met_appearance(ended)
}

// The through counts of the shortest foremost paths, where nothing goes stale, and in the work area their hops and count. The slot in which
// z is reached, or the last where it is not; none where an appearance has over 2^64 - 1 shortest walks.
fn foremost_throughs(
    question: &Question<'_>,
    through: &mut [u64],
    work: &mut [u64],
) -> Option<usize>
    requires { pair_asked question.now through.old work.old ×
        Keeps question.now.setting.slots (terms_of question.now.setting) }
    ensures { Foremosts question.now.plan.now question.now.setting.stations question.now.setting.slots
        (terms_of question.now.setting) question.now.source question.now.destination
        through.old work.old through.new work.new result }
{
    if appearance_too_many(work, question.plan, question.setting, question.source) {
        return None;
    }
    pair::throughs(question, through, work, question.destination)
}

// The slot of arrival, from the slot in which the pass ended: 65535 where there is no path.
#[tactic(auto, unfolding(crate::specs::Work::slot_value))]
fn slot_value(slot: usize, hops: u64) -> u64
    ensures { result ≡ slot_value slot hops }
{
    if hops == 65535 {
        return 65535;
    }
    slot as u64
}

// The operation once 1 to 8 and 12 are excluded, where nothing goes stale.
fn foremost_work(
    question: &Question<'_>,
    through: &mut [u64],
    work: &mut [u64],
) -> Result<ForemostCount, Fault>
    requires { pair_asked question.now through.old work.old ×
        Keeps question.now.setting.slots (terms_of question.now.setting) }
    ensures { foremost_outcome result (pair_buffers through.new work.new) ≡
        foremost_paired (plan_in question.now.plan.now question.now.setting) question.now.source
        question.now.destination (pair_buffers through.old work.old) }
{
    let Question {
        setting,
        destination: z,
        ..
    } = *question;
    let Setting {
        stations: n,
        slots: t,
        ..
    } = setting;
    let Some(slot) = foremost_throughs(question, through, work) else {
        memory::clear(through, n);
        memory::clear(work, 4 * (n * (t + 1)));
        return Err(Fault::Call(CallFault::TooMany));
    };
    let hops = work[z];
    let count = work[n + z];
    memory::clear(work, 4 * (n * (t + 1)));
    Ok(ForemostCount {
        arrival: slot_value(slot, hops),
        hops,
        count,
    })
}

// The slot, the hops and the count of the shortest foremost paths from s to z, and in the table how many of them have each station
// inside. 65535, 65535, 0 and all 0 where there is no path.
pub fn foremost(
    plan: &[u8],
    n: usize,
    t: usize,
    g: usize,
    s: usize,
    z: usize,
    through: &mut [u64],
    work: &mut [u64],
) -> Result<ForemostCount, Fault>
    ensures { foremost_outcome result (pair_buffers through.new work.new) ≡
        foremost plan.now n t (turning g) s z (pair_buffers through.old work.old) }
{
    // let .. else is the form that document 01 names for the check's answer.
    let Err(fault) = plan::check(plan, n, t) else {
        calls::pair_call(n, t, g, 255, s, z, through.len(), n, work.len())?;
        let question = Question {
            plan,
            setting: Setting {
                stations: n,
                slots: t,
                turnaround: g,
                keeping: 255,
            },
            source: s,
            destination: z,
        };
        return foremost_work(&question, through, work);
    };
    Err(Fault::Plan(fault))
}
