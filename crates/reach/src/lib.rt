// Operation 2, reach: fills the tables of hops and counts from a source.
// The tables are the state. The crates reach_lasting and reach_window fill them, where nothing goes stale and where readings do.
#![tactic(auto)]

ghost use Rattle.std.specs.Prelude.{◌≡◌};
ghost use Rattle.temporal.specs.Plan.{units};
ghost use Rattle.temporal.specs.Cause.{plan_fault, first, terms_causes};
ghost use Rattle.temporal.specs.Outcome.{reached, reach};
ghost use Rattle.plan.specs.Setting.{terms_of, plan_in};
ghost use Rattle.reach_entries.specs.Pass.{tables_of, ReachReady, FilledTables};
ghost use Rattle.reach.specs.Answer.{lent_tables, reach_outcome};

use plan::{CallFault, Fault, Setting};

// Fills the four tables from a source.
fn fill(
    hops: &mut [u16],
    counts: &mut [u64],
    station_hops: &mut [u16],
    station_counts: &mut [u64],
    plan: &[u8],
    setting: Setting,
    source: usize,
)
    requires { ReachReady plan.now setting.stations setting.slots (terms_of setting) source
        (tables_of hops.old counts.old station_hops.old station_counts.old) }
    ensures { FilledTables plan.now setting.stations setting.slots (terms_of setting) source
        (tables_of hops.old counts.old station_hops.old station_counts.old)
        (tables_of hops.new counts.new station_hops.new station_counts.new) }
{
    if setting.slots <= setting.keeping + 1 {
        reach_lasting::fill_lasting(
            hops,
            counts,
            station_hops,
            station_counts,
            plan,
            setting,
            source,
        );
    } else {
        reach_window::fill_window(
            hops,
            counts,
            station_hops,
            station_counts,
            plan,
            setting,
            source,
        );
    }
}

// Fills the tables, and clears them where a count is over 2^64 - 1.
fn work(
    hops: &mut [u16],
    counts: &mut [u64],
    station_hops: &mut [u16],
    station_counts: &mut [u64],
    plan: &[u8],
    setting: Setting,
    source: usize,
) -> Result<(), Fault>
    requires { ReachReady plan.now setting.stations setting.slots (terms_of setting) source
        (tables_of hops.old counts.old station_hops.old station_counts.old) }
    ensures { reach_outcome result (lent_tables hops.new counts.new station_hops.new
        station_counts.new) ≡
        reached (plan_in plan.now setting) source
        (lent_tables hops.old counts.old station_hops.old station_counts.old) }
{
    let Setting {
        stations: n,
        slots: t,
        ..
    } = setting;
    fill(
        hops,
        counts,
        station_hops,
        station_counts,
        plan,
        setting,
        source,
    );
    if reach_entries::overflowed(hops, counts, station_hops, station_counts, n, t + 1) {
        reach_entries::clear(hops, counts, station_hops, station_counts, n, t + 1);
        return Err(Fault::Call(CallFault::TooMany));
    }
    Ok(())
}

// Operation 2, reach: fills, from a source, with the turnaround g and readings kept for h slots, the hops and counts of the
// appearances, place v (t + 1) + u, and of the stations. 65535 hops and count 0 where there is no walk.
pub fn reach(
    plan: &[u8],
    n: usize,
    t: usize,
    g: usize,
    h: usize,
    source: usize,
    hops: &mut [u16],
    counts: &mut [u64],
    station_hops: &mut [u16],
    station_counts: &mut [u64],
) -> Result<(), Fault>
    ensures { reach_outcome result (lent_tables hops.new counts.new station_hops.new
        station_counts.new) ≡
        reach plan.now n t (units g h) source
        (lent_tables hops.old counts.old station_hops.old station_counts.old) }
{
    // let .. else is the form that document 01 names for the check's answer.
    let Err(fault) = plan::check(plan, n, t) else {
        calls::terms_call(g, h)?;
        if n <= source {
            return Err(Fault::Call(CallFault::Station));
        }
        let places = n * (t + 1);
        if hops.len() < places
            || counts.len() < places
            || station_hops.len() < n
            || station_counts.len() < n
        {
            return Err(Fault::Call(CallFault::Short));
        }
        let setting = Setting {
            stations: n,
            slots: t,
            turnaround: g,
            keeping: h,
        };
        return work(
            hops,
            counts,
            station_hops,
            station_counts,
            plan,
            setting,
            source,
        );
    };
    Err(Fault::Plan(fault))
}
