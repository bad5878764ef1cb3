// Document 02's loads for the drawing program (C-24): the loads call, and behind it the record of each station.
#![tactic(auto)]

ghost use Rattle.std.specs.Prelude.{◌≡◌, ◌*◌, ◌<◌};
ghost use Rattle.std.proofs.lemmas.List.Edits.{sets};
ghost use Rattle.temporal.specs.Plan.{units};
ghost use Rattle.temporal.specs.Cause.{first, terms_causes, plan_fault};
ghost use Rattle.temporal.specs.Outcome.{over};
ghost use Rattle.temporal.specs.OutcomeDrawn.{drawn_loaded, drawn_loads};
ghost use Rattle.plan.specs.Setting.{terms_of, plan_in};
ghost use Rattle.drawn.specs.Answer.{drawn_buffers, drawn_outcome};
ghost use Rattle.drawn.specs.Work.{entry_record, records_from, Drawable, DrawnReady};

use plan::{CallFault, Fault, Setting};

// Writes the record of station v, by its entries in both tables, to its place.
fn draw_entry(records: &mut [u8], pairs: &[u64], sums: &[u64], n: usize, v: usize)
    requires { Drawable n pairs.now sums.now records.old × (v < n) }
    ensures { records.new ≡ sets records.old (18 * v) (entry_record pairs.now sums.now v) }
{
    drawing::draw_station(records, 18 * v, v, sums[v], pairs[v]);
}

// Writes the records of the stations below n.
fn draw_records(records: &mut [u8], pairs: &[u64], sums: &[u64], n: usize)
    requires { Drawable n pairs.now sums.now records.old }
    ensures { records.new ≡ over (records_from pairs.now sums.now 0 n) records.old }
{
    for v in 0..n {
        draw_entry(records, pairs, sums, n, v);
    }
}

// The operation once 1 to 8, 12 and 14 are excluded.
fn drawn_loads_work(
    pairs: &mut [u64],
    sums: &mut [u64],
    records: &mut [u8],
    work: &mut [u64],
    plan: &[u8],
    setting: Setting,
) -> Result<(), Fault>
    requires { DrawnReady plan.now setting.stations setting.slots (terms_of setting) pairs.old sums.old records.old work.old }
    ensures { drawn_outcome result (drawn_buffers pairs.new sums.new records.new work.new) ≡
        drawn_loaded (plan_in plan.now setting)
        (drawn_buffers pairs.old sums.old records.old work.old) }
{
    let n = setting.stations;
    if let Err(fault) = loads::partial_loads_work(pairs, sums, work, plan, setting, n) {
        memory::fill(records, 18 * n, 0);
        return Err(fault);
    }
    draw_records(records, pairs, sums, n);
    Ok(())
}

// The operation once 1 to 5, 12 and 14 are excluded: 8, then the work.
fn drawn_loads_asked(
    pairs: &mut [u64],
    sums: &mut [u64],
    records: &mut [u8],
    work: &mut [u64],
    plan: &[u8],
    setting: Setting,
) -> Result<(), Fault>
    requires { (plan_fault plan.now setting.stations setting.slots ≡ 0) × (first (terms_causes (terms_of setting)) ≡ 0) }
    ensures { drawn_outcome result (drawn_buffers pairs.new sums.new records.new work.new) ≡
        drawn_loads plan.now setting.stations setting.slots (terms_of setting)
        (drawn_buffers pairs.old sums.old records.old work.old) }
{
    let Setting {
        stations: n,
        slots: t,
        ..
    } = setting;
    if pairs.len() < n
        || sums.len() < n
        || records.len() < 18 * n
        || work.len() < 4 * (n * (t + 1))
    {
        return Err(Fault::Call(CallFault::Short));
    }
    drawn_loads_work(pairs, sums, records, work, plan, setting)
}

// Loads for the drawing program: the pairs and the load of each station, and its record of 18 bytes.
pub fn drawn_loads(
    plan: &[u8],
    n: usize,
    t: usize,
    g: usize,
    h: usize,
    pairs: &mut [u64],
    sums: &mut [u64],
    records: &mut [u8],
    work: &mut [u64],
) -> Result<(), Fault>
    ensures { drawn_outcome result (drawn_buffers pairs.new sums.new records.new work.new) ≡
        drawn_loads plan.now n t (units g h)
        (drawn_buffers pairs.old sums.old records.old work.old) }
{
    // let .. else is the form that document 01 names for the check's answer.
    let Err(fault) = plan::check(plan, n, t) else {
        calls::terms_call(g, h)?;
        let setting = Setting {
            stations: n,
            slots: t,
            turnaround: g,
            keeping: h,
        };
        return drawn_loads_asked(pairs, sums, records, work, plan, setting);
    };
    Err(Fault::Plan(fault))
}
