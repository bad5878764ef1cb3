// Fills the tables of reach where nothing goes stale: the stations' tables hold what may be sent on, the appearances' tables what each slot
// brings. A slot is taken into the stations' tables, settled, when it has waited as long as the turnaround asks, for the hearers of its
// records.
#![tactic(auto)]

ghost use Rattle.std.specs.Prelude.{◌≡◌, ◌*◌, ◌-◌, ◌<◌, ◌≤◌, length};
ghost use Rattle.temporal.specs.Plan.{Keeps};
ghost use Rattle.plan.specs.Setting.{terms_of};
ghost use Rattle.reach_entries.specs.Table.{table_of, Fits};
ghost use Rattle.reach_entries.specs.Pass.{tables_of, ReachReady, FilledTables};
ghost use Rattle.reach_lasting.specs.Slot.{
  hearer_at,
  settled_once,
  unmarked_by,
  unmarked_at,
  HearerFits,
  HearersFit,
  Settleable,
  SlotSettled,
  Endable,
  SlotEnded,
};

use plan::Setting;

// Takes the appearance of slot u of the hearer of the record at i into the hearer's entry and marks the hearer, unless it is marked. The
// mark is 2 added to its count of slot 0, which is 0 or 1 without it.
fn settle_record(
    station_hops: &mut [u16],
    station_counts: &mut [u64],
    hops: &[u16],
    counts: &mut [u64],
    plan: &[u8],
    n: usize,
    width: usize,
    u: usize,
    i: usize,
)
    requires { Fits n width (table_of hops.now counts.old) (table_of station_hops.old station_counts.old) × (u < width) ×
        HearerFits plan.now n i }
    ensures { tables_of hops.now counts.new station_hops.new station_counts.new ≡
        settled_once width u
        (tables_of hops.now counts.old station_hops.old station_counts.old)
        (hearer_at plan.now i) }
{
    let c = plan::contact_at(plan, i);
    let v = c.hearer;
    let mark = v * width;
    let count = counts[mark];
    if count < 2 {
        reach_entries::settle_one(station_hops, station_counts, hops, counts, v, mark + u);
        counts[mark] = count + 2;
    }
}

// Takes the mark of the hearer of the record at i away, where it has one.
fn unmark_record(counts: &mut [u64], plan: &[u8], n: usize, width: usize, i: usize)
    requires { (n * width ≤ length counts.old) × (0 < width) × HearerFits plan.now n i }
    ensures { counts.new ≡ unmarked_at counts.old (hearer_at plan.now i * width) }
{
    let c = plan::contact_at(plan, i);
    let mark = c.hearer * width;
    let count = counts[mark];
    if 2 <= count {
        counts[mark] = count - 2;
    }
}

// The same for the records from i to before end.
fn unmark(counts: &mut [u64], plan: &[u8], n: usize, width: usize, i: usize, end: usize)
    requires { (n * width ≤ length counts.old) × (0 < width) × HearersFit plan.now n i end }
    ensures { counts.new ≡ unmarked_by plan.now width counts.old i (end - i) }
{
    for k in i..end {
        unmark_record(counts, plan, n, width, k);
    }
}

// Settles slot u for the hearers of the records from i to before end, each once.
fn settle_records(
    station_hops: &mut [u16],
    station_counts: &mut [u64],
    hops: &[u16],
    counts: &mut [u64],
    plan: &[u8],
    n: usize,
    width: usize,
    u: usize,
    i: usize,
    end: usize,
)
    requires { Settleable plan.now n width u i end (tables_of hops.now counts.old station_hops.old station_counts.old) }
    ensures { SlotSettled plan.now n width u i end
        (tables_of hops.now counts.old station_hops.old station_counts.old)
        (tables_of hops.now counts.new station_hops.new station_counts.new) }
{
    for k in i..end {
        settle_record(
            station_hops,
            station_counts,
            hops,
            counts,
            plan,
            n,
            width,
            u,
            k,
        );
    }
    unmark(counts, plan, n, width, i, end);
}

// Settles slot u, whose records are those from i to before end: for their hearers, or where they are more than a third of the stations, for
// every station.
fn settle_slot(
    station_hops: &mut [u16],
    station_counts: &mut [u64],
    hops: &[u16],
    counts: &mut [u64],
    plan: &[u8],
    n: usize,
    width: usize,
    u: usize,
    i: usize,
    end: usize,
)
    requires { Settleable plan.now n width u i end (tables_of hops.now counts.old station_hops.old station_counts.old) }
    ensures { SlotSettled plan.now n width u i end
        (tables_of hops.now counts.old station_hops.old station_counts.old)
        (tables_of hops.now counts.new station_hops.new station_counts.new) }
{
    if n / 3 < end - i {
        reach_entries::settle(station_hops, station_counts, hops, counts, n, width, u);
    } else {
        settle_records(
            station_hops,
            station_counts,
            hops,
            counts,
            plan,
            n,
            width,
            u,
            i,
            end,
        );
    }
}

// The end of slot u: the slot that lies `wait` slots before the next is settled, unless that is slot 0 or earlier. The records from i
// on are not settled yet; the answer is the position from which they are not then.
fn end_slot(
    station_hops: &mut [u16],
    station_counts: &mut [u64],
    hops: &[u16],
    counts: &mut [u64],
    plan: &[u8],
    n: usize,
    width: usize,
    wait: usize,
    u: usize,
    i: usize,
) -> usize
    requires { Endable plan.now n width wait u i (tables_of hops.now counts.old station_hops.old station_counts.old) }
    ensures { SlotEnded plan.now n width wait u i
        (tables_of hops.now counts.old station_hops.old station_counts.old) result
        (tables_of hops.now counts.new station_hops.new station_counts.new) }
{
    if u < wait {
        return i;
    }
    let slot = u + 1 - wait;
    let end = plan::slot_end(plan, i, slot);
    settle_slot(
        station_hops,
        station_counts,
        hops,
        counts,
        plan,
        n,
        width,
        slot,
        i,
        end,
    );
    end
}

// Fills the four tables from a source where nothing goes stale, slot by slot, and goes on until the last slot is settled. The records
// from j on are not folded in yet, those from i on not settled.
pub fn fill_lasting(
    hops: &mut [u16],
    counts: &mut [u64],
    station_hops: &mut [u16],
    station_counts: &mut [u64],
    plan: &[u8],
    setting: Setting,
    source: usize,
)
    requires { ReachReady plan.now setting.stations setting.slots (terms_of setting) source
        (tables_of hops.old counts.old station_hops.old station_counts.old) × Keeps setting.slots (terms_of setting) }
    ensures { FilledTables plan.now setting.stations setting.slots (terms_of setting) source
        (tables_of hops.old counts.old station_hops.old station_counts.old)
        (tables_of hops.new counts.new station_hops.new station_counts.new) }
{
    let width = setting.slots + 1;
    // What is heard waits before it is sent on as many slots as the turnaround says, but no more than there are.
    let wait = setting.turnaround.min(setting.slots);
    let end = setting.slots + wait;
    reach_entries::begin(
        hops,
        counts,
        station_hops,
        station_counts,
        setting.stations,
        width,
        source,
    );
    let mut u = 1;
    let mut j = 0;
    let mut i = 0;
    // A while: each turn goes on by a record or by a slot.
    while u < end {
        if plan::in_slot(plan, j, u) {
            reach_entries::fold_record(
                hops,
                counts,
                station_hops,
                station_counts,
                plan,
                setting.stations,
                width,
                j,
            );
            j += 1;
        } else {
            i = end_slot(
                station_hops,
                station_counts,
                hops,
                counts,
                plan,
                setting.stations,
                width,
                wait,
                u,
                i,
            );
            u += 1;
        }
    }
}
