// Fills the tables of reach where readings go stale: a station's entry is gathered anew for each record that it sends.
#![tactic(auto)]

ghost use Rattle.std.specs.Prelude.{◌≡◌, ◌-◌, ◌<◌, ◌≤◌, length};
ghost use Rattle.plan.specs.Setting.{terms_of};
ghost use Rattle.temporal.specs.Bytes.{contact_at};
ghost use Rattle.reach_entries.specs.Table.{table_of, Fits, FoldableTables};
ghost use Rattle.reach_entries.specs.Pass.{tables_of, ReachReady, FilledTables};
ghost use Rattle.reach_window.specs.Window.{gathered, emptied_entry, window_table, window_folded, emptied_stations, settled_slots};

use plan::Setting;

// Takes the appearances of station v, of the slots from one on and before another, into its entry.
fn gather(
    station_hops: &mut [u16],
    station_counts: &mut [u64],
    hops: &[u16],
    counts: &[u64],
    n: usize,
    width: usize,
    v: usize,
    from: usize,
    end: usize,
)
    requires { Fits n width (table_of hops.now counts.now) (table_of station_hops.old station_counts.old) × (v < n) ×
        (end ≤ width) }
    ensures { table_of station_hops.new station_counts.new ≡
        gathered width (table_of hops.now counts.now) v
        (table_of station_hops.old station_counts.old) from (end - from) }
{
    for t in from..end {
        reach_entries::settle_one(station_hops, station_counts, hops, counts, v, v * width + t);
    }
}

// Leaves no walks in the entry of station v.
#[tactic(auto, unfolding(crate::specs::Window::emptied_entry))]
fn empty_entry(station_hops: &mut [u16], station_counts: &mut [u64], v: usize)
    requires { (v < length station_hops.old) × (v < length station_counts.old) }
    ensures { table_of station_hops.new station_counts.new ≡
        emptied_entry (table_of station_hops.old station_counts.old) v }
{
    station_hops[v] = 65535;
    station_counts[v] = 0;
}

// Gathers in the entry of station v what it may send on in slot u.
#[tactic(auto, unfolding(crate::specs::Window::window_table))]
fn gather_window(
    station_hops: &mut [u16],
    station_counts: &mut [u64],
    hops: &[u16],
    counts: &[u64],
    setting: Setting,
    width: usize,
    v: usize,
    u: usize,
)
    requires { Fits setting.stations width (table_of hops.now counts.now) (table_of station_hops.old station_counts.old) ×
        (v < setting.stations) × (u < width) × (0 < setting.turnaround) }
    ensures { table_of station_hops.new station_counts.new ≡
        window_table width setting.turnaround setting.keeping (table_of hops.now counts.now) v u
        (table_of station_hops.old station_counts.old) }
{
    empty_entry(station_hops, station_counts, v);
    gather(
        station_hops,
        station_counts,
        hops,
        counts,
        setting.stations,
        width,
        v,
        0,
        1,
    );
    let from = plan::window_first(setting.keeping, u);
    let end = plan::window_end(setting.turnaround, u);
    gather(
        station_hops,
        station_counts,
        hops,
        counts,
        setting.stations,
        width,
        v,
        from,
        end,
    );
}

// Folds the record at j in, where readings go stale: what its sender may send on is gathered first.
fn fold_window(
    hops: &mut [u16],
    counts: &mut [u64],
    station_hops: &mut [u16],
    station_counts: &mut [u64],
    plan: &[u8],
    setting: Setting,
    width: usize,
    j: usize,
)
    requires { FoldableTables plan.now setting.stations width j (table_of hops.old counts.old)
        (table_of station_hops.old station_counts.old) × (0 < setting.turnaround) }
    ensures { tables_of hops.new counts.new station_hops.new station_counts.new ≡
        window_folded width setting.turnaround setting.keeping
        (tables_of hops.old counts.old station_hops.old station_counts.old)
        (contact_at plan.now j) }
{
    let c = plan::contact_at(plan, j);
    gather_window(
        station_hops,
        station_counts,
        hops,
        counts,
        setting,
        width,
        c.sender,
        c.slot,
    );
    reach_entries::fold_record(
        hops,
        counts,
        station_hops,
        station_counts,
        plan,
        setting.stations,
        width,
        j,
    );
}

// Makes the stations' table anew, of the appearances of all slots.
fn settle_all(
    station_hops: &mut [u16],
    station_counts: &mut [u64],
    hops: &[u16],
    counts: &[u64],
    n: usize,
    width: usize,
)
    requires { Fits n width (table_of hops.now counts.now) (table_of station_hops.old station_counts.old) }
    ensures { table_of station_hops.new station_counts.new ≡
        settled_slots n width (table_of hops.now counts.now)
        (emptied_stations n (table_of station_hops.old station_counts.old)) 0 width }
{
    memory::fill(station_hops, n, 65535);
    memory::fill(station_counts, n, 0);
    for u in 0..width {
        reach_entries::settle(station_hops, station_counts, hops, counts, n, width, u);
    }
}

// Fills the four tables from a source, record by record, where readings go stale.
pub fn fill_window(
    hops: &mut [u16],
    counts: &mut [u64],
    station_hops: &mut [u16],
    station_counts: &mut [u64],
    plan: &[u8],
    setting: Setting,
    source: usize,
)
    requires { ReachReady plan.now setting.stations setting.slots (terms_of setting) source
        (tables_of hops.old counts.old station_hops.old station_counts.old) }
    ensures { FilledTables plan.now setting.stations setting.slots (terms_of setting) source
        (tables_of hops.old counts.old station_hops.old station_counts.old)
        (tables_of hops.new counts.new station_hops.new station_counts.new) }
{
    let width = setting.slots + 1;
    reach_entries::begin(
        hops,
        counts,
        station_hops,
        station_counts,
        setting.stations,
        width,
        source,
    );
    let m = plan.len() / 6;
    for j in 0..m {
        fold_window(
            hops,
            counts,
            station_hops,
            station_counts,
            plan,
            setting,
            width,
            j,
        );
    }
    settle_all(
        station_hops,
        station_counts,
        hops,
        counts,
        setting.stations,
        width,
    );
}
