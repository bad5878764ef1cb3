// The tables of reach, hops and counts of appearances and of stations: how an entry is merged, sent on and settled, how a record is folded
// in, and how the tables begin, are cleared and searched for a count over 2^64 - 1. Both fillings of the tables use them.
#![tactic(auto)]

ghost use Rattle.std.specs.Prelude.{◌≡◌, ◌<◌, ◌≤◌, length, get_or};
ghost use Rattle.temporal.specs.Lists.{any, below};
ghost use Rattle.temporal.specs.Bytes.{contact_at};
ghost use Rattle.reach_entries.specs.Table.{
  table_of,
  merged_table,
  sent_table,
  folded_table,
  settled_table,
  table_overflows,
  PlacesWithin,
  Fits,
  FoldableTables,
};
ghost use Rattle.reach_entries.specs.Pass.{tables_of, begun_tables, emptied_tables, tables_overflow};

// Takes c walks of h hops into the entry at a place.
#[tactic(auto, unfolding(crate::specs::Table::merged_table, entries::specs::Entry::merged_count))]
fn merge(hops: &mut [u16], counts: &mut [u64], at: usize, h: u16, c: u64)
    requires { (at < length hops.old) × (at < length counts.old) }
    ensures { table_of hops.new counts.new ≡
        merged_table (table_of hops.old counts.old) at h c }
{
    let old = hops[at];
    if h < old {
        hops[at] = h;
        counts[at] = c;
    } else if h == old {
        counts[at] = entries::add_counts(counts[at], c);
    }
}

// Sends what a station has on over one hop more, to the entry at a place.
#[tactic(auto, unfolding(crate::specs::Table::sent_table))]
fn send(
    hops: &mut [u16],
    counts: &mut [u64],
    station_hops: &[u16],
    station_counts: &[u64],
    v: usize,
    at: usize,
)
    requires { PlacesWithin (table_of hops.old counts.old) (table_of station_hops.now station_counts.now) at v }
    ensures { table_of hops.new counts.new ≡
        sent_table (table_of hops.old counts.old)
        (table_of station_hops.now station_counts.now) v at }
{
    let h = station_hops[v];
    if h < 65535 {
        merge(hops, counts, at, h + 1, station_counts[v]);
    }
}

// Takes one appearance's entry into its station's.
pub fn settle_one(
    station_hops: &mut [u16],
    station_counts: &mut [u64],
    hops: &[u16],
    counts: &[u64],
    v: usize,
    at: usize,
)
    requires { PlacesWithin (table_of station_hops.old station_counts.old) (table_of hops.now counts.now) v at }
    ensures { table_of station_hops.new station_counts.new ≡
        merged_table (table_of station_hops.old station_counts.old) v (get_or hops.now at 0)
        (get_or counts.now at 0) }
{
    merge(station_hops, station_counts, v, hops[at], counts[at]);
}

// Takes the appearances of slot u into the stations' entries.
pub fn settle(
    station_hops: &mut [u16],
    station_counts: &mut [u64],
    hops: &[u16],
    counts: &[u64],
    n: usize,
    width: usize,
    u: usize,
)
    requires { Fits n width (table_of hops.now counts.now) (table_of station_hops.old station_counts.old) × (u < width) }
    ensures { table_of station_hops.new station_counts.new ≡
        settled_table width u (table_of hops.now counts.now)
        (table_of station_hops.old station_counts.old) 0 n }
{
    for v in 0..n {
        settle_one(station_hops, station_counts, hops, counts, v, v * width + u);
    }
}

// Whether the entry at j has a count over 2^64 - 1.
fn entry_overflows(hops: &[u16], counts: &[u64], j: usize) -> bool
    requires { (j < length hops.now) × (j < length counts.now) }
    ensures { result ≡ table_overflows (table_of hops.now counts.now) j }
{
    entries::too_many(u64::from(hops[j]), counts[j])
}

// Whether one of the first k entries has a count over 2^64 - 1.
fn any_overflows(hops: &[u16], counts: &[u64], k: usize) -> bool
    requires { (k ≤ length hops.now) × (k ≤ length counts.now) }
    ensures { result ≡ any (table_overflows (table_of hops.now counts.now)) (below k) }
{
    (0..k).any(|j| entry_overflows(hops, counts, j))
}

// Folds the record at j in.
pub fn fold_record(
    hops: &mut [u16],
    counts: &mut [u64],
    station_hops: &[u16],
    station_counts: &[u64],
    plan: &[u8],
    n: usize,
    width: usize,
    j: usize,
)
    requires { FoldableTables plan.now n width j (table_of hops.old counts.old)
        (table_of station_hops.now station_counts.now) }
    ensures { table_of hops.new counts.new ≡
        folded_table width (table_of hops.old counts.old)
        (table_of station_hops.now station_counts.now) (contact_at plan.now j) }
{
    let c = plan::contact_at(plan, j);
    send(
        hops,
        counts,
        station_hops,
        station_counts,
        c.sender,
        c.hearer * width + c.slot,
    );
}

// Clears the tables, and puts the empty walk into the source's appearance of slot 0 and into the source.
pub fn begin(
    hops: &mut [u16],
    counts: &mut [u64],
    station_hops: &mut [u16],
    station_counts: &mut [u64],
    n: usize,
    width: usize,
    source: usize,
)
    requires { Fits n width (table_of hops.old counts.old) (table_of station_hops.old station_counts.old) × (source < n) ×
        (0 < width) }
    ensures { tables_of hops.new counts.new station_hops.new station_counts.new ≡
        begun_tables n width source
        (tables_of hops.old counts.old station_hops.old station_counts.old) }
{
    let places = n * width;
    memory::fill(hops, places, 65535);
    memory::fill(counts, places, 0);
    memory::fill(station_hops, n, 65535);
    memory::fill(station_counts, n, 0);
    let at = source * width;
    hops[at] = 0;
    counts[at] = 1;
    station_hops[source] = 0;
    station_counts[source] = 1;
}

// Clears the named parts of the four tables.
#[tactic(auto, unfolding(crate::specs::Pass::emptied_tables))]
pub fn clear(
    hops: &mut [u16],
    counts: &mut [u64],
    station_hops: &mut [u16],
    station_counts: &mut [u64],
    n: usize,
    width: usize,
)
    requires { Fits n width (table_of hops.old counts.old) (table_of station_hops.old station_counts.old) }
    ensures { tables_of hops.new counts.new station_hops.new station_counts.new ≡
        emptied_tables n width (tables_of hops.old counts.old station_hops.old
        station_counts.old) }
{
    let places = n * width;
    memory::fill(hops, places, 0);
    memory::fill(counts, places, 0);
    memory::fill(station_hops, n, 0);
    memory::fill(station_counts, n, 0);
}

// Whether an appearance or a station has a count over 2^64 - 1.
#[tactic(auto, unfolding(crate::specs::Pass::tables_overflow))]
pub fn overflowed(
    hops: &[u16],
    counts: &[u64],
    station_hops: &[u16],
    station_counts: &[u64],
    n: usize,
    width: usize,
) -> bool
    requires { Fits n width (table_of hops.now counts.now) (table_of station_hops.now station_counts.now) }
    ensures { result ≡ tables_overflow n width
        (tables_of hops.now counts.now station_hops.now station_counts.now) }
{
    any_overflows(hops, counts, n * width) || any_overflows(station_hops, station_counts, n)
}
