// The completion table, and the shortest walks of a pair in lexicographic order: the first one, whether a buffer begins
// with one, and the one after it. None of these is an operation: a caller has excluded every cause of refusal before.
#![tactic(auto)]

ghost use Rattle.std.specs.Prelude.{◌≡◌, [], ℕ, ◌+◌, ◌-◌, ◌*◌, ◌<◌, ◌≤◌, length, get_or, take};
ghost use Rattle.temporal.specs.Plan.{Plan, units, Keeps, start, may_follow};
ghost use Rattle.temporal.specs.Walk.{step};
ghost use Rattle.temporal.specs.Bytes.{contact_at, records, plan_of};
ghost use Rattle.temporal.specs.Outcome.{over};
ghost use Rattle.plan.specs.Setting.{terms_of};
ghost use Rattle.ways.specs.Home.{Completable, Completed};
ghost use Rattle.ways.specs.Column.{lowered, folded_back, stored_back, is_due, Begun, RecordWithin};
ghost use Rattle.ways.specs.Window.{lowered_run, folded_window, begun_window, FoldableWindow};
ghost use Rattle.ways.specs.Prefix.{end_after, Advanced};
ghost use Rattle.ways.specs.Found.{
  spot_of,
  end_of,
  found_of,
  plan_in,
  list_in,
  begins,
  serves_at,
  first_from,
  found_at,
  Placed,
  put_at,
  is_offered,
  Searchable,
  Placeable,
  Listable,
  Startable,
  Advancable,
  Continuable,
  Stepped,
};

use plan::Setting;

// What a listing is about: the numbers of an accepted plan, its units' turnaround and for how many slots they keep a reading, a pair
// of its stations, and the pair's hops.
#[derive(Clone, Copy)]
pub struct Pair {
    pub stations: usize,
    pub slots: usize,
    pub turnaround: usize,
    pub keeping: usize,
    pub source: usize,
    pub destination: usize,
    pub hops: usize,
}

// An appearance: a station, reached in a slot.
#[derive(Clone, Copy)]
pub struct Spot {
    pub station: usize,
    pub slot: usize,
}

// Lowers the entry at a place to one more than another entry, where that is less.
fn lower(work: &mut [u64], at: usize, from: usize)
    requires { (at < length work.old) × (from < length work.old) }
    ensures { work.new ≡ lowered work.old at from }
{
    let h = work[from];
    if h < work[at] {
        work[at] = h + 1;
    }
}

// Folds the record at j into the start's column: its sender's entry is lowered by its hearer's of the record's slot.
fn fold_back(work: &mut [u64], plan: &[u8], width: usize, j: usize)
    requires { RecordWithin plan.now width j work.old }
    ensures { work.new ≡ folded_back width (contact_at plan.now j) work.old }
{
    let c = plan::contact_at(plan, j);
    let at = c.sender * width;
    let from = c.hearer * width + c.slot;
    lower(work, at, from);
}

// Stores what the hearer of the record at j has to go: its entry of the record's slot becomes that of the start's column.
fn store_back(work: &mut [u64], plan: &[u8], width: usize, j: usize)
    requires { RecordWithin plan.now width j work.old }
    ensures { work.new ≡ stored_back width (contact_at plan.now j) work.old }
{
    let c = plan::contact_at(plan, j);
    let from = c.hearer * width;
    let at = c.hearer * width + c.slot;
    work[at] = work[from];
}

// Clears the start's column, and puts the empty walk of the destination into it.
fn begin_back(work: &mut [u64], n: usize, width: usize, z: usize)
    requires { (n * width ≤ length work.old) × (0 < width) × (z < n) }
    ensures { Begun n width z work.old work.new }
{
    for v in 0..n {
        work[v * width] = 65535;
    }
    work[z * width] = 0;
}

// Whether the record before position i is due to be stored: there is one, and that before position j lies too few slots after it to
// follow it.
fn is_due(plan: &[u8], g: usize, i: usize, j: usize) -> bool
    requires { (i ≤ j) × (0 < j) × (j * 6 ≤ length plan.now) }
    ensures { result ≡ is_due plan.now g i j }
{
    if i == 0 {
        return false;
    }
    let c = plan::contact_at(plan, i - 1);
    let d = plan::contact_at(plan, j - 1);
    d.slot.saturating_sub(c.slot) < g
}

// Fills the completion table of destination z where nothing goes stale: one pass back over the records. The start's column holds what
// starts with the records from j on; those from i on are stored, each before any is folded in that may not follow it.
fn complete_lasting(work: &mut [u64], plan: &[u8], setting: Setting, z: usize)
    requires { Completable plan.now setting.stations setting.slots (terms_of setting) z work.old × Keeps setting.slots (terms_of setting) }
    ensures { Completed plan.now setting.stations setting.slots (terms_of setting) z work.old work.new }
{
    let Setting {
        stations: n,
        slots: t,
        turnaround: g,
        ..
    } = setting;
    let width = t + 1;
    begin_back(work, n, width, z);
    let mut i = plan.len() / 6;
    let mut j = i;
    // No `for`: i and j move by turns.
    while 0 < j {
        if is_due(plan, g, i, j) {
            i -= 1;
            store_back(work, plan, width, i);
            continue;
        }
        j -= 1;
        fold_back(work, plan, width, j);
    }
}

// Lowers as many entries as size says, from a place on, to one more than another entry, where that is less.
fn lower_run(work: &mut [u64], at: usize, size: usize, from: usize)
    requires { (at + size ≤ length work.old) × (from < length work.old) }
    ensures { work.new ≡ lowered_run work.old at from size }
{
    for i in 0..size {
        lower(work, at + i, from);
    }
}

// Folds the record at j into every column that it may follow: its sender's entries of the start's column and of the slots in which
// what is heard has turned round and is still kept are lowered by its hearer's of the record's own slot.
fn fold_window(work: &mut [u64], plan: &[u8], width: usize, g: usize, h: usize, j: usize)
    requires { FoldableWindow plan.now width j work.old }
    ensures { work.new ≡ folded_window width (units g h) (contact_at plan.now j) work.old }
{
    let c = plan::contact_at(plan, j);
    let row = c.sender * width;
    let from = c.hearer * width + c.slot;
    lower(work, row, from);
    let low = (c.slot - 1).saturating_sub(h) + 1;
    let end = c.slot.saturating_sub(g) + 1;
    lower_run(work, row + low, end.saturating_sub(low), from);
}

// Clears the table, and puts the empty walk of the destination into every slot.
fn begin_window(work: &mut [u64], n: usize, width: usize, z: usize)
    requires { (n * width ≤ length work.old) × (z < n) }
    ensures { work.new ≡ begun_window n width z work.old }
{
    memory::fill(work, n * width, 65535);
    memory::fill_part(work, z * width, width, 0);
}

// Fills the completion table of destination z where a reading goes stale: a contact in slot k may follow what is heard in slot u only
// where u + g <= k <= u + h. One pass back over the records.
fn complete_window(work: &mut [u64], plan: &[u8], setting: Setting, z: usize)
    requires { Completable plan.now setting.stations setting.slots (terms_of setting) z work.old }
    ensures { Completed plan.now setting.stations setting.slots (terms_of setting) z work.old work.new }
{
    let Setting {
        stations: n,
        slots: t,
        turnaround: g,
        keeping: h,
    } = setting;
    let width = t + 1;
    begin_window(work, n, width, z);
    for j in (0..plan.len() / 6).rev() {
        fold_window(work, plan, width, g, h, j);
    }
}

// Fills the completion table of destination z.
pub fn complete(work: &mut [u64], plan: &[u8], setting: Setting, z: usize)
    requires { Completable plan.now setting.stations setting.slots (terms_of setting) z work.old }
    ensures { Completed plan.now setting.stations setting.slots (terms_of setting) z work.old work.new }
{
    let Setting {
        slots: t,
        keeping: h,
        ..
    } = setting;
    if t <= h + 1 {
        complete_lasting(work, plan, setting, z);
    } else {
        complete_window(work, plan, setting, z);
    }
}

// Whether a contact in slot u may follow an appearance in slot t.
#[tactic(auto, unfolding(temporal::specs::Plan::may_follow))]
fn may_follow(g: usize, h: usize, t: usize, u: usize) -> bool
    ensures { (p : Plan) → p.terms ≡ units g h → result ≡ may_follow p t u }
{
    t < u && (t == 0 || (g <= u - t && u - t <= h))
}

// Where position i leads from an appearance. A position that is no record leads nowhere.
fn step_on(plan: &[u8], g: usize, h: usize, x: Spot, i: usize) -> Option<Spot>
    ensures { (n t : ℕ) → end_of result ≡ step (plan_of plan.now n t (units g h)) (spot_of x) i }
{
    if plan.len() / 6 <= i {
        return None;
    }
    let c = plan::contact_at(plan, i);
    if x.station != c.sender || !may_follow(g, h, x.slot, c.slot) {
        return None;
    }
    Some(Spot {
        station: c.hearer,
        slot: c.slot,
    })
}

// Where the first k entries of a buffer lead from the source. No entry is trusted.
fn end_of(way: &[u16], plan: &[u8], q: Pair, k: usize) -> Option<Spot>
    requires { k ≤ length way.now }
    ensures { end_of result ≡ end_after (plan_in plan.now q) (start q.source) (take k way.now) }
{
    let mut x = Spot {
        station: q.source,
        slot: 0,
    };
    for &i in &way[..k] {
        x = step_on(plan, q.turnaround, q.keeping, x, usize::from(i))?;
    }
    Some(x)
}

// Whether position i leads on from an appearance to one from which so many hops are left.
fn serves(work: &[u64], plan: &[u8], q: Pair, x: Spot, need: u64, i: usize) -> bool
    requires { Searchable plan.now q work.now }
    ensures { result ≡ serves_at (plan_in plan.now q) work.now (q.slots + 1) (spot_of x) need i }
{
    let Some(y) = step_on(plan, q.turnaround, q.keeping, x, i) else {
        return false;
    };
    work[y.station * (q.slots + 1) + y.slot] == need
}

// The first position from a given one on that leads home with so many hops left behind it.
fn find(work: &[u64], plan: &[u8], q: Pair, x: Spot, need: u64, from: usize) -> Option<usize>
    requires { Searchable plan.now q work.now }
    ensures { found_of result ≡ first_from (serves_at (plan_in plan.now q) work.now (q.slots + 1) (spot_of x) need)
        from (records plan.now - from) }
{
    let m = plan.len() / 6;
    let mut i = from;
    // A loop that yields what it finds by break is the form that document 01 names here.
    loop {
        if m <= i {
            break None;
        }
        if serves(work, plan, q, x, need, i) {
            break Some(i);
        }
        i += 1;
    }
}

// The first position from a given one on that leads home behind the first k entries of a buffer.
pub fn found_behind(
    way: &[u16],
    work: &[u64],
    plan: &[u8],
    q: Pair,
    k: usize,
    from: usize,
) -> Option<usize>
    requires { Placeable plan.now q work.now k way.now }
    ensures { found_of result ≡ found_at plan.now q work.now k from way.now }
{
    let x = end_of(way, plan, q, k)?;
    let need = (q.hops - (k + 1)) as u64;
    find(work, plan, q, x, need, from)
}

// Puts the first position from a given one on that leads home behind the first k entries. False where there is none.
fn place(way: &mut [u16], work: &[u64], plan: &[u8], q: Pair, k: usize, from: usize) -> bool
    requires { Placeable plan.now q work.now k way.old }
    ensures { ◌≡◌ {A = Placed} (record { answer = result; buffer = way.new })
        (put_at k way.old (found_at plan.now q work.now k from way.old)) }
{
    let Some(i) = found_behind(way, work, plan, q, k, from) else {
        return false;
    };
    way[k] = i as u16;
    true
}

// Writes the first shortest walk of a pair that has one: leg by leg the first position that leads home.
pub fn first_path(way: &mut [u16], work: &[u64], plan: &[u8], q: Pair)
    requires { Startable plan.now q work.now way.old }
    ensures { way.new ≡ over (get_or (list_in plan.now q) 0 []) way.old }
{
    for k in 0..q.hops {
        place(way, work, plan, q, k, 0);
    }
}

// Whether a buffer begins with a shortest walk of a pair that has one.
pub fn offered(way: &[u16], plan: &[u8], q: Pair) -> bool
    requires { Listable plan.now q way.now }
    ensures { result ≡ is_offered plan.now q way.now }
{
    end_of(way, plan, q, q.hops).is_some_and(|x| x.station == q.destination)
}

// Advances the first `leg` entries to the next ones that begin a shortest walk: a later last position, or else the legs
// before it advanced, and the first position behind them. False where there are none, and the buffer stays.
fn advance(way: &mut [u16], work: &[u64], plan: &[u8], q: Pair, leg: usize) -> bool
    requires { Advancable plan.now q work.now leg way.old }
    ensures { Advanced (begins plan.now q) leg way.old result way.new }
{
    if leg == 0 {
        return false;
    }
    let last = leg - 1;
    let from = usize::from(way[last]) + 1;
    place(way, work, plan, q, last, from)
        || (advance(way, work, plan, q, last) && place(way, work, plan, q, last, 0))
}

// Moves a buffer that begins with a shortest walk on to the next one. False on the last, and the buffer stays.
pub fn next_path(way: &mut [u16], work: &[u64], plan: &[u8], q: Pair) -> bool
    requires { Continuable plan.now q work.now way.old }
    ensures { Stepped (list_in plan.now q) way.old result way.new }
{
    advance(way, work, plan, q, q.hops)
}
