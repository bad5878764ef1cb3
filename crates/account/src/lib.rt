// The account of a station: the text that tells a warden which pairs lean on it, how much, and along which walks.
#![tactic(auto)]

ghost use Rattle.std.specs.Prelude.{◌≡◌, [], ◌+◌, ◌*◌, ◌<◌, ◌≤◌, length, get_or, take};
ghost use Rattle.temporal.specs.Plan.{turning};
ghost use Rattle.temporal.specs.Outcome.{over};
ghost use Rattle.text.specs.Written.{Put};
ghost use Rattle.ways.specs.Found.{list_in};
ghost use Rattle.plan.specs.Fault.{answer_number};
ghost use Rattle.account.specs.Account.{station_line, pair_line, walk_line, more_line, Accounted};
ghost use Rattle.account.specs.Work.{
  figures_in,
  lowered_at,
  lowered_leg,
  walk_lines,
  layered_text,
  between_text,
  source_text,
  pairs_text,
  WalkWritable,
  Movable,
  WalksWritable,
  PairWritable,
  BetweenWritable,
  SourceWritable,
  PairsWritable,
};
ghost use Rattle.account.specs.Whole.{station_text, with_station, LayersWritable, LoadedFor, AccountWithin};

use plan::{CallFault, Fault, Setting};
use ways::Pair;

// The figures of a pair of the station: its ends, hops, through count, count and share.
#[derive(Clone, Copy)]
pub struct Figures {
    pub source: usize,
    pub destination: usize,
    pub hops: u64,
    pub through: u64,
    pub count: u64,
    pub share: u64,
}

// Writes the first line.
fn put_station(out: &mut [u8], at: usize, v: u64, pairs: u64, load: u64) -> usize
    requires { at + length (station_line v pairs load) ≤ length out.old }
    ensures { Put at (station_line v pairs load) out.old result out.new }
{
    text::put_labelled(
        out,
        at,
        b"station ",
        v,
        b" pairs ",
        pairs,
        b" load ",
        load,
        b"\n",
    )
}

// Writes a pair's line.
fn put_pair_line(out: &mut [u8], at: usize, f: Figures) -> usize
    requires { at + length (pair_line (figures_in f)) ≤ length out.old }
    ensures { Put at (pair_line (figures_in f)) out.old result out.new }
{
    let end = text::put_labelled(
        out,
        at,
        b"from ",
        f.source as u64,
        b" to ",
        f.destination as u64,
        b" hops ",
        f.hops,
        b" through ",
    );
    text::put_fields(
        out, end, f.through, b" count ", f.count, b" share ", f.share, b"\n",
    )
}

// Writes how many walks there are besides those printed.
fn put_more(out: &mut [u8], at: usize, m: u64) -> usize
    requires { at + length (more_line m) ≤ length out.old }
    ensures { Put at (more_line m) out.old result out.new }
{
    let end = text::put_bytes(out, at, b"  more ");
    text::put_field(out, end, m, b"\n")
}

// Writes a leg, the plan's contact of position q of its layered plan, and what stands behind it.
fn put_leg(out: &mut [u8], at: usize, layered: &[u8], n: usize, q: usize, last: bool) -> usize
    requires { (at + length (lowered_leg layered.now n q last) ≤ length out.old) × (q * 6 + 5 < length layered.now) }
    ensures { Put at (lowered_leg layered.now n q last) out.old result out.new }
{
    let c = layered::lowered_contact(layered, n, q);
    let slot = c.slot as u64;
    let sender = c.sender as u64;
    let hearer = c.hearer as u64;
    // Two calls: what stands behind is known in each branch, and no more where they join.
    if last {
        return text::put_fields(out, at, slot, b" ", sender, b" ", hearer, b"\n");
    }
    text::put_fields(out, at, slot, b" ", sender, b" ", hearer, b", ")
}

// Writes a walk's line; its positions in the layered plan are the first entries of the way buffer.
fn put_walk(out: &mut [u8], at: usize, layered: &[u8], n: usize, way: &[u16], hops: usize) -> usize
    requires { WalkWritable layered.now n hops at way.now out.old }
    ensures { Put at (walk_line (lowered_at layered.now n) (take hops way.now)) out.old result
        out.new }
{
    let mut end = text::put_bytes(out, at, b"  ");
    for k in 0..hops {
        let q = usize::from(way[k]);
        end = put_leg(out, end, layered, n, q, k + 1 == hops);
    }
    end
}

// Moves the way buffer to walk i of the list of a pair, from the one before it.
fn go_on(way: &mut [u16], work: &[u64], layered: &[u8], q: Pair, i: usize)
    requires { Movable layered.now q i way.old work.now }
    ensures { way.new ≡ over (get_or (list_in layered.now q) i []) way.old }
{
    if i == 0 {
        ways::first_path(way, work, layered, q);
    } else {
        ways::next_path(way, work, layered, q);
    }
}

// Writes the lines of the first walks of a pair of the layered plan, as many as most says.
fn put_walks(
    out: &mut [u8],
    at: usize,
    layered: &[u8],
    n: usize,
    q: Pair,
    most: usize,
    way: &mut [u16],
    work: &[u64],
) -> usize
    requires { WalksWritable layered.now n q most at way.old work.now out.old }
    ensures { Put at (walk_lines layered.now n (list_in layered.now q) most) out.old result
        out.new }
{
    let mut end = at;
    for i in 0..most {
        go_on(way, work, layered, q, i);
        end = put_walk(out, end, layered, n, way, q.hops);
    }
    end
}

// Writes the text of a pair: its line, at most k walks of the layered plan, and how many more there are.
fn put_pair(
    out: &mut [u8],
    at: usize,
    layered: &[u8],
    n: usize,
    t: usize,
    g: usize,
    k: usize,
    f: Figures,
    way: &mut [u16],
    work: &mut [u64],
) -> usize
    requires { PairWritable layered.now n t g k at (figures_in f) way.old work.old out.old }
    ensures { Put at (layered_text layered.now n t g k (figures_in f)) out.old result out.new }
{
    let stations = 2 * n;
    let destination = n + f.destination;
    let setting = Setting {
        stations,
        slots: t,
        turnaround: g,
        keeping: 255,
    };
    ways::complete(work, layered, setting, destination);
    let most = (k as u64).min(f.through);
    let q = Pair {
        stations,
        slots: t,
        turnaround: g,
        keeping: 255,
        source: f.source,
        destination,
        hops: f.hops as usize,
    };
    let a = put_pair_line(out, at, f);
    let b = put_walks(out, a, layered, n, q, most as usize, way, work);
    put_more(out, b, f.through - most)
}

// Writes the text of the pair from s to z where it is a pair of station v.
fn put_between(
    out: &mut [u8],
    at: usize,
    input: &[u8],
    layered: &[u8],
    n: usize,
    t: usize,
    g: usize,
    v: usize,
    k: usize,
    s: usize,
    z: usize,
    through: &mut [u64],
    way: &mut [u16],
    work: &mut [u64],
) -> usize
    requires { BetweenWritable input.now n t g v k s z at layered.now through.old way.old work.old out.old }
    ensures { Put at (between_text input.now n t g v k s z) out.old result out.new }
{
    if s == z {
        return at;
    }
    let Ok(told) = pair::pair(input, n, t, g, 255, s, z, through, work) else {
        return at;
    };
    let x = through[v];
    if x == 0 {
        return at;
    }
    let f = Figures {
        source: s,
        destination: z,
        hops: told.hops,
        through: x,
        count: told.count,
        share: shares::share(x, told.count),
    };
    put_pair(out, at, layered, n, t, g, k, f, way, work)
}

// Writes the texts of the pairs of station v from s.
fn put_source(
    out: &mut [u8],
    at: usize,
    input: &[u8],
    layered: &[u8],
    n: usize,
    t: usize,
    g: usize,
    v: usize,
    k: usize,
    s: usize,
    through: &mut [u64],
    way: &mut [u16],
    work: &mut [u64],
) -> usize
    requires { SourceWritable input.now n t g v k s at layered.now through.old way.old work.old out.old }
    ensures { Put at (source_text input.now n t g v k s) out.old result out.new }
{
    let mut end = at;
    for z in 0..n {
        end = put_between(
            out, end, input, layered, n, t, g, v, k, s, z, through, way, work,
        );
    }
    end
}

// Writes the texts of all pairs of station v.
fn put_pairs(
    out: &mut [u8],
    at: usize,
    input: &[u8],
    layered: &[u8],
    n: usize,
    t: usize,
    g: usize,
    v: usize,
    k: usize,
    through: &mut [u64],
    way: &mut [u16],
    work: &mut [u64],
) -> usize
    requires { PairsWritable input.now n t g v k at layered.now through.old way.old work.old out.old }
    ensures { Put at (pairs_text input.now n t g v k) out.old result out.new }
{
    let mut end = at;
    for s in 0..n {
        end = put_source(
            out, end, input, layered, n, t, g, v, k, s, through, way, work,
        );
    }
    end
}

// The same, where the layered plan is the beginning of a buffer.
fn put_pairs_of(
    out: &mut [u8],
    at: usize,
    input: &[u8],
    layers: &[u8],
    n: usize,
    t: usize,
    g: usize,
    v: usize,
    k: usize,
    through: &mut [u64],
    way: &mut [u16],
    work: &mut [u64],
) -> usize
    requires { LayersWritable input.now n t g v k at layers.now through.old way.old work.old out.old }
    ensures { Put at (pairs_text input.now n t g v k) out.old result out.new }
{
    let size = 2 * input.len();
    put_pairs(
        out,
        at,
        input,
        &layers[..size],
        n,
        t,
        g,
        v,
        k,
        through,
        way,
        work,
    )
}

// Writes the account of station v from the tables that loads leaves.
fn account_loaded(
    input: &[u8],
    n: usize,
    t: usize,
    g: usize,
    v: usize,
    k: usize,
    out: &mut [u8],
    pairs: &mut [u64],
    sums: &[u64],
    layers: &mut [u8],
    way: &mut [u16],
    work: &mut [u64],
) -> usize
    requires { LoadedFor input.now n t g v k out.old pairs.old sums.now layers.old way.old work.old }
    ensures { Put 0 (station_text input.now n t g v k) out.old result out.new }
{
    let at = put_station(out, 0, v as u64, pairs[v], sums[v]);
    layered::layer(input, n, v, layers);
    put_pairs_of(out, at, input, layers, n, t, g, v, k, pairs, way, work)
}

// What loads answers, where a station is named: 6, a wrong station, comes before 9.
#[tactic(auto, unfolding(crate::specs::Whole::with_station))]
fn with_station(answer: Result<(), Fault>, wrong: bool) -> Result<(), Fault>
    ensures { answer_number result ≡ with_station (answer_number answer) wrong }
{
    match answer {
        Ok(()) | Err(Fault::Call(CallFault::TooMany)) if wrong => {
            Err(Fault::Call(CallFault::Station))
        }
        _ => answer,
    }
}

// The text of an input within the program's limits, with at most k walks a pair.
fn account_within(
    input: &[u8],
    n: usize,
    t: usize,
    g: usize,
    v: usize,
    k: usize,
    out: &mut [u8],
    pairs: &mut [u64],
    sums: &mut [u64],
    layers: &mut [u8],
    way: &mut [u16],
    work: &mut [u64],
) -> usize
    requires { AccountWithin input.now n t k out.old pairs.old sums.old layers.old way.old work.old }
    ensures { Accounted input.now (turning g) v k out.old result out.new }
{
    let answer = loads::loads(input, n, t, g, 255, pairs, sums, work);
    match with_station(answer, n <= v) {
        Ok(()) => account_loaded(input, n, t, g, v, k, out, pairs, sums, layers, way, work),
        Err(fault) => report::put_refusal(out, 0, plan::fault_number(fault) as u64),
    }
}

// The whole text of the account of a station for an input and units with turnaround g, at the beginning of the output buffer; its
// length. A number of walks above 8 counts as 8.
pub fn account(
    input: &[u8],
    g: usize,
    station: usize,
    walks: usize,
    out: &mut [u8; 2598088],
    pairs: &mut [u64; 32],
    sums: &mut [u64; 32],
    layers: &mut [u8; 12288],
    way: &mut [u16; 63],
    work: &mut [u64; 16384],
) -> usize
    ensures { Accounted input.now (turning g) station walks out.old result out.new }
{
    if report::wrong_input(input) {
        return report::put_refusal(out, 0, 2);
    }
    let top = report::top_of(input);
    let t = report::slots_of(input);
    if report::over_limits(top, t) {
        return report::put_refusal(out, 0, 1);
    }
    let k = walks.min(8);
    account_within(
        input,
        top + 1,
        t,
        g,
        station,
        k,
        out,
        pairs,
        sums,
        layers,
        way,
        work,
    )
}
