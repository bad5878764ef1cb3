// The operations for C: numbers as themselves, a slice as pointer and length, the papers' number as the answer (0: accepted),
// and the values beside it in lent slots, 0 on refusal, since C has no Result. include/joftaki.h declares them.
#![tactic(auto)]

ghost use Rattle.std.specs.Prelude.{◌≡◌};
ghost use Rattle.std.proofs.Math.Option.{some};
ghost use Rattle.temporal.specs.Plan.{units, turning};
ghost use Rattle.temporal.specs.Cause.{plan_fault};
ghost use Rattle.temporal.specs.Outcome.{reach, row_number};
ghost use Rattle.temporal.specs.OutcomePair.{pair, partial_loads, loads, busiest};
ghost use Rattle.temporal.specs.OutcomeSet.{through_set};
ghost use Rattle.temporal.specs.OutcomeForemost.{foremost};
ghost use Rattle.temporal.specs.OutcomeDrawn.{drawn_loads};
ghost use Rattle.temporal.specs.OutcomeStruck.{struck};
ghost use Rattle.temporal.specs.OutcomeVerdict.{verdict};
ghost use Rattle.temporal.specs.Band.{take_in, take_out};
ghost use Rattle.temporal.specs.Cursor.{first_way, next_way};
ghost use Rattle.temporal.specs.FirstNext.{way_answer};
ghost use Rattle.plan.specs.Fault.{fault_number, answer_number};
ghost use Rattle.reach.specs.Answer.{lent_tables};
ghost use Rattle.pair.specs.Answer.{pair_buffers};
ghost use Rattle.loads.specs.Answer.{load_buffers};
ghost use Rattle.drawn.specs.Answer.{drawn_buffers};
ghost use Rattle.struck.specs.Answer.{struck_buffers};
ghost use Rattle.judging.specs.Judge.{verdict_of};
ghost use Rattle.listing.specs.Answer.{reply_of, question};
ghost use Rattle.joftaki_c.specs.Slots.{
  answered,
  pair_given,
  RowGiven,
  busiest_given,
  set_given,
  struck_given,
  foremost_given,
  verdict_code,
  verdict_told,
  verdict_coded,
};
ghost use Rattle.joftaki_c.specs.Code.{reply_code, reply_hops, way_given, way_exit};
ghost use Rattle.joftaki_c.specs.Reading.{read_slots, ReadGiven};

use judging::Judgement;
use listing::WayAnswer;
use plan::Fault;

// The papers' number of a fault, in 32 bits.
fn fault_code(fault: Fault) -> u32
    ensures { result ≡ fault_number fault }
{
    plan::fault_number(fault) as u32
}

// The number of an operation that answers nothing beside it.
fn answer_code(answer: Result<(), Fault>) -> u32
    ensures { result ≡ answer_number answer }
{
    match answer {
        Ok(()) => 0,
        Err(fault) => fault_code(fault),
    }
}

// Operation 1, check: document 01's number, 0 where the plan is accepted.
#[unsafe(no_mangle)]
pub extern "C" fn joftaki_check(plan: &[u8], n: usize, t: usize) -> u32
    ensures { result ≡ plan_fault plan.now n t }
{
    plan::check_number(plan::check(plan, n, t)) as u32
}

// Operation 2, reach: its number, and the four tables as reach leaves them.
#[unsafe(no_mangle)]
pub extern "C" fn joftaki_reach(
    plan: &[u8],
    n: usize,
    t: usize,
    g: usize,
    h: usize,
    s: usize,
    hops: &mut [u16],
    counts: &mut [u64],
    station_hops: &mut [u16],
    station_counts: &mut [u64],
) -> u32
    ensures { answered result (lent_tables hops.new counts.new station_hops.new
        station_counts.new) ≡
        reach plan.now n t (units g h) s
        (lent_tables hops.old counts.old station_hops.old station_counts.old) }
{
    answer_code(reach::reach(
        plan,
        n,
        t,
        g,
        h,
        s,
        hops,
        counts,
        station_hops,
        station_counts,
    ))
}

// The sister of row: row's number of refusal, 0 where row is accepted.
#[unsafe(no_mangle)]
pub extern "C" fn joftaki_row_number(table: &[u64], n: usize, t: usize, v: usize) -> u32
    ensures { result ≡ row_number n t v table.now }
{
    rows::row_number(table, n, t, v) as u32
}

// Operation 3, row: its number, and where in the caller's table the part begins and how many entries it has; 0 and 0 on
// refusal.
#[unsafe(no_mangle)]
pub extern "C" fn joftaki_row(
    table: &[u64],
    n: usize,
    t: usize,
    v: usize,
    offset: &mut usize,
    length: &mut usize,
) -> u32
    ensures { RowGiven n t v table.now result offset.new length.new }
{
    *length = rows::row(table, n, t, v).len();
    let number = rows::row_number(table, n, t, v);
    if number != 0 {
        *offset = 0;
        return number as u32;
    }
    *offset = v * (t + 1);
    0
}

// Operation 4, pair: its number, the hops and the count in two slots, and the lent table and work area as pair leaves them.
#[unsafe(no_mangle)]
pub extern "C" fn joftaki_pair(
    plan: &[u8],
    n: usize,
    t: usize,
    g: usize,
    h: usize,
    s: usize,
    z: usize,
    hops: &mut usize,
    count: &mut u64,
    through: &mut [u64],
    work: &mut [u64],
) -> u32
    ensures { pair_given result hops.new count.new (pair_buffers through.new work.new) ≡
        pair plan.now n t (units g h) s z (pair_buffers through.old work.old) }
{
    match pair::pair(plan, n, t, g, h, s, z, through, work) {
        Ok(found) => {
            *hops = found.hops as usize;
            *count = found.count;
            0
        }
        Err(fault) => {
            *hops = 0;
            *count = 0;
            fault_code(fault)
        }
    }
}

// Partial loads (document 02, C-18): the number, and the lent tables and work area as partial loads leaves them.
#[unsafe(no_mangle)]
pub extern "C" fn joftaki_partial_loads(
    plan: &[u8],
    n: usize,
    t: usize,
    g: usize,
    h: usize,
    k: usize,
    pairs: &mut [u64],
    sums: &mut [u64],
    work: &mut [u64],
) -> u32
    ensures { answered result (load_buffers pairs.new sums.new work.new) ≡
        partial_loads plan.now n t (units g h) k (load_buffers pairs.old sums.old work.old) }
{
    answer_code(loads::partial_loads(plan, n, t, g, h, k, pairs, sums, work))
}

// Operation 5, loads: its number, and the lent tables and work area as loads leaves them.
#[unsafe(no_mangle)]
pub extern "C" fn joftaki_loads(
    plan: &[u8],
    n: usize,
    t: usize,
    g: usize,
    h: usize,
    pairs: &mut [u64],
    sums: &mut [u64],
    work: &mut [u64],
) -> u32
    ensures { answered result (load_buffers pairs.new sums.new work.new) ≡
        loads plan.now n t (units g h) (load_buffers pairs.old sums.old work.old) }
{
    answer_code(loads::loads(plan, n, t, g, h, pairs, sums, work))
}

// Document 02's loads for the drawing program: its number, and the two tables, the records and the work area as the operation leaves them.
#[unsafe(no_mangle)]
pub extern "C" fn joftaki_drawn_loads(
    plan: &[u8],
    n: usize,
    t: usize,
    g: usize,
    h: usize,
    pairs: &mut [u64],
    sums: &mut [u64],
    records: &mut [u8],
    work: &mut [u64],
) -> u32
    ensures { answered result (drawn_buffers pairs.new sums.new records.new work.new) ≡
        drawn_loads plan.now n t (units g h)
        (drawn_buffers pairs.old sums.old records.old work.old) }
{
    answer_code(drawn::drawn_loads(plan, n, t, g, h, pairs, sums, records, work))
}

// Reading a record of the drawing program: 0 and the station, the load and the pairs in three slots; or 102 where the bytes are foreign,
// and nothing is written.
#[unsafe(no_mangle)]
pub extern "C" fn joftaki_read_record(
    bytes: &[u8],
    station: &mut usize,
    load: &mut u64,
    pairs: &mut u64,
) -> u32
    ensures { ReadGiven bytes.now result (read_slots station.old load.old pairs.old)
        (read_slots station.new load.new pairs.new) }
{
    match drawing::read_record(bytes) {
        Some(reading) => {
            *station = reading.station;
            *load = reading.load;
            *pairs = reading.pairs;
            0
        }
        None => 102,
    }
}

// Operation 6, busiest: its number, and the station in a slot; 0 on refusal.
#[unsafe(no_mangle)]
pub extern "C" fn joftaki_busiest(
    plan: &[u8],
    n: usize,
    t: usize,
    g: usize,
    h: usize,
    station: &mut usize,
    work: &mut [u64],
) -> u32
    ensures { busiest_given result station.new work.new ≡
        busiest plan.now n t (units g h) work.old }
{
    match loads::busiest(plan, n, t, g, h, work) {
        Ok(v) => {
            *station = v;
            0
        }
        Err(fault) => {
            *station = 0;
            fault_code(fault)
        }
    }
}

// Document 02's operation on a contact that is struck out: its number, the number of pairs in a slot, 0 on refusal, and the lent table and
// work area as the operation leaves them.
#[unsafe(no_mangle)]
pub extern "C" fn joftaki_struck_out(
    plan: &[u8],
    n: usize,
    t: usize,
    g: usize,
    h: usize,
    position: usize,
    pairs: &mut u64,
    changes: &mut [i64],
    work: &mut [u64],
) -> u32
    ensures { struck_given result pairs.new (struck_buffers changes.new work.new) ≡
        struck plan.now n t (units g h) position (struck_buffers changes.old work.old) }
{
    match struck::struck_out(plan, n, t, g, h, position, changes, work) {
        Ok(k) => {
            *pairs = k;
            0
        }
        Err(fault) => {
            *pairs = 0;
            fault_code(fault)
        }
    }
}

// Document 02's operation on a pair and a set: its number, and the count in a slot; 0 on refusal.
#[unsafe(no_mangle)]
pub extern "C" fn joftaki_through_set(
    plan: &[u8],
    n: usize,
    t: usize,
    g: usize,
    h: usize,
    s: usize,
    z: usize,
    count: &mut u64,
    set: &[u8],
    work: &mut [u64],
) -> u32
    ensures { set_given result count.new work.new ≡
        through_set plan.now n t (units g h) s z set.now work.old }
{
    match sets::through_set(plan, n, t, g, h, s, z, set, work) {
        Ok(c) => {
            *count = c;
            0
        }
        Err(fault) => {
            *count = 0;
            fault_code(fault)
        }
    }
}

// The number behind the name of a verdict.
fn verdict_code(judgement: Judgement) -> u32
    ensures { result ≡ verdict_code (some (verdict_of judgement)) }
{
    match judgement {
        Judgement::Complete => 1,
        Judgement::Beginning => 2,
        Judgement::Wrong => 3,
    }
}

// Document 02's operation that judges a list of positions: its number, and the verdict's number in a slot; 0 on refusal.
#[unsafe(no_mangle)]
pub extern "C" fn joftaki_verdict(
    plan: &[u8],
    n: usize,
    t: usize,
    g: usize,
    h: usize,
    s: usize,
    z: usize,
    told: &mut u32,
    list: &[u16],
    work: &mut [u64],
) -> u32
    ensures { verdict_told result told.new work.new ≡
        verdict_coded (verdict plan.now n t (units g h) s z list.now work.old) }
{
    match verdicts::verdict(plan, n, t, g, h, s, z, list, work) {
        Ok(judgement) => {
            *told = verdict_code(judgement);
            0
        }
        Err(fault) => {
            *told = 0;
            fault_code(fault)
        }
    }
}

// Document 02's operation on the shortest foremost paths of a pair: its number, the slot of arrival, the hops and the count in
// three slots, 0 on refusal, and the lent table and work area as foremost leaves them.
#[unsafe(no_mangle)]
pub extern "C" fn joftaki_foremost(
    plan: &[u8],
    n: usize,
    t: usize,
    g: usize,
    s: usize,
    z: usize,
    arrival: &mut usize,
    hops: &mut usize,
    count: &mut u64,
    through: &mut [u64],
    work: &mut [u64],
) -> u32
    ensures { foremost_given result arrival.new hops.new count.new
        (pair_buffers through.new work.new) ≡
        foremost plan.now n t (turning g) s z (pair_buffers through.old work.old) }
{
    match foremost::foremost(plan, n, t, g, s, z, through, work) {
        Ok(found) => {
            *arrival = found.arrival as usize;
            *hops = found.hops as usize;
            *count = found.count;
            0
        }
        Err(fault) => {
            *arrival = 0;
            *hops = 0;
            *count = 0;
            fault_code(fault)
        }
    }
}

// The hops of a way, 0 beside every other answer.
fn way_hops(answer: Result<WayAnswer, Fault>) -> usize
    ensures { result ≡ reply_hops (reply_of answer) }
{
    match answer {
        Ok(WayAnswer::Path(h)) => h,
        _ => 0,
    }
}

// The number of an answer: 0 for a way, 100 for none, 101 for last, a fault's number.
fn way_code(answer: Result<WayAnswer, Fault>) -> u32
    ensures { result ≡ reply_code (reply_of answer) }
{
    match answer {
        Ok(WayAnswer::Path(_)) => 0,
        Ok(WayAnswer::NoPath) => 100,
        Ok(WayAnswer::LastPath) => 101,
        Err(fault) => fault_code(fault),
    }
}

// Operation 7, first way: its number or none's, the hops in a slot, and the positions in the way buffer.
#[unsafe(no_mangle)]
pub extern "C" fn joftaki_first_way(
    plan: &[u8],
    n: usize,
    t: usize,
    g: usize,
    h: usize,
    s: usize,
    z: usize,
    hops: &mut usize,
    way: &mut [u16],
    work: &mut [u64],
) -> u32
    ensures { way_given result hops.new way.new work.new ≡
        way_exit (way_answer first_way (question plan.now n t g h s z) way.old work.old) }
{
    let answer = listing::first_way(plan, n, t, g, h, s, z, way, work);
    *hops = way_hops(answer);
    way_code(answer)
}

// Operation 8, next way: its number or last's, the hops in a slot, and the positions in the way buffer.
#[unsafe(no_mangle)]
pub extern "C" fn joftaki_next_way(
    plan: &[u8],
    n: usize,
    t: usize,
    g: usize,
    h: usize,
    s: usize,
    z: usize,
    hops: &mut usize,
    way: &mut [u16],
    work: &mut [u64],
) -> u32
    ensures { way_given result hops.new way.new work.new ≡
        way_exit (way_answer next_way (question plan.now n t g h s z) way.old work.old) }
{
    let answer = listing::next_way(plan, n, t, g, h, s, z, way, work);
    *hops = way_hops(answer);
    way_code(answer)
}

// Taking a plan into a band (document 02, C-22): the number, and the table as taking in leaves it.
#[unsafe(no_mangle)]
pub extern "C" fn joftaki_take_in(plan: &[u8], n: usize, t: usize, c: u16, table: &mut [u16]) -> u32
    ensures { answered result table.new ≡ take_in plan.now n t c table.old }
{
    answer_code(band::take_in(plan, n, t, c, table))
}

// Taking a plan out (document 02, C-22): the number, and the table as taking out leaves it.
#[unsafe(no_mangle)]
pub extern "C" fn joftaki_take_out(plan: &[u8], n: usize, t: usize, table: &mut [u16]) -> u32
    ensures { answered result table.new ≡ take_out plan.now n t table.old }
{
    answer_code(band::take_out(plan, n, t, table))
}
