// What the load programs print, as one function from the input to the whole text, over operation 5, loads.
#![tactic(auto)]

ghost use Rattle.std.specs.Prelude.{◌≡◌, ◌+◌, ◌*◌, ◌<◌, ◌≤◌, max, length};
ghost use Rattle.text.specs.Written.{Put};
ghost use Rattle.temporal.specs.Plan.{turning};
ghost use Rattle.loads.specs.Answer.{load_buffers};
ghost use Rattle.report.specs.Sizes.{top_station, input_stations, input_slots, wrong_input, over_limits};
ghost use Rattle.report.specs.Report.{heading, line, refusal_text, Reported};
ghost use Rattle.report.specs.Work.{lines_of, table_of, Printable, Within};

// The larger station number of a record.
#[tactic(auto, unfolding(crate::specs::Sizes::top_station))]
fn top_station(input: &[u8], i: usize) -> usize
    requires { i * 6 + 5 < length input.now }
    ensures { result ≡ top_station input.now i }
{
    let c = plan::contact_at(input, i);
    c.sender.max(c.hearer)
}

// The largest station number of all records; 0 where there is no record.
pub fn top_of(input: &[u8]) -> usize
    ensures { result + 1 ≡ input_stations input.now }
{
    (0..input.len() / 6)
        .map(|i| top_station(input, i))
        .max()
        .unwrap_or(0)
}

// The last record's slot; 1 where there is no record.
pub fn slots_of(input: &[u8]) -> usize
    ensures { result ≡ input_slots input.now }
{
    let m = input.len() / 6;
    if m == 0 {
        return 1;
    }
    let c = plan::contact_at(input, m - 1);
    c.slot
}

// Whether the input is not a multiple of 6 bytes, or over 1,024 records.
#[tactic(auto, unfolding(crate::specs::Sizes::wrong_input, temporal::specs::Bytes::records))]
pub fn wrong_input(input: &[u8]) -> bool
    ensures { result ≡ wrong_input input.now }
{
    input.len() % 6 != 0 || 1024 < input.len() / 6
}

// Whether stations up to this one are over 32, or slots over 63.
#[tactic(auto, unfolding(crate::specs::Sizes::over_limits))]
pub fn over_limits(top: usize, t: usize) -> bool
    ensures { result ≡ over_limits (top + 1) t }
{
    31 < top || 63 < t
}

// Writes the one line of a refusal.
pub fn put_refusal(out: &mut [u8], at: usize, k: u64) -> usize
    requires { at + length (refusal_text k) ≤ length out.old }
    ensures { Put at (refusal_text k) out.old result out.new }
{
    let end = text::put_bytes(out, at, b"refused ");
    text::put_field(out, end, k, b"\n")
}

// Writes the first line.
fn put_heading(out: &mut [u8], at: usize, n: u64, t: u64, m: u64) -> usize
    requires { at + length (heading n t m) ≤ length out.old }
    ensures { Put at (heading n t m) out.old result out.new }
{
    text::put_labelled(
        out,
        at,
        b"stations ",
        n,
        b" slots ",
        t,
        b" contacts ",
        m,
        b"\n",
    )
}

// Writes a station's line.
fn put_line(out: &mut [u8], at: usize, v: u64, pairs: u64, load: u64) -> usize
    requires { at + length (line v pairs load) ≤ length out.old }
    ensures { Put at (line v pairs load) out.old result out.new }
{
    text::put_fields(out, at, v, b" ", pairs, b" ", load, b"\n")
}

// Writes a line for each of the first n stations.
fn put_lines(out: &mut [u8], at: usize, n: usize, pairs: &[u64], sums: &[u64]) -> usize
    requires { Printable at n pairs.now sums.now (lines_of pairs.now sums.now n) out.old }
    ensures { Put at (lines_of pairs.now sums.now n) out.old result out.new }
{
    let mut end = at;
    for v in 0..n {
        end = put_line(out, end, v as u64, pairs[v], sums[v]);
    }
    end
}

// Writes the loads: the first line, then a line for each station.
fn put_table(out: &mut [u8], n: usize, t: usize, m: usize, pairs: &[u64], sums: &[u64]) -> usize
    requires { Printable 0 n pairs.now sums.now (table_of pairs.now sums.now n t m) out.old }
    ensures { Put 0 (table_of pairs.now sums.now n t m) out.old result out.new }
{
    let at = put_heading(out, 0, n as u64, t as u64, m as u64);
    put_lines(out, at, n, pairs, sums)
}

// The text of an input within the program's limits. With h = 255 a reading is kept until the plan ends.
fn report_within(
    input: &[u8],
    n: usize,
    t: usize,
    g: usize,
    out: &mut [u8],
    pairs: &mut [u64],
    sums: &mut [u64],
    work: &mut [u64],
) -> usize
    requires { Within input.now n t out.old pairs.old sums.old work.old }
    ensures { Reported input.now (turning g) out.old
        (load_buffers pairs.old sums.old work.old) result out.new
        (load_buffers pairs.new sums.new work.new) }
{
    match loads::loads(input, n, t, g, 255, pairs, sums, work) {
        Ok(()) => put_table(out, n, t, input.len() / 6, pairs, sums),
        Err(fault) => put_refusal(out, 0, plan::fault_number(fault) as u64),
    }
}

// The whole text that a load program prints for an input and units with turnaround g, at the beginning of the output buffer; its
// length.
pub fn report(
    input: &[u8],
    g: usize,
    out: &mut [u8; 697],
    pairs: &mut [u64; 32],
    sums: &mut [u64; 32],
    work: &mut [u64; 8192],
) -> usize
    ensures { Reported input.now (turning g) out.old
        (load_buffers pairs.old sums.old work.old) result out.new
        (load_buffers pairs.new sums.new work.new) }
{
    if wrong_input(input) {
        return put_refusal(out, 0, 2);
    }
    let top = top_of(input);
    let t = slots_of(input);
    if over_limits(top, t) {
        return put_refusal(out, 0, 1);
    }
    report_within(input, top + 1, t, g, out, pairs, sums, work)
}
