// What the programs that run cases share: reading a case from standard input, lending parts of tables, writing an answer
// and tables to standard output. A failed write is not told.
#![tactic(auto)]

ghost use Rattle.std.specs.Prelude.{◌<◌, ◌≤◌, length};

use plan::Fault;
use std::fmt::Display;
use std::io::Read;

// The most cases of one input: a proved loop has to end.
pub const MOST: usize = 1000000;

// The N bytes from k on; zeros where they do not lie within the buffer.
fn bytes_at<const N: usize>(buf: &[u8], k: usize) -> [u8; N] {
    let mut bytes = [0; N];
    if k <= buf.len() && N <= buf.len() - k {
        bytes.copy_from_slice(&buf[k..k + N]);
    }
    bytes
}

// The 16-bit number whose first byte stands at k, high byte first; 0 where it does not lie within the buffer.
pub fn word(buf: &[u8], k: usize) -> usize
    ensures { result < 65536 }
{
    usize::from(u16::from_be_bytes(bytes_at(buf, k)))
}

// The 32-bit number whose first byte stands at k, high byte first; 0 where it does not lie within the buffer.
fn long(buf: &[u8], k: usize) -> usize {
    u32::from_be_bytes(bytes_at(buf, k)) as usize
}

// The 64-bit number whose first byte stands at k, high byte first; 0 where it does not lie within the buffer.
pub fn whole(buf: &[u8], k: usize) -> usize {
    usize::from_be_bytes(bytes_at(buf, k))
}

// The entries to lend that the 32-bit number at k of a head names, but no more than a table has.
pub fn lent(head: &[u8], k: usize, most: usize) -> usize
    ensures { result ≤ most }
{
    long(head, k).min(most)
}

// Fills a table with the 16-bit numbers of a buffer, and with zeros where it has no more.
pub fn fill_words(table: &mut [u16], buf: &[u8]) {
    for (i, entry) in table.iter_mut().enumerate() {
        *entry = word(buf, i * 2) as u16;
    }
}

// Reads k bytes to the beginning of a buffer. None where the buffer is shorter, or the input ends before.
pub fn read_part(rt: &impl Input, buf: &mut [u8], k: usize) -> Option<()> {
    rt.reader().read_exact(buf.get_mut(..k)?).ok()
}

// Reads a whole head, then a label and a plan, whose 16-bit lengths stand at places of the head. None where the input has
// no further case.
pub fn read_case(
    rt: &impl Input,
    head: &mut [u8],
    label: &mut [u8],
    plan: &mut [u8],
    label_at: usize,
    plan_at: usize,
) -> Option<()> {
    read_part(rt, head, head.len())?;
    read_part(rt, label, word(head, label_at))?;
    read_part(rt, plan, word(head, plan_at))
}

// Writes bytes.
pub fn write(rt: &impl Print, bytes: &[u8]) {
    let _ = rt.write_all(bytes);
}

// Writes the first k bytes of a buffer, all where it has fewer.
pub fn write_part(rt: &impl Print, buf: &[u8], k: usize) {
    write(rt, &buf[..k.min(buf.len())]);
}

// Writes a space and a number in decimal.
pub fn write_number<T: Copy + Display>(rt: &impl Print, x: T) {
    let _ = print!(rt; " {x}");
}

// Writes the end of a line.
pub fn end_line(rt: &impl Print) {
    write(rt, b"\n");
}

// Writes the number of an operation's answer, 0 where it accepts the call, and gives what it answers.
pub fn write_answer<T>(rt: &impl Print, answer: Result<T, Fault>) -> Option<T> {
    match answer {
        Ok(value) => {
            write_number(rt, 0);
            Some(value)
        }
        Err(fault) => {
            write_number(rt, plan::fault_number(fault));
            None
        }
    }
}

// Where the run of one value that starts at an entry ends.
fn run_end<T: Copy + PartialEq>(table: &[T], from: usize) -> usize
    requires { from < length table.now }
    ensures { (from < result) × (result ≤ length table.now) }
{
    for end in from + 1..table.len() {
        if table[end] != table[from] {
            return end;
        }
    }
    table.len()
}

// Writes the run of x from one entry to another, " i: x" or " i .. j: x", unless x is the value left out.
fn write_run<T: Copy + PartialEq + Display>(
    rt: &impl Print,
    from: usize,
    last: usize,
    x: T,
    out: T,
) {
    if x == out {
        return;
    }
    write_number(rt, from);
    if from < last {
        write(rt, b" ..");
        write_number(rt, last);
    }
    write(rt, b":");
    write_number(rt, x);
}

// Writes " |" and the runs of a table, but those of the value left out.
pub fn write_runs<T: Copy + PartialEq + Display>(rt: &impl Print, table: &[T], out: T) {
    write(rt, b" |");
    // No for: a step is as long as its run.
    let mut from = 0;
    while from < table.len() {
        let end = run_end(table, from);
        write_run(rt, from, end - 1, table[from], out);
        from = end;
    }
}
