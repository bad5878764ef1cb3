// The load programs, which differ only in the slots that a unit takes to turn round: plan records are read, and the loads are written. A
// program reads no more than one byte over the largest input, which is enough to refuse. After a failed read nothing is written.
#![tactic(auto)]

ghost use Rattle.std.specs.Prelude.{◌≤◌, length};
ghost use Rattle.temporal.specs.Plan.{turning};
ghost use Rattle.report.specs.Report.{Texted};

use std::io::Read;

// The text of an input for units that turn round in G slots; its length.
pub fn text_of<const G: usize>(input: &[u8], out: &mut [u8; 697]) -> usize
    ensures { Texted input.now (turning G) out.old result out.new }
{
    let mut pairs = [0u64; 32];
    let mut sums = [0u64; 32];
    let mut work = [0u64; 8192];
    report::report(input, G, out, &mut pairs, &mut sums, &mut work)
}

// The program whose text of an input is this one. The text lies within its buffer.
pub fn run<F: FnOnce(&[u8], &mut [u8; 697]) -> usize>(
    reader: &mut impl Read,
    output: &impl Print,
    errors: &impl Print,
    text_of: F,
)
    requires callable { F.IsAlwaysCallable text_of }
    requires within { (input : _) (old : _) (size : _) (new : _) → F.post text_of input old size new → size ≤ length new.now }
{
    let mut bytes = [0u8; 6145];
    let mut out = [0u8; 697];
    let Ok(got) = load::read_records(
        reader,
        errors,
        b"load: reading standard input failed\n",
        &mut bytes,
    ) else {
        return;
    };
    let size = text_of(&bytes[..got], &mut out);
    load::write_text(
        output,
        errors,
        b"load: writing standard output failed\n",
        &out[..size],
    );
}
