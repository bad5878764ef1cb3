// The load program for units that turn round in one slot, as units sold before document 02's C-20 do: plan records on standard
// input, loads on standard output.
#![tactic(auto)]

ghost use Rattle.temporal.specs.Plan.{turning};
ghost use Rattle.report.specs.Report.{Texted};

// The text of an input for these units; its length.
fn text_of(input: &[u8], out: &mut [u8; 697]) -> usize
    ensures { Texted input.now (turning 1) out.old result out.new }
{
    load_program::text_of::<1>(input, out)
}

#[tactic(auto, using(report::proofs::ReportLaws::texted_within))]
fn main(rt: HostRuntime) {
    load_program::run(&mut rt.stdin(), &rt.stdout(), &rt.stderr(), text_of);
}
