// The account of a station for units that turn round in one slot, as units sold before document 02's C-20 do: `why_one_slot STATION
// NUMBER`, with plan records on standard input and at most so many walks under each pair, gives the account on standard output.
#![tactic(auto)]

ghost use Rattle.temporal.specs.Plan.{turning};
ghost use Rattle.account.specs.Account.{Accounted};

// The account's text for these units; its length.
fn text_of(input: &[u8], station: usize, walks: usize, out: &mut [u8; 2598088]) -> usize
    ensures { Accounted input.now (turning 1) station walks out.old result out.new }
{
    why_program::text_of::<1>(input, station, walks, out)
}

#[tactic(auto, using(account::proofs::AccountedLaws::accounted_within))]
fn main(rt: HostRuntime) {
    why_program::run(&rt, &mut rt.stdin(), &rt.stdout(), &rt.stderr(), text_of);
}
