// The programs that account for a station, which differ only in the slots that a unit takes to turn round: the arguments are a station and
// a number, plan records are read, and the account with at most so many walks under each pair is written. A program reads no more than one
// byte over the largest input, which is enough to refuse. Wrong arguments are told before anything is read; after that or a failed read
// nothing is written.
#![tactic(auto)]

ghost use Rattle.std.specs.Prelude.{◌≤◌, length};
ghost use Rattle.temporal.specs.Plan.{turning};
ghost use Rattle.account.specs.Account.{Accounted};

use std::env::Env;
use std::io::Read;

// The account's text for units that turn round in G slots; its length.
pub fn text_of<const G: usize>(
    input: &[u8],
    station: usize,
    walks: usize,
    out: &mut [u8; 2598088],
) -> usize
    ensures { Accounted input.now (turning G) station walks out.old result out.new }
{
    let mut pairs = [0u64; 32];
    let mut sums = [0u64; 32];
    let mut layered = [0u8; 12288];
    let mut way = [0u16; 63];
    let mut work = [0u64; 16384];
    account::account(
        input,
        G,
        station,
        walks,
        out,
        &mut pairs,
        &mut sums,
        &mut layered,
        &mut way,
        &mut work,
    )
}

// The program whose account's text is this one. The text lies within its buffer.
pub fn run<F: FnOnce(&[u8], usize, usize, &mut [u8; 2598088]) -> usize>(
    environment: &impl Env,
    reader: &mut impl Read,
    output: &impl Print,
    errors: &impl Print,
    text_of: F,
)
    requires callable { F.IsAlwaysCallable text_of }
    requires within { (input : _) (station walks : _) (old : _) (size : _) (new : _) →
        F.post text_of input station walks old size new → size ≤ length new.now }
{
    let Some(request) = asked::arguments(
        environment,
        errors,
        b"why: the arguments are a station and a number of walks, 0 to 8\n",
    ) else {
        return;
    };
    let mut bytes = [0u8; 6145];
    let mut out = [0u8; 2598088];
    let Ok(got) = load::read_records(
        reader,
        errors,
        b"why: reading standard input failed\n",
        &mut bytes,
    ) else {
        return;
    };
    let size = text_of(&bytes[..got], request.station, request.walks, &mut out);
    load::write_text(
        output,
        errors,
        b"why: writing standard output failed\n",
        &out[..size],
    );
}
