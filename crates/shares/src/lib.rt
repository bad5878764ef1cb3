// The share of a pair, in 64-bit words. 2^32 × through has up to 96 bits; it is formed only where it fits a word.
#![tactic(auto)]

ghost use Rattle.std.specs.Prelude.{◌≡◌, ◌+◌, ◌*◌, ◌/◌, ◌^◌, ◌<◌, ◌≤◌};
ghost use Rattle.shares.specs.Division.{Divided};

// A number divided by a count: the whole part, and the rest.
#[derive(Clone, Copy)]
struct Division {
    whole: u64,
    rest: u64,
}

// Twice a number, divided by the same count. The rest is compared with count - rest, so that its double fits.
fn doubled(d: Division, count: u64) -> Division
    requires { (d.whole < 2 ^ 32) × (d.rest < count) }
    ensures { Divided count result.whole result.rest (2 * (d.whole * count + d.rest)) }
{
    let whole = d.whole * 2;
    let rest = d.rest;
    if rest < count - rest {
        Division {
            whole,
            rest: rest * 2,
        }
    } else {
        Division {
            whole: whole + 1,
            rest: rest - (count - rest),
        }
    }
}

// The whole part of 2^32 × through ÷ count, by doubling through 32 times.
fn long_share(through: u64, count: u64) -> u64
    requires { through < count }
    ensures { result ≡ 2 ^ 32 * through / count }
{
    let mut d = Division {
        whole: 0,
        rest: through,
    };
    for _ in 0..32u32 {
        d = doubled(d, count);
    }
    d.whole
}

// The whole part of 2^32 × through ÷ count.
pub fn share(through: u64, count: u64) -> u64
    requires { (through ≤ count) × (0 < count) }
    ensures { result ≡ 2 ^ 32 * through / count }
{
    if through == count {
        return 4294967296;
    }
    if count < 4294967296 {
        return through * 4294967296 / count;
    }
    long_share(through, count)
}
