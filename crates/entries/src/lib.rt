// The arithmetic of entries, hops and a count, that reach and the forward pass share. None of these is an operation.
#![tactic(auto)]

ghost use Rattle.std.specs.Prelude.{◌≡◌};
ghost use Rattle.entries.specs.Entry.{add_counts, overflows};

// The sum of two counts. 0 stands for a count over 2^64 - 1 and stays.
#[tactic(auto, unfolding(crate::specs::Entry::add_counts))]
pub fn add_counts(a: u64, b: u64) -> u64
    ensures { result ≡ add_counts a b }
{
    if a == 0 || b == 0 {
        return 0;
    }
    a.checked_add(b).unwrap_or(0)
}

// Whether an entry of h hops and a count c has a count over 2^64 - 1.
#[tactic(auto, unfolding(crate::specs::Entry::overflows))]
pub fn too_many(h: u64, c: u64) -> bool
    ensures { result ≡ overflows h c }
{
    h < 65535 && c == 0
}
