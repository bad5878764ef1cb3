// Changes of load as numbers with sign: loads written to a table, later loads less the written ones, and the table cleared. None of
// these is an operation: a caller has tested the lengths before.
#![tactic(auto)]

ghost use Rattle.std.specs.Prelude.{◌≡◌, ◌≤◌, length};
ghost use Rattle.changes.specs.Changes.{Writable, Subtractable, with_loads, with_differences, with_zeros};

// Writes n loads, from a place on, to the first entries.
pub fn write_loads(changes: &mut [i64], loads: &[u64], at: usize, n: usize)
    requires { Writable loads.now at n changes.old }
    ensures { changes.new ≡ with_loads loads.now at n changes.old }
{
    for v in 0..n {
        changes[v] = loads[at + v] as i64;
    }
}

// Each of the first n entries becomes the load at its place less the entry.
pub fn subtract_loads(changes: &mut [i64], loads: &[u64], at: usize, n: usize)
    requires { Subtractable loads.now at n changes.old }
    ensures { changes.new ≡ with_differences loads.now at n changes.old }
{
    for v in 0..n {
        changes[v] = loads[at + v] as i64 - changes[v];
    }
}

// Writes 0 to the first n entries.
pub fn clear_changes(changes: &mut [i64], n: usize)
    requires { n ≤ length changes.old }
    ensures { changes.new ≡ with_zeros n changes.old }
{
    changes[..n].fill(0);
}
