// Filling, clearing and copying a part of a lent slice. None of these is an operation: a caller has tested the lengths before.
#![tactic(auto)]

ghost use Rattle.std.specs.Prelude.{◌≡◌, ◌+◌, ◌≤◌, length, replicate};
ghost use Rattle.temporal.specs.Outcome.{over};
ghost use Rattle.memory.specs.Fill.{filled};
ghost use Rattle.memory.specs.Copy.{Copyable, Copied};

// Writes one number to as many entries as size says, from a place on.
pub fn fill_part(table: &mut [u64], to: usize, size: usize, x: u64)
    requires { to + size ≤ length table.old }
    ensures { table.new ≡ filled table.old to size x }
{
    table[to..to + size].fill(x);
}

// Writes one value to the first k entries.
pub fn fill<T: Copy>(table: &mut [T], k: usize, x: T)
    requires { k ≤ length table.old }
    ensures { table.new ≡ over (replicate k x) table.old }
{
    for entry in table[..k].iter_mut() {
        *entry = x;
    }
}

// Writes 0 to the first k entries.
pub fn clear(table: &mut [u64], k: usize)
    requires { k ≤ length table.old }
    ensures { table.new ≡ over (replicate k 0) table.old }
{
    table[..k].fill(0);
}

// Copies k entries of a list, from a place on, to the beginning of a table. Entry by entry: copy_from_slice calls memmove, and the C interface
// promises that the library needs memset alone.
pub fn copy(table: &mut [u64], list: &[u64], from: usize, k: usize)
    requires { Copyable list.now from k table.old }
    ensures { Copied list.now from k table.old table.new }
{
    for i in 0..k {
        table[i] = list[from + i];
    }
}
