// Operation 3, row, and its sister. They read no plan.
#![tactic(auto)]

ghost use Rattle.std.specs.Prelude.{◌≡◌};
ghost use Rattle.temporal.specs.Outcome.{row_number};
ghost use Rattle.rows.specs.Part.{RowPart};

// Row's number of refusal, 0 where row is accepted. It reads no plan.
// A number and no Result: document 01 asks for the number by itself, and the C interface hands it on.
pub fn row_number(table: &[u64], n: usize, t: usize, station: usize) -> usize
    ensures { result ≡ row_number n t station table.now }
{
    if n == 0 || 256 < n || t == 0 || 255 < t {
        return 1;
    }
    if n <= station {
        return 6;
    }
    if table.len() < n * (t + 1) {
        return 8;
    }
    0
}

// Operation 3, row: the part of the caller's own table of appearance counts that holds a station's t + 1 entries, where it
// stands; an empty part on refusal.
pub fn row(table: &[u64], n: usize, t: usize, station: usize) -> &[u64]
    ensures { RowPart n t station table.entry result }
{
    if row_number(table, n, t, station) != 0 {
        return &table[0..0];
    }
    let start = station * (t + 1);
    let end = start + (t + 1);
    &table[start..end]
}
