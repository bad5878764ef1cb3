// Bytes and decimal numbers, written into a lent buffer at a place. Each function answers the place behind what it wrote.
#![tactic(auto)]

ghost use Rattle.std.specs.Prelude.{◌+◌, ◌≤◌, length};
ghost use Rattle.text.specs.Written.{Put};
ghost use Rattle.text.specs.Decimal.{decimal};
ghost use Rattle.text.specs.Field.{field, fields, labelled};

// Writes bytes from a place on.
#[tactic(auto, using(crate::proofs::WrittenLaws::put_copied))]
pub fn put_bytes(out: &mut [u8], at: usize, bytes: &[u8]) -> usize
    requires { at + length bytes.now ≤ length out.old }
    ensures { Put at bytes.now out.old result out.new }
{
    let end = at + bytes.len();
    out[at..end].copy_from_slice(bytes);
    end
}

// Writes a number in decimal from a place on: the digits of x / 10, then the last one.
pub fn put_decimal(out: &mut [u8], at: usize, x: u64) -> usize
    requires { at + length (decimal x) ≤ length out.old }
    ensures { Put at (decimal x) out.old result out.new }
{
    if x < 10 {
        out[at] = x as u8 + 48;
        return at + 1;
    }
    let parts = [x / 10, x % 10];
    let end = put_decimal(out, at, parts[0]);
    put_decimal(out, end, parts[1])
}

// Writes a number and what stands behind it.
pub fn put_field(out: &mut [u8], at: usize, x: u64, behind: &[u8]) -> usize
    requires { at + length (field x behind.now) ≤ length out.old }
    ensures { Put at (field x behind.now) out.old result out.new }
{
    let end = put_decimal(out, at, x);
    put_bytes(out, end, behind)
}

// Writes three numbers, each with what stands behind it.
pub fn put_fields(
    out: &mut [u8],
    at: usize,
    x: u64,
    a: &[u8],
    y: u64,
    b: &[u8],
    z: u64,
    c: &[u8],
) -> usize
    requires { at + length (fields x a.now y b.now z c.now) ≤ length out.old }
    ensures { Put at (fields x a.now y b.now z c.now) out.old result out.new }
{
    let first = put_field(out, at, x, a);
    let second = put_field(out, first, y, b);
    put_field(out, second, z, c)
}

// Writes a label, then three numbers, each with what stands behind it.
pub fn put_labelled(
    out: &mut [u8],
    at: usize,
    label: &[u8],
    x: u64,
    a: &[u8],
    y: u64,
    b: &[u8],
    z: u64,
    c: &[u8],
) -> usize
    requires { at + length (labelled label.now x a.now y b.now z c.now) ≤ length out.old }
    ensures { Put at (labelled label.now x a.now y b.now z c.now) out.old result
        out.new }
{
    let end = put_bytes(out, at, label);
    put_fields(out, end, x, a, y, b, z, c)
}
