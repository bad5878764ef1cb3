// The layered plan of a station: written from a plan, slot by slot, and read back as the plan's contacts. These are no operations: the
// crates above list the walks that have a station inside by them.
#![tactic(auto)]

ghost use Rattle.std.specs.Prelude.{◌≡◌, ◌+◌, ◌-◌, ◌*◌, ◌<◌, ◌≤◌, length};
ghost use Rattle.std.proofs.lemmas.List.Edits.{sets};
ghost use Rattle.temporal.specs.Bytes.{contact_at};
ghost use Rattle.temporal.specs.Outcome.{over};
ghost use Rattle.plan.specs.Record.{contact_of, SlotRecords};
ghost use Rattle.layered.specs.Layered.{in_layer, lowered, lowered_contact, raised, layered_contact, record_bytes, bytes_from, layered};
ghost use Rattle.layered.specs.Writing.{Small, Layerable, Raisable, Placeable, SlotBounds};

use plan::Contact;

// The station u in layer 1, or in layer 0.
#[tactic(auto, unfolding(crate::specs::Layered::in_layer))]
fn in_layer(n: usize, upper: bool, u: usize) -> usize
    requires { (u < n) × (2 * n ≤ 256) }
    ensures { result ≡ in_layer n upper u }
{
    if upper { n + u } else { u }
}

// The contact with its sender in layer 1, or in layer 0. It is heard in layer 1 where it is sent there or by v.
#[tactic(auto, unfolding(crate::specs::Layered::raised, crate::specs::Layered::heard_in))]
fn raise(n: usize, v: usize, upper: bool, c: Contact) -> Contact
    requires { Small n (contact_of c) × (2 * n ≤ 256) }
    ensures { contact_of result ≡ raised n v upper (contact_of c) }
{
    Contact {
        sender: in_layer(n, upper, c.sender),
        hearer: in_layer(n, upper || v == c.sender, c.hearer),
        ..c
    }
}

// Writes a record of numbers below 256 from a place on.
fn write_record(out: &mut [u8], at: usize, c: Contact)
    requires { (at + 6 ≤ length out.old) × Small 256 (contact_of c) }
    ensures { out.new ≡ sets out.old at (record_bytes (contact_of c)) }
{
    let bytes = [0, c.slot as u8, 0, c.sender as u8, 0, c.hearer as u8];
    out[at..at + 6].copy_from_slice(&bytes);
}

// Writes the record at position i, with its sender in a layer, to place q.
fn write_raised(plan: &[u8], n: usize, v: usize, upper: bool, i: usize, q: usize, out: &mut [u8])
    requires { Raisable plan.now n i q out.old }
    ensures { out.new ≡
        sets out.old (q * 6) (record_bytes (raised n v upper (contact_at plan.now i))) }
{
    let c = plan::contact_at(plan, i);
    let r = raise(n, v, upper, c);
    write_record(out, q * 6, r);
}

// Writes the record at place q, in the slot whose records stand from lo to before hi: first all of them in layer 0, then in layer 1.
fn write_place(plan: &[u8], n: usize, v: usize, lo: usize, hi: usize, q: usize, out: &mut [u8])
    requires { Placeable plan.now n lo hi q out.old }
    ensures { out.new ≡ sets out.old (q * 6) (record_bytes (layered_contact plan.now n v q)) }
{
    if q < lo + hi {
        write_raised(plan, n, v, false, q - lo, q, out);
    } else {
        write_raised(plan, n, v, true, q - hi, q, out);
    }
}

// Writes the records of the slot whose records stand from lo to before hi, in both layers.
fn write_slot(plan: &[u8], n: usize, v: usize, lo: usize, hi: usize, out: &mut [u8])
    requires { Layerable plan.now n out.old × SlotBounds plan.now lo hi }
    ensures { out.new ≡ sets out.old (2 * lo * 6)
        (bytes_from (layered_contact plan.now n v) (2 * lo) (2 * (hi - lo))) }
{
    for q in 2 * lo..2 * hi {
        write_place(plan, n, v, lo, hi, q, out);
    }
}

// The position past the records of the slot of position lo.
fn slot_end_of(plan: &[u8], lo: usize) -> usize
    requires { lo * 6 + 5 < length plan.now }
    ensures { SlotRecords plan.now (contact_at plan.now lo).slot lo result }
{
    let c = plan::contact_at(plan, lo);
    plan::slot_end(plan, lo, c.slot)
}

// Writes the layered plan of v to the beginning of out: twice as many bytes as the plan has.
pub fn layer(plan: &[u8], n: usize, v: usize, out: &mut [u8])
    requires { Layerable plan.now n out.old }
    ensures { out.new ≡ over (layered plan.now n v) out.old }
{
    let m = plan.len() / 6;
    let mut lo = 0;
    // No `for`: each round takes a slot, of any number of records.
    while lo < m {
        let hi = slot_end_of(plan, lo);
        write_slot(plan, n, v, lo, hi, out);
        lo = hi;
    }
}

// The plan's station of a station of either layer.
fn lower(n: usize, u: usize) -> usize
    ensures { result ≡ lowered n u }
{
    if u < n { u } else { u - n }
}

// The plan's contact of the record at a position of its layered plan.
pub fn lowered_contact(layered: &[u8], n: usize, q: usize) -> Contact
    requires { q * 6 + 5 < length layered.now }
    ensures { contact_of result ≡ lowered_contact n (contact_at layered.now q) }
{
    let c = plan::contact_at(layered, q);
    Contact {
        sender: lower(n, c.sender),
        hearer: lower(n, c.hearer),
        ..c
    }
}
