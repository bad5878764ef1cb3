// Document 02's operations on plans that share a band (C-22): taking a plan in and taking it out. The plan is gone through twice, slot by
// slot: first every entry is looked at, then every entry is written.
#![tactic(auto)]

ghost use Rattle.std.specs.Prelude.{◌≡◌, false, ◌≤◌};
ghost use Rattle.temporal.specs.Band.{take_in, take_out};
ghost use Rattle.plan.specs.Fault.{call_number};
ghost use Rattle.band.specs.Answer.{band_outcome};
ghost use Rattle.band.specs.Taking.{
  refuses,
  changed,
  refusal_number,
  refused_somewhere,
  changed_table,
  taken_by,
  Slotted,
  Lent,
};

use plan::{CallFault, Fault};

// The entries of the table, slot 1 first.
const BAND_SLOTS: usize = 255;

// Which of the two is asked: taking in, with the band's channels, or taking out. An enum and no closures: the definitions that the
// contracts cite go by its cases.
#[derive(Clone, Copy)]
enum Taking {
    In(u16),
    Out,
}

// Whether an entry refuses a slot's records: it would be above the channels, or below 0. The sum may pass 16 bits.
fn refuses(taking: Taking, entry: u16, more: usize) -> bool
    requires { more ≤ 8192 }
    ensures { result ≡ refuses taking entry more }
{
    match taking {
        Taking::In(c) => usize::from(c) < usize::from(entry) + more,
        Taking::Out => usize::from(entry) < more,
    }
}

// An entry with a slot's records taken in or out.
fn changed(taking: Taking, entry: u16, more: usize) -> u16
    requires { refuses taking entry more ≡ false }
    ensures { result ≡ changed taking entry more }
{
    match taking {
        // The check proves that `as` loses no bits; try_from would need an unwrap.
        Taking::In(c) => entry + more as u16,
        Taking::Out => entry - more as u16,
    }
}

// Why an entry refuses.
fn refusal(taking: Taking) -> CallFault
    ensures { call_number result ≡ refusal_number taking }
{
    match taking {
        Taking::In(_) => CallFault::Channels,
        Taking::Out => CallFault::Untaken,
    }
}

// Whether one of the 255 entries refuses its slot's records.
fn refused_somewhere(plan: &[u8], taking: Taking, table: &[u16]) -> bool
    requires { Lent plan.now table.now }
    ensures { result ≡ refused_somewhere taking plan.now table.now }
{
    let mut at = 0;
    for (j, entry) in table[..BAND_SLOTS].iter().enumerate() {
        let end = plan::slot_end(plan, at, j + 1);
        if refuses(taking, *entry, end - at) {
            return true;
        }
        at = end;
    }
    false
}

// Takes each slot's records into its entry, or out of it.
fn change_all(plan: &[u8], taking: Taking, table: &mut [u16])
    requires { Lent plan.now table.old × (refused_somewhere taking plan.now table.old ≡ false) }
    ensures { table.new ≡ changed_table taking plan.now table.old }
{
    let mut at = 0;
    for (j, entry) in table[..BAND_SLOTS].iter_mut().enumerate() {
        let end = plan::slot_end(plan, at, j + 1);
        *entry = changed(taking, *entry, end - at);
        at = end;
    }
}

// Either operation: 1 to 5, then 8, then 15 or 16, then the work.
fn take(plan: &[u8], n: usize, t: usize, taking: Taking, table: &mut [u16]) -> Result<(), Fault>
    ensures { band_outcome result table.new ≡ taken_by taking plan.now n t table.old }
{
    // let .. else is the form that document 01 names for the check's answer.
    let Err(fault) = plan::check(plan, n, t) else {
        if table.len() < BAND_SLOTS {
            return Err(Fault::Call(CallFault::Short));
        }
        if refused_somewhere(plan, taking, table) {
            return Err(Fault::Call(refusal(taking)));
        }
        change_all(plan, taking, table);
        return Ok(());
    };
    Err(Fault::Plan(fault))
}

// Adds a plan's records per slot to a table of 255 entries, slot 1 first; 15 where an entry would be above c.
pub fn take_in(plan: &[u8], n: usize, t: usize, c: u16, table: &mut [u16]) -> Result<(), Fault>
    ensures { band_outcome result table.new ≡ take_in plan.now n t c table.old }
{
    take(plan, n, t, Taking::In(c), table)
}

// Subtracts them; 16 where an entry would be below 0.
pub fn take_out(plan: &[u8], n: usize, t: usize, table: &mut [u16]) -> Result<(), Fault>
    ensures { band_outcome result table.new ≡ take_out plan.now n t table.old }
{
    take(plan, n, t, Taking::Out, table)
}
