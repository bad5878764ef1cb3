// Plan bytes: the faults with their numbers, reading a record, operation 1, `check`, which rests on these, and the slots that a contact may
// follow.
#![tactic(auto)]

ghost use Rattle.std.specs.Prelude.{◌≡◌, ◌+◌, ◌*◌, ◌<◌, ◌≤◌, length};
ghost use Rattle.temporal.specs.Plan.{window_first, window_end};
ghost use Rattle.temporal.specs.Bytes.{word_at, contact_at};
ghost use Rattle.temporal.specs.Struck.{lacking_record, position_with};
ghost use Rattle.temporal.specs.Cause.{first, is_above, record_causes, plan_fault};
ghost use Rattle.plan.specs.declared.Fault.TheVariants.{Plan, Call};
ghost use Rattle.plan.specs.Fault.{plan_number, call_number, fault_number, check_number};
ghost use Rattle.plan.specs.Record.{contact_of, in_slot, SlotRecords};

// The most stations, slots and records of a plan.
const MOST_STATIONS: usize = 256;

const MOST_SLOTS: usize = 255;

const MOST_RECORDS: usize = 8192;

// A fault of the plan, document 01's causes 1 to 5 in turn.
#[derive(Clone, Copy, Debug, PartialEq, Eq)]
pub enum PlanFault {
    Limits,
    Length,
    Slot,
    Ends,
    Order,
}

// A fault of the call, document 01's causes 6 to 10 in turn, then document 02's.
#[derive(Clone, Copy, Debug, PartialEq, Eq)]
pub enum CallFault {
    Station,
    SameStation,
    Short,
    TooMany,
    NotShortestPath,
    SetByte,
    Turnaround,
    Sources,
    Keeping,
    Channels,
    Untaken,
    Position,
}

// Why an operation refuses.
#[derive(Clone, Copy, Debug, PartialEq, Eq)]
pub enum Fault {
    Plan(PlanFault),
    Call(CallFault),
}

impl From<PlanFault> for Fault {
    ghost from_gives = { λ f r. r ≡ Plan f };

    fn from(fault: PlanFault) -> Fault {
        Fault::Plan(fault)
    }
}

impl From<CallFault> for Fault {
    ghost from_gives = { λ f r. r ≡ Call f };

    fn from(fault: CallFault) -> Fault {
        Fault::Call(fault)
    }
}

// How many stations and slots a plan has, its units' turnaround, and for how many slots they keep a reading.
#[derive(Clone, Copy, Debug, PartialEq, Eq)]
pub struct Setting {
    pub stations: usize,
    pub slots: usize,
    pub turnaround: usize,
    pub keeping: usize,
}

// Document 01's number of a fault of the plan.
pub fn plan_number(fault: PlanFault) -> usize
    ensures { result ≡ plan_number fault }
{
    match fault {
        PlanFault::Limits => 1,
        PlanFault::Length => 2,
        PlanFault::Slot => 3,
        PlanFault::Ends => 4,
        PlanFault::Order => 5,
    }
}

// Document 01's number of a fault of the call.
pub fn call_number(fault: CallFault) -> usize
    ensures { result ≡ call_number fault }
{
    match fault {
        CallFault::Station => 6,
        CallFault::SameStation => 7,
        CallFault::Short => 8,
        CallFault::TooMany => 9,
        CallFault::NotShortestPath => 10,
        CallFault::SetByte => 11,
        CallFault::Turnaround => 12,
        CallFault::Sources => 13,
        CallFault::Keeping => 14,
        CallFault::Channels => 15,
        CallFault::Untaken => 16,
        CallFault::Position => 17,
    }
}

// Document 01's number of a fault.
pub fn fault_number(fault: Fault) -> usize
    ensures { result ≡ fault_number fault }
{
    match fault {
        Fault::Plan(f) => plan_number(f),
        Fault::Call(f) => call_number(f),
    }
}

// Document 01's number of check's answer, 0 where the plan is accepted.
pub fn check_number(answer: Result<(), PlanFault>) -> usize
    ensures { result ≡ check_number answer }
{
    match answer {
        Ok(()) => 0,
        Err(fault) => plan_number(fault),
    }
}

// A record: in a slot a station sends and another hears. Records are ordered by slot, then sender, then hearer.
#[derive(Clone, Copy, Debug, PartialEq, Eq, PartialOrd, Ord)]
pub struct Contact {
    pub slot: usize,
    pub sender: usize,
    pub hearer: usize,
}

// The 16-bit number whose first byte stands at k, high byte first.
fn word_at(plan: &[u8], k: usize) -> usize
    requires { k + 1 < length plan.now }
    ensures { result ≡ word_at plan.now k }
{
    u16::from_be_bytes([plan[k], plan[k + 1]]) as usize
}

// The record at position i. It is no operation: the crates above read records of accepted plans by it.
pub fn contact_at(plan: &[u8], i: usize) -> Contact
    requires { i * 6 + 5 < length plan.now }
    ensures { contact_of result ≡ contact_at plan.now i }
{
    let at = i * 6;
    Contact {
        slot: word_at(plan, at),
        sender: word_at(plan, at + 2),
        hearer: word_at(plan, at + 4),
    }
}

// Whether there is a record at position j and it lies in slot u. It is no operation either.
pub fn in_slot(plan: &[u8], j: usize, u: usize) -> bool
    ensures { result ≡ in_slot plan.now j u }
{
    j < plan.len() / 6 && contact_at(plan, j).slot == u
}

// The next four functions read a plan without the record at position out, as if its bytes lacked those six; where there is no such record,
// the whole plan. They are no operations either. First: the position, in the whole plan, of the record that has position j without it.
fn position_with(out: usize, j: usize) -> usize
    requires { j < 18446744073709551615 }
    ensures { result ≡ position_with out j }
{
    if j < out { j } else { j + 1 }
}

// The record at position j.
pub fn kept_contact(plan: &[u8], out: usize, j: usize) -> Contact
    requires { j * 6 + 5 < length (lacking_record plan.now out) }
    ensures { contact_of result ≡ contact_at (lacking_record plan.now out) j }
{
    contact_at(plan, position_with(out, j))
}

// Whether there is a record at position j and it lies in slot u.
pub fn kept_in_slot(plan: &[u8], out: usize, j: usize, u: usize) -> bool
    ensures { result ≡ in_slot (lacking_record plan.now out) j u }
{
    j < plan.len() && in_slot(plan, position_with(out, j), u)
}

// The position past the records of slot u that stand from j on.
pub fn kept_slot_end(plan: &[u8], out: usize, j: usize, u: usize) -> usize
    requires { j * 6 ≤ length (lacking_record plan.now out) }
    ensures { SlotRecords (lacking_record plan.now out) u j result }
{
    // The loop ends at the first record of another slot, so it counts to no end that is known before.
    let mut i = j;
    while kept_in_slot(plan, out, i, u) {
        i += 1;
    }
    i
}

// The same of the whole plan.
pub fn slot_end(plan: &[u8], j: usize, u: usize) -> usize
    requires { j * 6 ≤ length plan.now }
    ensures { SlotRecords plan.now u j result }
{
    kept_slot_end(plan, plan.len(), j, u)
}

// Whether d is above c, compared by slot, then sender, then hearer. Field by field: the derived order takes a quarter more instructions in check,
// and more stack.
fn is_above(c: Contact, d: Contact) -> bool
    ensures { result ≡ is_above (contact_of c) (contact_of d) }
{
    if c.slot < d.slot {
        return true;
    }
    if d.slot < c.slot {
        return false;
    }
    if c.sender < d.sender {
        return true;
    }
    if d.sender < c.sender {
        return false;
    }
    c.hearer < d.hearer
}

// The first of the causes 3, 4 and 5 of the record at i. It is compared with its neighbour once it passed 3 and 4.
fn check_record(plan: &[u8], n: usize, t: usize, i: usize) -> Result<(), PlanFault>
    requires { i * 6 + 5 < length plan.now }
    ensures { check_number result ≡ first (record_causes plan.now n t i) }
{
    let c = contact_at(plan, i);
    if c.slot == 0 || t < c.slot {
        return Err(PlanFault::Slot);
    }
    if c.sender == c.hearer || n <= c.sender || n <= c.hearer {
        return Err(PlanFault::Ends);
    }
    if i == 0 || is_above(contact_at(plan, i - 1), c) {
        Ok(())
    } else {
        Err(PlanFault::Order)
    }
}

// Operation 1, check: accepts a plan of n stations and t slots exactly where no cause 1 to 5 holds, and else gives the
// first in document 01's order, record by record.
pub fn check(plan: &[u8], n: usize, t: usize) -> Result<(), PlanFault>
    ensures { check_number result ≡ plan_fault plan.now n t }
{
    if n == 0 || MOST_STATIONS < n || t == 0 || MOST_SLOTS < t {
        return Err(PlanFault::Limits);
    }
    if plan.len() % 6 != 0 || MOST_RECORDS < plan.len() / 6 {
        return Err(PlanFault::Length);
    }
    for i in 0..plan.len() / 6 {
        check_record(plan, n, t, i)?;
    }
    Ok(())
}

// The first slot after the start that a contact in slot u may follow, where a reading is kept for h slots.
pub fn window_first(h: usize, u: usize) -> usize
    ensures { result ≡ window_first h u }
{
    u.saturating_sub(h).max(1)
}

// The slot past the last that a contact in slot u may follow, with turnaround g.
pub fn window_end(g: usize, u: usize) -> usize
    requires { 0 < g }
    ensures { result ≡ window_end g u }
{
    u.saturating_sub(g) + 1
}
