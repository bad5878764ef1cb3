// What the operations share of a call's own causes: 12 and 14 of every one that takes the units' terms; 12, 14, 6, 7 and 8 of one on a
// pair.
#![tactic(auto)]

ghost use Rattle.std.specs.Prelude.{◌≡◌, ℕ, ◌≤◌};
ghost use Rattle.temporal.specs.Plan.{units};
ghost use Rattle.temporal.specs.Cause.{first, wrong_turnaround, wrong_keeping, terms_causes};
ghost use Rattle.calls.specs.Call.{stations_fault, pair_call_fault, call_check_number};

use plan::{CallFault, Setting};

// The most slots for which a reading is kept.
const MOST_KEEPING: usize = 255;

// What a call on a pair asks about: a plan with its setting, a source and a destination.
#[derive(Clone, Copy)]
pub struct Question<'a> {
    pub plan: &'a [u8],
    pub setting: Setting,
    pub source: usize,
    pub destination: usize,
}

// Whether the turnaround is outside 1 to 16: 12.
fn wrong_turnaround(g: usize) -> bool
    ensures { (h : ℕ) → result ≡ wrong_turnaround (units g h) }
{
    g == 0 || 16 < g
}

// Whether a reading is kept for fewer slots than the turnaround, or for over 255: 14.
fn wrong_keeping(g: usize, h: usize) -> bool
    ensures { result ≡ wrong_keeping (units g h) }
{
    h < g || MOST_KEEPING < h
}

// 12 and 14 of a call that says the units' terms.
pub fn terms_call(g: usize, h: usize) -> Result<(), CallFault>
    ensures { call_check_number result ≡ first (terms_causes (units g h)) }
{
    if wrong_turnaround(g) {
        return Err(CallFault::Turnaround);
    }
    if wrong_keeping(g, h) {
        return Err(CallFault::Keeping);
    }
    Ok(())
}

// 6, 7 and 8 of a call that names a pair and lends `lent` entries where `named` are asked, and `area` of the work area.
fn stations_call(
    n: usize,
    t: usize,
    source: usize,
    destination: usize,
    lent: usize,
    named: usize,
    area: usize,
) -> Result<(), CallFault>
    requires { (n ≤ 256) × (t ≤ 255) }
    ensures { call_check_number result ≡ stations_fault n t source destination lent named area }
{
    if n <= source || n <= destination {
        return Err(CallFault::Station);
    }
    if source == destination {
        return Err(CallFault::SameStation);
    }
    if lent < named || area < 4 * (n * (t + 1)) {
        return Err(CallFault::Short);
    }
    Ok(())
}

// 12, 14, 6, 7 and 8 of a call that names a pair and lends such entries.
pub fn pair_call(
    n: usize,
    t: usize,
    g: usize,
    h: usize,
    source: usize,
    destination: usize,
    lent: usize,
    named: usize,
    area: usize,
) -> Result<(), CallFault>
    requires { (n ≤ 256) × (t ≤ 255) }
    ensures { call_check_number result ≡ pair_call_fault n t (units g h) source destination lent named area }
{
    terms_call(g, h)?;
    stations_call(n, t, source, destination, lent, named, area)
}
