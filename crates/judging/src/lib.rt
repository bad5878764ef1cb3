// Judging a list of positions by the complete list of a pair: leg by leg, way by way. None of these is an operation: a caller has
// excluded every cause of refusal before.
#![tactic(auto)]

ghost use Rattle.std.specs.Prelude.{◌≡◌, [], suc, ◌+◌, ◌-◌, ◌*◌, ◌<◌, ◌≤◌, eqb, length, get_or, take, drop};
ghost use Rattle.temporal.specs.Verdict.{verdict_on};
ghost use Rattle.ways.specs.Found.{list_in, begins};
ghost use Rattle.judging.specs.Legs.{FirstLegs, LastLegs, Follows};
ghost use Rattle.judging.specs.Judge.{
  Tells,
  Judgeable,
  WayJudgeable,
  LegJudgeable,
  FirstBehind,
  NoneBehind,
  search_from,
  Alike,
  verdict_of,
  WaysJudgeable,
  Continued,
};

use ways::Pair;

// What is said of a list of positions: exactly the complete list, its first few whole ways, or neither.
#[derive(Clone, Copy, Debug, PartialEq, Eq)]
pub enum Judgement {
    Complete,
    Beginning,
    Wrong,
}

// Whether i is the first position from a given one on that leads home behind the first k legs of a way.
fn is_found(
    way: &[u16],
    work: &[u64],
    plan: &[u8],
    q: Pair,
    k: usize,
    from: usize,
    i: usize,
) -> bool
    requires { LegJudgeable plan.now q work.now k way.now }
    ensures { Tells result (FirstBehind (begins plan.now q) (take k way.now) from i) }
{
    ways::found_behind(way, work, plan, q, k, from) == Some(i)
}

// Whether no position from a given one on leads home behind the first k legs of a way.
fn none_found(way: &[u16], work: &[u64], plan: &[u8], q: Pair, k: usize, from: usize) -> bool
    requires { LegJudgeable plan.now q work.now k way.now }
    ensures { Tells result (NoneBehind (begins plan.now q) (take k way.now) from) }
{
    ways::found_behind(way, work, plan, q, k, from).is_none()
}

// Where the search for leg k of a way begins.
fn search_from(way: &[u16], k: usize) -> usize
    requires { k ≤ length way.now }
    ensures { result ≡ search_from way.now k }
{
    if k == 0 {
        return 0;
    }
    usize::from(way[k - 1]) + 1
}

// Whether leg k of a way is the first position that leads home behind the legs before it.
fn first_leg(way: &[u16], work: &[u64], plan: &[u8], q: Pair, k: usize) -> bool
    requires { LegJudgeable plan.now q work.now k way.now }
    ensures { Tells result (FirstBehind (begins plan.now q) (take k way.now) 0 (get_or way.now k 0)) }
{
    let from = search_from(way, k);
    is_found(way, work, plan, q, k, from, usize::from(way[k]))
}

// Whether leg k of a way is the last position that leads home behind the legs before it.
fn last_leg(way: &[u16], work: &[u64], plan: &[u8], q: Pair, k: usize) -> bool
    requires { LegJudgeable plan.now q work.now k way.now }
    ensures { Tells result (NoneBehind (begins plan.now q) (take k way.now) (get_or way.now k 0 + 1)) }
{
    let from = usize::from(way[k]) + 1;
    none_found(way, work, plan, q, k, from)
}

// Whether leg k of b is the first position after that of a that leads home behind the legs of a before it.
fn next_leg(a: &[u16], b: &[u16], work: &[u64], plan: &[u8], q: Pair, k: usize) -> bool
    requires { LegJudgeable plan.now q work.now k a.now × (k < length b.now) }
    ensures { Tells result (FirstBehind (begins plan.now q) (take k a.now) (get_or a.now k 0 + 1)
        (get_or b.now k 0)) }
{
    let from = usize::from(a[k]) + 1;
    is_found(a, work, plan, q, k, from, usize::from(b[k]))
}

// Whether each leg of a way from a given one on is the first position that leads home behind the legs before it. One function for it and for
// last_legs would take the test of a leg as a closure, whose contract is as long as the function.
fn first_legs(way: &[u16], work: &[u64], plan: &[u8], q: Pair, from: usize) -> bool
    requires { WayJudgeable plan.now q work.now way.now }
    ensures { Tells result (FirstLegs (begins plan.now q) q.hops from way.now) }
{
    for k in from..q.hops {
        if !first_leg(way, work, plan, q, k) {
            return false;
        }
    }
    true
}

// Whether each leg of a way from a given one on is the last position that leads home behind the legs before it.
fn last_legs(way: &[u16], work: &[u64], plan: &[u8], q: Pair, from: usize) -> bool
    requires { WayJudgeable plan.now q work.now way.now }
    ensures { Tells result (LastLegs (begins plan.now q) q.hops from way.now) }
{
    for k in from..q.hops {
        if !last_leg(way, work, plan, q, k) {
            return false;
        }
    }
    true
}

// How many first entries of two ways are the same, of h.
fn alike(a: &[u16], b: &[u16], h: usize) -> usize
    requires { (h ≤ length a.now) × (h ≤ length b.now) }
    ensures { Alike h a.now b.now result }
{
    for k in 0..h {
        if a[k] != b[k] {
            return k;
        }
    }
    h
}

// Whether b follows a: at the first leg where they differ no position between leads home, and the legs behind it are the last ones
// that do in a and the first ones in b.
fn follows(a: &[u16], b: &[u16], work: &[u64], plan: &[u8], q: Pair) -> bool
    requires { WayJudgeable plan.now q work.now a.now × (q.hops ≤ length b.now) }
    ensures { Tells result (Follows (begins plan.now q) q.hops a.now b.now) }
{
    let leg = alike(a, b, q.hops);
    leg < q.hops
        && next_leg(a, b, work, plan, q, leg)
        && last_legs(a, work, plan, q, leg + 1)
        && first_legs(b, work, plan, q, leg + 1)
}

// Whether the way that begins at a place of a list follows the one before it.
fn follows_at(list: &[u16], work: &[u64], plan: &[u8], q: Pair, at: usize) -> bool
    requires { Judgeable plan.now q work.now × (q.hops ≤ at) × (at + q.hops ≤ length list.now) }
    ensures { Tells result (Follows (begins plan.now q) q.hops (take q.hops (drop (at - q.hops) list.now))
        (take q.hops (drop at list.now))) }
{
    follows(
        &list[at - q.hops..at],
        &list[at..at + q.hops],
        work,
        plan,
        q,
    )
}

// Whether each way of a list behind the first one, which is that of the complete list, follows the one before it.
fn ways_follow(list: &[u16], work: &[u64], plan: &[u8], q: Pair) -> bool
    requires { WaysJudgeable plan.now q work.now list.now × FirstLegs (begins plan.now q) q.hops 0 list.now }
    ensures { Continued (list_in plan.now q) list.now result }
{
    for at in (q.hops..list.len()).step_by(q.hops) {
        if !follows_at(list, work, plan, q, at) {
            return false;
        }
    }
    true
}

// Whether the last way of a list is one behind which the complete list has no other.
fn last_way(list: &[u16], work: &[u64], plan: &[u8], q: Pair) -> bool
    requires { Judgeable plan.now q work.now × (q.hops ≤ length list.now) }
    ensures { Tells result (LastLegs (begins plan.now q) q.hops 0
        (drop (length list.now - q.hops) list.now)) }
{
    let start = list.len() - q.hops;
    last_legs(&list[start..], work, plan, q, 0)
}

// The verdict on a list of one way or more, whole ones by its length.
fn judge_ways(list: &[u16], work: &[u64], plan: &[u8], q: Pair) -> Judgement
    requires { WaysJudgeable plan.now q work.now list.now }
    ensures { verdict_of result ≡ verdict_on (list_in plan.now q) list.now }
{
    if !(first_legs(list, work, plan, q, 0) && ways_follow(list, work, plan, q)) {
        return Judgement::Wrong;
    }
    if last_way(list, work, plan, q) {
        return Judgement::Complete;
    }
    Judgement::Beginning
}

// The verdict on a list of positions by the complete list of a pair that has a walk.
pub fn judge(list: &[u16], work: &[u64], plan: &[u8], q: Pair) -> Judgement
    requires { Judgeable plan.now q work.now }
    ensures { verdict_of result ≡ verdict_on (list_in plan.now q) list.now }
{
    if list.is_empty() {
        return Judgement::Beginning;
    }
    if list.len() % q.hops != 0 {
        return Judgement::Wrong;
    }
    judge_ways(list, work, plan, q)
}

// The verdict on a list of positions where there is no walk: the empty list is complete.
pub fn judge_none(list: &[u16]) -> Judgement
    ensures { verdict_of result ≡ verdict_on [] list.now }
{
    if list.is_empty() {
        Judgement::Complete
    } else {
        Judgement::Wrong
    }
}
