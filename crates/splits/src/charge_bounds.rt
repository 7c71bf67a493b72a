// How much a piece may be charged beside a core, as far as the engine tells: what is left of its charge, or what the core with it behind tells.
ghost use Rattle.std.specs.Prelude.{Some, ◌≡◌, ◌+◌, ◌<◌, ◌≤◌};
ghost use Rattle.demand.specs.Busy.{busy_length};
ghost use Rattle.demand.specs.Demand.{least_live};
ghost use Rattle.demand.specs.Sizes.{length_most, time_most, busy_most};
ghost use Rattle.demand.specs.Ways.Ranges.{Ranged, stall_most, charge_most};
ghost use Rattle.splits.specs.Ways.Bench.{both};
ghost use Rattle.splits.specs.Ways.ChargeBounds.{Caps, Stalled, Unsettled, Bounds};
ghost use Rattle.splits.specs.Ways.MonotoneSearch.{ShowsIf};

use crate::bench::Bench;
use demand::{BUSY_MOST, Charged, Verdict};
use verdicts::{Core, Sum};

// What a core with a piece behind tells: it passes, it does not, with a length that shows it, or it does not with any charge of that piece above f.
#[derive(Clone, Copy, PartialEq, Eq)]
pub enum Bound {
    Stands,
    Falls(u64),
    AtMost(u64),
}

// What one far length and a short walk leave of f: the far length tells where there is more to do than time, the short walk finds most of the rest.
pub fn cap_of(core: &Core, b: u64, q: Charged, f: u64, a: u64) -> u64
    requires ranged { Ranged q }
    requires bounds { (b ≤ stall_most) × (f ≤ charge_most) × (a ≤ time_most) }
    ensures { Caps b core.now q f a result }
{
    let far = core.most_fitting(b, q, f, BUSY_MOST, 1);
    core.most_fitting(b, q, far, a, 4 * q.period)
}

// What the busy length l tells of the core and the piece behind, from their least live length a on. Between the largest window of the core and that of the piece
// only its own blocking is left.
pub fn bound_within(bench: &Bench, b: u64, a: u64, l: u64) -> Bound
    requires bounds { (b ≤ stall_most) × (a ≤ time_most) × (l ≤ busy_most) × (1 ≤ bench.now.tried.charge) }
    requires least { a ≡ least_live (both bench.now) }
    requires busy { busy_length (both bench.now) ≡ Some l }
    ensures { Bounds b bench.now.core bench.now.tried result }
{
    let q = bench.tried();
    let core = bench.core();
    let near = core.most_fitting(b, q, q.charge, a, l);
    if near < q.charge {
        return Bound::AtMost(near);
    }
    let own = a.max(core.largest_window());
    let left = q.window.saturating_sub(own);
    if left == 0 {
        return Bound::Stands;
    }
    match bench.both().span(b, own, left) {
        Verdict::Passes => Bound::Stands,
        Verdict::Overloaded(t) => Bound::Falls(t),
        Verdict::Undecided => Bound::Falls(own),
    }
}

// The greatest charge of q, below its own, that fits at t beside the core where the stall counts. What q asks for with no charge, and how many jobs are charged, the
// sums with q behind tell.
pub fn fit_stalled(bench: &mut Bench, b: u64, q: Charged, t: u64) -> u64
    requires ranged { Ranged q }
    requires bounds { (b ≤ stall_most) × (1 ≤ q.charge) × (t ≤ length_most) }
    ensures { Stalled b bench.old.core q t result × (bench.new.core ≡ bench.old.core) }
{
    bench.put(Charged { charge: 0, ..q });
    let rest = bench.both().sum(Sum::Load, t);
    bench.put(Charged { charge: 1, ..q });
    let jobs = bench.both().sum(Sum::Load, t).saturating_sub(rest);
    if t < b + rest {
        return 0;
    }
    if jobs == 0 {
        return q.charge - 1;
    }
    (q.charge - 1).min((t - (b + rest)) / jobs)
}

// A charge of q, below its own, with which a core that q is of may hold the busy sum at l. What is made of it needs no more than that it is below.
pub fn guess_at(core: &Core, q: Charged, l: u64) -> u64
    requires ranged { Ranged q }
    requires bounds { (1 ≤ q.charge) × (l ≤ length_most) }
    ensures { result < q.charge }
{
    let asked = core.sum(Sum::Busy, l);
    let jobs = ((l + (q.period - 1)) / q.period).max(1);
    q.charge.saturating_sub(1 + asked.saturating_sub(l) / jobs)
}

// The greatest such charge at the last multiples of the periods, where the busy sum is least above the length.
pub fn guess(core: &Core, q: Charged) -> u64
    requires ranged { Ranged q }
    requires some { 1 ≤ q.charge }
    ensures { result < q.charge }
{
    let mut best: u64 = 0;
    for p in core.pieces {
        best = best.max(guess_at(core, q, BUSY_MOST / p.period * p.period));
    }
    best
}

// Whether the core with q behind, charged f, has no busy length.
pub fn unsettled(bench: &mut Bench, q: Charged, f: u64) -> bool
    requires ranged { Ranged q }
    requires bounds { f ≤ charge_most }
    ensures { ShowsIf (Unsettled bench.old.core q f) result × (bench.new.core ≡ bench.old.core) }
{
    bench.put(Charged { charge: f, ..q });
    bench.both().busy_length().is_none()
}

// Where q's own charge leaves no busy length: what is left of it after some probes, from a charge that may leave one. The last few are left to the search, which
// climbs for each as a probe does.
pub fn busy_cap(bench: &mut Bench, q: Charged, from: u64) -> u64
    requires ranged { Ranged q }
    requires unsettled { (from < q.charge) × Unsettled bench.old.core q q.charge }
    ensures { (result < q.charge) × Unsettled bench.old.core q (result + 1) × (bench.new.core ≡ bench.old.core) }
{
    let mut low = from;
    let mut high = q.charge;
    while low + 4 < high {
        let f = (low + high) / 2;
        if unsettled(bench, q, f) {
            high = f;
        } else {
            low = f;
        }
    }
    high - 1
}

// What a core with one piece behind tells. The charge of that piece is written anew where there is no busy length.
pub fn bound_of(bench: &mut Bench, b: u64) -> Bound
    requires { (b ≤ stall_most) × (1 ≤ bench.old.tried.charge) }
    ensures { Bounds b bench.old.core bench.old.tried result × (bench.new.core ≡ bench.old.core) }
{
    let q = bench.tried();
    let a = bench.both().least_live();
    let cap = cap_of(&bench.core(), b, q, q.charge, a);
    if cap < q.charge {
        return Bound::AtMost(cap);
    }
    match bench.both().busy_length() {
        None => {
            let from = guess(&bench.both(), q);
            Bound::AtMost(busy_cap(bench, q, from))
        }
        Some(l) => bound_within(bench, b, a, l),
    }
}
