// The verdict over the judged span: from its top down by QPA (001), with care at the largest window.
ghost use Rattle.std.specs.Prelude.{◌≡◌, ◌+◌, ◌≤◌, ltb};
ghost use Rattle.demand.specs.Sizes.{busy_most, time_most};
ghost use Rattle.demand.specs.Demand.{demand};
ghost use Rattle.demand.specs.Verdict.{scan, verdict};
ghost use Rattle.verdicts.specs.Ways.SlackHunt.{Hunts};

use crate::busy_climb::climb_busy;
use crate::demands::{demand_at, least_live};
use crate::stalls::StalledCore;
use demand::Verdict;

// A length, and the demand there.
#[derive(Clone, Copy, PartialEq, Eq)]
pub struct Spot {
    pub length: u64,
    pub demand: u64,
}

// The end below which the descent goes on, after the demand g at t. The demand falls at the largest window w, so from at or above it
// the descent never steps past it.
pub fn next_end(g: u64, w: u64, t: u64) -> u64
    requires { g ≤ t }
    ensures { (g ≤ result) × (result ≤ t) × (w ≤ t → w ≤ result) }
{
    if w <= t { g.max(w) } else { g }
}

// Whether the length t is overloaded with the demand g and the bar added.
pub fn reaches(g: u64, bar: u64, t: u64) -> bool
    ensures { result ≡ ltb t (g + bar) }
{
    if t < g {
        return true;
    }
    t - g < bar
}

// The greatest of the l lengths from a at which the demand, with the bar added, is above the length. All lengths from `end` up are known to be below it.
pub fn hunt(core: &StalledCore, bar: u64, a: u64, l: u64) -> Option<Spot>
    requires { (a ≤ time_most) × (l ≤ busy_most) }
    ensures { Hunts (demand core.now.stall core.now.pieces.now) bar a l result }
{
    let mut end = a + l;
    while a < end {
        let length = end - 1;
        let demand = demand_at(core, length);
        if reaches(demand, bar, length) {
            return Some(Spot { length, demand });
        }
        end = next_end(demand + bar, core.widest, length);
    }
    None
}

// The greatest overloaded length among the l from a: a hunt with no bar.
pub fn descend(core: &StalledCore, a: u64, l: u64) -> Verdict
    requires { (a ≤ time_most) × (l ≤ busy_most) }
    ensures { result ≡ scan core.now.stall core.now.pieces.now a l }
{
    match hunt(core, 0, a, l) {
        Some(hit) => Verdict::Overloaded(hit.length),
        None => Verdict::Passes,
    }
}

// The verdict on a core.
pub fn judge_core(core: &StalledCore) -> Verdict
    ensures { result ≡ verdict core.now.stall core.now.pieces.now }
{
    if core.pieces.is_empty() {
        return Verdict::Passes;
    }
    match climb_busy(core.pieces) {
        None => Verdict::Undecided,
        Some(l) => {
            let a = least_live(core.pieces);
            descend(core, a, l)
        }
    }
}
