// The greatest overloaded length of a span or, where there is none, the length with the least slack: by hunts that go down (`spans::hunt`). Each has one more than the least slack so far as its bar, so it
// finds a length that is as good or better, or tells that there is none. From a hit the next hunt goes on below the start of its stretch of equal demand, where the slack is least.
ghost use Rattle.std.specs.Prelude.{◌≡◌, ◌+◌, ◌-◌, ◌<◌, ◌≤◌};
ghost use Rattle.demand.specs.Demand.{demand};
ghost use Rattle.verdicts.specs.Ways.SlackHunt.{Level, Seeks};
ghost use Rattle.demand.specs.Sizes.{busy_most, length_most, time_most};

use crate::demands::demand_at;
use crate::spans::{Spot, hunt, next_end};
use crate::stalls::StalledCore;
use crate::stretches::stretch_start;

// What is found of a span.
#[derive(Clone, Copy, PartialEq, Eq)]
pub enum Sought {
    Over(Spot),
    Least(Spot),
}

// The start of the stretch that a hit lies in, not below a and not past the largest window; or its own length, where the demand at the start is another.
pub fn level(core: &StalledCore, a: u64, hit: Spot) -> u64
    requires { (a ≤ hit.length) × (hit.length ≤ length_most) × (hit.demand ≡ demand core.now.stall core.now.pieces.now hit.length) }
    ensures { Level (demand core.now.stall core.now.pieces.now) core.now.widest a hit.length result }
{
    let start = stretch_start(core.pieces, a, hit.length);
    let v = next_end(hit.length.min(start), core.widest, hit.length);
    if v == hit.length {
        return v;
    }
    if demand_at(core, v) == hit.demand {
        v
    } else {
        hit.length
    }
}

// The l lengths from a. From `end` up none is overloaded, and none has less slack than `best`.
pub fn seek(core: &StalledCore, a: u64, l: u64) -> Sought
    requires { (a ≤ time_most) × (1 ≤ l) × (l ≤ busy_most) }
    ensures { Seeks (demand core.now.stall core.now.pieces.now) a l result }
{
    let mut best = Spot {
        length: a,
        demand: demand_at(core, a),
    };
    let mut end = a + l;
    while a < end {
        let bar = best.length.saturating_sub(best.demand) + 1;
        let Some(hit) = hunt(core, bar, a, end - a) else {
            return Sought::Least(best);
        };
        if hit.length < hit.demand {
            return Sought::Over(hit);
        }
        let v = level(core, a, hit);
        if v < hit.demand {
            return Sought::Over(Spot {
                length: hit.demand - 1,
                demand: hit.demand,
            });
        }
        best = Spot {
            length: v,
            demand: hit.demand,
        };
        end = v;
    }
    Sought::Least(best)
}
