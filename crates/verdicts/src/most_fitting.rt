// How much a piece may be charged beside a core: a walk down that lowers its charge wherever it does not fit. One walk so tells of every smaller
// charge at once, where a verdict tells of one.
ghost use Rattle.std.specs.Prelude.{◌≡◌, ◌+◌, ◌<◌, ◌≤◌};
ghost use Rattle.verdicts.specs.MostFitting.{most_fitting};
ghost use Rattle.verdicts.specs.Ways.ChargeWalk.{FitsInto, Levels, Stands, Lowers, last_below};
ghost use Rattle.demand.specs.Ways.Ranges.{Ranged, charge_most};
ghost use Rattle.demand.specs.Sizes.{length_most};

use crate::demands::{demand_at, interrupts_of, jobs_due};
use crate::spans::next_end;
use crate::stalls::StalledCore;
use crate::stretches::{piece_start, stretch_start};
use demand::Charged;

// What a length told: the greatest charge that fits there, what is asked for beside it, and how many jobs are charged.
#[derive(Clone, Copy, PartialEq, Eq)]
pub struct Look {
    pub charge: u64,
    pub rest: u64,
    pub jobs: u64,
}

// Where the walk stands: what is left of the charge, the end from which on that fits, and the length to look at next. Where that is not the last below the end, the charge
// was lowered at the last, and the rest and the jobs are what is asked for there.
#[derive(Clone, Copy, PartialEq, Eq)]
pub struct Lowering {
    pub charge: u64,
    pub end: u64,
    pub look: u64,
    pub rest: u64,
    pub jobs: u64,
}

// The greatest charge up to f whose jobs fit the room.
pub fn fitting(f: u64, jobs: u64, room: u64) -> u64
    requires { (f ≤ charge_most) × (jobs ≤ 102000001) }
    ensures { FitsInto f jobs room result }
{
    if jobs * f <= room { f } else { room / jobs }
}

// The greatest charge up to f that fits at t. Where none fits, all is 0.
pub fn level_at(core: &StalledCore, q: Charged, f: u64, t: u64) -> Look
    requires ranged { Ranged q }
    requires f_le_charge_most { (f ≤ charge_most) × (t ≤ length_most) }
    ensures { Levels core.now.stall core.now.pieces.now q f t result }
{
    let g = demand_at(core, t);
    if t < g {
        return Look {
            charge: 0,
            rest: 0,
            jobs: 0,
        };
    }
    let calls = interrupts_of(q, t);
    if t - g < calls {
        return Look {
            charge: 0,
            rest: 0,
            jobs: 0,
        };
    }
    let jobs = jobs_due(q, t);
    let y = fitting(f, jobs, t - g - calls);
    Look {
        charge: y,
        rest: g + calls,
        jobs,
    }
}

// The walk looks at the last length below the end.
pub fn last_below(charge: u64, end: u64) -> Lowering
    ensures { result ≡ last_below charge end }
{
    Lowering {
        charge,
        end,
        look: end.saturating_sub(1),
        rest: 0,
        jobs: 0,
    }
}

// One look. Where what is left fits at the last length below the end, the walk goes on below what is asked for there. Where less of it fits, the next look is where the
// demand at that length begins, since a charge fits least there; what that leaves goes on below what is asked for at the last. One call of `level_at` for both looks lets it be
// compiled into the walk.
pub fn lower(core: &StalledCore, q: Charged, a: u64, s: Lowering) -> Lowering
    requires ranged { Ranged q }
    requires charge_le_charge_most { (s.charge ≤ charge_most) × (s.end ≤ length_most) }
    requires a_lt_end { (a < s.end) × Stands core.now.stall core.now.pieces.now q a s }
    ensures { Lowers core.now.stall core.now.pieces.now q a s result }
{
    let v = level_at(core, q, s.charge, s.look);
    if v.charge == 0 {
        return last_below(0, 0);
    }
    let t = s.end - 1;
    if s.look < t {
        let end = next_end(s.rest + s.jobs * v.charge, core.widest, t);
        return last_below(v.charge, end);
    }
    if s.charge <= v.charge {
        let end = next_end(v.rest + v.jobs * v.charge, core.widest, t);
        return last_below(v.charge, end);
    }
    let start = t.min(stretch_start(core.pieces, a.max(piece_start(q, t)), t));
    Lowering {
        charge: v.charge,
        end: s.end,
        look: start,
        rest: v.rest,
        jobs: v.jobs,
    }
}

// The greatest charge up to f with which q fits beside the pieces at each of the l lengths from a, or 0: down from the last of them, with f lowered wherever it
// does not fit.
pub fn squeeze(core: &StalledCore, q: Charged, f: u64, a: u64, l: u64) -> u64
    requires ranged { Ranged q }
    requires f_le_charge_most { (f ≤ charge_most) × (a + l ≤ length_most) }
    ensures { result ≡ most_fitting core.now.stall core.now.pieces.now q a l f }
{
    let mut s = last_below(f, a + l);
    while a < s.end {
        s = lower(core, q, a, s);
    }
    s.charge
}
