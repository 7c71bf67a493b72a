// The busy length, climbed by leaps. A plain climb goes from l to what is asked at l, and creeps where the pieces take up nearly all time. So each pass also tells
// how far every length from l on that holds the busy sum must reach: a piece whose next release is at the edge or later asks for the jobs it has by l, any
// other for its share of the length. Such a leap is at most about the largest period, so where a long climb gains little by it, a whole stretch of lengths is walked.
ghost use Rattle.std.specs.Prelude.{◌≡◌, ◌+◌, ◌<◌, ◌≤◌};
ghost use Rattle.demand.specs.Busy.{busy_load, busy_sum, busy_length, Clear};
ghost use Rattle.verdicts.specs.Ways.BusyClimb.{Flows, Reaches};
ghost use Rattle.demand.specs.Ways.Ranges.{Ranged};
ghost use Rattle.demand.specs.Sizes.{busy_most, length_most};

use crate::cores::Core;
use crate::demands::ceil_div;
use crate::release_sums::held_from;
use demand::{BUSY_MOST, Charged};

// The share that is all time.
const ALL_TIME: u64 = 1 << 32;

// What one pass at l tells: the busy sum there, the shares of the pieces that flow, and the work of the others.
#[derive(Clone, Copy, PartialEq, Eq)]
pub struct Flow {
    pub asked: u64,
    pub share: u64,
    pub work: u64,
}

pub fn flow_of(q: Charged, l: u64, edge: u64) -> Flow
    requires ranged { Ranged q }
    requires l_in_bounds { l ≤ length_most }
    ensures { Flows (λ m. busy_load m q) l result × (result.asked ≤ 1000000000000000) × (result.share ≤ 10000000000000000) × (result.work ≤ 1000000000000000) }
{
    let cost = q.charge + q.release + q.ipi;
    let jobs = ceil_div(l, q.period);
    let asked = jobs * cost;
    if jobs * q.period < edge {
        return Flow {
            asked,
            share: cost * ALL_TIME / q.period,
            work: 0,
        };
    }
    Flow {
        asked,
        share: 0,
        work: asked,
    }
}

pub fn flow_at(core: &Core, l: u64, edge: u64) -> Flow
    requires { l ≤ length_most }
    ensures { Flows (busy_sum core.now) l result × (result.asked ≤ 79000000000000000) }
{
    let mut asked: u64 = 0;
    let mut share: u64 = 0;
    let mut work: u64 = 0;
    for q in core.pieces {
        let f = flow_of(*q, l, edge);
        asked += f.asked;
        share += f.share;
        work += f.work;
    }
    Flow { asked, share, work }
}

// What no length that the pass allows is below: past the limit where the pieces that flow take up all time, or the others more than the limit.
pub fn reach_of(f: Flow) -> u64
    ensures { Reaches f result × (result ≤ 500000000000000000) }
{
    if BUSY_MOST < f.work {
        return BUSY_MOST + 1;
    }
    if f.share < ALL_TIME {
        return f.work * ALL_TIME / (ALL_TIME - f.share);
    }
    if ALL_TIME < f.share {
        return BUSY_MOST + 1;
    }
    if 0 < f.work {
        return BUSY_MOST + 1;
    }
    0
}

// Where the climb goes on from l: to `next` where that is far, else through the stretch from l on.
pub fn leap(core: &Core, l: u64, asked: u64, next: u64) -> u64
    requires l_le_busy_most { (l ≤ busy_most) × (asked ≡ busy_sum core.now l) × (asked ≤ 79000000000000000) × Clear (busy_sum core.now) (l + 1) }
    requires clear { Clear (busy_sum core.now) next }
    ensures { (l < result) × Clear (busy_sum core.now) result × (result < l + 256 → busy_sum core.now result ≤ result) }
{
    if l + 256 <= next {
        return next;
    }
    held_from(core, l, asked)
}

// The climb from l on, where it is long. Each pass looks ahead by the mean of the last look and the last leap. A turn ends the climb or gains 256 lengths, so there are at
// most 390,626.
pub fn climb_far(core: &Core, from: u64) -> Option<u64>
    requires { (1 ≤ from) × Clear (busy_sum core.now) from }
    ensures { result ≡ busy_length core.now }
{
    let mut l = from;
    let mut ahead: u64 = 0;
    while l <= BUSY_MOST {
        let f = flow_at(core, l, l + ahead);
        if f.asked <= l {
            return Some(l);
        }
        let next = f.asked.max(reach_of(f));
        ahead = (ahead + (next - l)) / 2;
        let m = leap(core, l, f.asked, next);
        if m < l + 256 {
            if BUSY_MOST < m {
                return None;
            }
            return Some(m);
        }
        l = m;
    }
    None
}

// The busy length of the pieces, if there is one up to the limit. The first pass lets all pieces flow: where they take up more than all time there is none. While the
// climb is short, the others go by what is asked alone.
pub fn climb_busy(core: &Core) -> Option<u64>
    ensures { result ≡ busy_length core.now }
{
    let mut l: u64 = 1;
    let mut ahead: u64 = 200000000;
    for _ in 0..256 {
        if BUSY_MOST < l {
            return None;
        }
        let f = flow_at(core, l, l + ahead);
        if f.asked <= l {
            return Some(l);
        }
        l = f.asked.max(reach_of(f));
        ahead = 0;
    }
    climb_far(core, l)
}
