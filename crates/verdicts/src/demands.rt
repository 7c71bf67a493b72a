// Jobs due, interrupts, the sums and the demand g(t), over charged pieces. Nothing wraps: lengths are at most 101,000,000.
ghost use Rattle.std.specs.Prelude.{◌≡◌, ◌+◌, ◌*◌, ◌-◌, ◌<◌, ◌≤◌};
ghost use Rattle.demand.specs.Busy.{busy_load};
ghost use Rattle.demand.specs.Demand.{ceil, jobs_due, interrupts, load, blocking, total, least_live, demand};
ghost use Rattle.verdicts.specs.Laid.{term};
ghost use Rattle.demand.specs.Ways.Ranges.{Ranged, stall_most, release_most};
ghost use Rattle.demand.specs.Sizes.{length_most, time_most};

use crate::Sum;
use crate::cores::Core;
use crate::laid::laid_least_live;
use crate::stalls::StalledCore;
use demand::Charged;

pub fn ceil_div(a: u64, b: u64) -> u64
    requires { (a ≤ 200000000) × (1 ≤ b) × (b ≤ time_most) }
    ensures { (result ≡ ceil a b) × (result ≤ a) }
{
    (a + (b - 1)) / b
}

// n(t): none while t + J is short of the window, then floor plus one.
pub fn jobs_due(q: Charged, t: u64) -> u64
    requires ranged { Ranged q }
    requires t_in_bounds { t ≤ length_most }
    ensures { (result ≡ jobs_due q t) × (result ≤ 102000001) }
{
    if t + q.jitter < q.window {
        return 0;
    }
    1 + (t + q.jitter - q.window) / q.period
}

// What interrupts of that cost and jitter ask for by t. Where they cost nothing, nothing is divided.
pub fn calls_of(cost: u64, period: u64, jitter: u64, t: u64) -> u64
    requires cost_le_release_most { (cost ≤ release_most) × (1 ≤ period) × (period ≤ time_most) }
    requires jitter_le_time_most { (jitter ≤ time_most) × (t ≤ length_most) }
    ensures { (result ≡ ceil (t + jitter) period * cost) × (result ≤ 20400000000000) }
{
    if cost == 0 {
        return 0;
    }
    ceil_div(t + jitter, period) * cost
}

pub fn interrupts_of(q: Charged, t: u64) -> u64
    requires ranged { Ranged q }
    requires t_in_bounds { t ≤ length_most }
    ensures { (result ≡ interrupts q t) × (result ≤ 100000000000000) }
{
    let releases = calls_of(q.release, q.period, q.jitter, t);
    let ipis = calls_of(q.ipi, q.period, q.ipij, t);
    releases + ipis
}

// What the jobs due within t are charged.
pub fn work_of(q: Charged, t: u64) -> u64
    requires ranged { Ranged q }
    requires t_in_bounds { t ≤ length_most }
    ensures { (result ≡ jobs_due q t * q.charge) × (result ≤ 500000000000000) }
{
    jobs_due(q, t) * q.charge
}

pub fn load_of(q: Charged, t: u64) -> u64
    requires ranged { Ranged q }
    requires t_in_bounds { t ≤ length_most }
    ensures { (result ≡ load t q) × (result ≤ 1000000000000000) }
{
    work_of(q, t) + interrupts_of(q, t)
}

// What q asks of a busy length l.
pub fn busy_load_of(q: Charged, l: u64) -> u64
    requires ranged { Ranged q }
    requires l_in_bounds { l ≤ length_most }
    ensures { (result ≡ busy_load l q) × (result ≤ 1000000000000000) }
{
    ceil_div(l, q.period) * (q.charge + q.release + q.ipi)
}

pub fn term_of(sum: Sum, q: Charged, t: u64) -> u64
    requires ranged { Ranged q }
    requires t_in_bounds { t ≤ length_most }
    ensures { (result ≡ term sum t q) × (result ≤ 1000000000000000) }
{
    match sum {
        Sum::Load => load_of(q, t),
        Sum::Interrupts => interrupts_of(q, t),
        Sum::Jobs => work_of(q, t),
        Sum::Busy => busy_load_of(q, t),
    }
}

// One of the sums over the pieces.
pub fn sum_at(core: &Core, sum: Sum, t: u64) -> u64
    requires { t ≤ length_most }
    ensures { (result ≡ total (term sum t) core.now) × (result ≤ 79000000000000000) }
{
    let mut so_far: u64 = 0;
    for q in core.pieces {
        so_far += term_of(sum, *q, t);
    }
    so_far
}

// t0, or 0 where there is no piece.
pub fn least_live(core: &Core) -> u64
    ensures { (result ≡ least_live core.now) × (result ≤ time_most) }
{
    laid_least_live(core.pieces)
}

// b(t).
pub fn blocking_at(core: &StalledCore, t: u64) -> u64
    ensures { (result ≡ blocking core.now.stall core.now.pieces.now t) × (result ≤ stall_most) }
{
    if t < core.widest { core.stall } else { 0 }
}

// g(t).
pub fn demand_at(core: &StalledCore, t: u64) -> u64
    requires { t ≤ length_most }
    ensures { result ≡ demand core.now.stall core.now.pieces.now t }
{
    blocking_at(core, t) + sum_at(core.pieces, Sum::Load, t)
}
