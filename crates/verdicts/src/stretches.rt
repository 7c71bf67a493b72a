// Where the stretch of equal demand that a length lies in begins. It is a guess that a walk profits by: what is made of it needs no more than that it is a length.
ghost use Rattle.std.specs.Prelude.{◌≤◌};
ghost use Rattle.demand.specs.Ways.Ranges.{Ranged};
ghost use Rattle.demand.specs.Sizes.{length_most, time_most};

use crate::cores::Core;
use demand::Charged;

// The greatest multiple of b up to a.
pub fn floor_to(a: u64, b: u64) -> u64
    requires { 1 ≤ b }
    ensures { result ≤ a }
{
    a / b * b
}

// From where on as many jobs of q are due as at t. What is made of it needs no more than that it is a length.
pub fn due_start(q: Charged, t: u64) -> u64
    requires ranged { Ranged q }
    requires t_in_bounds { t ≤ length_most }
{
    if t + q.jitter < q.window {
        return 0;
    }
    let start = q.window + floor_to(t + q.jitter - q.window, q.period);
    start.saturating_sub(q.jitter)
}

// From where on as many interrupts, of that cost and jitter, have come as at t, if they cost anything.
pub fn call_start(cost: u64, period: u64, jitter: u64, t: u64) -> u64
    requires { (1 ≤ period) × (jitter ≤ time_most) × (t ≤ length_most) }
{
    if cost == 0 {
        return 0;
    }
    let last = floor_to((t + jitter).saturating_sub(1), period);
    (last + 1).saturating_sub(jitter)
}

pub fn piece_start(q: Charged, t: u64) -> u64
    requires ranged { Ranged q }
    requires t_in_bounds { t ≤ length_most }
{
    let calls = call_start(q.release, q.period, q.jitter, t);
    let ipis = call_start(q.ipi, q.period, q.ipij, t);
    due_start(q, t).max(calls).max(ipis)
}

// From where on, and from `from` on, the demand of the pieces is as at t.
pub fn stretch_start(core: &Core, from: u64, t: u64) -> u64
    requires { t ≤ length_most }
    ensures { from ≤ result }
{
    let mut start = from;
    for q in core.pieces {
        start = start.max(piece_start(*q, t));
    }
    start
}
