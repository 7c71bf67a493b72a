// What is shown of a verdict: document 02, E1. One climb and one walk down tell both the verdict and the length that is shown.
ghost use Rattle.std.specs.Prelude.{Some, ◌≡◌, ◌≤◌, length};
ghost use Rattle.demand.specs.Busy.{busy_length};
ghost use Rattle.demand.specs.Demand.{least_live};
ghost use Rattle.demand.specs.Why.{due_ask, busy_ask, core_shown};
ghost use Rattle.verdicts.specs.Asks.{no_ask, ask_within};
ghost use Rattle.demand.specs.Ways.Ranges.{Ranged};
ghost use Rattle.demand.specs.Sizes.{length_most, time_most};

use crate::busy_climb::climb_busy;
use crate::cores::ranged_piece;
use crate::demands::{blocking_at, ceil_div, interrupts_of, jobs_due, least_live, sum_at};
use crate::slacks::{Sought, seek};
use crate::stalls::StalledCore;
use crate::{LENGTH_MOST, Sum};
use demand::{Ask, BUSY_MOST, Charged, Shown, Verdict};

// What a piece asks for within t.
pub fn due_ask(q: Charged, t: u64) -> Ask
    requires ranged { Ranged q }
    requires t_in_bounds { t ≤ length_most }
    ensures { result ≡ due_ask t q }
{
    let jobs = jobs_due(q, t);
    let calls = interrupts_of(q, t);
    Ask {
        jobs,
        demand: jobs * q.charge,
        interrupts: calls,
    }
}

// What it asks of a busy length l.
pub fn busy_ask(q: Charged, l: u64) -> Ask
    requires ranged { Ranged q }
    requires l_in_bounds { l ≤ length_most }
    ensures { result ≡ busy_ask l q }
{
    let jobs = ceil_div(l, q.period);
    Ask {
        jobs,
        demand: jobs * q.charge,
        interrupts: jobs * (q.release + q.ipi),
    }
}

fn no_ask() -> Ask
    ensures { result ≡ no_ask }
{
    Ask {
        jobs: 0,
        demand: 0,
        interrupts: 0,
    }
}

/// What a charged piece is shown to ask for at the length t, beside a verdict; nothing where a number is past its bound.
pub fn ask_of(q: Charged, verdict: Verdict, t: u64) -> Ask
    ensures exact { result ≡ ask_within verdict t q }
{
    if LENGTH_MOST < t {
        return no_ask();
    }
    if !ranged_piece(q) {
        return no_ask();
    }
    match verdict {
        Verdict::Passes => due_ask(q, t),
        Verdict::Overloaded(_) => due_ask(q, t),
        Verdict::Undecided => busy_ask(q, t),
    }
}

// What is shown of a core with the busy length l and the least live length a: its greatest overloaded length, or the least slack.
pub fn show_span(core: &StalledCore, a: u64, l: u64) -> Shown
    requires { (1 ≤ length core.now.pieces.now) × (a ≡ least_live core.now.pieces.now) × (a ≤ time_most) × (busy_length core.now.pieces.now ≡ Some l) }
    ensures { result ≡ core_shown core.now.stall core.now.pieces.now }
{
    match seek(core, a, l) {
        Sought::Over(hit) => Shown {
            verdict: Verdict::Overloaded(hit.length),
            length: hit.length,
            blocking: blocking_at(core, hit.length),
            total: hit.demand,
        },
        Sought::Least(calm) => Shown {
            verdict: Verdict::Passes,
            length: calm.length,
            blocking: blocking_at(core, calm.length),
            total: calm.demand,
        },
    }
}

// What is shown of a core.
pub fn show_core(core: &StalledCore) -> Shown
    ensures { result ≡ core_shown core.now.stall core.now.pieces.now }
{
    if core.pieces.is_empty() {
        return Shown {
            verdict: Verdict::Passes,
            length: 0,
            blocking: 0,
            total: 0,
        };
    }
    match climb_busy(core.pieces) {
        None => Shown {
            verdict: Verdict::Undecided,
            length: BUSY_MOST,
            blocking: 0,
            total: sum_at(core.pieces, Sum::Busy, BUSY_MOST),
        },
        Some(l) => show_span(core, least_live(core.pieces), l),
    }
}
