// The least length that holds a sum, and the tight window by it.
ghost use Rattle.std.specs.Prelude.{◌≡◌, ◌+◌, ◌≤◌};
ghost use Rattle.demand.specs.Answer.{tight_of_last};
ghost use Rattle.demand.specs.Busy.{least_holding};
ghost use Rattle.demand.specs.Demand.{total};
ghost use Rattle.verdicts.specs.Laid.{term};
ghost use Rattle.demand.specs.Ways.Ranges.{stall_most};
ghost use Rattle.demand.specs.Sizes.{busy_most};

use crate::Sum;
use crate::cores::Core;
use crate::demands::sum_at;

// The least n ≥ 1, up to top, that is at least the base and the sum at n. A length below the sum there is too short, and so are all up to it.
pub fn climb(core: &Core, sum: Sum, base: u64, top: u64) -> Option<u64>
    requires { (base ≤ 10000000) × (top ≤ busy_most) }
    ensures { result ≡ least_holding (λ t. base + total (term sum t) core.now) top }
{
    let mut l: u64 = 1;
    while l <= top {
        let asked = base + sum_at(core, sum, l);
        if asked <= l {
            return Some(l);
        }
        l = asked;
    }
    None
}

// The tight window of the last piece, where that is at most its own window: its jitter, and the least length that holds the stall, its charge and all interrupts.
pub fn tight_of(core: &Core, b: u64) -> Option<u64>
    requires { b ≤ stall_most }
    ensures { result ≡ tight_of_last b core.now core.now }
{
    let q = core.pieces.last()?;
    let room = q.window.saturating_sub(q.jitter);
    let wait = climb(core, Sum::Interrupts, b + q.charge, room)?;
    Some(q.jitter + wait)
}
