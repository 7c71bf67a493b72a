// Where the search for a split starts: above it no candidate can be allowed, whatever else holds.
ghost use Rattle.std.specs.Prelude.{◌≡◌, ◌⊎◌, ◌-◌, ◌<◌, ◌≤◌};
ghost use Rattle.demand.specs.Charge.{stall};
ghost use Rattle.demand.specs.Demand.{total};
ghost use Rattle.demand.specs.Sizes.{length_most};
ghost use Rattle.demand.specs.Ways.ChargedSplit.{tight_beside};
ghost use Rattle.demand.specs.Ways.Ranges.{stall_most};
ghost use Rattle.splits.specs.Ways.Bench.{Ready};
ghost use Rattle.splits.specs.Ways.MonotoneSearch.{ShowsIf};
ghost use Rattle.splits.specs.Ways.SplitSearch.{Ends, Starts};
ghost use Rattle.verdicts.specs.Laid.{term};
ghost use Rattle.verdicts.specs.declared.Sum.TheVariants.{Jobs};

use crate::bench::Bench;
use crate::charge_bounds::cap_of;
use crate::monotone_search::lowered;
use crate::sized_task::SizedTask;
use verdicts::{Core, Sum};

// What a first piece without a budget waits for within length 1: no tight window is shorter than this and its budget.
pub fn least_sum(bench: &mut Bench, given: SizedTask) -> u64
    ensures { (result ≡ tight_beside given.costs bench.old.core given.task 0 1) × (result ≤ 80000000000000000) × (bench.new.core ≡ bench.old.core) }
{
    let q = given.first(0, 0);
    bench.put(q);
    given.stall() + q.charge + bench.both().sum(Sum::Interrupts, 1)
}

// What the jobs of the core that are due within an allowed split's tight window are charged at most.
pub fn due_most(given: SizedTask) -> u64
    ensures { ((result ≡ stall given.costs) ⊎ ((1 ≤ given.task.jitter) × (result ≡ 0))) × (result ≤ stall_most) }
{
    if 0 < given.task.jitter {
        return 0;
    }
    given.stall()
}

// What the t of each allowed split's tight window is below: it leaves the last piece a window, and what is due of the core by then is charged no more than the
// stall, or than nothing where the task has jitter.
pub fn tight_end(core: &Core, given: SizedTask) -> u64
    requires { Ready core.now }
    ensures { Ends given.costs core.now given.task result × (result ≤ given.task.window - given.task.jitter) }
{
    let end = given.task.window.saturating_sub(given.task.jitter);
    if core.pieces.is_empty() {
        return end;
    }
    let from = core.least_live().saturating_sub(1);
    let most = due_most(given);
    // What is due of the core by the length m is charged more than that.
    let too_much = |m|
        requires { m ≤ length_most }
        ensures { ShowsIf (most < total (term Jobs m) core.entry.now) result }
    { most < core.sum(Sum::Jobs, m) };
    lowered(too_much, from, end)
}

// A budget that no allowed split is above: what is left below the end, and of that what the core has room for in the widest of these windows.
pub fn start_of(bench: &mut Bench, given: SizedTask, least: u64) -> u64
    requires { (least ≡ tight_beside given.costs bench.old.core given.task 0 1) × (least ≤ 80000000000000000) }
    ensures { Starts given.costs bench.old.core given.task result × (bench.new.core ≡ bench.old.core) }
{
    let end = tight_end(&bench.core(), given);
    let x = (given.task.budget - 1).min(end.saturating_sub(least + 1));
    if x == 0 {
        return 0;
    }
    let q = given.first(x, given.task.jitter + (end - 1));
    bench.put(q);
    let a = bench.both().least_live();
    let cap = cap_of(&bench.core(), given.stall(), q, q.charge, a);
    cap.saturating_sub(q.charge - x)
}
