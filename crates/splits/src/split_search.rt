// The greatest split of a task: from a top that none is allowed above, down over the multiples of the grain, as far at a time as each tells. A smaller
// budget can be refused where a greater one is allowed, so budgets are not bisected (document 01, "Errors that look right"); what is probed for is an end
// above which none can be allowed. The core lies on a bench; each candidate writes the piece behind it.
ghost use Rattle.std.specs.Prelude.{Some, ◌≡◌, ◌+◌, ◌-◌, ◌<◌, ◌≤◌, max, length};
ghost use Rattle.demand.specs.Charge.{stall};
ghost use Rattle.demand.specs.Demand.{largest_window, total, demand, least_live};
ghost use Rattle.demand.specs.Records.{pieces_in};
ghost use Rattle.demand.specs.Sizes.{Sized, Each, time_most, busy_most, length_most, run_most};
ghost use Rattle.demand.specs.Split.{greatest_split};
ghost use Rattle.demand.specs.Verdict.{verdict};
ghost use Rattle.demand.specs.declared.Verdict.TheVariants.{Passes};
ghost use Rattle.demand.specs.Ways.ChargedSplit.{with_first, last_alone, TightIn, Chosen};
ghost use Rattle.demand.specs.Ways.Ranges.{stall_most};
ghost use Rattle.splits.specs.Ways.Bench.{Ready};
ghost use Rattle.splits.specs.Ways.MonotoneSearch.{ShowsIf, NoneHolds};
ghost use Rattle.splits.specs.Ways.SplitSearch.{Steps, Misses, Skips, Hopeless, LastBounds, Starts};
ghost use Rattle.verdicts.specs.Laid.{term, wait_most};
ghost use Rattle.verdicts.specs.declared.Sum.TheVariants.{Interrupts};

use crate::bench::Bench;
use crate::charge_bounds::{Bound, bound_of, fit_stalled};
use crate::monotone_search::lowered;
use crate::sized_task::SizedTask;
use crate::starts::{least_sum, start_of};
use demand::{Cut, Record, Verdict};
use verdicts::{Core, Sum};

// What one candidate told: it is allowed, with its tight window, or how far down the next may stand. Neither is a failure, so it is no Result.
#[derive(Clone, Copy, PartialEq, Eq)]
pub enum Step {
    Done(u64),
    Below(u64),
}

// The tight window of the first piece of x, where it leaves the last piece one: looked for up to one less than the task's own window.
pub fn tight_first(bench: &mut Bench, given: SizedTask, x: u64) -> Option<u64>
    requires { x < given.task.budget }
    ensures { TightIn given.costs bench.old.core given.task x result × (bench.new.core ≡ bench.old.core) }
{
    bench.put(given.first(x, given.task.window - 1));
    bench.both().tight_window(given.stall())
}

// One less than the last piece alone, in the window w, is overloaded at t, or 0.
pub fn excess_at(alone: &Core, b: u64, w: u64, t: u64) -> u64
    requires { (b ≤ stall_most) × (w ≡ largest_window alone.now) × (t ≤ length_most) }
    ensures { result ≡ demand b alone.now t - (t + 1) }
{
    let loads = alone.sum(Sum::Load, t);
    if t < w {
        return (b + loads).saturating_sub(t + 1);
    }
    loads.saturating_sub(t + 1)
}

// What the last piece of x alone tells. Where it has no busy length no longer one has; where it is overloaded by more than s, so is each longer one, as long as
// its window is longer by no more than its budget and s. The greatest overloaded length has the least excess, so the least live one is looked at too.
pub fn bound_last(given: SizedTask, x: u64, w: u64) -> Bound
    requires { (1 ≤ x) × (x ≤ given.task.budget) × (w ≤ given.task.window) }
    ensures { LastBounds given.costs given.task x w result }
{
    let pieces = [given.last(x, w)];
    let alone = Core { pieces: &pieces };
    let b = given.stall();
    match alone.verdict(b) {
        Verdict::Passes => Bound::Stands,
        Verdict::Undecided => Bound::AtMost(0),
        Verdict::Overloaded(t) => {
            let left = given.task.window - w;
            let late = excess_at(&alone, b, left, t);
            let soon = excess_at(&alone, b, left, alone.least_live());
            Bound::Falls(late.max(soon))
        }
    }
}

// Down from x to where a tight window ends by the top, or to 0: no budget between has one.
pub fn window_below(bench: &mut Bench, given: SizedTask, x: u64, top: u64) -> u64
    requires { (1 ≤ x) × (x < given.task.budget) × (top ≤ time_most) }
    ensures { Misses given.costs bench.old.core given.task top result x × (bench.new.core ≡ bench.old.core) }
{
    let q = given.first(0, 0);
    bench.put(q);
    let base = given.stall() + q.charge;
    let both = bench.both();
    // No length up to the top holds the budget m, the base and the interrupts.
    let refused = |m|
        requires { (base + m ≤ wait_most) × (top ≤ busy_most) }
        ensures { ShowsIf (NoneHolds both.entry base top m) result }
    { both.wait(base + m, top).is_none() };
    lowered(refused, 0, x) - 1
}

// Down from x, whose last piece is overloaded by more than s: a smaller budget's is too, unless its tight window has more than s interrupts less.
pub fn last_below(bench: &mut Bench, given: SizedTask, x: u64, w: u64, s: u64) -> u64
    requires x_within { (1 ≤ x) × (x < given.task.budget) }
    requires tight { TightIn given.costs bench.old.core given.task x (Some w) }
    requires hopeless { Hopeless given.costs given.task x w s }
    ensures { Skips given.costs bench.old.core given.task result x × (bench.new.core ≡ bench.old.core) }
{
    bench.put(given.first(0, 0));
    let t = w - given.task.jitter;
    let both = bench.both();
    let calls = both.sum(Sum::Interrupts, t);
    let come = calls.saturating_sub(s);
    // All interrupts but s, or more, have come by the length m.
    let all_come = |m|
        requires { m ≤ length_most }
        ensures { ShowsIf (come ≤ total (term Interrupts m) both.entry) result }
    { come <= both.sum(Sum::Interrupts, m) };
    let end = lowered(all_come, 0, t);
    window_below(bench, given, x, end - 1)
}

// Down from x, which is overloaded at t: so is a smaller budget, unless it fits there with the stall, or its tight window ends by t.
pub fn own_below(bench: &mut Bench, given: SizedTask, x: u64, w: u64, t: u64) -> u64
    requires ready { Ready bench.old.core }
    requires x_within { (1 ≤ x) × (x < given.task.budget) }
    requires tight { TightIn given.costs bench.old.core given.task x (Some w) }
    requires live { (least_live (with_first given.costs bench.old.core given.task x w) ≤ t) × (t ≤ time_most) }
    ensures { Skips given.costs bench.old.core given.task result x × (bench.new.core ≡ bench.old.core) }
{
    let q = given.first(x, w);
    let most = fit_stalled(bench, given.stall(), q, t);
    let tight = window_below(bench, given, x, t.saturating_sub(given.task.jitter));
    tight.max(most.saturating_sub(q.charge - x))
}

// Whether a job of the core is due by the end t of a tight window, where the stall still counts: w is J + t.
pub fn due_by(core: &Core, t: u64, w: u64) -> bool
    ensures { ShowsIf ((1 ≤ length core.now) × (least_live core.now ≤ t) × (t < max (largest_window core.now) w)) result }
{
    if core.pieces.is_empty() {
        return false;
    }
    if t < core.least_live() {
        return false;
    }
    t < core.largest_window().max(w)
}

// What the core with the first piece of x tells, where the last piece passes.
pub fn step_first(bench: &mut Bench, given: SizedTask, x: u64, w: u64) -> Step
    requires x_within { (1 ≤ x) × (x < given.task.budget) }
    requires tight { TightIn given.costs bench.old.core given.task x (Some w) }
    requires passes { verdict (stall given.costs) (last_alone given.costs given.task x w) ≡ Passes }
    ensures { Steps given.costs bench.old.core given.task x result × (bench.new.core ≡ bench.old.core) }
{
    let core = bench.core();
    if due_by(&core, w - given.task.jitter, w) {
        let top = core.least_live().saturating_sub(1);
        return Step::Below(window_below(bench, given, x, top));
    }
    let q = given.first(x, w);
    bench.put(q);
    match bound_of(bench, given.stall()) {
        Bound::Stands => Step::Done(w),
        Bound::Falls(t) => Step::Below(own_below(bench, given, x, w, t)),
        Bound::AtMost(f) => Step::Below(f.saturating_sub(q.charge - x)),
    }
}

// One candidate tried.
pub fn try_split(bench: &mut Bench, given: SizedTask, x: u64) -> Step
    requires { (1 ≤ x) × (x < given.task.budget) }
    ensures { Steps given.costs bench.old.core given.task x result × (bench.new.core ≡ bench.old.core) }
{
    match tight_first(bench, given, x) {
        None => {
            let top = (given.task.window - 1).saturating_sub(given.task.jitter);
            Step::Below(window_below(bench, given, x, top))
        }
        Some(w) => match bound_last(given, x, w) {
            Bound::AtMost(y) => Step::Below(y),
            Bound::Falls(s) => Step::Below(last_below(bench, given, x, w, s)),
            Bound::Stands => step_first(bench, given, x, w),
        },
    }
}

// Down from the top, as far at a time as each candidate tells.
pub fn search(bench: &mut Bench, given: SizedTask, top: u64, grain: u64) -> Option<Cut>
    requires starts { Starts given.costs bench.old.core given.task top }
    requires grain { 1 ≤ grain }
    ensures { Chosen given.costs grain bench.old.core given.task result }
{
    let mut k = top / grain;
    while 1 <= k {
        let x = k * grain;
        match try_split(bench, given, x) {
            Step::Done(w) => {
                return Some(Cut {
                    budget: x,
                    window: w,
                });
            }
            Step::Below(y) => {
                k = y / grain;
            }
        }
    }
    None
}

// The greatest allowed split. No multiple of 0 counts.
pub fn greatest_split(given: SizedTask, records: &[Record], grain: u64) -> Option<Cut>
    requires room { length records.now < run_most }
    requires each { Each Sized (pieces_in records.now) }
    ensures { result ≡ greatest_split given.costs grain (pieces_in records.now) given.task }
{
    if grain == 0 {
        return None;
    }
    let mut bench = Bench::laid(given.costs, records);
    let least = least_sum(&mut bench, given);
    let top = start_of(&mut bench, given, least);
    search(&mut bench, given, top, grain)
}
