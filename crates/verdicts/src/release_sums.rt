// A stretch of 1,024 lengths at once. From one length to the next the busy sum grows by the jobs released at the first, so the costs of the jobs are marked where they
// are released, and one walk over the marks tells the first length past l that holds the busy sum.
ghost use Rattle.std.specs.Prelude.{◌≡◌, ℕ, ◌+◌, ◌<◌, ◌≤◌, length};
ghost use Rattle.demand.specs.Busy.{busy_sum, Clear};
ghost use Rattle.verdicts.specs.Ways.ReleaseSums.{Marked, Marks, Under, marks_most};
ghost use Rattle.demand.specs.Ways.Ranges.{Ranged};
ghost use Rattle.demand.specs.Sizes.{busy_most};

use crate::cores::Core;
use crate::demands::ceil_div;
use crate::{MARKS_LAST, MARKS_MOST};
use demand::Charged;

// The jobs of q are marked: what one costs, at each place j where l + j is a multiple of the period.
pub fn mark(marks: &mut [u64; MARKS_MOST], q: Charged, l: u64)
    requires ranged { Ranged q }
    requires l_le_busy_most { (l ≤ busy_most) × (length marks.old ≡ marks_most) × Under 1000000000 marks.old }
    ensures { Marked q l marks.old marks.new × (length marks.new ≡ marks_most) }
{
    let cost = q.charge + q.release + q.ipi;
    let step = q.period as usize;
    let mut at = (ceil_div(l, q.period) * q.period - l) as usize;
    while at < MARKS_MOST {
        marks[at] += cost;
        at += step;
    }
}

// Over marks that are all 0.
pub fn mark_all(marks: &mut [u64; MARKS_MOST], core: &Core, l: u64)
    requires { (l ≤ busy_most) × (length marks.old ≡ marks_most) × Under 0 marks.old }
    ensures { Marks (busy_sum core.now) l marks.new × Under 200000000 marks.new }
{
    for q in core.pieces {
        mark(marks, *q, l);
    }
}

// The first length past l, where the sum is `asked`, that holds the sum by its marks, or the one behind them.
pub fn first_held(marks: &[u64; MARKS_MOST], l: u64, asked: u64) -> u64
    requires { (l ≤ busy_most) × (asked ≤ 79000000000000000) × Under 200000000 marks.now }
    ensures lower_bound { (l < result) × (result ≤ l + marks_most) }
    ensures by_index { (f : ℕ → ℕ) → Marks f l marks.now → asked ≡ f l → Clear f (l + 1) → Clear f result × (result < l + marks_most → f result ≤ result) }
{
    let mut sum = asked;
    let mut m = l + 1;
    for grown in &marks[..MARKS_LAST] {
        sum += *grown;
        if sum <= m {
            return m;
        }
        m += 1;
    }
    m
}

// The same of the busy sum of a core.
pub fn held_from(core: &Core, l: u64, asked: u64) -> u64
    requires { (l ≤ busy_most) × (asked ≡ busy_sum core.now l) × (asked ≤ 79000000000000000) × Clear (busy_sum core.now) (l + 1) }
    ensures { (l < result) × (result ≤ l + marks_most) × Clear (busy_sum core.now) result × (result < l + marks_most → busy_sum core.now result ≤ result) }
{
    let mut marks: [u64; MARKS_MOST] = [0; MARKS_MOST];
    mark_all(&mut marks, core, l);
    first_held(&marks, l, asked)
}
