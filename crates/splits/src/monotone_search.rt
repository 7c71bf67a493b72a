// Numbers that a test refuses from some point on are found by probing between a low end and a high one: a refusal lowers the high end, which is all that the
// answer tells of; where none comes the low end goes up, first by one and then by twice as much each time.
ghost use Rattle.std.specs.Prelude.{ℕ, true, ◌≤◌, ◌<◌};
ghost use Rattle.demand.specs.Sizes.{time_most};
ghost use Rattle.splits.specs.Ways.MonotoneSearch.{Lowered};

// The high end lowered as far as the probes go: it is the top, or a number that is refused.
pub fn lowered<F: Fn(u64) -> bool>(refused: F, from: u64, top: u64) -> u64
    requires asked { (m : ℕ) → m < top → F.pre refused m }
    requires within { (from ≤ time_most) × (top ≤ time_most) }
    ensures { Lowered (λ m. F.post refused m true) top result }
{
    let mut low = from;
    let mut high = top;
    while low + 1 < high {
        let m = low + (low - from + 1).min((high - low) / 2);
        if refused(m) {
            high = m;
        } else {
            low = m;
        }
    }
    high
}
