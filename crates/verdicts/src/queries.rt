// What is asked of a core. Where a number of the question is past its bound, so that a sum could wrap, the answer is refused.
ghost use Rattle.std.specs.Prelude.{◌≡◌, ◌+◌, ◌≤◌};
ghost use Rattle.demand.specs.Answer.{tight_of_last};
ghost use Rattle.demand.specs.Busy.{busy_length, least_holding};
ghost use Rattle.demand.specs.Demand.{largest_window, least_live, total};
ghost use Rattle.demand.specs.Sizes.{busy_most, length_most, time_most};
ghost use Rattle.demand.specs.Verdict.{scan, verdict};
ghost use Rattle.demand.specs.Ways.Ranges.{Ranged, charge_most, stall_most};
ghost use Rattle.verdicts.specs.MostFitting.{most_fitting};
ghost use Rattle.verdicts.specs.declared.Sum.TheVariants.{Interrupts};
ghost use Rattle.verdicts.specs.Laid.{held, term, wait_most, laid_sum, laid_busy_length, laid_tight_window, laid_wait, laid_span, laid_verdict, laid_most_fitting};

use crate::busy_climb::climb_busy;
use crate::cores::{Core, ranged_piece};
use crate::laid::laid_largest_window;
use crate::lengths::{climb, tight_of};
use crate::most_fitting::squeeze;
use crate::spans::{descend, judge_core};
use crate::stalls::stalled;
use crate::{CHARGE_MOST, LENGTH_MOST, STALL_MOST, Sum, WAIT_MOST, demands};
use demand::{BUSY_MOST, Charged, TIME_MOST, Verdict};

impl<'a> Core<'a> {
    /// A figure of the pieces, summed at the length t; 0 where t is no judged length.
    #[tactic(auto, unfolding(crate::specs::Laid::laid_sum))]
    pub fn sum(&self, sum: Sum, t: u64) -> u64
        ensures exact { result ≡ laid_sum sum t (held self.now) }
        ensures within { t ≤ length_most → (result ≡ total (term sum t) self.now) × (result ≤ 79000000000000000) }
    {
        if LENGTH_MOST < t {
            return 0;
        }
        demands::sum_at(self, sum, t)
    }

    /// The largest window of the pieces.
    pub fn largest_window(&self) -> u64
        ensures exact { result ≡ largest_window self.now }
    {
        laid_largest_window(self.pieces)
    }

    /// Their least live length, or 0 where there is no piece.
    pub fn least_live(&self) -> u64
        ensures exact { result ≡ least_live self.now }
        ensures within { result ≤ time_most }
    {
        demands::least_live(self)
    }

    /// The busy length, if there is one up to the limit.
    #[tactic(auto, unfolding(crate::specs::Laid::laid_busy_length))]
    pub fn busy_length(&self) -> Option<u64>
        ensures exact { result ≡ laid_busy_length (held self.now) }
        ensures within { result ≡ busy_length self.now }
    {
        climb_busy(self)
    }

    /// The tight window of the last piece, with the stall b, where that is at most its own window.
    #[tactic(auto, unfolding(crate::specs::Laid::laid_tight_window))]
    pub fn tight_window(&self, b: u64) -> Option<u64>
        ensures exact { result ≡ laid_tight_window b (held self.now) }
        ensures within { b ≤ stall_most → result ≡ tight_of_last b self.now self.now }
    {
        if STALL_MOST < b {
            return None;
        }
        tight_of(self, b)
    }

    /// The least length up to the top that holds the base and all interrupts that come within it.
    #[tactic(auto, unfolding(crate::specs::Laid::laid_wait))]
    pub fn wait(&self, base: u64, top: u64) -> Option<u64>
        ensures exact { result ≡ laid_wait base top (held self.now) }
        ensures within { base ≤ wait_most → top ≤ busy_most → result ≡ least_holding (λ t. base + total (term Interrupts t) self.now) top }
    {
        if WAIT_MOST < base || BUSY_MOST < top {
            return None;
        }
        climb(self, Sum::Interrupts, base, top)
    }

    /// The greatest overloaded length among the l from a, with the stall b.
    #[tactic(auto, unfolding(crate::specs::Laid::laid_span))]
    pub fn span(&self, b: u64, a: u64, l: u64) -> Verdict
        ensures exact { result ≡ laid_span b a l (held self.now) }
        ensures within { b ≤ stall_most → a ≤ time_most → l ≤ busy_most → result ≡ scan b self.now a l }
    {
        if STALL_MOST < b || TIME_MOST < a || BUSY_MOST < l {
            return Verdict::Undecided;
        }
        descend(&stalled(self, b), a, l)
    }

    /// The verdict, with the stall b.
    #[tactic(auto, unfolding(crate::specs::Laid::laid_verdict))]
    pub fn verdict(&self, b: u64) -> Verdict
        ensures exact { result ≡ laid_verdict b (held self.now) }
        ensures within { b ≤ stall_most → result ≡ verdict b self.now }
    {
        if STALL_MOST < b {
            return Verdict::Undecided;
        }
        judge_core(&stalled(self, b))
    }

    /// The greatest charge up to f with which q fits beside the core, with the stall b, at each of the l lengths from a, or 0.
    pub fn most_fitting(&self, b: u64, q: Charged, f: u64, a: u64, l: u64) -> u64
        ensures exact { result ≡ laid_most_fitting b q a l f (held self.now) }
        ensures within { b ≤ stall_most → Ranged q → f ≤ charge_most → a + l ≤ length_most → result ≡ most_fitting b self.now q a l f }
    {
        if STALL_MOST < b || CHARGE_MOST < f || LENGTH_MOST < a || LENGTH_MOST - a < l {
            return 0;
        }
        if !ranged_piece(q) {
            return 0;
        }
        squeeze(&stalled(self, b), q, f, a, l)
    }
}
