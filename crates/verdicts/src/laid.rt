// What is asked of charged pieces that may be no core: there are too many, or one is outside its range. Then the answer is refused.
ghost use Rattle.std.specs.Prelude.{◌≡◌};
ghost use Rattle.demand.specs.Demand.{largest_window, least_live};
ghost use Rattle.verdicts.specs.Laid.{laid, laid_sum, laid_busy_length, laid_tight_window, laid_wait, laid_span, laid_verdict, laid_most_fitting};

use crate::Sum;
use crate::cores::Core;
use demand::{Charged, Verdict};

/// A figure of the pieces, summed at the length t; 0 where they are no core, or t is no judged length.
#[tactic(auto, unfolding(crate::specs::Laid::laid_sum))]
pub fn laid_sum(pieces: &[Charged], sum: Sum, t: u64) -> u64
    ensures exact { result ≡ laid_sum sum t (laid pieces.now) }
{
    match Core::of(pieces) {
        Some(core) => core.sum(sum, t),
        None => 0,
    }
}

/// The largest window of the pieces, or 0 where there is none.
pub fn laid_largest_window(pieces: &[Charged]) -> u64
    ensures exact { result ≡ largest_window pieces.now }
{
    pieces.iter().map(|q| q.window).max().unwrap_or(0)
}

/// Their least live length, or 0 where there is no piece.
pub fn laid_least_live(pieces: &[Charged]) -> u64
    ensures exact { result ≡ least_live pieces.now }
{
    let lives = pieces.iter().map(|q| q.window.saturating_sub(q.jitter));
    lives.min().unwrap_or(0)
}

/// The busy length, if the pieces are a core and there is one up to the limit.
#[tactic(auto, unfolding(crate::specs::Laid::laid_busy_length))]
pub fn laid_busy_length(pieces: &[Charged]) -> Option<u64>
    ensures exact { result ≡ laid_busy_length (laid pieces.now) }
{
    Core::of(pieces)?.busy_length()
}

/// The tight window of the last piece of a core, with the stall b, where that is at most its own window.
#[tactic(auto, unfolding(crate::specs::Laid::laid_tight_window))]
pub fn laid_tight_window(pieces: &[Charged], b: u64) -> Option<u64>
    ensures exact { result ≡ laid_tight_window b (laid pieces.now) }
{
    Core::of(pieces)?.tight_window(b)
}

/// The least length up to the top that holds the base and all interrupts of a core which come within it.
#[tactic(auto, unfolding(crate::specs::Laid::laid_wait))]
pub fn laid_wait(pieces: &[Charged], base: u64, top: u64) -> Option<u64>
    ensures exact { result ≡ laid_wait base top (laid pieces.now) }
{
    Core::of(pieces)?.wait(base, top)
}

/// The greatest overloaded length among the l from a, of a core with the stall b.
#[tactic(auto, unfolding(crate::specs::Laid::laid_span))]
pub fn laid_span(pieces: &[Charged], b: u64, a: u64, l: u64) -> Verdict
    ensures exact { result ≡ laid_span b a l (laid pieces.now) }
{
    match Core::of(pieces) {
        Some(core) => core.span(b, a, l),
        None => Verdict::Undecided,
    }
}

/// The verdict on a core with the stall b.
#[tactic(auto, unfolding(crate::specs::Laid::laid_verdict))]
pub fn laid_verdict(pieces: &[Charged], b: u64) -> Verdict
    ensures exact { result ≡ laid_verdict b (laid pieces.now) }
{
    match Core::of(pieces) {
        Some(core) => core.verdict(b),
        None => Verdict::Undecided,
    }
}

/// The greatest charge up to f with which q fits beside a core with the stall b at each of the l lengths from a, or 0.
#[tactic(auto, unfolding(crate::specs::Laid::laid_most_fitting))]
pub fn laid_most_fitting(pieces: &[Charged], b: u64, q: Charged, f: u64, a: u64, l: u64) -> u64
    ensures exact { result ≡ laid_most_fitting b q a l f (laid pieces.now) }
{
    match Core::of(pieces) {
        Some(core) => core.most_fitting(b, q, f, a, l),
        None => 0,
    }
}
