// A core under judgement. That no sum of it wraps is known from its type on, so it is looked at once.
ghost use Rattle.std.specs.Prelude.{◌≡◌, ◌==◌, List, length};
ghost use Rattle.demand.specs.declared.Charged.{Charged};
ghost use Rattle.demand.specs.Sizes.{Each, Tells};
ghost use Rattle.demand.specs.Ways.Ranges.{Ranged};
ghost use Rattle.verdicts.specs.Cores.{IsCore};
ghost use Rattle.verdicts.specs.Laid.{laid};

use crate::{CHARGE_MOST, RELEASE_MOST};
use demand::{COST_MOST, Charged, RUN_MOST, TIME_MOST};
use std::marker::Model;

/// The charged pieces of a core: at most 79, each within its range.
#[derive(Drop)]
pub struct Core<'a> {
    pub pieces: &'a [Charged],
}

impl<'a> Model for Core<'a> {
    ghost Value = { List Charged };

    ghost view = { λ core. core.pieces.now };

    ghost invariant = { λ core. IsCore core.pieces.now };
}

// Whether a piece can be counted with.
pub fn ranged_piece(q: Charged) -> bool
    ensures { Tells (Ranged q) result }
{
    1 <= q.period
        && q.period <= TIME_MOST
        && q.window <= TIME_MOST
        && q.jitter <= TIME_MOST
        && q.charge <= CHARGE_MOST
        && q.release <= RELEASE_MOST
        && q.ipi <= COST_MOST
        && q.ipij <= COST_MOST
}

fn ranged_pieces(pieces: &[Charged]) -> bool
    ensures { Tells (Each Ranged pieces.now) result }
{
    pieces.iter().all(|q| ranged_piece(*q))
}

impl<'a> Core<'a> {
    /// The core of these pieces, if they are one.
    pub fn of(pieces: &'a [Charged]) -> Option<Core<'a>>
        ensures exact { result ≡ laid pieces.now }
    {
        if pieces.len() <= RUN_MOST && ranged_pieces(pieces) {
            Some(Core { pieces })
        } else {
            None
        }
    }

    pub(crate) fn is_empty(&self) -> bool
        ensures { result ≡ (length self.now == 0) }
    {
        self.pieces.is_empty()
    }
}
