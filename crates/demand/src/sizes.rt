// Whether costs and pieces are within the sizes.
ghost use Rattle.std.specs.Prelude.{◌≡◌};
ghost use Rattle.demand.specs.Sizes.{Sized, SizedCosts, Tells, sized, sized_costs};
ghost use Rattle.demand.specs.Ways.Ranges.{Countable};

use crate::{COST_MOST, Costs, Piece, TIME_MOST};

pub fn sized_costs(costs: Costs) -> bool
    ensures { Tells (SizedCosts costs) result }
{
    costs.relo <= COST_MOST
        && costs.schedo <= COST_MOST
        && costs.tseto <= COST_MOST
        && costs.ipb <= COST_MOST
        && costs.beto <= COST_MOST
        && costs.migro <= COST_MOST
        && costs.ipio <= COST_MOST
        && costs.ipij <= COST_MOST
        && costs.precision <= COST_MOST
}

pub fn sized_piece(piece: Piece) -> bool
    ensures { Tells (Sized piece) result }
{
    1 <= piece.budget
        && piece.budget <= piece.window
        && piece.window <= piece.period
        && piece.period <= TIME_MOST
        && piece.jitter <= TIME_MOST
        && piece.preempt <= COST_MOST
        && piece.migrate <= COST_MOST
}

// Whether a piece can be charged.
pub fn countable_piece(piece: Piece) -> bool
    ensures { Tells (Countable piece) result }
{
    piece.budget <= TIME_MOST
        && piece.window <= TIME_MOST
        && (1..=TIME_MOST).contains(&piece.period)
        && piece.jitter <= TIME_MOST
        && piece.preempt <= COST_MOST
        && piece.migrate <= COST_MOST
}

/// Whether a record is within the sizes.
pub fn within_sizes(piece: Piece) -> bool
    ensures exact { result ≡ sized piece }
{
    sized_piece(piece)
}

/// Whether the nine constants are within their sizes.
pub fn costs_within(costs: Costs) -> bool
    ensures exact { result ≡ sized_costs costs }
{
    sized_costs(costs)
}
