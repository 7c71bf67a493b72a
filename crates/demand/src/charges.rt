// A piece becomes a charged piece, once; after this nothing asks for its kind.
ghost use Rattle.std.specs.Prelude.{◌≡◌, ◌≤◌};
ghost use Rattle.demand.specs.Answer.{charged_time};
ghost use Rattle.demand.specs.Charge.{no_costs, charge, charged, stall};
ghost use Rattle.demand.specs.Sizes.{SizedCosts};
ghost use Rattle.demand.specs.Ways.Ranges.{Countable, charged_within, no_charge, stall_within, charge_most};

use crate::kinds::{if_arrives, if_departs};
use crate::sizes::{countable_piece, sized_costs, sized_piece};
use crate::{Charged, Costs, Piece};

// The charged time C'.
fn charge_of(costs: Costs, piece: Piece) -> u64
    requires sized_costs { SizedCosts costs }
    requires countable { Countable piece }
    ensures { (result ≡ charge costs piece) × (result ≤ charge_most) }
{
    let kind = piece.kind;
    let leaving = if_departs(kind, costs.ipb + costs.beto + costs.migro);
    let coming = if_arrives(kind, piece.migrate, 0);
    piece.budget + 2 * costs.schedo + costs.tseto + piece.preempt + leaving + coming
}

// The piece with its charge, and without its kind.
fn charged_of(costs: Costs, piece: Piece) -> Charged
    requires sized_costs { SizedCosts costs }
    requires countable { Countable piece }
    ensures { result ≡ charged costs piece }
{
    let kind = piece.kind;
    Charged {
        charge: charge_of(costs, piece),
        window: piece.window,
        period: piece.period,
        jitter: piece.jitter,
        release: costs.relo + costs.tseto,
        ipi: if_arrives(kind, costs.ipio, 0),
        ipij: costs.ipij,
    }
}

/// The charged piece that asks for nothing: zeros.
pub fn no_charge() -> Charged
    ensures exact { result ≡ no_charge }
{
    Charged {
        charge: 0,
        window: 0,
        period: 0,
        jitter: 0,
        release: 0,
        ipi: 0,
        ipij: 0,
    }
}

/// The piece with its charge, or nothing but zeros where its sums could wrap: the costs are outside their sizes, or the piece cannot be charged.
pub fn charged_piece(costs: Costs, piece: Piece) -> Charged
    ensures exact { result ≡ charged_within costs piece }
{
    if !sized_costs(costs) {
        return no_charge();
    }
    if !countable_piece(piece) {
        return no_charge();
    }
    charged_of(costs, piece)
}

/// The charged time C' of a piece, or 0 where the costs or the piece are outside the sizes.
pub fn charged_time(costs: Costs, piece: Piece) -> u64
    ensures exact { result ≡ charged_time costs piece }
{
    if !sized_costs(costs) {
        return 0;
    }
    if !sized_piece(piece) {
        return 0;
    }
    charge_of(costs, piece)
}

// How long the core can be held up.
fn stall_within(costs: Costs) -> u64
    requires { SizedCosts costs }
    ensures { result ≡ stall costs }
{
    costs.ipb.max(costs.schedo + costs.tseto)
}

/// Costs of which all nine are 0.
pub fn no_costs() -> Costs
    ensures exact { result ≡ no_costs }
{
    Costs {
        relo: 0,
        schedo: 0,
        tseto: 0,
        ipb: 0,
        beto: 0,
        migro: 0,
        ipio: 0,
        ipij: 0,
        precision: 0,
    }
}

/// How long the core can be held up, or 0 where the costs are outside their sizes.
pub fn stall_of(costs: Costs) -> u64
    ensures exact { result ≡ stall_within costs }
{
    if !sized_costs(costs) {
        return 0;
    }
    stall_within(costs)
}
