// A task that is to be split, and its pieces, each charged.
ghost use Rattle.std.specs.Prelude.{◌≡◌, [], ◌∷◌, ◌≤◌};
ghost use Rattle.demand.specs.Charge.{charged, stall};
ghost use Rattle.demand.specs.Sizes.{Sized, SizedCosts};
ghost use Rattle.demand.specs.Split.{first_piece};
ghost use Rattle.demand.specs.Ways.ChargedSplit.{last_alone};
ghost use Rattle.demand.specs.Ways.Ranges.{Ranged, stall_most};

use demand::{Charged, Costs, Piece, charged_piece, first_piece, last_piece, stall_of};

// The task as its whole piece, and the costs that its pieces are charged by: each is within its sizes.
#[derive(Clone, Copy)]
pub struct SizedTask {
    pub costs: Costs,
    pub task: Piece,
    ghost costs_sized: { SizedCosts costs },
    ghost sized: { Sized task },
}

impl SizedTask {
    // How long the core can be held up.
    pub fn stall(self) -> u64
        ensures exact { result ≡ stall self.costs }
        ensures within { result ≤ stall_most }
    {
        stall_of(self.costs)
    }

    // The first piece of x in the window w.
    pub fn first(self, x: u64, w: u64) -> Charged
        requires { (x ≤ self.task.budget) × (w ≤ self.task.window) }
        ensures exact { result ≡ charged self.costs (first_piece self.task x w) }
        ensures ranged { Ranged result }
    {
        charged_piece(self.costs, first_piece(self.task, x, w))
    }

    // The last piece that this leaves.
    pub fn last(self, x: u64, w: u64) -> Charged
        ensures exact { result ∷ [] ≡ last_alone self.costs self.task x w }
        ensures ranged { Ranged result }
    {
        charged_piece(self.costs, last_piece(self.costs, self.task, x, w))
    }
}
