// What the walk places: at most 79 pieces, in placement order.
ghost use Rattle.std.specs.Prelude.{◌≡◌, [], ◌∷◌, ◌++◌, ◌<◌, ◌≤◌, length};
ghost use Rattle.plan.specs.Ways.PlacedArray.{seated_as, placed_in};
ghost use Rattle.plan.specs.Sizes.{pieces_most};

use crate::PIECES_MOST;
use demand::{Piece, outside};
use std::marker::Model;

/// A placed piece: its core, from 0, its task's place, from 0, and the piece.
#[derive(Clone, Copy, PartialEq, Eq)]
pub struct Seat {
    pub core: usize,
    pub task: usize,
    pub piece: Piece,
}

// What was placed: the first `count` of the seats. Contracts see it as that list.
#[derive(Drop)]
pub struct Seats {
    count: usize,
    seats: [Seat; PIECES_MOST],
}

impl Model for Seats {
    ghost use Rattle.std.specs.Prelude.{List, ℕ, ◌≤◌, take};
    ghost use Rattle.walks.specs.Way.{Placed};
    ghost use Rattle.plan.specs.Ways.PlacedArray.{placed_in};
    ghost use Rattle.plan.specs.Sizes.{pieces_most};

    ghost Value = { List (Placed ℕ) };

    ghost view = { λ s. placed_in (take s.count s.seats) };

    ghost invariant = { λ s. s.count ≤ pieces_most };
}

impl Seats {
    pub fn new() -> Seats
        ensures { result ≡ [] }
    {
        let none = Seat {
            core: 0,
            task: 0,
            piece: outside(),
        };
        Seats {
            count: 0,
            seats: [none; PIECES_MOST],
        }
    }

    // Those that are placed.
    pub fn seats(&self) -> &[Seat]
        ensures seats { placed_in result.now ≡ self.now }
        ensures few { length self.now ≤ pieces_most }
    {
        &self.seats[..self.count]
    }

    // How many are placed: the number of the next.
    pub fn count(&self) -> usize
        ensures { result ≡ length self.now }
    {
        self.seats().len()
    }

    // One more, behind them.
    pub fn push(&mut self, seat: Seat)
        requires { length self.old < pieces_most }
        ensures { self.new ≡ self.old ++ (seated_as seat ∷ []) }
    {
        self.seats[self.count] = seat;
        self.count += 1;
    }
}
