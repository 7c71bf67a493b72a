// A core's row of piece numbers, and the records that the verdict judges.
ghost use Rattle.std.specs.Prelude.{◌≡◌, [], ◌∷◌, ◌++◌, ◌+◌, ◌<◌, map, take};
ghost use Rattle.demand.specs.Records.{record_for};
ghost use Rattle.plan.specs.Sizes.{row_most};
ghost use Rattle.plan.specs.Ways.WalkGoing.{row_numbers, pieces_of_row, Seated};

use crate::seats::Seats;
use crate::{ROW_MOST, Row};
use demand::{Piece, RUN_MOST, Record};

impl Row {
    // Of a core on which nothing is placed.
    pub(crate) fn empty() -> Row
        ensures { (result.len ≡ 0) × (row_numbers result ≡ []) }
    {
        Row {
            len: 0,
            numbers: [0; ROW_MOST],
        }
    }

    // The row with one piece more, by its number.
    pub(crate) fn with(self, number: usize) -> Row
        requires { self.len < row_most }
        ensures { (result.len ≡ self.len + 1) × (row_numbers result ≡ row_numbers self ++ (number ∷ [])) }
    {
        let mut next = self;
        next.numbers[self.len] = number;
        next.len = self.len + 1;
        next
    }
}

// The pieces of a row, in placement order, and one piece more behind them.
pub fn lay_row<'a>(records: &'a mut [Record; RUN_MOST], placed: &'a Seats, row: Row, piece: Piece)
    requires few { row.len < row_most }
    requires seated { Seated placed.now row }
    ensures row { take row.len records.new ≡ map record_for (pieces_of_row placed.now row) }
    ensures behind { take (row.len + 1) records.new ≡ map record_for (pieces_of_row placed.now row) ++ (record_for piece ∷ []) }
{
    let seats = placed.seats();
    for place in 0..row.len {
        records[place] = Record::from(seats[row.numbers[place]].piece);
    }
    records[row.len] = Record::from(piece);
}
