// The pieces of a core: its row, and its pieces laid out to be written, their records and beside them the places of their tasks.
ghost use Rattle.std.specs.Prelude.{◌≡◌, ◌*◌, ◌≤◌, ◌<◌, length, take, drop, get_or};
ghost use Rattle.demand.specs.Sizes.{run_most};
ghost use Rattle.task.specs.Tasks.{cores_most};
ghost use Rattle.plan.specs.Sizes.{row_most};
ghost use Rattle.plan.specs.Layout.{blank};
ghost use Rattle.listing.specs.Why.{row_seats};
ghost use Rattle.listing.specs.Ways.SeatArrays.{SeatLaid, seats_laid};

use demand::{Piece, RUN_MOST, Record};
use plan::{Layout, ROW_MOST, Stored, stored_piece};
use task::CORES_MOST;

// The numbers of the pieces on a core, from 0, as many as are listed.
pub fn row_of(layout: &Layout, core: usize) -> &[usize]
    requires { core < cores_most }
    ensures { result.now ≡ take (get_or layout.now.lens core 0) (take row_most (drop (core * row_most) layout.now.rows)) }
{
    let start = core * ROW_MOST;
    let row = &layout.rows[start..start + ROW_MOST];
    &row[..layout.lens[core].min(ROW_MOST)]
}

// The stored piece with a number; the zeros that fill a plan, where it has none.
pub fn numbered(number: usize, layout: &Layout) -> Stored
    ensures { result ≡ get_or layout.now.pieces number blank }
{
    layout.pieces.get(number).copied().unwrap_or(Stored {
        task: 0,
        kind: 0,
        budget: 0,
        window: 0,
        period: 0,
        jitter: 0,
        preempt: 0,
        migrate: 0,
    })
}

// A piece of the task at that place is laid behind the first i.
pub fn lay_seat<'a>(
    records: &'a mut [Record; RUN_MOST],
    places: &'a mut [usize; RUN_MOST],
    i: usize,
    place: usize,
    piece: Piece,
)
    requires { i < run_most }
    ensures { SeatLaid places.old records.old i place piece places.new records.new }
{
    records[i] = Record::from(piece);
    places[i] = place;
}

// The row of a core, from 0; how many pieces it has.
pub fn lay_seats<'a>(
    records: &'a mut [Record; RUN_MOST],
    places: &'a mut [usize; RUN_MOST],
    layout: Layout,
    core: usize,
) -> usize
    ensures { (seats_laid core places.new records.new result ≡ row_seats layout core) × (result ≤ row_most) }
{
    let mut n: usize = 0;
    if core < CORES_MOST {
        for number in row_of(&layout, core) {
            let stored = numbered(*number, &layout);
            lay_seat(records, places, n, stored.task, stored_piece(stored));
            n += 1;
        }
    }
    n
}
