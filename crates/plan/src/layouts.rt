// The plan's rows and words, one piece at a time.
ghost use Rattle.std.specs.Prelude.{◌≡◌, ◌<◌, ◌≤◌, get_or};
ghost use Rattle.plan.specs.Layout.{stored, kept_piece, none, put_of, layout_on};
ghost use Rattle.plan.specs.Ways.PlacedArray.{HasRoom};
ghost use Rattle.plan.specs.Sizes.{pieces_most, row_most};
ghost use Rattle.task.specs.Tasks.{tasks_most, cores_most, tasks_of, list_of};

use crate::seats::{Seat, Seats};
use crate::{Layout, PIECES_MOST, ROW_MOST, Stored};
use demand::{Piece, kind_of};
use task::{CORES_MOST, Tasks, no_task};

// A placed piece, as the plan keeps it.
impl From<Seat> for Stored {
    ghost from_gives = { λ seat s. s ≡ stored seat.task seat.piece };

    fn from(seat: Seat) -> Stored {
        let q = seat.piece;
        Stored {
            task: seat.task,
            kind: u64::from(q.kind),
            budget: q.budget,
            window: q.window,
            period: q.period,
            jitter: q.jitter,
            preempt: q.preempt,
            migrate: q.migrate,
        }
    }
}

// The piece that is kept.
impl From<Stored> for Piece {
    ghost from_gives = { λ s q. q ≡ kept_piece s };

    fn from(s: Stored) -> Piece {
        Piece {
            kind: kind_of(s.kind),
            budget: s.budget,
            window: s.window,
            period: s.period,
            jitter: s.jitter,
            preempt: s.preempt,
            migrate: s.migrate,
        }
    }
}

// Nothing placed yet.
#[tactic(auto, unfolding(crate::specs::Layout::none))]
pub fn empty() -> Layout
    ensures { result ≡ none }
{
    let q = Stored {
        task: 0,
        kind: 0,
        budget: 0,
        window: 0,
        period: 0,
        jitter: 0,
        preempt: 0,
        migrate: 0,
    };
    Layout {
        count: 0,
        pieces: [q; PIECES_MOST],
        rows: [0usize; CORES_MOST * ROW_MOST],
        lens: [0usize; CORES_MOST],
        words: [0u64; CORES_MOST],
    }
}

// The list with zeros past its end.
pub fn tidy(tasks: Tasks) -> Tasks
    requires { tasks.count ≤ tasks_most }
    ensures { result ≡ tasks_of (list_of tasks) }
{
    let mut next = tasks;
    next.list[tasks.count..].fill(no_task());
    next
}

// One piece more, in the row and the word of its core.
#[tactic(auto, unfolding(crate::specs::Layout::put_of))]
fn put(s: &mut Layout, e: Seat)
    requires { (s.old.count < pieces_most) × (e.core < cores_most) × (e.task < tasks_most) × (get_or s.old.lens e.core 0 < row_most) }
    ensures { s.new ≡ put_of s.old e.core e.task e.piece }
{
    s.pieces[s.count] = Stored::from(e);
    s.rows[e.core * ROW_MOST + s.lens[e.core]] = s.count;
    s.lens[e.core] += 1;
    s.words[e.core] |= 1 << e.task;
    s.count += 1;
}

// All that was placed, one piece at a time.
pub fn layout_of(placed: &Seats) -> Layout
    requires { HasRoom placed.now }
    ensures { result ≡ layout_on none placed.now }
{
    let seats = placed.seats();
    let mut layout = empty();
    for seat in seats {
        put(&mut layout, *seat);
    }
    layout
}
