// The pieces of a task. Each is made by one function; a piece that came from elsewhere is late by what `late_jitter` says.
ghost use Rattle.std.specs.Prelude.{◌≡◌};
ghost use Rattle.demand.specs.Sizes.{SizedCosts};
ghost use Rattle.demand.specs.Split.{late_jitter, piece_of, first_piece, last_piece};

use crate::kinds::if_arrives;
use crate::sizes::sized_costs;
use crate::{Costs, Kind, Piece};

// A piece that came from elsewhere is released by a clock that is read to within π, once the release of its task's first piece is handled.
fn late_within(costs: Costs) -> u64
    requires { SizedCosts costs }
    ensures { result ≡ late_jitter costs }
{
    costs.precision + costs.ipb + costs.relo + costs.tseto
}

// The jitter of a piece that came from elsewhere. Costs outside their sizes have none, so that no sum wraps.
pub fn late_jitter(costs: Costs) -> u64
    ensures { result ≡ late_jitter costs }
{
    if !sized_costs(costs) {
        return 0;
    }
    late_within(costs)
}

// The piece of that kind, with budget x and window w, of a task that is given as its whole piece.
pub fn piece_of(late: u64, task: Piece, kind: Kind, x: u64, w: u64) -> Piece
    ensures { result ≡ piece_of late task kind x w }
{
    Piece {
        kind,
        budget: x,
        window: w,
        period: task.period,
        jitter: if_arrives(kind, late, task.jitter),
        preempt: task.preempt,
        migrate: task.migrate,
    }
}

/// The first piece of a task that is given as its whole piece, with budget x and window w.
pub fn first_piece(task: Piece, x: u64, w: u64) -> Piece
    ensures exact { result ≡ first_piece task x w }
{
    piece_of(0, task, Kind::First, x, w)
}

/// The last piece that this leaves.
pub fn last_piece(costs: Costs, task: Piece, x: u64, w: u64) -> Piece
    ensures exact { result ≡ last_piece costs task x w }
{
    piece_of(
        late_jitter(costs),
        task,
        Kind::Last,
        task.budget.saturating_sub(x),
        task.window.saturating_sub(w),
    )
}
