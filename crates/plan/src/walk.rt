// The C=D walk. The records to be judged lie in a lent array, so that none is cleared for a verdict.
ghost use Rattle.std.specs.Prelude.{◌≡◌, [], ◌∷◌, ◌++◌, ◌+◌, ◌-◌, ◌<◌, ◌≤◌};
ghost use Rattle.demand.specs.Records.{pieces_in};
ghost use Rattle.demand.specs.Sizes.{Sized};
ghost use Rattle.demand.specs.Split.{greatest_split};
ghost use Rattle.demand.specs.Verdict.{verdict_of};
ghost use Rattle.walks.specs.Way.{landed};
ghost use Rattle.walks.specs.Halves.{from_core};
ghost use Rattle.plan.specs.Walk.{place_way};
ghost use Rattle.plan.specs.Ways.WalkGoing.{pieces_of_row, AskFits, LandFits, Reach, EndsOver, WalkFits};
ghost use Rattle.task.specs.Tasks.{cores_most};

use crate::Row;
use crate::rows::lay_row;
use crate::seats::{Seat, Seats};
use demand::{Costs, Cut, Piece, RUN_MOST, Record, Verdict, first_piece, last_piece, outside};
use splits::split_records;
use task::{Machine, Task, whole_piece};
use verdicts::judge_records;

/// A walk under way: the core, and its row.
#[derive(Clone, Copy)]
pub struct Going {
    pub core: usize,
    pub row: Row,
}

// The verdict on records within the sizes: they are not refused.
pub fn judge(costs: Costs, records: &[Record]) -> Verdict
    requires { AskFits costs (pieces_in records.now) }
    ensures { result ≡ verdict_of costs (pieces_in records.now) }
{
    judge_records(costs, records).unwrap_or(Verdict::Undecided)
}

// The greatest split of a whole piece beside them.
pub fn split(costs: Costs, grain: u64, records: &[Record], whole: Piece) -> Option<Cut>
    requires { AskFits costs (pieces_in records.now ++ (whole ∷ [])) }
    ensures { result ≡ greatest_split costs grain (pieces_in records.now) whole }
{
    split_records(costs, records, whole, grain).unwrap_or(None)
}

// The task at place k, with the whole piece `whole`, from the core on: document 01's four rules. Where it sticks there is nothing to go on from, and what
// was placed is as it was.
pub fn land<'a>(
    machine: Machine,
    costs: Costs,
    placed: &'a mut Seats,
    records: &'a mut [Record; RUN_MOST],
    going: Going,
    k: usize,
    whole: Piece,
) -> Option<Going>
    requires core { (going.core < machine.cores) × (machine.cores ≤ cores_most) }
    requires land_fits { LandFits costs placed.old going }
    requires sized { Sized whole }
    ensures { Reach placed.old placed.new result (landed k (from_core costs machine.grain whole (machine.cores - 1 - going.core) going.core (pieces_of_row placed.old going.row))) }
{
    let mut row = going.row;
    for core in going.core..machine.cores {
        lay_row(records, placed, row, whole);
        let Verdict::Passes = judge(costs, &records[..=row.len]) else {
            // The last piece of a split goes on the next core, and the last core has none.
            if core + 1 < machine.cores {
                if let Some(cut) = split(costs, machine.grain, &records[..row.len], whole) {
                    placed.push(Seat {
                        core,
                        task: k,
                        piece: first_piece(whole, cut.budget, cut.window),
                    });
                    let row = Row::empty().with(placed.count());
                    placed.push(Seat {
                        core: core + 1,
                        task: k,
                        piece: last_piece(costs, whole, cut.budget, cut.window),
                    });
                    return Some(Going {
                        core: core + 1,
                        row,
                    });
                }
            }
            row = Row::empty();
            continue;
        };
        let row = row.with(placed.count());
        placed.push(Seat {
            core,
            task: k,
            piece: whole,
        });
        return Some(Going { core, row });
    }
    None
}

// The walk over the tasks in packing order. Where it sticks, the place of the task that it sticks at, and what was placed before is there.
pub fn walk_over<'a>(
    machine: Machine,
    costs: Costs,
    tasks: &'a [Task],
    order: &'a [usize],
    placed: &'a mut Seats,
) -> Option<usize>
    requires nothing { placed.old ≡ [] }
    requires walk_fits { WalkFits machine costs tasks.now order.now }
    ensures { EndsOver (place_way machine costs tasks.now) placed.new result order.now }
{
    let mut records = [Record::from(outside()); RUN_MOST];
    let mut going = Going {
        core: 0,
        row: Row::empty(),
    };
    for &k in order {
        let whole = whole_piece(tasks[k].times);
        let Some(next) = land(machine, costs, placed, &mut records, going, k, whole) else {
            return Some(k);
        };
        going = next;
    }
    None
}
