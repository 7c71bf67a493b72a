// The greatest split of a task on a core, found by asking `verdicts` about a core that is laid out once. What a split means stands in `demand`.
#![tactic(auto)]

mod bench;
mod charge_bounds;
mod monotone_search;
mod sized_task;
mod split_search;
mod starts;

ghost use Rattle.std.specs.Prelude.{◌≡◌, length};
ghost use Rattle.demand.specs.Answer.{split_of};
ghost use Rattle.demand.specs.Records.{pieces_in};

use demand::{Costs, Cut, Piece, Record, Refusal, check_task};
use sized_task::SizedTask;
use split_search::greatest_split;

/// The greatest allowed split of the task beside a run of records, at the grain. The task is given as its whole piece and checked as the record behind the run's, so
/// the run has at most 78. No multiple of a grain of 0 counts.
pub fn split_records(
    costs: Costs,
    records: &[Record],
    task: Piece,
    grain: u64,
) -> Result<Option<Cut>, Refusal>
    ensures exact { result ≡ split_of costs (length records.now) (pieces_in records.now) task grain }
{
    check_task(costs, records, task)?;
    let given = SizedTask { costs, task };
    Ok(greatest_split(given, records, grain))
}
