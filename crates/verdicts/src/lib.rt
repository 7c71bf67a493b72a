// The engine: the verdict on a core, its busy length, its demand and tight windows. What each of these means stands in `demand`.
//
// A run of records is asked about at once (`judge_records` to `tight_window`), and refused as document 01 refuses it. Or charged pieces are looked at once, by
// `Core::of`, and asked about as often as needed by the methods of `Core`. The functions in `laid_` ask pieces that may be no core, and then refuse, but for the
// two whose answer needs none, the largest window and the least live length (`specs/Laid.antt`).
//
// Every public function takes any input, and its contract is an equation with one definition.
#![tactic(auto)]

mod busy_climb;
mod cores;
mod demands;
mod laid;
mod lengths;
mod most_fitting;
mod queries;
mod release_sums;
mod runs;
mod shows;
mod slacks;
mod spans;
mod stalls;
mod stretches;

ghost use Rattle.std.specs.Prelude.{◌≡◌, length};
ghost use Rattle.demand.specs.Answer.{answer_of, busy_figure, demand_figure, showing_of, tight_figure};
ghost use Rattle.demand.specs.Records.{pieces_in};

use busy_climb::climb_busy;
pub use cores::Core;
use demand::{
    BUSY_MOST, COST_MOST, Costs, RUN_MOST, Record, Refusal, Run, Shown, TIME_MOST, Verdict,
    check_records, no_charge, records_of,
};
use demands::demand_at;
pub use laid::{
    laid_busy_length, laid_largest_window, laid_least_live, laid_most_fitting, laid_span, laid_sum,
    laid_tight_window, laid_verdict, laid_wait,
};
use lengths::tight_of;
use runs::lay_run;
pub use runs::{laid_piece, lay_piece, lay_records};
pub use shows::ask_of;
use shows::show_core;
use spans::judge_core;
use stalls::stalled;

/// What no judged length reaches: the limit of the busy length and a window.
pub const LENGTH_MOST: u64 = BUSY_MOST + TIME_MOST;

/// What no stall is above.
pub const STALL_MOST: u64 = 2 * COST_MOST;

/// What no release costs more than.
pub const RELEASE_MOST: u64 = 2 * COST_MOST;

/// What no charge is above.
pub const CHARGE_MOST: u64 = 2 * TIME_MOST;

/// What no base of a wait is above.
pub const WAIT_MOST: u64 = 10 * TIME_MOST;

/// Over how many lengths one walk by the marks of their releases goes.
pub const MARKS_MOST: usize = 1024;

/// The last of their places.
pub const MARKS_LAST: usize = MARKS_MOST - 1;

/// Which figure of the pieces is summed: what they ask for within a length, and of that the interrupts and the jobs due alone; or what they ask of it as a busy length.
#[derive(Clone, Copy, PartialEq, Eq)]
pub enum Sum {
    Load,
    Interrupts,
    Jobs,
    Busy,
}

/// The verdict on a run of records: 6, then 2, then 3 with the record's place, else the verdict.
pub fn judge_records(costs: Costs, records: &[Record]) -> Result<Verdict, Refusal>
    ensures exact { result ≡ answer_of costs (length records.now) (pieces_in records.now) }
{
    check_records(costs, records)?;
    let mut pieces = [no_charge(); RUN_MOST];
    let stall = lay_run(&mut pieces, costs, records);
    let core = Core {
        pieces: &pieces[..records.len()],
    };
    Ok(judge_core(&stalled(&core, stall)))
}

/// The same of a run by value.
pub fn judge(costs: Costs, run: Run) -> Result<Verdict, Refusal>
    ensures exact { result ≡ answer_of costs run.count run.pieces }
{
    if RUN_MOST < run.count {
        return Err(Refusal::TooMany);
    }
    let records = records_of(run);
    judge_records(costs, &records[..run.count])
}

/// What is shown of the verdict on a run of records; refused as that is.
pub fn show_records(costs: Costs, records: &[Record]) -> Result<Shown, Refusal>
    ensures exact { result ≡ showing_of costs (length records.now) (pieces_in records.now) }
{
    check_records(costs, records)?;
    let mut pieces = [no_charge(); RUN_MOST];
    let stall = lay_run(&mut pieces, costs, records);
    let core = Core {
        pieces: &pieces[..records.len()],
    };
    Ok(show_core(&stalled(&core, stall)))
}

/// The busy length L of a run of records, if there is one up to the limit; refused as their verdict is.
pub fn busy_length(costs: Costs, records: &[Record]) -> Result<Option<u64>, Refusal>
    ensures exact { result ≡ busy_figure costs (length records.now) (pieces_in records.now) }
{
    check_records(costs, records)?;
    let mut pieces = [no_charge(); RUN_MOST];
    lay_run(&mut pieces, costs, records);
    let core = Core {
        pieces: &pieces[..records.len()],
    };
    Ok(climb_busy(&core))
}

/// Their demand g(t), for a t that a judged length can be.
pub fn demand_of(costs: Costs, records: &[Record], t: u64) -> Result<Option<u64>, Refusal>
    ensures exact { result ≡ demand_figure costs (length records.now) (pieces_in records.now) t }
{
    check_records(costs, records)?;
    if LENGTH_MOST < t {
        return Ok(None);
    }
    let mut pieces = [no_charge(); RUN_MOST];
    let stall = lay_run(&mut pieces, costs, records);
    let core = Core {
        pieces: &pieces[..records.len()],
    };
    Ok(Some(demand_at(&stalled(&core, stall), t)))
}

/// The tight window of the last of them beside those before it, where that is at most its own window.
pub fn tight_window(costs: Costs, records: &[Record]) -> Result<Option<u64>, Refusal>
    ensures exact { result ≡ tight_figure costs (length records.now) (pieces_in records.now) }
{
    check_records(costs, records)?;
    if records.is_empty() {
        return Ok(None);
    }
    let mut pieces = [no_charge(); RUN_MOST];
    let stall = lay_run(&mut pieces, costs, records);
    let core = Core {
        pieces: &pieces[..records.len()],
    };
    Ok(tight_of(&core, stall))
}
