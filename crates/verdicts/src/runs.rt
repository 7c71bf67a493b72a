// A run of records, each charged, so that it can be asked about as a core.
ghost use Rattle.std.specs.Prelude.{◌≡◌, length, take};
ghost use Rattle.demand.specs.Answer.{Taken};
ghost use Rattle.demand.specs.Records.{pieces_in};
ghost use Rattle.demand.specs.Sizes.{run_most};
ghost use Rattle.verdicts.specs.Cores.{laid_piece, lay_piece, lay_records};
ghost use Rattle.verdicts.specs.Ways.Runs.{LaysOut};

use demand::{Charged, Costs, RUN_MOST, Record, charged_piece, no_charge, piece_in, stall_of};

/// The charged piece at a place from 0; past the last place all numbers are 0.
#[tactic(auto, using(crate::proofs::CoreLaws::piece_there, crate::proofs::CoreLaws::piece_past))]
pub fn laid_piece(pieces: &[Charged], i: usize) -> Charged
    ensures exact { result ≡ laid_piece pieces.now i }
{
    if i < pieces.len() {
        pieces[i]
    } else {
        no_charge()
    }
}

/// Lays a charged piece out at a place from 0; past the last place nothing changes.
#[tactic(auto, using(crate::proofs::CoreLaws::lay_there, crate::proofs::CoreLaws::lay_past))]
pub fn lay_piece(room: &mut [Charged], i: usize, q: Charged)
    ensures exact { room.new ≡ lay_piece room.old i q }
{
    if i < room.len() {
        room[i] = q;
    }
}

/// Charges the records of a run, each in its place; the places behind them stay as they were. A record past the last place is left out.
pub fn lay_records<'a>(core: &'a mut [Charged; RUN_MOST], costs: Costs, records: &'a [Record])
    ensures exact { core.new ≡ lay_records core.old costs (take run_most (pieces_in records.now)) }
{
    let count = records.len().min(RUN_MOST);
    for (place, record) in records[..count].iter().enumerate() {
        core[place] = charged_piece(costs, piece_in(*record));
    }
}

// Lays out the records of a run that is taken, each charged in its place, and says how long the core can be held up. The room is lent, since an array in an answer is
// cleared and copied by every call.
pub fn lay_run<'a>(pieces: &'a mut [Charged; RUN_MOST], costs: Costs, records: &'a [Record]) -> u64
    requires { Taken costs (length records.now) (pieces_in records.now) }
    ensures { LaysOut costs (length records.now) (pieces_in records.now) pieces.new result }
{
    lay_records(pieces, costs, records);
    stall_of(costs)
}
