// A run of piece records, as it is lent, and what is refused of it.
ghost use Rattle.std.specs.Prelude.{◌≡◌, [], ◌∷◌, ◌++◌, ◌+◌, ◌≤◌, map, length};
ghost use Rattle.demand.specs.Answer.{first_bad, bad_record, check_run};
ghost use Rattle.demand.specs.Records.{outside, piece_in, pieces_in, record_for, record_within, put_record};
ghost use Rattle.demand.specs.Sizes.{run_most};

use crate::kinds::kind_of;
use crate::sizes::{sized_costs, sized_piece};
use crate::{Costs, KIND_MOST, Kind, Piece, RUN_MOST, Record, Refusal, Run};

impl From<Piece> for Record {
    ghost from_gives = { λ piece r. r ≡ record_for piece };

    #[tactic(auto, unfolding(crate::specs::Records::record_for))]
    fn from(piece: Piece) -> Record {
        Record {
            kind: piece.kind.into(),
            budget: piece.budget,
            window: piece.window,
            period: piece.period,
            jitter: piece.jitter,
            preempt: piece.preempt,
            migrate: piece.migrate,
        }
    }
}

/// A piece outside the sizes: zeros.
pub fn outside() -> Piece
    ensures exact { result ≡ outside }
{
    Piece {
        kind: Kind::Whole,
        budget: 0,
        window: 0,
        period: 0,
        jitter: 0,
        preempt: 0,
        migrate: 0,
    }
}

/// The piece that a record is. A record of another kind is outside the sizes, whatever its figures.
#[tactic(auto, using(crate::proofs::RecordLaws::in_named, crate::proofs::RecordLaws::in_other))]
pub fn piece_in(lent: Record) -> Piece
    ensures exact { result ≡ piece_in lent }
{
    if KIND_MOST < lent.kind {
        return outside();
    }
    Piece {
        kind: kind_of(lent.kind),
        budget: lent.budget,
        window: lent.window,
        period: lent.period,
        jitter: lent.jitter,
        preempt: lent.preempt,
        migrate: lent.migrate,
    }
}

/// The piece of the record at a place from 0; zeros past the last place, and where the kind is none.
#[tactic(auto, using(crate::proofs::RecordLaws::within_there, crate::proofs::RecordLaws::within_past))]
pub fn record_at(records: &[Record], i: usize) -> Piece
    ensures exact { result ≡ record_within records.now i }
{
    if i < records.len() {
        piece_in(records[i])
    } else {
        outside()
    }
}

/// Writes the record of a piece at a place from 0; past the last place nothing changes.
#[tactic(auto, using(crate::proofs::RecordLaws::put_there, crate::proofs::RecordLaws::put_past))]
pub fn put_record(records: &mut [Record], i: usize, piece: Piece)
    ensures exact { records.new ≡ put_record records.old i piece }
{
    if i < records.len() {
        records[i] = Record::from(piece);
    }
}

/// A run by value, as the records that are lent.
pub fn records_of(run: Run) -> [Record; RUN_MOST]
    ensures exact { result ≡ map record_for run.pieces }
{
    let mut records = [Record::from(outside()); RUN_MOST];
    for (place, piece) in run.pieces.iter().enumerate() {
        records[place] = Record::from(*piece);
    }
    records
}

// The first record outside the sizes is refused, by its place from 1.
fn check_each(records: &[Record]) -> Result<(), Refusal>
    requires { length records.now ≤ run_most }
    ensures { result ≡ bad_record (first_bad 1 (pieces_in records.now)) }
{
    for (place, record) in records.iter().enumerate() {
        if !sized_piece(piece_in(*record)) {
            return Err(Refusal::BadRecord(place as u64 + 1));
        }
    }
    Ok(())
}

/// Whether a run of records is taken: 6, then 2, then 3 with the record's place.
pub fn check_records(costs: Costs, records: &[Record]) -> Result<(), Refusal>
    ensures exact { result ≡ check_run costs (length records.now) (pieces_in records.now) }
{
    if RUN_MOST < records.len() {
        return Err(Refusal::TooMany);
    }
    if !sized_costs(costs) {
        return Err(Refusal::BadCosts);
    }
    check_each(records)
}

/// The same of a run with one record more, the task's.
pub fn check_task(costs: Costs, records: &[Record], task: Piece) -> Result<(), Refusal>
    ensures exact { result ≡ check_run costs (length records.now + 1) (pieces_in records.now ++ (task ∷ [])) }
{
    if RUN_MOST <= records.len() {
        return Err(Refusal::TooMany);
    }
    check_records(costs, records)?;
    if !sized_piece(task) {
        return Err(Refusal::BadRecord(records.len() as u64 + 1));
    }
    Ok(())
}
