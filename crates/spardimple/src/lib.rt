// What is called on lent memory: a sheet's listing, and the verdict on a run of piece records, as a slice and as bytes (document 01); why, of either (document 02, E1); two sheets' plans side by side (E3).
//
// The functions take any input, and their contracts are equations with one definition of `specs/`: one for the answer, and one for a buffer
// that is lent by `&mut`. What is lent by `&` is not written.
#![tactic(auto)]

mod bytes;
mod lent;
mod numbers;
mod sheets;

ghost use Rattle.std.specs.Prelude.{◌≡◌, length};
ghost use Rattle.demand.specs.Answer.{answer_of};
ghost use Rattle.spardimple.specs.Numbers.{verdict_number};
ghost use Rattle.spardimple.specs.Sheets.{listing_number, listing_left};
ghost use Rattle.spardimple.specs.Diffs.{diff_number, diff_left};
ghost use Rattle.spardimple.specs.Whys.{why_records_number, why_records_left, why_core_number, why_core_left, demand_number};

use demand::{Costs, Piece, RUN_MOST, Refusal, Run, Verdict, outside};
use lent::{judged, lent, measure, run_room, run_shown};
use numbers::{note_number, number_of, refusal_number};
use sheets::{compared, core_shown, listed, planned};
use verdicts::demand_of;

// What is added to the number of a second sheet's refusal, so that it is known whose it is.
const SECOND_FROM: u64 = 1000;

/// The verdict on a lent run of piece records: 6, then 2, then 3 with the record's place, else the verdict.
pub fn judge_lent(costs: Costs, pieces: &[Piece]) -> Result<Verdict, Refusal>
    ensures exact { result ≡ answer_of costs (length pieces.now) pieces.now }
{
    if RUN_MOST < pieces.len() {
        return Err(Refusal::TooMany);
    }
    let mut held = [outside(); RUN_MOST];
    held[..pieces.len()].copy_from_slice(pieces);
    let run = Run {
        count: pieces.len(),
        pieces: held,
    };
    verdicts::judge(costs, run)
}

/// The same on records and costs that are lent as bytes, four a number, lowest first. First 8, where the bytes make no whole records or not
/// nine costs. The answer is one number, 2^32 · which + carries: 0 passes, 1 overloaded, 2 undecided, 100 + N the refusal N.
pub fn verdict(records: &[u8], costs: &[u8]) -> u64
    ensures exact { result ≡ verdict_number records.now costs.now }
{
    number_of(judged(records, costs))
}

/// A sheet's listing, written into a lent buffer. The answer is one number, 2^32 · which + carries: 0 and the listing's length, where it is
/// written; 100 + N the refusal N: 9, then the first bad line's with its line, then 7 with the task, then 10 with the length needed. A refusal writes
/// no byte, and the bytes beyond a listing stay.
pub fn plan_listing(sheet: &[u8], listing: &mut [u8]) -> u64
    ensures exact { (result ≡ listing_number sheet.now (length listing.old)) × (listing.new ≡ listing_left sheet.now listing.old) }
{
    note_number(listed(sheet, listing))
}

/// Why the verdict on lent records is as it is: the listing of document 02, E1, written into a lent buffer. The answer is one number as `plan_listing` has it: refused as `verdict`
/// is, then 10 with the length needed. A refusal writes no byte, and the bytes beyond a listing stay.
pub fn why_records(records: &[u8], costs: &[u8], out: &mut [u8]) -> u64
    ensures exact { (result ≡ why_records_number records.now costs.now (length out.old)) × (out.new ≡ why_records_left records.now costs.now out.old) }
{
    note_number(run_shown(records, costs, out))
}

/// The same of a core, from 1, of a sheet's plan, its pieces called by the names of their tasks. Refused as the sheet is, but for 7; then a core that the machine has not with 1; then 10. Where the walk
/// sticks, a first line tells which task found no room, and it is the last core, whichever was asked for, with the whole task added.
pub fn why_core(sheet: &[u8], core: u64, out: &mut [u8]) -> u64
    ensures exact { (result ≡ why_core_number sheet.now core (length out.old)) × (out.new ≡ why_core_left sheet.now core out.old) }
{
    note_number(core_shown(sheet, core, out))
}

/// The demand g(t) of lent records as one core; 0 where `verdict` refuses them, and where t is above 101,000,000, which no judged length reaches.
pub fn demand_at(records: &[u8], costs: &[u8], t: u64) -> u64
    ensures exact { result ≡ demand_number records.now costs.now t }
{
    let Ok(()) = measure(records, costs) else {
        return 0;
    };
    let mut room = run_room();
    let Ok((costs, run)) = lent(&mut room, records, costs) else {
        return 0;
    };
    let Ok(demand) = demand_of(costs, run, t) else {
        return 0;
    };
    demand.unwrap_or(0)
}

/// Two sheets' plans side by side: the listing of document 02, E3, written into a lent buffer. The answer is one number as `plan_listing` has it: refused as the first sheet is, then as the second with
/// 1000 added to `which`, then 10 with the length needed. A refusal writes no byte, and the bytes beyond a listing stay.
pub fn diff_listing(sheet1: &[u8], sheet2: &[u8], out: &mut [u8]) -> u64
    ensures exact { (result ≡ diff_number sheet1.now sheet2.now (length out.old)) × (out.new ≡ diff_left sheet1.now sheet2.now out.old) }
{
    let first = match planned(sheet1) {
        Ok(plan) => plan,
        Err(why) => return refusal_number(0, why),
    };
    let second = match planned(sheet2) {
        Ok(plan) => plan,
        Err(why) => return refusal_number(SECOND_FROM, why),
    };
    note_number(compared(first, second, out))
}
