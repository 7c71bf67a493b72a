// What is asked of records and costs that are lent as bytes.
ghost use Rattle.std.specs.Prelude.{true, ◌≡◌, MatchResult};
ghost use Rattle.demand.specs.Records.{pieces_in};
ghost use Rattle.spardimple.specs.Bytes.{pieces_of, costs_spelt};
ghost use Rattle.spardimple.specs.Numbers.{told_reply, measured, reply_of};
ghost use Rattle.spardimple.specs.Whys.{why_records};
ghost use Rattle.spardimple.specs.Ways.Steps.{Unlent, told_said, Writes};

use crate::bytes::{read_costs, records_in};
use demand::{Costs, RUN_MOST, Record, Verdict, outside};
use listing::why_run;
use task::{Fault, Refused};
use verdicts::judge_records;

// Room for the records of a run.
pub fn run_room() -> [Record; RUN_MOST] {
    [Record::from(outside()); RUN_MOST]
}

// First 8, where the bytes make no whole records or not nine costs. It is asked before there is room for a run, so that such a refusal clears none.
pub fn measure(records: &[u8], costs: &[u8]) -> Result<(), Refused>
    ensures { MatchResult result (λ done. measured records.now costs.now ≡ true) (λ why. Unlent records.now costs.now why) }
{
    if records.len() % 28 != 0 || costs.len() != 36 {
        return Err(Refused::from(Fault::Form));
    }
    Ok(())
}

// The costs, and the records in the room for them: refused as `measure` is, then 6.
pub fn lent<'a>(
    room: &'a mut [Record; RUN_MOST],
    records: &[u8],
    costs: &[u8],
) -> Result<(Costs, &'a [Record]), Refused>
    ensures { MatchResult result (λ found. (measured records.now costs.now ≡ true) × (found.0 ≡ costs_spelt costs.now) × (pieces_in found.1.now ≡ pieces_of records.now)) (λ why. Unlent records.now costs.now why) }
{
    measure(records, costs)?;
    let run = records_in(room, records)?;
    Ok((read_costs(costs), run))
}

// The verdict on them.
pub fn judged(records: &[u8], costs: &[u8]) -> Result<Verdict, Refused>
    ensures { told_said result ≡ told_reply (reply_of records.now costs.now) }
{
    measure(records, costs)?;
    let mut room = run_room();
    let (costs, run) = lent(&mut room, records, costs)?;
    Ok(judge_records(costs, run)?)
}

// Why it is as it is, written into a lent buffer.
pub fn run_shown(records: &[u8], costs: &[u8], out: &mut [u8]) -> Result<u64, Refused>
    ensures { Writes (why_records records.now costs.now) out.old result out.new }
{
    measure(records, costs)?;
    let mut room = run_room();
    let (costs, run) = lent(&mut room, records, costs)?;
    why_run(costs, run, out)
}
