// What is asked of a sheet that is lent as bytes.
ghost use Rattle.std.specs.Prelude.{cond, ◌≡◌, leb};
ghost use Rattle.plan.specs.Plan.{plan_reply};
ghost use Rattle.listing.specs.Papers.{note, written};
ghost use Rattle.listing.specs.Diff.{diff_of};
ghost use Rattle.spardimple.specs.Sheets.{paper_of};
ghost use Rattle.spardimple.specs.Whys.{why_core};
ghost use Rattle.spardimple.specs.Ways.Steps.{planning, Writes};

use listing::{why_plan, write_diff, write_listing};
use plan::{Plan, plan_reached, plan_tasks};
use sheet::read_sheet;
use task::{Fault, Refused};

// The plan of what it says: refused as the sheet is, then as the walk over its tasks is.
pub fn planned(bytes: &[u8]) -> Result<Plan, Refused>
    ensures { plan_reply result ≡ planning bytes.now }
{
    let sheet = read_sheet(bytes)?;
    plan_tasks(sheet.machine, sheet.costs, sheet.tasks)
}

// What is said of a text, which is written where there is room for it: its length, or 10 with the length needed.
fn said(length: usize, room: usize) -> Result<u64, Refused>
    ensures { note result ≡ record { number = cond (leb length room) 0 10; carries = length } }
{
    if room < length {
        return Err(Refused {
            fault: Fault::TooShort,
            carries: length as u64,
        });
    }
    Ok(length as u64)
}

// Its plan's listing.
pub fn listed(bytes: &[u8], out: &mut [u8]) -> Result<u64, Refused>
    ensures { Writes (paper_of bytes.now) out.old result out.new }
{
    let plan = planned(bytes)?;
    let length = write_listing(plan, out);
    said(length, out.len())
}

// Why a core of its plan, from 1, is as it is; where the walk sticks, the last core.
pub fn core_shown(bytes: &[u8], core: u64, out: &mut [u8]) -> Result<u64, Refused>
    ensures { Writes (why_core bytes.now core) out.old result out.new }
{
    let sheet = read_sheet(bytes)?;
    let reached = plan_reached(sheet.machine, sheet.costs, sheet.tasks)?;
    let stuck = match reached.stuck {
        None => 0,
        Some(place) => place + 1,
    };
    why_plan(reached.plan, stuck, core as usize, out)
}

// Two plans side by side.
pub fn compared(first: Plan, second: Plan, out: &mut [u8]) -> Result<u64, Refused>
    ensures { Writes (written (diff_of first second)) out.old result out.new }
{
    let length = write_diff(first, second, out);
    said(length, out.len())
}
