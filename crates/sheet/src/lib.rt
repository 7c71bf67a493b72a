// A timing sheet, read from its bytes: document 01, "Sheet" and "Refusal numbers".
#![tactic(auto)]

mod drafts;

ghost use Rattle.std.specs.Prelude.{◌≡◌};
ghost use Rattle.sheet.specs.Sheet.{read_of, read_shown};

use demand::Costs;
use drafts::{Draft, Stage};
use lines::until;
use task::{Fault, Machine, Refused, Tasks};

/// The most bytes that a sheet has.
pub const SHEET_MOST: usize = 16384;

/// What a sheet says: the machine, the nine cost constants, and the tasks with their parts' times.
#[derive(Clone, Copy)]
pub struct Sheet {
    pub machine: Machine,
    pub costs: Costs,
    pub tasks: Tasks,
}

/// The sheet in these bytes, or the refusal with its line, from 1. A sheet that is too long is refused as a whole, and carries 0.
pub fn read_sheet(bytes: &[u8]) -> Result<Sheet, Refused>
    ensures exact { read_shown result ≡ read_of bytes.now }
{
    if SHEET_MOST < bytes.len() {
        return Err(Refused {
            fault: Fault::TooLong,
            carries: 0,
        });
    }
    let mut draft = Draft::top();
    let mut line: u64 = 1;
    let (mut run, mut rest) = until(bytes, b'\n');
    while let Some(left) = rest {
        draft.read(run).map_err(|fault| Refused {
            fault,
            carries: line,
        })?;
        (run, rest) = until(left, b'\n');
        line += 1;
    }
    let refused = Refused {
        fault: Fault::Form,
        carries: line,
    };
    // what stands behind the last newline is a line that was cut
    if !run.is_empty() {
        return Err(refused);
    }
    // a `machine` or a `cost` line is missing
    if draft.stage < Stage::AmongParts {
        return Err(refused);
    }
    Ok(Sheet {
        machine: draft.machine,
        costs: draft.costs,
        tasks: Tasks {
            count: draft.tasks.count,
            list: draft.tasks.list,
        },
    })
}
