// The verdict on pieces that are lent.
ghost use Rattle.std.specs.Prelude.{◌≡◌, ◌≤◌};
ghost use Rattle.demand.specs.Answer.{answer_of};

use demand::{Costs, Piece, Refusal, Verdict};
use spardimple::judge_lent;

// One more than a run may have.
pub const LENT_MOST: usize = 80;

// The first n of the records are lent as a slice. `main.rt` writes each n out.
pub fn judge_first(costs: Costs, records: [Piece; LENT_MOST], n: usize) -> Result<Verdict, Refusal>
    requires { n ≤ 80 }
    ensures exact { result ≡ answer_of costs n records }
{
    judge_lent(costs, &records[..n])
}
