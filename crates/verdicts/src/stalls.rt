// A core that can be held up, and what its demand is told by at every length.
ghost use Rattle.std.specs.Prelude.{◌≡◌, ◌≤◌};
ghost use Rattle.demand.specs.Demand.{largest_window};
ghost use Rattle.demand.specs.Ways.Ranges.{stall_most};

use crate::cores::Core;
use crate::laid::laid_largest_window;

// The pieces, how long they can be held up, and their largest window.
#[derive(Clone, Copy)]
pub struct StalledCore<'a> {
    pub pieces: &'a Core<'a>,
    pub stall: u64,
    pub widest: u64,
    pub ghost stall_fits: { stall ≤ stall_most },
    pub ghost widest_is: { widest ≡ largest_window pieces.now },
}

// The core, held up by the stall.
pub fn stalled<'a>(pieces: &'a Core<'a>, stall: u64) -> StalledCore<'a>
    requires { stall ≤ stall_most }
    ensures { (result.pieces.now ≡ pieces.now) × (result.stall ≡ stall) }
{
    StalledCore {
        pieces,
        stall,
        widest: laid_largest_window(pieces.pieces),
    }
}
