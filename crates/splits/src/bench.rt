// A core on the bench: its pieces stay as they are laid, and behind them lies one that is tried. Candidate upon candidate is written there, and the core never again.
ghost use Rattle.std.specs.Prelude.{◌≡◌, ◌<◌, get_or, length, take};
ghost use Rattle.demand.specs.Charge.{core_of};
ghost use Rattle.demand.specs.Records.{pieces_in};
ghost use Rattle.demand.specs.Sizes.{Each, Sized, SizedCosts, run_most};
ghost use Rattle.demand.specs.Ways.Ranges.{Ranged, no_charge};
ghost use Rattle.splits.specs.Ways.Bench.{Ready, OnBench, both};

use demand::{Charged, Costs, RUN_MOST, Record, no_charge};
use std::marker::Model;
use verdicts::{Core, lay_records};

#[derive(Drop)]
pub struct Bench {
    pieces: [Charged; RUN_MOST],
    count: usize,
}

impl Model for Bench {
    ghost Value = { OnBench };

    ghost view = { λ bench. record { core = take bench.count bench.pieces; tried = get_or bench.pieces bench.count no_charge } };

    ghost invariant = { λ bench. (bench.count < run_most) × Ready (take bench.count bench.pieces) × Ranged (get_or bench.pieces bench.count no_charge) };
}

impl Bench {
    // The records of a run, each charged, with a piece behind that asks for nothing.
    pub fn laid(costs: Costs, records: &[Record]) -> Bench
        requires sized_costs { SizedCosts costs }
        requires room { length records.now < run_most }
        requires each { Each Sized (pieces_in records.now) }
        ensures { result.core ≡ core_of costs (pieces_in records.now) }
    {
        let nothing = Charged {
            period: 1,
            ..no_charge()
        };
        let mut pieces = [nothing; RUN_MOST];
        lay_records(&mut pieces, costs, records);
        Bench {
            pieces,
            count: records.len(),
        }
    }

    // The core alone.
    pub fn core(&self) -> Core<'_>
        ensures exact { result ≡ self.now.core }
        ensures ready { Ready self.now.core }
    {
        Core {
            pieces: &self.pieces[..self.count],
        }
    }

    // The core with the piece behind.
    pub fn both(&self) -> Core<'_>
        ensures exact { result ≡ both self.now }
        ensures ranged { Each Ranged (both self.now) }
    {
        Core {
            pieces: &self.pieces[..self.count + 1],
        }
    }

    // The piece behind.
    pub fn tried(&self) -> Charged
        ensures exact { result ≡ self.now.tried }
        ensures ranged { Ranged result }
    {
        self.pieces[self.count]
    }

    // Another piece behind.
    pub fn put(&mut self, q: Charged)
        requires { Ranged q }
        ensures core { self.new.core ≡ self.old.core }
        ensures tried { self.new.tried ≡ q }
    {
        self.pieces[self.count] = q;
    }
}
