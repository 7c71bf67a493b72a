// What one core is asked for: a piece and its charge, the demand, the verdict and the split, document 01, "A piece and its charge" to "The C=D walk". The meaning of all
// of it is here, in `specs/`, with the functions that are told in a line; `verdicts` finds verdicts and `splits` finds splits.
//
// Every public function takes any input, and its contract is an equation with one definition of `specs/`.
#![tactic(auto)]

mod charges;
mod kinds;
mod pieces;
mod records;
mod sizes;

pub use charges::{charged_piece, charged_time, no_charge, no_costs, stall_of};
pub use kinds::kind_of;
pub use pieces::{first_piece, last_piece};
pub use records::{
    check_records, check_task, outside, piece_in, put_record, record_at, records_of,
};
pub use sizes::{costs_within, within_sizes};

/// The most records that a lent run has.
pub const RUN_MOST: usize = 79;

/// The greatest number of a kind: a record of another kind is outside the sizes.
pub const KIND_MOST: u64 = 2;

/// The most that a period, a window or a jitter is.
pub const TIME_MOST: u64 = 1000000;

/// The most that a cache charge or a cost constant is.
pub const COST_MOST: u64 = 100000;

/// The limit of the busy length.
pub const BUSY_MOST: u64 = 100000000;

/// How a piece stands in its task: the whole of it, or the first or the last part of a split.
#[derive(Clone, Copy, PartialEq, Eq)]
pub enum Kind {
    Whole,
    First,
    Last,
}

/// A piece as a record gives it: budget x, window D, period T, jitter J, cache charges P and M.
#[derive(Clone, Copy, PartialEq, Eq)]
pub struct Piece {
    pub kind: Kind,
    pub budget: u64,
    pub window: u64,
    pub period: u64,
    pub jitter: u64,
    pub preempt: u64,
    pub migrate: u64,
}

/// A record of a piece, as it is lent: its kind by number, and its six figures. The number may be that of no kind.
#[derive(Clone, Copy, PartialEq, Eq)]
pub struct Record {
    pub kind: u64,
    pub budget: u64,
    pub window: u64,
    pub period: u64,
    pub jitter: u64,
    pub preempt: u64,
    pub migrate: u64,
}

/// The nine cost constants, in the sheet's order; `precision` is π.
#[derive(Clone, Copy, PartialEq, Eq)]
pub struct Costs {
    pub relo: u64,
    pub schedo: u64,
    pub tseto: u64,
    pub ipb: u64,
    pub beto: u64,
    pub migro: u64,
    pub ipio: u64,
    pub ipij: u64,
    pub precision: u64,
}

/// A piece once it is charged: all that demand, busy length and verdict look at, with its kind gone.
#[derive(Clone, Copy, PartialEq, Eq)]
pub struct Charged {
    pub charge: u64,
    pub window: u64,
    pub period: u64,
    pub jitter: u64,
    pub release: u64,
    pub ipi: u64,
    pub ipij: u64,
}

/// The verdict on a core.
#[derive(Clone, Copy, PartialEq, Eq)]
pub enum Verdict {
    Passes,
    Overloaded(u64),
    Undecided,
}

/// A split of a task: the first piece's budget x and its tight window.
#[derive(Clone, Copy, PartialEq, Eq)]
pub struct Cut {
    pub budget: u64,
    pub window: u64,
}

/// Why a run of records is refused.
#[derive(Clone, Copy, PartialEq, Eq)]
pub enum Refusal {
    TooMany,
    BadCosts,
    BadRecord(u64),
}

/// What a piece is shown to ask for: its jobs, their demand, its interrupts.
#[derive(Clone, Copy, PartialEq, Eq)]
pub struct Ask {
    pub jobs: u64,
    pub demand: u64,
    pub interrupts: u64,
}

/// What is shown of a core: the verdict on it, and at one length the blocking and the total of what is asked for.
#[derive(Clone, Copy, PartialEq, Eq)]
pub struct Shown {
    pub verdict: Verdict,
    pub length: u64,
    pub blocking: u64,
    pub total: u64,
}

/// A run of pieces: the first `count` of `pieces`. A run made by hand may say any count, so it is no slice.
#[derive(Clone, Copy)]
pub struct Run {
    pub count: usize,
    pub pieces: [Piece; RUN_MOST],
}
